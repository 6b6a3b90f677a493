//! A function before its body.

ghost use Rattle.std.specs.Prelude.{◌≡◌, ◌++◌, List, Some, OnOk, IfOk, IfSome, map, option_map, codes};
ghost use Rattle.go_type.specs.Table.{size};
ghost use Rattle.go_type.specs.Tree.{Ty};
ghost use Rattle.go_syntax.specs.View.{sig_view, block_view};
ghost use Rattle.go_operands.specs.EnvView.{table_of};
ghost use Rattle.go_calls.specs.Words as words;
ghost use Rattle.go_items.specs.ParamView.{grouped_view};
ghost use Rattle.go_typing.specs.Signature as go;
ghost use Rattle.go_typing.specs.Functions.{is_at, is_own, too_far};
ghost use Rattle.go_typing.specs.Walk.{same_place};
ghost use Rattle.go_decls.specs.Bound.{type_view, TypesBelow};
ghost use Rattle.go_decls.specs.SigView.{sig_found, SigFoundBelow};
ghost use Rattle.go_walk.specs.WalkView.{walk_outside, Keeps};
ghost use Rattle.go_expr.specs.Raw.{Grows};
ghost use Rattle.go_decls.specs.Heads.{head_of};
ghost use Rattle.go_decls.specs.HeadView.{head_view, IsReady};

use crate::signatures::entry::main_takes;
use crate::signatures::{SigTypes, sig_types, types_of};
use gj_base::{NoMemory, Place, Text};
use go_items::items::param::{Grouped, params_of, results_of, some_named};
use go_operands::scopes::Env;
use go_syntax::tree::{Block, Name, Sig};
use go_type::types::TypeId;
use go_walk::labels::blank::is_blank;
use std::alloc::Global;

/// A function before its body: where it stands, the name that is told of it, its parameters and then its
/// results, the type of each where that is known, the types of its signature where nothing is told of it,
/// whether its results have names, where it stands if it is one too many, and the body.
#[derive(Drop)]
pub struct Head<'a> {
    pub place: Place,
    pub name: Text,
    pub params: Vec<Grouped<'a>>,
    pub types: Vec<Option<TypeId>>,
    pub sig: Option<SigTypes>,
    pub named_results: bool,
    pub too_far: Option<Place>,
    pub body: &'a Block,
}

// Own: the name that is told has the package before it.
fn told_name(alloc: Global, n: &Name) -> Result<Text, NoMemory>
    ensures value { IfOk result (λ x. x ≡ codes "main." ++ n.now.text) }
{
    let mut text = Text::from_slice(alloc, b"main.")?;
    text.push_bytes(n.text.as_bytes())?;
    Ok(text)
}

// What is told of a signature is told where its declaration stands.
fn sig_alone(alloc: Global, env: &mut Env, sig: &Sig) -> Result<Option<SigTypes>, NoMemory>
    ensures types { IfOk result (λ s. option_map (sig_found (words.types_of env.new)) s ≡ go.sig_types (walk_outside env.old) (sig_view sig.now)) }
    ensures within { IfOk result (λ s. IfSome s (SigFoundBelow (size (table_of env.new)))) }
    ensures grows { OnOk result (Grows env.old env.new) }
{
    let mut told = Vec::new(alloc);
    let found = sig_types(alloc, env, &mut told, sig)?;
    Ok(found)
}

fn types_alone(
    alloc: Global,
    env: &mut Env,
    params: &[Grouped<'_>],
) -> Result<Vec<Option<TypeId>>, NoMemory>
    ensures types { IfOk result (λ us. map (type_view (words.types_of env.new)) us.items ≡ map (go.type_of_param (walk_outside env.old)) (map grouped_view params.now)) }
    ensures within { IfOk result (λ us. TypesBelow (size (table_of env.new)) us.items) }
    ensures grows { OnOk result (Grows env.old env.new) }
{
    let mut told = Vec::new(alloc);
    let types = types_of(alloc, env, &mut told, params)?;
    Ok(types)
}

// Parameters, and then results.
fn all_params<'a>(alloc: Global, sig: &'a Sig) -> Result<Vec<Grouped<'a>>, NoMemory>
    ensures value { IfOk result (λ ps. map grouped_view ps.items ≡ go.params_of (sig_view sig.now) ++ go.results_of (sig_view sig.now)) }
{
    let mut params = params_of(alloc, sig)?;
    let mut results = results_of(alloc, sig)?;
    params.append(&mut results)?;
    Ok(params)
}

fn named_results(alloc: Global, sig: &Sig) -> Result<bool, NoMemory>
    ensures value { IfOk result (λ b. b ≡ go.some_named (go.results_of (sig_view sig.now))) }
{
    let results = results_of(alloc, sig)?;
    let is_named = some_named(results.as_slice());
    Ok(is_named)
}

fn same_place(p: Place, q: Place) -> bool
    ensures value { result ≡ same_place p q }
{
    p.file == q.file && p.offset == q.offset
}

// Whether a name is declared by this declaration of it. Go, "Blank identifier": `_` is declared nowhere.
fn is_own(env: &Env, n: &Name) -> bool
    ensures value { result ≡ is_own n.now (walk_outside env.now) }
{
    if is_blank(&n.text) {
        return true;
    }
    match env.origin(n.text.as_bytes()) {
        Some(place) => same_place(n.place, place),
        None => false,
    }
}

fn is_at(far: Option<Place>, at: Place) -> bool
    ensures value { result ≡ is_at far at }
{
    match far {
        Some(place) => same_place(place, at),
        None => false,
    }
}

// The same where its types are known.
fn typed_far(env: &Env, far: Option<Place>, at: Place, n: &Name, types: &SigTypes) -> Option<Place>
    ensures value { (ts : List Ty) → result ≡ too_far far (walk_outside env.now) at n.now (Some (sig_found ts types.now)) }
{
    if is_at(far, at) {
        if is_own(env, n) {
            if main_takes(n, types) {
                return None;
            }
            return Some(at);
        }
        return None;
    }
    None
}

// Where the function stands, if it is the first one too many and nothing is told of its name and its
// signature.
fn too_far(
    env: &Env,
    far: Option<Place>,
    at: Place,
    n: &Name,
    sig: &Option<SigTypes>,
) -> Option<Place>
    ensures value { (ts : List Ty) → result ≡ too_far far (walk_outside env.now) at n.now (option_map (sig_found ts) sig.now) }
{
    match sig {
        Some(types) => typed_far(env, far, at, n, types),
        None => None,
    }
}

/// A function by its declaration, in the scope of its package; `far` is where the first one stands that
/// is one too many.
pub fn head_of<'a>(
    alloc: Global,
    env: &mut Env,
    far: Option<Place>,
    at: Place,
    n: &Name,
    sig: &'a Sig,
    b: &'a Block,
) -> Result<Head<'a>, NoMemory>
    ensures view { IfOk result (λ h. (ts : List Ty) → Keeps (table_of env.new) ts → head_view ts h ≡ head_of far (walk_outside env.old) at n.now (sig_view sig.now) (block_view b.now)) }
    ensures ready { IfOk result (λ h. IsReady (table_of env.new) (walk_outside env.old) h) }
    ensures grows { OnOk result (Grows env.old env.new) }
{
    let name = told_name(alloc, n)?;
    let is_named = named_results(alloc, sig)?;
    let params = all_params(alloc, sig)?;
    let found = sig_alone(alloc, env, sig)?;
    let types = types_alone(alloc, env, params.as_slice())?;
    let own_far = too_far(env, far, at, n, &found);
    Ok(Head {
        place: at,
        name,
        params,
        types,
        sig: found,
        named_results: is_named,
        too_far: own_far,
        body: b,
    })
}
