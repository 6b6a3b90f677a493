//! A signature, and what is told of it.

ghost use Rattle.std.specs.Prelude.{◌≡◌, ◌++◌, ℕ, List, OnOk, IfOk, IfSome, map, option_map};
ghost use Rattle.go_type.specs.Levels.{trees_of, IdsBelow};
ghost use Rattle.go_type.specs.Table.{size};
ghost use Rattle.go_type.specs.Tree.{Ty};
ghost use Rattle.go_syntax.specs.View.{sig_view};
ghost use Rattle.go_operands.specs.EnvView.{table_of};
ghost use Rattle.go_operands.specs.AnswerView.{flaw_view};
ghost use Rattle.go_items.specs.ParamView.{grouped_view};
ghost use Rattle.go_typing.specs.Signature.{list_flaws, mixed_flaws, sig_flaws};
ghost use Rattle.go_typing.specs.Signature as go;
ghost use Rattle.go_calls.specs.Words as words;
ghost use Rattle.go_walk.specs.WalkView.{walk_outside};
ghost use Rattle.go_expr.specs.Raw.{Grows};
ghost use Rattle.go_decls.specs.SigView.{sig_found, SigFoundBelow};

use crate::params::names_told;
use crate::signatures::known::all_known;
use crate::signatures::types::types_of;
use gj_base::{NoMemory, Place};
use go_assign::valued::move_flaws;
use go_items::items::param::{
    Grouped, is_mixed, params_of, params_place, results_of, results_place,
};
use go_operands::answers::answer::Flaw;
use go_operands::answers::rule::and_flaw;
use go_operands::scopes::Env;
use go_syntax::tree::Sig;
use go_type::types::TypeId;
use std::alloc::Global;

/// The types of the parameters and of the results.
#[derive(Drop)]
pub struct SigTypes {
    pub params: Vec<TypeId>,
    pub results: Vec<TypeId>,
}

// Some have names and some have none (53), which is told where their types are known.
#[tactic(auto, using(crate::proofs::SigLemmas::mixed_known, crate::proofs::SigLemmas::mixed_lost, crate::proofs::SigLemmas::mixed_not))]
fn mixed_told(
    alloc: Global,
    flaws: &mut Vec<Flaw>,
    at: Place,
    params: &[Grouped<'_>],
    types: &Option<Vec<TypeId>>,
) -> Result<(), NoMemory>
    ensures told { OnOk result ((ts : List Ty) → map flaw_view flaws.new.items ≡ map flaw_view flaws.old.items ++ mixed_flaws at (option_map (λ v. trees_of ts v.items) types.now) (go.is_mixed (map grouped_view params.now))) }
{
    match types {
        Some(_) => {
            if is_mixed(params) {
                return and_flaw(alloc, flaws, at, 53);
            }
            Ok(())
        }
        None => Ok(()),
    }
}

// The types of a list of parameters, where all are known.
fn list_types(
    alloc: Global,
    env: &mut Env,
    flaws: &mut Vec<Flaw>,
    at: Place,
    params: &[Grouped<'_>],
) -> Result<Option<Vec<TypeId>>, NoMemory>
    ensures told { OnOk result (map flaw_view flaws.new.items ≡ map flaw_view flaws.old.items ++ list_flaws (walk_outside env.old) at (map grouped_view params.now)) }
    ensures types { IfOk result (λ r. option_map (λ v. trees_of (words.types_of env.new) v.items) r ≡ go.types_of (walk_outside env.old) (map grouped_view params.now)) }
    ensures within { IfOk result (λ r. IfSome r (λ v. IdsBelow (size (table_of env.new)) v.items)) }
    ensures grows { OnOk result (Grows env.old env.new) }
{
    let each = types_of(alloc, env, flaws, params)?;
    let all = all_known(alloc, each.as_slice())?;
    mixed_told(alloc, flaws, at, params, &all)?;
    Ok(all)
}

fn both(params: Option<Vec<TypeId>>, results: Option<Vec<TypeId>>) -> Option<SigTypes>
    ensures value { (ts : List Ty) → option_map (sig_found ts) result ≡ go.both (option_map (λ v. trees_of ts v.items) params) (option_map (λ v. trees_of ts v.items) results) }
    ensures within { (n : ℕ) → IfSome params (λ v. IdsBelow n v.items) → IfSome results (λ v. IdsBelow n v.items) → IfSome result (SigFoundBelow n) }
{
    match params {
        None => None,
        Some(params) => match results {
            None => None,
            Some(results) => Some(SigTypes { params, results }),
        },
    }
}

// Where nothing is told of them.
#[tactic(auto, using(crate::proofs::SigLemmas::untold, crate::proofs::SigLemmas::untold_flaws, crate::proofs::SigLemmas::some_told))]
fn where_untold(
    flaws: &mut Vec<Flaw>,
    own: Vec<Flaw>,
    types: Option<SigTypes>,
) -> Result<Option<SigTypes>, NoMemory>
    ensures told { OnOk result (map flaw_view flaws.new.items ≡ map flaw_view flaws.old.items ++ map flaw_view own.items) }
    ensures value { IfOk result (λ s. (ts : List Ty) → option_map (sig_found ts) s ≡ go.where_untold (map flaw_view own.items) (option_map (sig_found ts) types)) }
    ensures within { IfOk result (λ s. (n : ℕ) → IfSome types (SigFoundBelow n) → IfSome s (SigFoundBelow n)) }
{
    if own.is_empty() {
        return Ok(types);
    }
    move_flaws(flaws, own)?;
    Ok(None)
}

// The types of both lists, and what is told of them.
fn lists(
    alloc: Global,
    env: &mut Env,
    own: &mut Vec<Flaw>,
    sig: &Sig,
    params: &[Grouped<'_>],
    results: &[Grouped<'_>],
) -> Result<Option<SigTypes>, NoMemory>
    ensures told { OnOk result (map flaw_view own.new.items ≡ map flaw_view own.old.items ++ (list_flaws (walk_outside env.old) (go.params_place (sig_view sig.now)) (map grouped_view params.now) ++ list_flaws (walk_outside env.old) (go.results_place (sig_view sig.now)) (map grouped_view results.now))) }
    ensures types { IfOk result (λ s. option_map (sig_found (words.types_of env.new)) s ≡ go.both (go.types_of (walk_outside env.old) (map grouped_view params.now)) (go.types_of (walk_outside env.old) (map grouped_view results.now))) }
    ensures within { IfOk result (λ s. IfSome s (SigFoundBelow (size (table_of env.new)))) }
    ensures grows { OnOk result (Grows env.old env.new) }
{
    let first = list_types(alloc, env, own, params_place(sig), params)?;
    let second = list_types(alloc, env, own, results_place(sig), results)?;
    Ok(both(first, second))
}

// The same, and what is told of their names.
fn parts(
    alloc: Global,
    env: &mut Env,
    own: &mut Vec<Flaw>,
    sig: &Sig,
) -> Result<Option<SigTypes>, NoMemory>
    ensures told { OnOk result (map flaw_view own.new.items ≡ map flaw_view own.old.items ++ sig_flaws (walk_outside env.old) (sig_view sig.now)) }
    ensures types { IfOk result (λ s. option_map (sig_found (words.types_of env.new)) s ≡ go.both (go.types_of (walk_outside env.old) (go.params_of (sig_view sig.now))) (go.types_of (walk_outside env.old) (go.results_of (sig_view sig.now)))) }
    ensures within { IfOk result (λ s. IfSome s (SigFoundBelow (size (table_of env.new)))) }
    ensures grows { OnOk result (Grows env.old env.new) }
{
    let mut params = params_of(alloc, sig)?;
    let mut results = results_of(alloc, sig)?;
    let types = lists(alloc, env, own, sig, params.as_slice(), results.as_slice())?;
    params.append(&mut results)?;
    names_told(alloc, own, params.as_slice())?;
    Ok(types)
}

/// The types of a signature where nothing is told of it, and what is told of it.
#[tactic(auto, using(crate::proofs::SigLemmas::sig_types_is))]
pub fn sig_types(
    alloc: Global,
    env: &mut Env,
    flaws: &mut Vec<Flaw>,
    sig: &Sig,
) -> Result<Option<SigTypes>, NoMemory>
    ensures told { OnOk result (map flaw_view flaws.new.items ≡ map flaw_view flaws.old.items ++ sig_flaws (walk_outside env.old) (sig_view sig.now)) }
    ensures types { IfOk result (λ s. option_map (sig_found (words.types_of env.new)) s ≡ go.sig_types (walk_outside env.old) (sig_view sig.now)) }
    ensures within { IfOk result (λ s. IfSome s (SigFoundBelow (size (table_of env.new)))) }
    ensures grows { OnOk result (Grows env.old env.new) }
{
    let mut own = Vec::new(alloc);
    let types = parts(alloc, env, &mut own, sig)?;
    where_untold(flaws, own, types)
}
