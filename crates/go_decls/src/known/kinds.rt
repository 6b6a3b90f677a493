//! One declaration, typed by what is known, if it can be.

ghost use Rattle.std.specs.Prelude.{◌≡◌, ℕ, List, IfOk, IfSome, option_map};
ghost use Rattle.go_typing.specs.Items as go;
ghost use Rattle.go_typing.specs.Known.{function_decl};
ghost use Rattle.go_type.specs.Tree.{Ty};
ghost use Rattle.go_syntax.specs.View.{sig_view};
ghost use Rattle.go_operands.specs.EnvView.{env_of};
ghost use Rattle.go_operands.specs.View.{decl_of};
ghost use Rattle.go_operands.specs.Within.{DeclaredBelow};
ghost use Rattle.go_items.specs.ItemView.{item_view};
ghost use Rattle.go_sound.specs.Rows.{Row};
ghost use Rattle.go_decls.specs.SigView.{sig_found, SigFoundBelow};
ghost use Rattle.go_decls.specs.Before.{Before, Outcome};

use crate::known::constants::constant_named;
use crate::known::settled::settle_name;
use crate::known::types::{alias_named, type_named};
use crate::signatures::{SigTypes, sig_types};
use gj_base::NoMemory;
use go_core::tree::FuncId;
use go_items::items::item::Item;
use go_operands::scopes::{Declared, Env};
use go_syntax::tree::{self, Name};
use go_type::Ids;
use go_type::types::Sig;
use go_walk::sets::NameMap;
use std::alloc::Global;

fn function_of(id: FuncId, types: Option<SigTypes>) -> Declared
    ensures value { (ts : List Ty) → decl_of ts result ≡ function_decl id.0 (option_map (sig_found ts) types) }
    ensures within { (n : ℕ) → IfSome types (SigFoundBelow n) → DeclaredBelow n result }
{
    match types {
        None => Declared::Unknown,
        Some(types) => {
            let SigTypes { params, results } = types;
            Declared::Func(
                id,
                Sig {
                    params: Ids::from_vec(params),
                    results: Ids::from_vec(results),
                    variadic: false,
                },
            )
        }
    }
}

// The declaration of a function. Own: where something is told of its signature nothing is known of it.
fn function_named<'a>(
    alloc: Global,
    env: &mut Env,
    numbers: &NameMap<'a>,
    n: &'a Name,
    index: usize,
    id: FuncId,
    sig: &tree::Sig,
) -> Result<bool, NoMemory>
    ensures value { IfOk result (λ b. (rs : List Row) → Before rs index (go.function_item n.now id.0 (sig_view sig.now)) numbers.now (env_of env.old) → Outcome b rs index (go.function_item n.now id.0 (sig_view sig.now)) (env_of env.new)) }
{
    let mut flaws = Vec::new(alloc);
    let types = sig_types(alloc, env, &mut flaws, sig)?;
    Ok(settle_name(env, numbers, n, index, function_of(id, types)))
}

/// Types the declaration of a number by what is known, if it can be.
pub fn type_item<'a>(
    alloc: Global,
    env: &mut Env,
    numbers: &NameMap<'a>,
    item: &Item<'a>,
    index: usize,
) -> Result<bool, NoMemory>
    ensures value { IfOk result (λ b. (rs : List Row) → Before rs index (item_view item.now) numbers.now (env_of env.old) → Outcome b rs index (item_view item.now) (env_of env.new)) }
{
    match item {
        Item::Constant {
            name,
            number,
            spec,
            value,
        } => {
            let is_typed = constant_named(
                alloc, env, numbers, *name, index, *number, *spec, *value,
            )?;
            Ok(is_typed)
        }
        Item::Type { name, number, ty } => {
            let is_typed = type_named(alloc, env, numbers, *name, index, *number, *ty)?;
            Ok(is_typed)
        }
        Item::Alias { name, ty } => {
            let is_typed = alias_named(alloc, env, numbers, *name, index, *ty)?;
            Ok(is_typed)
        }
        Item::Function { name, id, sig } => {
            let is_typed = function_named(alloc, env, numbers, *name, index, *id, *sig)?;
            Ok(is_typed)
        }
        Item::Variable { name: _ } => Ok(false),
        Item::Init { name: _ } => Ok(false),
    }
}
