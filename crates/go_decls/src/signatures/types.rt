//! The types of parameters and results.

ghost use Rattle.std.specs.Prelude.{◌≡◌, ◌++◌, [], true, false, OnOk, IfOk, map, if◌then◌else◌};
ghost use Rattle.go_type.specs.Table.{size};
ghost use Rattle.go_operands.specs.EnvView.{table_of};
ghost use Rattle.go_operands.specs.AnswerView.{flaw_view};
ghost use Rattle.go_items.specs.ParamView.{grouped_view};
ghost use Rattle.go_typing.specs.Signature.{param_flaws, params_flaws, type_of_param};
ghost use Rattle.go_decls.specs.Bound.{type_view, TypeBelow, TypesBelow};
ghost use Rattle.go_calls.specs.Words.{types_of};
ghost use Rattle.go_typing.specs.Walk as go;
ghost use Rattle.go_walk.specs.WalkView.{walk_outside};
ghost use Rattle.go_expr.specs.Raw.{Grows};

use gj_base::NoMemory;
use go_assign::constants::{FoundType, type_found};
use go_assign::valued::move_flaws;
use go_items::items::param::Grouped;
use go_operands::answers::answer::Flaw;
use go_operands::answers::rule::and_flaw;
use go_operands::scopes::Env;
use go_type::types::TypeId;
use std::alloc::Global;

// `...` is not built yet.
fn variadic_told(alloc: Global, flaws: &mut Vec<Flaw>, p: &Grouped<'_>) -> Result<(), NoMemory>
    ensures told { OnOk result ((w : go.Walk) → (grouped_view p.now).variadic ≡ true → map flaw_view flaws.new.items ≡ map flaw_view flaws.old.items ++ param_flaws w (grouped_view p.now)) }
{
    if p.has_type {
        return and_flaw(alloc, flaws, p.place, 0);
    }
    Ok(())
}

// What is told of a type that is written with its parameter.
fn written_told(
    flaws: &mut Vec<Flaw>,
    is_written: bool,
    found: FoundType,
) -> Result<Option<TypeId>, NoMemory>
    ensures told { OnOk result (map flaw_view flaws.new.items ≡ map flaw_view flaws.old.items ++ (if is_written then map flaw_view found.flaws.items else [])) }
    ensures ty { IfOk result (λ o. o ≡ found.ty) }
{
    let FoundType { ty, flaws: more } = found;
    if is_written {
        move_flaws(flaws, more)?;
        return Ok(ty);
    }
    Ok(ty)
}

// The type of one that isn't variadic.
#[tactic(auto, using(crate::proofs::ParamLemmas::plain_told, crate::proofs::ParamLemmas::plain_type))]
fn plain_type(
    alloc: Global,
    env: &mut Env,
    flaws: &mut Vec<Flaw>,
    p: &Grouped<'_>,
) -> Result<Option<TypeId>, NoMemory>
    requires plain { (grouped_view p.now).variadic ≡ false }
    ensures told { OnOk result (map flaw_view flaws.new.items ≡ map flaw_view flaws.old.items ++ param_flaws (walk_outside env.old) (grouped_view p.now)) }
    ensures ty { IfOk result (λ o. type_view (types_of env.new) o ≡ type_of_param (walk_outside env.old) (grouped_view p.now)) }
    ensures within { IfOk result (λ o. TypeBelow (size (table_of env.new)) o) }
    ensures grows { OnOk result (Grows env.old env.new) }
{
    let found = type_found(alloc, env, p.ty)?;
    written_told(flaws, p.has_type, found)
}

// The type of a parameter, if it is known. A name alone has the type of a later one, which is told there.
#[tactic(auto, using(crate::proofs::ParamLemmas::variadic_type, crate::proofs::ParamLemmas::grows_same))]
fn param_type(
    alloc: Global,
    env: &mut Env,
    flaws: &mut Vec<Flaw>,
    p: &Grouped<'_>,
) -> Result<Option<TypeId>, NoMemory>
    ensures told { OnOk result (map flaw_view flaws.new.items ≡ map flaw_view flaws.old.items ++ param_flaws (walk_outside env.old) (grouped_view p.now)) }
    ensures ty { IfOk result (λ o. type_view (types_of env.new) o ≡ type_of_param (walk_outside env.old) (grouped_view p.now)) }
    ensures within { IfOk result (λ o. TypeBelow (size (table_of env.new)) o) }
    ensures grows { OnOk result (Grows env.old env.new) }
{
    if p.variadic {
        variadic_told(alloc, flaws, p)?;
        return Ok(None);
    }
    plain_type(alloc, env, flaws, p)
}

/// The types of parameters in the scopes before them, each if it is known, and what is told of those that
/// are written.

pub fn types_of(
    alloc: Global,
    env: &mut Env,
    flaws: &mut Vec<Flaw>,
    params: &[Grouped<'_>],
) -> Result<Vec<Option<TypeId>>, NoMemory>
    ensures told { OnOk result (map flaw_view flaws.new.items ≡ map flaw_view flaws.old.items ++ params_flaws (walk_outside env.old) (map grouped_view params.now)) }
    ensures types { IfOk result (λ us. map (type_view (types_of env.new)) us.items ≡ map (type_of_param (walk_outside env.old)) (map grouped_view params.now)) }
    ensures within { IfOk result (λ us. TypesBelow (size (table_of env.new)) us.items) }
    ensures grows { OnOk result (Grows env.old env.new) }
{
    let mut all = Vec::new(alloc);
    for p in params {
        let ty = param_type(alloc, env, flaws, p)?;
        all.push(ty)?;
    }
    Ok(all)
}
