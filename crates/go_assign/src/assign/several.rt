//! Assignments of the several values of a call.
//!
//! Go, "Assignments". The types are identical (61 at the call).

ghost use Rattle.std.specs.Prelude.{◌≡◌, ◌<◌, ◌∷◌, ◌++◌, ◌&&◌, [], List, OnOk, IfOk, length, map};
ghost use Rattle.go_type.specs.Tree.{Ty};
ghost use Rattle.go_type.specs.Levels.{tree_of, trees_of, IdsBelow};
ghost use Rattle.go_type.specs.Table.{size};
ghost use Rattle.go_core.specs.CoreTree as core;
ghost use Rattle.go_core.specs.CoreView.{target_view, stmt_view};
ghost use Rattle.go_operands.specs.EnvView.{table_of};
ghost use Rattle.go_operands.specs.AnswerView.{flaw_view};
ghost use Rattle.go_calls.specs.Words.{types_of};
ghost use Rattle.go_typing.specs.Expressions.{core_of};
ghost use Rattle.go_typing.specs.Assign as go;
ghost use Rattle.go_typing.specs.Assign.{left_flaws};
ghost use Rattle.go_walk.specs.WalkView.{Keeps};
ghost use Rattle.go_expr.specs.Raw.{raw_view};
ghost use Rattle.go_assign.specs.Outcome.{Adds};
ghost use Rattle.go_assign.specs.LeftView.{left_view, lefts_view, LeftBelow, LeftsBelow};
ghost use Rattle.go_assign.specs.Assigning.{each_takes, all_flaws, all_targets, call_gives};

use crate::assign::each::{and_left, left_told};
use crate::assign::left::{Left, Lefts, next_left};
use crate::effects::{one_stored, told_unless};
use gj_base::NoMemory;
use go_core::statement::{CoreStmt, Target};
use go_expr::typed::{Raw, gone_raw};
use go_operands::answers::answer::Flaw;
use go_operands::operands::part::Part;
use go_operands::rules::kind::same_type;
use go_operands::scopes::Env;
use go_type::types::TypeId;
use go_walk::stmt_gone::gone::gone_targets;
use std::alloc::Global;

/// Whether a left side takes a value of a type.
pub fn takes(env: &Env, left: &Left, t: TypeId) -> bool
    requires left { LeftBelow (size (table_of env.now)) left.now }
    requires t { t.0 < size (table_of env.now) }
    ensures value { result ≡ go.takes (left_view (types_of env.now) left.now) (tree_of (types_of env.now) t) }
{
    match left {
        Left::Local(_, ty) => same_type(env.table(), *ty, t),
        Left::Global(_, ty) => same_type(env.table(), *ty, t),
        Left::Blank => true,
        Left::Wrong(_) => true,
    }
}

// A left side that takes what it takes.
fn take_one(
    alloc: Global,
    env: &Env,
    left: Left,
    flaws: &mut Vec<Flaw>,
    targets: &mut Vec<Target>,
) -> Result<(), NoMemory>
    requires left { LeftBelow (size (table_of env.now)) left }
    ensures told { OnOk result (map flaw_view flaws.new.items ≡ map flaw_view flaws.old.items ++ left_flaws (left_view (types_of env.now) left)) }
    ensures targets { OnOk result ((ts : List Ty) → Keeps (table_of env.now) ts → map (target_view ts) targets.new.items ≡ map (target_view ts) targets.old.items ++ go.target_of (left_view (types_of env.now) left) ∷ []) }
{
    match and_left(alloc, env, &left, targets) {
        Ok(()) => match left_told(left, flaws) {
            Ok(()) => Ok(()),
            Err(error) => Err(error),
        },
        Err(error) => Err(error),
    }
}

// Each left side with a type; whether each takes a value of it.
#[tactic(auto, using(crate::proofs::SeveralLemmas::takes_step, crate::proofs::SeveralLemmas::takes_end, crate::proofs::SeveralLemmas::told_step, crate::proofs::SeveralLemmas::told_end, crate::proofs::SeveralLemmas::target_step, crate::proofs::SeveralLemmas::target_end, crate::proofs::SeveralLemmas::id_at))]
fn take_each(
    alloc: Global,
    env: &Env,
    lefts: &mut Lefts,
    types: &[TypeId],
    flaws: &mut Vec<Flaw>,
    targets: &mut Vec<Target>,
) -> Result<bool, NoMemory>
    requires lefts { LeftsBelow (size (table_of env.now)) lefts.old }
    requires types { IdsBelow (size (table_of env.now)) types.now }
    requires count { length lefts.old.items.items ≡ length types.now }
    ensures takes { IfOk result (λ b. b ≡ each_takes (lefts_view (types_of env.now) lefts.old) (trees_of (types_of env.now) types.now)) }
    ensures told { OnOk result (map flaw_view flaws.new.items ≡ map flaw_view flaws.old.items ++ all_flaws (lefts_view (types_of env.now) lefts.old)) }
    ensures targets { OnOk result ((ts : List Ty) → Keeps (table_of env.now) ts → map (target_view ts) targets.new.items ≡ map (target_view ts) targets.old.items ++ all_targets (lefts_view (types_of env.now) lefts.old)) }
{
    let mut all = true;
    for t in types {
        match next_left(env, lefts) {
            Some(left) => {
                let fits = takes(env, &left, *t);
                all = both(all, fits);
                take_one(alloc, env, left, flaws, targets)?;
            }
            None => return Ok(all),
        }
    }
    Ok(all)
}

fn both(a: bool, b: bool) -> bool
    ensures value { result ≡ (a && b) }
{
    a && b
}

// The call as the one value that is stored.
fn store_call(
    alloc: Global,
    env: &Env,
    raw: Raw,
    targets: Vec<Target>,
    out: &mut Vec<CoreStmt>,
) -> Result<(), NoMemory>
    ensures core { OnOk result ((ts : List Ty) → Keeps (table_of env.now) ts → map (stmt_view ts) out.new.items ≡ map (stmt_view ts) out.old.items ++ core.store (map (target_view ts) targets.items) (core.expr (core_of (raw_view (types_of env.now) raw).part.answer) core.no_exprs) ∷ []) }
{
    let Raw {
        part,
        flaws: _flaws,
    } = raw;
    let Part {
        place: _place,
        answer,
    } = part;
    one_stored(alloc, env, targets, answer, out)
}

/// An assignment of the several values of a call to as many left sides.
#[tactic(auto, using(crate::proofs::SeveralLemmas::call_adds))]
pub fn assign_call(
    alloc: Global,
    env: &Env,
    lefts: Lefts,
    raw: Raw,
    types: &[TypeId],
    flaws: &mut Vec<Flaw>,
    out: &mut Vec<CoreStmt>,
) -> Result<(), NoMemory>
    requires lefts { LeftsBelow (size (table_of env.now)) lefts }
    requires types { IdsBelow (size (table_of env.now)) types.now }
    requires count { length lefts.items.items ≡ length types.now }
    ensures adds { OnOk result (Adds (table_of env.now) (call_gives (lefts_view (types_of env.now) lefts) (raw_view (types_of env.now) raw) (trees_of (types_of env.now) types.now)).flaws (call_gives (lefts_view (types_of env.now) lefts) (raw_view (types_of env.now) raw) (trees_of (types_of env.now) types.now)).core flaws.old.items flaws.new.items out.old.items out.new.items) }
{
    let at = raw.part.place;
    let mut lefts = lefts;
    let mut targets = Vec::new(alloc);
    match take_each(alloc, env, &mut lefts, types, flaws, &mut targets) {
        Ok(all) => match told_unless(alloc, flaws, all, at, 61) {
            Ok(()) => match store_call(alloc, env, raw, targets, out) {
                Ok(()) => Ok(()),
                Err(error) => Err(error),
            },
            Err(error) => {
                gone_raw(raw);
                gone_targets(targets);
                Err(error)
            }
        },
        Err(error) => {
            gone_raw(raw);
            gone_targets(targets);
            Err(error)
        }
    }
}
