//! Assignments of as many values as there are left sides, and a wrong count.
//!
//! Go, "Assignments".

ghost use Rattle.std.specs.Prelude.{◌≡◌, ◌∷◌, ◌++◌, [], List, OnOk, map};
ghost use Rattle.go_type.specs.Tree.{Ty};
ghost use Rattle.go_type.specs.Table.{size};
ghost use Rattle.go_core.specs.CoreView.{expr_view, target_view};
ghost use Rattle.go_operands.specs.EnvView.{table_of};
ghost use Rattle.go_operands.specs.AnswerView.{flaw_view};
ghost use Rattle.go_calls.specs.Words.{types_of, names_of};
ghost use Rattle.go_typing.specs.Expressions.{core_of};
ghost use Rattle.go_typing.specs.Assign as go;
ghost use Rattle.go_typing.specs.Assign.{left_flaws};
ghost use Rattle.go_walk.specs.WalkView.{Keeps};
ghost use Rattle.go_expr.specs.Raw.{raws_view, raw_view, RawBelow, RawsBelow};
ghost use Rattle.go_assign.specs.Outcome.{Adds};
ghost use Rattle.go_assign.specs.LeftView.{left_view, lefts_view, LeftBelow, LeftsBelow, fitted};
ghost use Rattle.go_assign.specs.Assigning.{paired, Stores, all_flaws, each_gives, not_as_many};

use crate::assign::left::{Left, Lefts, all_left, fitted, next_left, target_of};
use crate::effects::{and_valued, stored};
use crate::valued::{all_known, move_all, move_flaws, told_where_typed};
use gj_base::{NoMemory, Place};
use go_core::node::CoreExpr;
use go_core::statement::{CoreStmt, Target};
use go_expr::typed::{Raw, Raws, gone_raw, gone_raws, next_raw};
use go_operands::answers::answer::Flaw;
use go_operands::scopes::Env;
use go_walk::stmt_gone::gone::{gone_targets, gone_values};
use go_walk::stmt_gone::more::and_target;
use std::alloc::Global;

// ---- as many values as left sides

/// One left side more in the core.
#[tactic(auto, using(crate::proofs::AssignLemmas::target_more))]
pub fn and_left(
    alloc: Global,
    env: &Env,
    left: &Left,
    targets: &mut Vec<Target>,
) -> Result<(), NoMemory>
    requires left { LeftBelow (size (table_of env.now)) left.now }
    ensures targets { OnOk result ((ts : List Ty) → Keeps (table_of env.now) ts → map (target_view ts) targets.new.items ≡ map (target_view ts) targets.old.items ++ go.target_of (left_view (types_of env.now) left.now) ∷ []) }
{
    match target_of(alloc, env, left) {
        Ok(target) => match and_target(targets, target) {
            Ok(()) => Ok(()),
            Err(error) => Err(error),
        },
        Err(error) => Err(error),
    }
}

// What a left side takes of a value.
#[tactic(auto, using(crate::proofs::AssignLemmas::told_same, crate::proofs::AssignLemmas::value_same))]
fn and_fitted(
    alloc: Global,
    env: &Env,
    left: Left,
    raw: Raw,
    flaws: &mut Vec<Flaw>,
    cores: &mut Vec<CoreExpr>,
) -> Result<(), NoMemory>
    requires left { LeftBelow (size (table_of env.now)) left }
    requires within { RawBelow (size (table_of env.now)) raw }
    ensures values { OnOk result ((ts : List Ty) → Keeps (table_of env.now) ts → map (expr_view ts) cores.new.items ≡ map (expr_view ts) cores.old.items ++ core_of (fitted (names_of env.now) (left_view (types_of env.now) left) (raw_view (types_of env.now) raw)).answer ∷ []) }
    ensures told { OnOk result (map flaw_view flaws.new.items ≡ map flaw_view flaws.old.items ++ (fitted (names_of env.now) (left_view (types_of env.now) left) (raw_view (types_of env.now) raw)).flaws) }
{
    match fitted(alloc, env, left, raw) {
        Ok(valued) => match and_valued(alloc, env, valued, flaws, cores) {
            Ok(()) => Ok(()),
            Err(error) => Err(error),
        },
        Err(error) => Err(error),
    }
}

/// A left side with its value.
pub fn store_one(
    alloc: Global,
    env: &Env,
    left: Left,
    raw: Raw,
    flaws: &mut Vec<Flaw>,
    targets: &mut Vec<Target>,
    cores: &mut Vec<CoreExpr>,
) -> Result<(), NoMemory>
    requires left { LeftBelow (size (table_of env.now)) left }
    requires within { RawBelow (size (table_of env.now)) raw }
    ensures targets { OnOk result ((ts : List Ty) → Keeps (table_of env.now) ts → map (target_view ts) targets.new.items ≡ map (target_view ts) targets.old.items ++ go.target_of (left_view (types_of env.now) left) ∷ []) }
    ensures values { OnOk result ((ts : List Ty) → Keeps (table_of env.now) ts → map (expr_view ts) cores.new.items ≡ map (expr_view ts) cores.old.items ++ core_of (fitted (names_of env.now) (left_view (types_of env.now) left) (raw_view (types_of env.now) raw)).answer ∷ []) }
    ensures told { OnOk result (map flaw_view flaws.new.items ≡ map flaw_view flaws.old.items ++ (fitted (names_of env.now) (left_view (types_of env.now) left) (raw_view (types_of env.now) raw)).flaws) }
{
    match and_left(alloc, env, &left, targets) {
        Ok(()) => match and_fitted(alloc, env, left, raw, flaws, cores) {
            Ok(()) => Ok(()),
            Err(error) => Err(error),
        },
        Err(error) => {
            gone_raw(raw);
            Err(error)
        }
    }
}

// Each left side with its value, as far as both go.
#[tactic(auto, using(crate::proofs::AssignLemmas::stores_first, crate::proofs::AssignLemmas::stores_step, crate::proofs::AssignLemmas::stores_no_left, crate::proofs::AssignLemmas::stores_no_value))]
fn store_each(
    alloc: Global,
    env: &Env,
    lefts: &mut Lefts,
    raws: &mut Raws,
    flaws: &mut Vec<Flaw>,
    targets: &mut Vec<Target>,
    cores: &mut Vec<CoreExpr>,
) -> Result<(), NoMemory>
    requires lefts { LeftsBelow (size (table_of env.now)) lefts.old }
    requires raws { RawsBelow (size (table_of env.now)) raws.old }
    ensures stores { OnOk result (Stores (table_of env.now) [] (paired (names_of env.now) (lefts_view (types_of env.now) lefts.old) (raws_view (types_of env.now) raws.old)) targets.old.items targets.new.items cores.old.items cores.new.items flaws.old.items flaws.new.items) }
{
    while let Some(left) = next_left(env, lefts) {
        match next_raw(env, raws) {
            Some(raw) => store_one(alloc, env, left, raw, flaws, targets, cores)?,
            None => return Ok(()),
        }
    }
    Ok(())
}

/// An assignment of as many values as there are left sides.
#[tactic(auto, using(crate::proofs::AssignLemmas::each_adds))]
pub fn assign_each(
    alloc: Global,
    env: &Env,
    lefts: Lefts,
    raws: Raws,
    flaws: &mut Vec<Flaw>,
    out: &mut Vec<CoreStmt>,
) -> Result<(), NoMemory>
    requires lefts { LeftsBelow (size (table_of env.now)) lefts }
    requires raws { RawsBelow (size (table_of env.now)) raws }
    ensures adds { OnOk result (Adds (table_of env.now) (each_gives (paired (names_of env.now) (lefts_view (types_of env.now) lefts) (raws_view (types_of env.now) raws))).flaws (each_gives (paired (names_of env.now) (lefts_view (types_of env.now) lefts) (raws_view (types_of env.now) raws))).core flaws.old.items flaws.new.items out.old.items out.new.items) }
{
    let mut lefts = lefts;
    let mut raws = raws;
    let mut targets = Vec::new(alloc);
    let mut cores = Vec::new(alloc);
    match store_each(
        alloc,
        env,
        &mut lefts,
        &mut raws,
        flaws,
        &mut targets,
        &mut cores,
    ) {
        Ok(()) => {
            gone_raws(raws);
            match stored(alloc, targets, cores, out) {
                Ok(()) => Ok(()),
                Err(error) => Err(error),
            }
        }
        Err(error) => {
            gone_raws(raws);
            gone_targets(targets);
            gone_values(cores);
            Err(error)
        }
    }
}

// ---- a wrong count (84)

/// What is told of a left side.
#[tactic(auto, using(crate::proofs::AssignLemmas::told_none))]
pub fn left_told(left: Left, flaws: &mut Vec<Flaw>) -> Result<(), NoMemory>
    ensures told { OnOk result ((ts : List Ty) → map flaw_view flaws.new.items ≡ map flaw_view flaws.old.items ++ left_flaws (left_view ts left)) }
{
    match left {
        Left::Wrong(more) => move_flaws(flaws, more),
        Left::Blank => Ok(()),
        Left::Local(_, _) => Ok(()),
        Left::Global(_, _) => Ok(()),
    }
}

// What is told of left sides, in order.
#[tactic(auto, using(crate::proofs::AssignLemmas::lefts_step, crate::proofs::AssignLemmas::lefts_end))]
fn lefts_told(env: &Env, lefts: Lefts, flaws: &mut Vec<Flaw>) -> Result<(), NoMemory>
    requires lefts { LeftsBelow (size (table_of env.now)) lefts }
    ensures told { OnOk result (map flaw_view flaws.new.items ≡ map flaw_view flaws.old.items ++ all_flaws (lefts_view (types_of env.now) lefts)) }
{
    let mut lefts = lefts;
    while let Some(left) = next_left(env, &mut lefts) {
        left_told(left, flaws)?;
    }
    Ok(())
}

/// What is told where the counts of left sides and values differ.
#[tactic(auto, using(crate::proofs::AssignLemmas::miscount_told))]
pub fn miscounted(
    alloc: Global,
    env: &Env,
    at: Place,
    lefts: Lefts,
    raws: Raws,
    flaws: &mut Vec<Flaw>,
) -> Result<(), NoMemory>
    requires lefts { LeftsBelow (size (table_of env.now)) lefts }
    ensures told { OnOk result (map flaw_view flaws.new.items ≡ map flaw_view flaws.old.items ++ (not_as_many at (lefts_view (types_of env.now) lefts) (raws_view (types_of env.now) raws)).flaws) }
{
    let left = all_left(&lefts);
    let known = all_known(&raws);
    let mut parts = Vec::new(alloc);
    match lefts_told(env, lefts, &mut parts) {
        Ok(()) => match move_all(&mut parts, raws) {
            Ok(()) => match told_where_typed(flaws, left && known, parts, at, 84) {
                Ok(()) => Ok(()),
                Err(error) => Err(error),
            },
            Err(error) => Err(error),
        },
        Err(error) => {
            gone_raws(raws);
            Err(error)
        }
    }
}
