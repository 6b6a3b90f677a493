//! `xs = ys`.
//!
//! Go, "Assignments".

ghost use Rattle.std.specs.Prelude.{◌≡◌, Some, None, OnOk, IfOk, map};
ghost use Rattle.go_type.specs.Levels.{trees_of, IdsBelow};
ghost use Rattle.go_type.specs.Table.{size};
ghost use Rattle.go_syntax.specs.View.{expr_view, exprs_of};
ghost use Rattle.go_operands.specs.EnvView.{table_of};
ghost use Rattle.go_calls.specs.Words.{types_of, names_of, scopes_of};
ghost use Rattle.go_typing.specs.Walk.{uses_all};
ghost use Rattle.go_typing.specs.Assign as go;
ghost use Rattle.go_walk.specs.WalkView.{walk_outside};
ghost use Rattle.go_expr.specs.Raw.{raws_of, raws_view, RawsBelow};
ghost use Rattle.go_assign.specs.Outcome.{Does, Adds};
ghost use Rattle.go_assign.specs.Moves.{Moves, Stays};
ghost use Rattle.go_assign.specs.LeftView.{lefts_of, lefts_view, LeftsBelow};
ghost use Rattle.go_assign.specs.Assigning.{assigned, assigned_by};

use crate::assign::each::{assign_each, miscounted};
use crate::assign::left::{Lefts, lefts_in};
use crate::assign::several::assign_call;
use crate::assign::uses::left_uses;
use crate::effects::{all_typed, all_used};
use crate::valued::several;
use gj_base::{NoMemory, Place};
use go_core::statement::CoreStmt;
use go_expr::typed::{Raws, gone_raws, next_raw};
use go_operands::answers::answer::Flaw;
use go_operands::scopes::Env;
use go_syntax::tree::Expr;
use go_type::types::TypeId;
use go_walk::walk::Walk;
use std::alloc::Global;

// ---- what is told and stored

// One value for each left side.
#[tactic(auto, using(crate::proofs::TopLemmas::each_many, crate::proofs::TopLemmas::each_miscounted))]
fn each_stored(
    alloc: Global,
    env: &Env,
    at: Place,
    lefts: Lefts,
    raws: Raws,
    flaws: &mut Vec<Flaw>,
    out: &mut Vec<CoreStmt>,
) -> Result<(), NoMemory>
    requires lefts { LeftsBelow (size (table_of env.now)) lefts }
    requires raws { RawsBelow (size (table_of env.now)) raws }
    ensures adds { OnOk result (Adds (table_of env.now) (assigned_by (names_of env.now) at (lefts_view (types_of env.now) lefts) (raws_view (types_of env.now) raws) None).flaws (assigned_by (names_of env.now) at (lefts_view (types_of env.now) lefts) (raws_view (types_of env.now) raws) None).core flaws.old.items flaws.new.items out.old.items out.new.items) }
{
    if lefts.items.len() == raws.items.len() {
        return match assign_each(alloc, env, lefts, raws, flaws, out) {
            Ok(()) => Ok(()),
            Err(error) => Err(error),
        };
    }
    match miscounted(alloc, env, at, lefts, raws, flaws) {
        Ok(()) => Ok(()),
        Err(error) => Err(error),
    }
}

// The several values of a call.
#[tactic(auto, using(crate::proofs::TopLemmas::call_many, crate::proofs::TopLemmas::call_miscounted, crate::proofs::TopLemmas::call_none))]
fn call_stored(
    alloc: Global,
    env: &Env,
    at: Place,
    lefts: Lefts,
    raws: Raws,
    types: &[TypeId],
    flaws: &mut Vec<Flaw>,
    out: &mut Vec<CoreStmt>,
) -> Result<(), NoMemory>
    requires lefts { LeftsBelow (size (table_of env.now)) lefts }
    requires raws { RawsBelow (size (table_of env.now)) raws }
    requires types { IdsBelow (size (table_of env.now)) types.now }
    ensures adds { OnOk result (Adds (table_of env.now) (assigned_by (names_of env.now) at (lefts_view (types_of env.now) lefts) (raws_view (types_of env.now) raws) (Some (trees_of (types_of env.now) types.now))).flaws (assigned_by (names_of env.now) at (lefts_view (types_of env.now) lefts) (raws_view (types_of env.now) raws) (Some (trees_of (types_of env.now) types.now))).core flaws.old.items flaws.new.items out.old.items out.new.items) }
{
    if lefts.items.len() != types.len() {
        return match miscounted(alloc, env, at, lefts, raws, flaws) {
            Ok(()) => Ok(()),
            Err(error) => Err(error),
        };
    }
    let mut raws = raws;
    match next_raw(env, &mut raws) {
        Some(raw) => {
            gone_raws(raws);
            match assign_call(alloc, env, lefts, raw, types, flaws, out) {
                Ok(()) => Ok(()),
                Err(error) => Err(error),
            }
        }
        None => {
            gone_raws(raws);
            let empty = Raws {
                items: Vec::new(alloc),
            };
            match miscounted(alloc, env, at, lefts, empty, flaws) {
                Ok(()) => Ok(()),
                Err(error) => Err(error),
            }
        }
    }
}

/// What is told and stored of left sides and values.
#[tactic(auto, using(crate::proofs::TopLemmas::by_types, crate::proofs::TopLemmas::by_none))]
pub fn all_stored(
    alloc: Global,
    env: &Env,
    at: Place,
    lefts: Lefts,
    raws: Raws,
    flaws: &mut Vec<Flaw>,
    out: &mut Vec<CoreStmt>,
) -> Result<(), NoMemory>
    requires lefts { LeftsBelow (size (table_of env.now)) lefts }
    requires raws { RawsBelow (size (table_of env.now)) raws }
    ensures adds { OnOk result (Adds (table_of env.now) (assigned (names_of env.now) at (lefts_view (types_of env.now) lefts) (raws_view (types_of env.now) raws)).flaws (assigned (names_of env.now) at (lefts_view (types_of env.now) lefts) (raws_view (types_of env.now) raws)).core flaws.old.items flaws.new.items out.old.items out.new.items) }
{
    match several(env, &raws) {
        Some(types) => match call_stored(alloc, env, at, lefts, raws, types, flaws, out) {
            Ok(()) => Ok(()),
            Err(error) => Err(error),
        },
        None => match each_stored(alloc, env, at, lefts, raws, flaws, out) {
            Ok(()) => Ok(()),
            Err(error) => Err(error),
        },
    }
}

// ---- both sides

// The variables that both sides use.
#[tactic(auto, using(crate::proofs::TopLemmas::uses_both))]
fn both_used(walk: &mut Walk, xs: &[Expr], ys: &[Expr]) -> Result<(), NoMemory>
    ensures moves { OnOk result (Moves (λ w. uses_all (exprs_of (map expr_view ys.now)) (go.left_uses (exprs_of (map expr_view xs.now)) w)) walk.old walk.new) }
    ensures env { OnOk result (walk.new.env ≡ walk.old.env) }
{
    left_uses(walk, xs)?;
    match all_used(walk, ys) {
        Ok(()) => Ok(()),
        Err(error) => Err(error),
    }
}

// Left sides and values, over one table of types.
#[tactic(auto, using(crate::proofs::TopLemmas::lefts_later, crate::proofs::TopLemmas::below_later, crate::proofs::TopLemmas::raws_earlier, crate::proofs::WalkLemmas::stays_on))]
fn sides(walk: &mut Walk, xs: &[Expr], ys: &[Expr]) -> Result<(Lefts, Raws), NoMemory>
    ensures lefts { IfOk result (λ r. lefts_view (types_of walk.new.env) r.0 ≡ lefts_of (walk_outside walk.old.env) (map expr_view xs.now)) }
    ensures raws { IfOk result (λ r. raws_view (types_of walk.new.env) r.1 ≡ raws_of (names_of walk.old.env) (scopes_of walk.old.env) (map expr_view ys.now)) }
    ensures lefts_below { IfOk result (λ r. LeftsBelow (size (table_of walk.new.env)) r.0) }
    ensures raws_below { IfOk result (λ r. RawsBelow (size (table_of walk.new.env)) r.1) }
    ensures stays { OnOk result (Stays walk.old walk.new) }
{
    let lefts = lefts_in(walk, xs)?;
    match all_typed(walk, ys) {
        Ok(raws) => Ok((lefts, raws)),
        Err(error) => Err(error),
    }
}

/// An assignment of values to left sides. All of them are typed in the scopes before it.
///
/// Go, "Assignments".
#[tactic(auto, using(crate::proofs::TopLemmas::assign_does))]
pub fn assign(
    walk: &mut Walk,
    at: Place,
    xs: &[Expr],
    ys: &[Expr],
    flaws: &mut Vec<Flaw>,
    out: &mut Vec<CoreStmt>,
) -> Result<(), NoMemory>
    ensures does { OnOk result (Does (go.assign at (exprs_of (map expr_view xs.now)) (exprs_of (map expr_view ys.now))) walk.old walk.new flaws.old.items flaws.new.items out.old.items out.new.items) }
{
    let alloc = *flaws.allocator();
    both_used(walk, xs, ys)?;
    match sides(walk, xs, ys) {
        Ok(parts) => {
            let (lefts, raws) = parts;
            match all_stored(alloc, &walk.env, at, lefts, raws, flaws, out) {
                Ok(()) => Ok(()),
                Err(error) => Err(error),
            }
        }
        Err(error) => Err(error),
    }
}
