//! `xs := ys`, and where it may not stand.
//!
//! Go, "Short variable declarations".

ghost use Rattle.std.specs.Prelude.{◌≡◌, ◌<◌, List, OnOk, IfOk, map};
ghost use Rattle.go_type.specs.Table.{size};
ghost use Rattle.go_core.specs.declared.statement.CoreStmt as statement;
ghost use Rattle.go_syntax.specs.View.{expr_view, exprs_of};
ghost use Rattle.go_operands.specs.EnvView.{table_of};
ghost use Rattle.go_calls.specs.Words.{types_of, names_of, scopes_of};
ghost use Rattle.go_typing.specs.Walk.{uses_all};
ghost use Rattle.go_typing.specs.Assign as go;
ghost use Rattle.go_walk.specs.WalkView.{walk_outside, depth};
ghost use Rattle.go_expr.specs.Raw.{raws_of, raws_view, RawsBelow};
ghost use Rattle.go_assign.specs.Outcome.{Does};
ghost use Rattle.go_assign.specs.Moves.{Moves, Stays};
ghost use Rattle.go_define.specs.FreshView.{spots_of, freshes_view, FreshesBelow};

use crate::define::all::{all_defined, olds_told, parts_told};
use crate::define::fresh::{Freshes, freshes_in, names_typed};
use crate::define::names::{each_told, first_in, none_told};
use crate::define::uses::fresh_uses;
use gj_base::{NoMemory, Place};
use go_assign::effects::{all_typed, all_used};
use go_core::statement::CoreStmt;
use go_expr::typed::{Raws, gone_raws};
use go_operands::answers::answer::Flaw;
use go_syntax::tree::Expr;
use go_walk::walk::Walk;

// The variables that both sides use. A left side that is no name may use some.
#[tactic(auto, using(crate::proofs::DefineTopLemmas::uses_both))]
fn both_used(walk: &mut Walk, xs: &[Expr], ys: &[Expr]) -> Result<(), NoMemory>
    ensures moves { OnOk result (Moves (λ w. uses_all (exprs_of (map expr_view ys.now)) (go.fresh_uses (exprs_of (map expr_view xs.now)) w)) walk.old walk.new) }
    ensures env { OnOk result (walk.new.env ≡ walk.old.env) }
{
    fresh_uses(walk, xs)?;
    match all_used(walk, ys) {
        Ok(()) => Ok(()),
        Err(error) => Err(error),
    }
}

// Names and values, over one table of types.
#[tactic(auto, using(crate::proofs::DefineTopLemmas::freshes_later, crate::proofs::DefineTopLemmas::below_later, crate::proofs::DefineTopLemmas::raws_earlier, go_assign::proofs::WalkLemmas::stays_on))]
fn sides(walk: &mut Walk, xs: &[Expr], ys: &[Expr]) -> Result<(Freshes, Raws), NoMemory>
    requires depth { 0 < depth walk.old }
    ensures freshes { IfOk result (λ r. freshes_view (types_of walk.new.env) r.0 ≡ spots_of (walk_outside walk.old.env) (map expr_view xs.now)) }
    ensures raws { IfOk result (λ r. raws_view (types_of walk.new.env) r.1 ≡ raws_of (names_of walk.old.env) (scopes_of walk.old.env) (map expr_view ys.now)) }
    ensures freshes_below { IfOk result (λ r. FreshesBelow (size (table_of walk.new.env)) r.0) }
    ensures raws_below { IfOk result (λ r. RawsBelow (size (table_of walk.new.env)) r.1) }
    ensures stays { OnOk result (Stays walk.old walk.new) }
{
    let freshes = freshes_in(walk, xs)?;
    match all_typed(walk, ys) {
        Ok(raws) => Ok((freshes, raws)),
        Err(error) => Err(error),
    }
}

/// A declaration of the new names on the left, and an assignment of values to all of them. All values
/// are typed in the scopes before it.
///
/// Go, "Short variable declarations".
#[tactic(auto, using(crate::proofs::DefineTopLemmas::depth_env, crate::proofs::DefineTopLemmas::depth_later))]
pub fn define(
    walk: &mut Walk,
    at: Place,
    xs: &[Expr],
    ys: &[Expr],
    flaws: &mut Vec<Flaw>,
    out: &mut Vec<CoreStmt>,
) -> Result<(), NoMemory>
    requires depth { 0 < depth walk.old }
    ensures does { OnOk result (Does (go.define at (exprs_of (map expr_view xs.now)) (exprs_of (map expr_view ys.now))) walk.old walk.new flaws.old.items flaws.new.items out.old.items out.new.items) }
{
    let alloc = *flaws.allocator();
    let mut fs = Vec::new(alloc);
    both_used(walk, xs, ys)?;
    each_told(walk, &mut fs, xs)?;
    match sides(walk, xs, ys) {
        Ok(parts) => {
            let (freshes, raws) = parts;
            match none_told(&walk.env, at, xs, &freshes, &raws, &mut fs) {
                Ok(()) => match all_defined(alloc, walk, at, freshes, raws, fs, flaws, out) {
                    Ok(()) => Ok(()),
                    Err(error) => Err(error),
                },
                Err(error) => {
                    gone_raws(raws);
                    Err(error)
                }
            }
        }
        Err(error) => Err(error),
    }
}

/// A short declaration where none may stand (83): its names are declared nowhere.
///
/// Go, "For statements": the statement after a turn is no short variable declaration.
#[tactic(auto, using(crate::proofs::DefineTopLemmas::depth_env, crate::proofs::DefineTopLemmas::depth_later))]
pub fn undeclared(
    walk: &mut Walk,
    flaws: &mut Vec<Flaw>,
    at: Place,
    xs: &[Expr],
    ys: &[Expr],
) -> Result<(), NoMemory>
    requires depth { 0 < depth walk.old }
    ensures does { OnOk result ((out : List statement.CoreStmt) → Does (go.undeclared at (exprs_of (map expr_view xs.now)) (exprs_of (map expr_view ys.now))) walk.old walk.new flaws.old.items flaws.new.items out out) }
{
    let mut fs = Vec::new(*flaws.allocator());
    both_used(walk, xs, ys)?;
    each_told(walk, &mut fs, xs)?;
    match sides(walk, xs, ys) {
        Ok(parts) => {
            let (freshes, raws) = parts;
            let typed = names_typed(&freshes);
            match parts_told(flaws, first_in(xs, at), 83, typed, raws, fs) {
                Ok(()) => match olds_told(&walk.env, freshes, flaws) {
                    Ok(()) => Ok(()),
                    Err(error) => Err(error),
                },
                Err(error) => Err(error),
            }
        }
        Err(error) => Err(error),
    }
}
