//! Expressions that are used and typed, and faults of statements with several.

ghost use Rattle.std.specs.Prelude.{◌≡◌, ◌++◌, OnOk, IfOk, List, map};
ghost use Rattle.go_type.specs.Tree.{Ty};
ghost use Rattle.go_type.specs.Table.{size};
ghost use Rattle.go_syntax.specs.View.{expr_view, exprs_of};
ghost use Rattle.go_operands.specs.EnvView.{table_of};
ghost use Rattle.go_operands.specs.AnswerView.{flaw_view};
ghost use Rattle.go_calls.specs.Words.{types_of, names_of, scopes_of};
ghost use Rattle.go_typing.specs.Walk.{uses, uses_all};
ghost use Rattle.go_expr.specs.Raw.{raw_of, raws_of, raw_view, raws_view, RawBelow, RawsBelow};
ghost use Rattle.go_assign.specs.Passed.{Passes, stays};
ghost use Rattle.go_assign.specs.Apart.{unless_told};

use crate::valued::told::{all_known, move_all, told_where_typed};
use gj_base::{NoMemory, Place};
use go_expr::typed::{Raw, Raws, all_in, raw_in};
use go_operands::answers::answer::Flaw;
use go_syntax::tree::Expr;
use go_walk::walk::Walk;
use go_walk::walk::uses::{use_expr, use_exprs};

/// An expression, which is typed.
#[tactic(auto, using(crate::proofs::PassedLemmas::raw_before, crate::proofs::PassedLemmas::passes_typed))]
pub fn raw_typed(walk: &mut Walk, e: &Expr) -> Result<Raw, NoMemory>
    ensures view { IfOk result (λ r. raw_view (types_of walk.new.env) r ≡ raw_of (names_of walk.old.env) (scopes_of walk.old.env) (expr_view e.now)) }
    ensures within { IfOk result (λ r. RawBelow (size (table_of walk.new.env)) r) }
    ensures passes { OnOk result (Passes stays walk.old walk.new) }
{
    let alloc = *walk.used.allocator();
    match raw_in(alloc, &mut walk.env, e) {
        Ok(raw) => Ok(raw),
        Err(error) => Err(error),
    }
}

/// An expression, which is used and typed.
#[tactic(auto, using(crate::proofs::PassedLemmas::raw_before, crate::proofs::PassedLemmas::passes_grown))]
pub fn raw_used(walk: &mut Walk, e: &Expr) -> Result<Raw, NoMemory>
    ensures view { IfOk result (λ r. raw_view (types_of walk.new.env) r ≡ raw_of (names_of walk.old.env) (scopes_of walk.old.env) (expr_view e.now)) }
    ensures within { IfOk result (λ r. RawBelow (size (table_of walk.new.env)) r) }
    ensures passes { OnOk result (Passes (uses (expr_view e.now)) walk.old walk.new) }
{
    let alloc = *walk.used.allocator();
    use_expr(walk, e)?;
    match raw_in(alloc, &mut walk.env, e) {
        Ok(raw) => Ok(raw),
        Err(error) => Err(error),
    }
}

/// Expressions, all of which are used, and each of which is typed.
#[tactic(auto, using(crate::proofs::PassedLemmas::raws_before, crate::proofs::PassedLemmas::passes_grown))]
pub fn raws_used(walk: &mut Walk, es: &[Expr]) -> Result<Raws, NoMemory>
    ensures view { IfOk result (λ rs. raws_view (types_of walk.new.env) rs ≡ raws_of (names_of walk.old.env) (scopes_of walk.old.env) (map expr_view es.now)) }
    ensures within { IfOk result (λ rs. RawsBelow (size (table_of walk.new.env)) rs) }
    ensures passes { OnOk result (Passes (uses_all (exprs_of (map expr_view es.now))) walk.old walk.new) }
{
    let alloc = *walk.used.allocator();
    use_exprs(walk, es)?;
    match all_in(alloc, &mut walk.env, es) {
        Ok(raws) => Ok(raws),
        Err(error) => Err(error),
    }
}

/// A fault of a statement is told where all its parts are typed and have none, else theirs.
pub fn fault_where_typed(
    flaws: &mut Vec<Flaw>,
    at: Place,
    code: u16,
    raws: Raws,
) -> Result<(), NoMemory>
    ensures told { OnOk result ((ts : List Ty) → map flaw_view flaws.new.items ≡ map flaw_view flaws.old.items ++ unless_told at code (raws_view ts raws)) }
{
    let known = all_known(&raws);
    let mut parts = Vec::new(*flaws.allocator());
    move_all(&mut parts, raws)?;
    told_where_typed(flaws, known, parts, at, code)?;
    Ok(())
}
