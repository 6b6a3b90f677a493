//! What stands before or after the statements within a statement.

ghost use Rattle.std.specs.Prelude.{◌≡◌, ◌<◌, ◌==◌, ◌&&◌, not, ◌++◌, ◌∷◌, [], nat_lt, if◌then◌else◌, length, true, OnOk, IfOk, List, map, option_map};
ghost use Rattle.go_type.specs.Tree.{Ty};
ghost use Rattle.go_core.specs.CoreView.{expr_view as core_view, bound_of};
ghost use Rattle.go_core.specs.declared.statement.CoreStmt as statement;
ghost use Rattle.go_syntax.specs.View.{expr_view, maybe_expr, stmt_view, stmts_of};
ghost use Rattle.go_syntax.specs.Tree as t;
ghost use Rattle.go_operands.specs.EnvView.{table_of};
ghost use Rattle.go_typing.specs.Answer.{flaw};
ghost use Rattle.go_operands.specs.AnswerView.{answer_view, flaw_view};
ghost use Rattle.go_calls.specs.Words.{types_of};
ghost use Rattle.go_typing.specs.Walk as walks;
ghost use Rattle.go_typing.specs.Walk.{Did, uses};
ghost use Rattle.go_typing.specs.Expressions as go;
ghost use Rattle.go_typing.specs.Labels as labels;
ghost use Rattle.go_typing.specs.Statements as statements;
ghost use Rattle.go_typing.specs.Statements.{condition_core, condition_told, clauses_limit, condition_uses, default_flaws, post_did};
ghost use Rattle.go_walk.specs.Parts.{parts_since};
ghost use Rattle.go_walk.specs.WalkView.{walk_of, depth, Keeps};
ghost use Rattle.go_assign.specs.Taken.{StandsFor};
ghost use Rattle.go_assign.specs.Outcome.{Does};
ghost use Rattle.go_assign.specs.Passed.{Passes};
ghost use Rattle.go_body.specs.Forms.{is_define, is_fallthrough};

use gj_base::{NoMemory, Place, Text};
use go_assign::valued::taken::core_of;
use go_assign::valued::told::move_flaws;
use go_assign::valued::valued::{Valued, condition};
use go_core::node::CoreExpr;
use go_define::define::undeclared;
use go_operands::answers::answer::Flaw;
use go_operands::answers::rule::and_flaw;
use go_operands::nodes::gone::gone_expr;
use go_syntax::tree::{Expr, Name, Stmt, StmtForm};
use go_walk::labels::blank::is_blank;
use go_walk::walk::Walk;
use go_walk::walk::parts::{Before, parts_typed};
use go_walk::walk::uses::use_expr;

/// What a label declares.
pub fn label_of(n: &Name) -> Option<&Text>
    ensures value { option_map (λ x. x.now) result ≡ labels.label_of n.now }
{
    if is_blank(&n.text) {
        return None;
    }
    Some(&n.text)
}

// ---- conditions

// A typed condition: its core, with what is told of it.
fn decided_by(walk: &Walk, flaws: &mut Vec<Flaw>, valued: Valued) -> Result<CoreExpr, NoMemory>
    ensures core { IfOk result (StandsFor (table_of walk.now.env) (go.core_of (answer_view (types_of walk.now.env) valued.answer))) }
    ensures told { OnOk result (map flaw_view flaws.new.items ≡ map flaw_view flaws.old.items ++ map flaw_view valued.flaws.items) }
{
    let Valued {
        answer,
        flaws: more,
    } = valued;
    match core_of(*flaws.allocator(), &walk.env, answer) {
        Ok(core) => match move_flaws(flaws, more) {
            Ok(()) => Ok(core),
            Err(error) => {
                gone_expr(core);
                Err(error)
            }
        },
        Err(error) => Err(error),
    }
}

/// A condition, which is used: its core, with what is told of it.
#[tactic(auto, using(crate::proofs::LeafLemmas::decided_core, crate::proofs::LeafLemmas::decided_told, crate::proofs::LeafLemmas::passes_grown))]
pub fn decided(walk: &mut Walk, flaws: &mut Vec<Flaw>, x: &Expr) -> Result<CoreExpr, NoMemory>
    ensures core { IfOk result (λ c. (us : List Ty) → StandsFor (table_of walk.new.env) (go.core_of (go.condition (walk_of us walk.old) (expr_view x.now)).answer) c) }
    ensures told { OnOk result ((us : List Ty) → map flaw_view flaws.new.items ≡ map flaw_view flaws.old.items ++ (go.condition (walk_of us walk.old) (expr_view x.now)).flaws) }
    ensures passes { OnOk result (Passes (uses (expr_view x.now)) walk.old walk.new) }
{
    let alloc = *walk.used.allocator();
    use_expr(walk, x)?;
    match condition(alloc, &mut walk.env, x) {
        Ok(valued) => match decided_by(walk, flaws, valued) {
            Ok(core) => Ok(core),
            Err(error) => Err(error),
        },
        Err(error) => Err(error),
    }
}

/// The same of one that there may be.
#[tactic(auto, using(crate::proofs::LeafLemmas::some_core, crate::proofs::LeafLemmas::some_told, crate::proofs::LeafLemmas::some_passes, crate::proofs::LeafLemmas::no_core, crate::proofs::LeafLemmas::no_told, crate::proofs::LeafLemmas::no_passes))]
pub fn maybe_decided(
    walk: &mut Walk,
    flaws: &mut Vec<Flaw>,
    x: &Option<Expr>,
) -> Result<Option<CoreExpr>, NoMemory>
    ensures core { IfOk result (λ c. (us ts : List Ty) → Keeps (table_of walk.new.env) ts → bound_of (option_map (core_view ts) c) ≡ condition_core (walk_of us walk.old) (maybe_expr (option_map expr_view x.now))) }
    ensures told { OnOk result ((us : List Ty) → map flaw_view flaws.new.items ≡ map flaw_view flaws.old.items ++ condition_told (walk_of us walk.old) (maybe_expr (option_map expr_view x.now))) }
    ensures passes { OnOk result (Passes (condition_uses (maybe_expr (option_map expr_view x.now))) walk.old walk.new) }
{
    match x {
        Some(x) => match decided(walk, flaws, x) {
            Ok(core) => Ok(Some(core)),
            Err(error) => Err(error),
        },
        None => Ok(None),
    }
}

/// Lets a condition go, if there is one.
pub fn gone_condition(condition: Option<CoreExpr>) {
    match condition {
        Some(core) => gone_expr(core),
        None => {}
    }
}

// ---- the end of a clause

#[tactic(auto, using(crate::proofs::ViewLemmas::view_Fallthrough))]
fn is_fallthrough(s: &Stmt) -> bool
    ensures value { result ≡ is_fallthrough (stmt_view s.now) }
{
    match &*s.form {
        StmtForm::Fallthrough => true,
        _ => false,
    }
}

// Whether a clause falls through to the next one.
#[tactic(auto, using(crate::proofs::FallsLemmas::falls_none, crate::proofs::FallsLemmas::falls_at))]
fn falls(ss: &[Stmt]) -> bool
    ensures value { result ≡ statements.falls (stmts_of (map stmt_view ss.now)) }
{
    let n = ss.len();
    if n == 0 {
        return false;
    }
    is_fallthrough(&ss[n - 1])
}

/// Whether control goes on from the end of a clause to the next one.
pub fn goes_on(ss: &[Stmt], is_last: bool) -> bool
    ensures value { result ≡ (statements.falls (stmts_of (map stmt_view ss.now)) && not is_last) }
{
    falls(ss) && !is_last
}

/// Whether so many are none.
pub fn none_left(left: usize) -> bool
    ensures value { result ≡ (left == 0) }
{
    left == 0
}

/// Whether this statement, with so many after it, is a `fallthrough` that is taken off.
pub fn is_taken_off(onward: bool, left: usize) -> bool
    ensures value { result ≡ (onward && (left == 0)) }
{
    onward && left == 0
}

/// A second `default` is told at its clause (92).
#[tactic(auto, using(crate::proofs::LeafLemmas::both_told, crate::proofs::LeafLemmas::one_told, crate::proofs::LeafLemmas::neither_told))]
pub fn told_default(
    flaws: &mut Vec<Flaw>,
    at: Place,
    is_default: bool,
    had: bool,
) -> Result<(), NoMemory>
    ensures told { OnOk result (map flaw_view flaws.new.items ≡ map flaw_view flaws.old.items ++ default_flaws at is_default had) }
{
    if is_default {
        if had {
            and_flaw(*flaws.allocator(), flaws, at, 92)?;
            return Ok(());
        }
        return Ok(());
    }
    Ok(())
}

/// Whether nothing was told since there were so many faults.
pub fn is_clean(flaws: &Vec<Flaw>, before: usize) -> bool
    ensures value { result ≡ (length flaws.now.items == before) }
{
    flaws.len() == before
}

// Whether a `switch` has too many clauses, and what stands in it is typed.
fn too_many(
    walk: &Walk,
    before: Before,
    wrong: &[Place],
    s: &Stmt,
    count: usize,
) -> Result<bool, NoMemory>
    ensures value { IfOk result (λ b. b ≡ (parts_since before wrong.now (stmt_view s.now) walk.now && nat_lt clauses_limit count)) }
{
    if count > 1000 {
        let is_typed = parts_typed(walk, before, wrong, s)?;
        return Ok(is_typed);
    }
    Ok(false)
}

// Where nothing is told of its nodes.
fn told_limit(
    walk: &Walk,
    flaws: &mut Vec<Flaw>,
    before: Before,
    wrong: &[Place],
    s: &Stmt,
    count: usize,
) -> Result<(), NoMemory>
    ensures told { OnOk result (map flaw_view flaws.new.items ≡ map flaw_view flaws.old.items ++ (if parts_since before wrong.now (stmt_view s.now) walk.now && nat_lt clauses_limit count then flaw s.now.place 76 ∷ [] else [])) }
{
    let is_many = too_many(walk, before, wrong, s, count)?;
    if is_many {
        and_flaw(*flaws.allocator(), flaws, s.place, 76)?;
        return Ok(());
    }
    Ok(())
}

/// A `switch` of too many clauses is told where all its parts are typed (76). `wrong` says where labels
/// stand that have a fault.
pub fn told_many(
    walk: &Walk,
    flaws: &mut Vec<Flaw>,
    before: Before,
    wrong: &[Place],
    s: &Stmt,
    count: usize,
) -> Result<(), NoMemory>
    ensures told { OnOk result (map flaw_view flaws.new.items ≡ map flaw_view flaws.old.items ++ (if length flaws.old.items == before.flaws then (if parts_since before wrong.now (stmt_view s.now) walk.now && nat_lt clauses_limit count then flaw s.now.place 76 ∷ [] else []) else [])) }
{
    if is_clean(flaws, before.flaws) {
        told_limit(walk, flaws, before, wrong, s, count)?;
        return Ok(());
    }
    Ok(())
}

// ---- a short declaration after a turn

/// Whether a statement is a short declaration.
#[tactic(auto, using(crate::proofs::ViewLemmas::view_Define))]
pub fn is_define(s: &Stmt) -> bool
    ensures value { result ≡ is_define (stmt_view s.now) }
{
    match &*s.form {
        StmtForm::Define(_, _) => true,
        _ => false,
    }
}

/// A short declaration is no statement after a turn.
#[tactic(auto, using(crate::proofs::ViewLemmas::view_Define, crate::proofs::LeafLemmas::define_whole))]
pub fn told_define(walk: &mut Walk, flaws: &mut Vec<Flaw>, s: &Stmt) -> Result<(), NoMemory>
    requires depth { 0 < depth walk.old }
    requires define { is_define (stmt_view s.now) ≡ true }
    ensures does { OnOk result ((post : walks.Walk → Did) → (out : List statement.CoreStmt) → Does (post_did (t.AStmt (stmt_view s.now)) post) walk.old walk.new flaws.old.items flaws.new.items out out) }
{
    match &*s.form {
        StmtForm::Define(xs, ys) => {
            undeclared(walk, flaws, s.place, xs.as_slice(), ys.as_slice())?;
            Ok(())
        }
        _ => unreachable!(),
    }
}
