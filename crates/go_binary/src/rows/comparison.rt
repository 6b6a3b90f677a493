//! Comparisons.
//!
//! Go, "Comparison operators": they give an untyped boolean.

ghost use Rattle.std.specs.Prelude.{◌≡◌, ◌<◌, ◌++◌, IfOk, map};
ghost use Rattle.go_type.specs.Levels.{tree_of};
ghost use Rattle.go_type.specs.Underlying.{underlying};
ghost use Rattle.go_type.specs.Table.{places, names, size};
ghost use Rattle.go_core.specs.CoreView.{expr_view};
ghost use Rattle.go_typing.specs.Operand.{truth_value, default_type, pending_flaws, pending_at};
ghost use Rattle.go_typing.specs.Binary.{constants, is_equality, compared, has_comparison, constant_has_comparison, comparison_value, numbers_compared, comparison};
ghost use Rattle.go_operands.specs.AnswerView.{flaw_view, answer_view, pending_view};
ghost use Rattle.go_operands.specs.RulesReady.{HasPredeclared};
ghost use Rattle.go_operands.specs.Below.{AnswerBelow};
ghost use Rattle.go_binary.specs.MatchView.{match_view, MatchBelow};

use crate::matched::sides::{Match, Side, gone_side};
use gj_base::{NoMemory, Op, Place};
use go_const::Const;
use go_core::node::CoreExpr;
use go_operands::answers::answer::{Answer, Flaw, Pending};
use go_operands::answers::fold::folded_untyped;
use go_operands::answers::gone::gone_pending;
use go_operands::answers::pending::{and_pending_flaws, pending_at};
use go_operands::answers::rule::{bad, unless};
use go_operands::nodes::gone::gone_expr;
use go_operands::nodes::pair;
use go_operands::rules::kind::{bool_type, default_type, under};
use go_operands::rules::operator::binary_of;
use go_type::TypeTable;
use go_type::types::{Basis, GoType, TypeId};
use std::alloc::Global;

fn is_equality(op: Op) -> bool
    ensures { result ≡ is_equality op }
{
    matches!(op, Op::Eq | Op::Ne)
}

fn compared(
    alloc: Global,
    table: &TypeTable,
    op: Op,
    t: TypeId,
    c: CoreExpr,
    d: CoreExpr,
) -> Result<CoreExpr, NoMemory>
    requires { HasPredeclared table.now }
    ensures value { IfOk result (λ e. expr_view (places table.now) e ≡ compared (names table.now) op (tree_of (places table.now) t) (expr_view (places table.now) c) (expr_view (places table.now) d)) }
{
    let truth = bool_type(table);
    match op {
        Op::Eq => pair::equal(alloc, false, t, truth, c, d),
        Op::Ne => pair::equal(alloc, true, t, truth, c, d),
        _ => pair::less(alloc, op, t, truth, c, d),
    }
}

fn truth_of(
    alloc: Global,
    table: &TypeTable,
    op: Op,
    t: TypeId,
    c: CoreExpr,
    d: CoreExpr,
) -> Result<Answer, NoMemory>
    requires { HasPredeclared table.now }
    ensures view { IfOk result (λ a. answer_view (places table.now) a ≡ truth_value (compared (names table.now) op (tree_of (places table.now) t) (expr_view (places table.now) c) (expr_view (places table.now) d))) }
    ensures within { IfOk result (λ a. AnswerBelow (size table.now) a) }
{
    match compared(alloc, table, op, t, c, d) {
        Ok(core) => Ok(Answer::Truth(core)),
        Err(error) => Err(error),
    }
}

fn has_comparison(table: &TypeTable, op: Op, t: TypeId) -> bool
    requires { t.0 < size table.now }
    ensures { result ≡ has_comparison (names table.now) op (underlying (names table.now) (tree_of (places table.now) t)) }
{
    match under(table, t) {
        GoType::Bool => is_equality(op),
        GoType::Int(_) | GoType::Str => true,
        _ => false,
    }
}

fn constant_has_comparison(table: &TypeTable, op: Op, k: &Const) -> bool
    ensures { result ≡ constant_has_comparison (names table.now) op k.now }
{
    let _ = table;
    match k {
        Const::Bool(_) => is_equality(op),
        Const::Int(_) | Const::Rune(_) | Const::Text(_) => true,
    }
}

fn value_of(
    alloc: Global,
    table: &TypeTable,
    at: Place,
    op: Op,
    t: TypeId,
    left: Side,
    right: Side,
) -> Result<Answer, NoMemory>
    requires table { HasPredeclared table.now }
    ensures view { IfOk result (λ a. answer_view (places table.now) a ≡ comparison_value (names table.now) at op (tree_of (places table.now) t) (expr_view (places table.now) left.core) left.value (expr_view (places table.now) right.core) right.value) }
    ensures within { IfOk result (λ a. AnswerBelow (size table.now) a) }
{
    let Side { core: c, value: v } = left;
    let Side { core: d, value: w } = right;
    match v {
        Some(k) => match w {
            Some(l) => {
                gone_expr(c);
                gone_expr(d);
                let answer = binary_of(alloc, op, &k, &l, None);
                folded_untyped(alloc, at, answer)
            }
            None => truth_of(alloc, table, op, t, c, d),
        },
        None => truth_of(alloc, table, op, t, c, d),
    }
}

fn second_number(
    alloc: Global,
    table: &TypeTable,
    op: Op,
    t: TypeId,
    c: CoreExpr,
    y: Pending,
) -> Result<Answer, NoMemory>
    requires { HasPredeclared table.now }
    ensures view { IfOk result (λ a. answer_view (places table.now) a ≡ truth_value (compared (names table.now) op (tree_of (places table.now) t) (expr_view (places table.now) c) (pending_at (tree_of (places table.now) t) (pending_view (places table.now) y)))) }
    ensures within { IfOk result (λ a. AnswerBelow (size table.now) a) }
{
    match pending_at(alloc, table, t, y) {
        Ok(d) => truth_of(alloc, table, op, t, c, d),
        Err(error) => {
            gone_expr(c);
            Err(error)
        }
    }
}

fn numbers_at(
    alloc: Global,
    table: &TypeTable,
    op: Op,
    t: TypeId,
    x: Pending,
    y: Pending,
) -> Result<Answer, NoMemory>
    requires { HasPredeclared table.now }
    ensures view { IfOk result (λ a. answer_view (places table.now) a ≡ truth_value (compared (names table.now) op (tree_of (places table.now) t) (pending_at (tree_of (places table.now) t) (pending_view (places table.now) x)) (pending_at (tree_of (places table.now) t) (pending_view (places table.now) y)))) }
    ensures within { IfOk result (λ a. AnswerBelow (size table.now) a) }
{
    match pending_at(alloc, table, t, x) {
        Ok(c) => second_number(alloc, table, op, t, c, y),
        Err(error) => {
            gone_pending(y);
            Err(error)
        }
    }
}

/// The faults of two untyped numbers at a type.
pub fn both_flaws(
    alloc: Global,
    table: &TypeTable,
    t: TypeId,
    x: &Pending,
    y: &Pending,
) -> Result<Vec<Flaw>, NoMemory>
    requires { t.0 < size table.now }
    ensures value { IfOk result (λ fs. map flaw_view fs.items ≡ pending_flaws (names table.now) (tree_of (places table.now) t) (pending_view (places table.now) x.now) ++ pending_flaws (names table.now) (tree_of (places table.now) t) (pending_view (places table.now) y.now)) }
{
    let mut flaws = Vec::new(alloc);
    and_pending_flaws(alloc, table, t, x, &mut flaws)?;
    and_pending_flaws(alloc, table, t, y, &mut flaws)?;
    Ok(flaws)
}

fn numbers_compared(
    alloc: Global,
    table: &TypeTable,
    op: Op,
    x: Pending,
    y: Pending,
    basis: Basis,
) -> Result<Answer, NoMemory>
    requires { HasPredeclared table.now }
    ensures view { IfOk result (λ a. answer_view (places table.now) a ≡ numbers_compared (names table.now) op (default_type basis) (pending_view (places table.now) x) (pending_view (places table.now) y)) }
    ensures within { IfOk result (λ a. AnswerBelow (size table.now) a) }
{
    let t = default_type(table, basis);
    match both_flaws(alloc, table, t, &x, &y) {
        Ok(flaws) => match numbers_at(alloc, table, op, t, x, y) {
            Ok(answer) => Ok(unless(flaws, answer)),
            Err(error) => Err(error),
        },
        Err(error) => {
            gone_pending(x);
            gone_pending(y);
            Err(error)
        }
    }
}

fn constants_compared(
    alloc: Global,
    table: &TypeTable,
    at: Place,
    op: Op,
    k: Const,
    l: Const,
) -> Result<Answer, NoMemory>
    ensures view { IfOk result (λ a. answer_view (places table.now) a ≡ comparison (names table.now) at op (constants k l)) }
    ensures within { IfOk result (λ a. AnswerBelow (size table.now) a) }
{
    if !constant_has_comparison(table, op, &k) {
        return bad(alloc, at, 56);
    }
    let answer = binary_of(alloc, op, &k, &l, None);
    folded_untyped(alloc, at, answer)
}

/// A comparison of operands of one type.
pub fn comparison(
    alloc: Global,
    table: &TypeTable,
    at: Place,
    op: Op,
    sides: Match,
) -> Result<Answer, NoMemory>
    requires table { HasPredeclared table.now }
    requires within { MatchBelow (size table.now) sides }
    ensures view { IfOk result (λ a. answer_view (places table.now) a ≡ comparison (names table.now) at op (match_view (places table.now) sides)) }
    ensures within { IfOk result (λ a. AnswerBelow (size table.now) a) }
{
    match sides {
        Match::Alike(t, left, right) => {
            if has_comparison(table, op, t) {
                return value_of(alloc, table, at, op, t, left, right);
            }
            gone_side(left);
            gone_side(right);
            bad(alloc, at, 56)
        }
        Match::Constants(k, l) => constants_compared(alloc, table, at, op, k, l),
        Match::Truths(c, d) => {
            if is_equality(op) {
                return truth_of(alloc, table, op, bool_type(table), c, d);
            }
            gone_expr(c);
            gone_expr(d);
            bad(alloc, at, 56)
        }
        Match::Numbers(x, y, basis) => numbers_compared(alloc, table, op, x, y, basis),
        Match::Unfit(flaws) => Ok(Answer::Wrong(flaws)),
        Match::Differ => bad(alloc, at, 55),
    }
}
