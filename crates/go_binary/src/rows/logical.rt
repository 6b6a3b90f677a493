//! `&&` and `||`.
//!
//! Go, "Logical operators".

ghost use Rattle.std.specs.Prelude.{◌≡◌, ◌<◌, ◌++◌, IfOk, List, None};
ghost use Rattle.go_type.specs.Tree.{Ty};
ghost use Rattle.go_type.specs.Levels.{tree_of};
ghost use Rattle.go_type.specs.Table.{places, names, size};
ghost use Rattle.go_core.specs.CoreView.{expr_view};
ghost use Rattle.go_typing.specs.Answer.{bad, unless, value};
ghost use Rattle.go_typing.specs.Operand.{default_type, pending_flaws};
ghost use Rattle.go_typing.specs.Binary.{joined_by, logical_value, logical_constants, logical};
ghost use Rattle.go_operands.specs.AnswerView.{answer_view, pending_view};
ghost use Rattle.go_operands.specs.RulesReady.{HasPredeclared};
ghost use Rattle.go_operands.specs.Below.{AnswerBelow};
ghost use Rattle.go_binary.specs.MatchView.{match_view, MatchBelow};

use crate::matched::sides::{Match, Side, gone_side};
use crate::rows::comparison::both_flaws;
use gj_base::{NoMemory, Op, Place};
use go_const::Const;
use go_core::node::CoreExpr;
use go_operands::answers::answer::{Answer, Pending};
use go_operands::answers::fold::{folded, folded_untyped};
use go_operands::answers::gone::gone_pending;
use go_operands::answers::rule::{bad, made, unless};
use go_operands::nodes::gone::gone_expr;
use go_operands::nodes::pair;
use go_operands::rules::kind::{bool_type, default_type, is_bool};
use go_operands::rules::operator::binary_of;
use go_type::TypeTable;
use go_type::types::{Basis, TypeId};
use std::alloc::Global;

fn joined_by(
    alloc: Global,
    table: &TypeTable,
    op: Op,
    t: TypeId,
    c: CoreExpr,
    d: CoreExpr,
) -> Result<CoreExpr, NoMemory>
    ensures value { IfOk result (λ e. expr_view (places table.now) e ≡ joined_by (names table.now) op (tree_of (places table.now) t) (expr_view (places table.now) c) (expr_view (places table.now) d)) }
{
    let _ = table;
    match op {
        Op::AndThen => pair::and_then(alloc, t, c, d),
        _ => pair::or_else(alloc, t, c, d),
    }
}

fn node_of(
    alloc: Global,
    table: &TypeTable,
    op: Op,
    t: TypeId,
    c: CoreExpr,
    d: CoreExpr,
) -> Result<Answer, NoMemory>
    requires within { t.0 < size table.now }
    ensures view { IfOk result (λ a. answer_view (places table.now) a ≡ value (joined_by (names table.now) op (tree_of (places table.now) t) (expr_view (places table.now) c) (expr_view (places table.now) d)) (tree_of (places table.now) t) None) }
    ensures within { IfOk result (λ a. AnswerBelow (size table.now) a) }
{
    match joined_by(alloc, table, op, t, c, d) {
        Ok(core) => Ok(made(core, t)),
        Err(error) => Err(error),
    }
}

fn value_of(
    alloc: Global,
    table: &TypeTable,
    at: Place,
    op: Op,
    t: TypeId,
    left: Side,
    right: Side,
) -> Result<Answer, NoMemory>
    requires within { t.0 < size table.now }
    ensures view { IfOk result (λ a. answer_view (places table.now) a ≡ logical_value (names table.now) at op (tree_of (places table.now) t) (expr_view (places table.now) left.core) left.value (expr_view (places table.now) right.core) right.value) }
    ensures within { IfOk result (λ a. AnswerBelow (size table.now) a) }
{
    let Side { core: c, value: v } = left;
    let Side { core: d, value: w } = right;
    match v {
        Some(k) => match w {
            Some(l) => {
                gone_expr(c);
                gone_expr(d);
                let answer = binary_of(alloc, op, &k, &l, None);
                folded(alloc, table, at, t, answer)
            }
            None => node_of(alloc, table, op, t, c, d),
        },
        None => node_of(alloc, table, op, t, c, d),
    }
}

fn constants_of(
    alloc: Global,
    table: &TypeTable,
    at: Place,
    op: Op,
    k: Const,
    l: Const,
) -> Result<Answer, NoMemory>
    ensures view { IfOk result (λ a. answer_view (places table.now) a ≡ logical_constants (names table.now) at op k l) }
    ensures within { IfOk result (λ a. AnswerBelow (size table.now) a) }
{
    match k {
        Const::Bool(b) => {
            let answer = binary_of(alloc, op, &Const::Bool(b), &l, None);
            folded_untyped(alloc, at, answer)
        }
        Const::Int(_) | Const::Rune(_) | Const::Text(_) => bad(alloc, at, 55),
    }
}

fn numbers_of(
    alloc: Global,
    table: &TypeTable,
    at: Place,
    x: Pending,
    y: Pending,
    basis: Basis,
) -> Result<Answer, NoMemory>
    requires table { HasPredeclared table.now }
    ensures view { IfOk result (λ a. answer_view (places table.now) a ≡ unless (pending_flaws (names table.now) (default_type basis) (pending_view (places table.now) x) ++ pending_flaws (names table.now) (default_type basis) (pending_view (places table.now) y)) (bad at 55)) }
    ensures within { IfOk result (λ a. AnswerBelow (size table.now) a) }
{
    let flaws = both_flaws(alloc, table, default_type(table, basis), &x, &y);
    gone_pending(x);
    gone_pending(y);
    match flaws {
        Ok(flaws) => match bad(alloc, at, 55) {
            Ok(answer) => Ok(unless(flaws, answer)),
            Err(error) => Err(error),
        },
        Err(error) => Err(error),
    }
}

/// `&&` or `||` between operands of one type.
pub fn logical(
    alloc: Global,
    table: &TypeTable,
    at: Place,
    op: Op,
    sides: Match,
) -> Result<Answer, NoMemory>
    requires table { HasPredeclared table.now }
    requires within { MatchBelow (size table.now) sides }
    ensures view { IfOk result (λ a. answer_view (places table.now) a ≡ logical (names table.now) at op (match_view (places table.now) sides)) }
    ensures within { IfOk result (λ a. AnswerBelow (size table.now) a) }
{
    match sides {
        Match::Alike(t, left, right) => {
            if is_bool(table, t) {
                return value_of(alloc, table, at, op, t, left, right);
            }
            gone_side(left);
            gone_side(right);
            bad(alloc, at, 55)
        }
        Match::Constants(k, l) => constants_of(alloc, table, at, op, k, l),
        Match::Truths(c, d) => match joined_by(alloc, table, op, bool_type(table), c, d) {
            Ok(core) => Ok(Answer::Truth(core)),
            Err(error) => Err(error),
        },
        Match::Numbers(x, y, basis) => numbers_of(alloc, table, at, x, y, basis),
        Match::Unfit(flaws) => Ok(Answer::Wrong(flaws)),
        Match::Differ => bad(alloc, at, 55),
    }
}
