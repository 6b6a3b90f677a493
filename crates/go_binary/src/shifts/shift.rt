//! Shifts.
//!
//! Go, "Operators" (shifts).

ghost use Rattle.std.specs.Prelude.{◌≡◌, ◌<◌, IsTrue, IfOk, IfSome, Some, None};
ghost use Rattle.go_const.specs.Operation.{is_shift};
ghost use Rattle.go_type.specs.Levels.{tree_of};
ghost use Rattle.go_type.specs.Table.{places, names, size};
ghost use Rattle.go_core.specs.CoreTree as core;
ghost use Rattle.go_core.specs.CoreView.{expr_view};
ghost use Rattle.go_typing.specs.Answer.{value, pending, shifted, further};
ghost use Rattle.go_typing.specs.Operand.{basis_of, typed, constant_operand};
ghost use Rattle.go_typing.specs.Shift.{count_of, shift_typed, shift_constant, shift_counted, can_shift, shift_operands, shift_single, shift_row};
ghost use Rattle.go_operands.specs.AnswerView.{operand_view, answer_view, pending_view};
ghost use Rattle.go_operands.specs.RulesReady.{HasPredeclared};
ghost use Rattle.go_operands.specs.Below.{OperandBelow, AnswerBelow};
ghost use Rattle.go_operands.specs.Parts.{part};
ghost use Rattle.go_operands.specs.Boxes.{boxes_view, BoxBelow};
ghost use Rattle.go_binary.specs.CountView.{count_view, is_nil};

use crate::shifts::count::{Count, count_of};
use gj_base::{NoMemory, Op, Place};
use go_const::Const;
use go_core::node::CoreExpr;
use go_operands::answers::answer::{Answer, Found, Operand, Pending};
use go_operands::answers::fold::{folded, folded_untyped};
use go_operands::answers::gone::{gone_answer, gone_found, gone_operand};
use go_operands::answers::number;
use go_operands::answers::rule::{bad, made};
use go_operands::nodes::gone::gone_expr;
use go_operands::nodes::pair;
use go_operands::operands::boxes::{Waiting, both_known, both_waiting};
use go_operands::operands::operand::no_left;
use go_operands::rules::constant::{basis_of, is_number};
use go_operands::rules::kind::{is_int, number_kind};
use go_operands::rules::operator::shifted_of;
use go_type::TypeTable;
use go_type::types::{Basis, TypeId};
use std::alloc::Global;

// ---- what is shifted, by a count

/// An arithmetic operator or a shift between integers of a type, whose value is no constant.
pub fn node_of(
    alloc: Global,
    table: &TypeTable,
    op: Op,
    ty: TypeId,
    c: CoreExpr,
    d: CoreExpr,
) -> Result<Answer, NoMemory>
    requires within { ty.0 < size table.now }
    ensures view { IfOk result (λ a. answer_view (places table.now) a ≡ value (core.binary op (tree_of (places table.now) ty) (expr_view (places table.now) c) (expr_view (places table.now) d)) (tree_of (places table.now) ty) None) }
    ensures within { IfOk result (λ a. AnswerBelow (size table.now) a) }
{
    let _ = table;
    match pair::binary(alloc, op, ty, c, d) {
        Ok(core) => Ok(made(core, ty)),
        Err(error) => Err(error),
    }
}

fn typed_shifted(
    alloc: Global,
    table: &TypeTable,
    at: Place,
    op: Op,
    found: Found,
    d: CoreExpr,
    w: Option<Const>,
) -> Result<Answer, NoMemory>
    requires shift { IsTrue (is_shift op) }
    requires within { found.ty.0 < size table.now }
    ensures view { IfOk result (λ a. answer_view (places table.now) a ≡ shift_typed (names table.now) at op (tree_of (places table.now) found.ty) (expr_view (places table.now) found.core) found.value (expr_view (places table.now) d) w) }
    ensures within { IfOk result (λ a. AnswerBelow (size table.now) a) }
{
    let Found { core, ty, value } = found;
    match value {
        Some(k) => match w {
            Some(n) => {
                gone_expr(core);
                gone_expr(d);
                let answer = shifted_of(alloc, op, &k, &n, number_kind(table, ty));
                folded(alloc, table, at, ty, answer)
            }
            None => node_of(alloc, table, op, ty, core, d),
        },
        None => node_of(alloc, table, op, ty, core, d),
    }
}

fn typed_counted(
    alloc: Global,
    table: &TypeTable,
    at: Place,
    op: Op,
    found: Found,
    d: CoreExpr,
    w: Option<Const>,
) -> Result<Answer, NoMemory>
    requires shift { IsTrue (is_shift op) }
    requires within { found.ty.0 < size table.now }
    ensures view { IfOk result (λ a. answer_view (places table.now) a ≡ shift_counted (names table.now) at op (typed (expr_view (places table.now) found.core) (tree_of (places table.now) found.ty) found.value) (expr_view (places table.now) d) w) }
    ensures within { IfOk result (λ a. AnswerBelow (size table.now) a) }
{
    if is_int(table, found.ty) {
        return typed_shifted(alloc, table, at, op, found, d, w);
    }
    gone_found(found);
    gone_expr(d);
    bad(alloc, at, 57)
}

// By a count that is no constant.
fn constant_waits(
    alloc: Global,
    table: &TypeTable,
    at: Place,
    op: Op,
    k: Const,
    d: CoreExpr,
) -> Result<Answer, NoMemory>
    ensures view { IfOk result (λ a. answer_view (places table.now) a ≡ pending (shifted at op k (expr_view (places table.now) d)) (basis_of k)) }
    ensures within { IfOk result (λ a. AnswerBelow (size table.now) a) }
{
    let _ = table;
    let basis = basis_of(&k);
    match number::shifted(alloc, at, op, k, d) {
        Ok(p) => Ok(Answer::Pending(p, basis)),
        Err(error) => Err(error),
    }
}

fn constant_shifted(
    alloc: Global,
    table: &TypeTable,
    at: Place,
    op: Op,
    k: Const,
    d: CoreExpr,
    w: Option<Const>,
) -> Result<Answer, NoMemory>
    requires shift { IsTrue (is_shift op) }
    ensures view { IfOk result (λ a. answer_view (places table.now) a ≡ shift_constant (names table.now) at op k (expr_view (places table.now) d) w) }
    ensures within { IfOk result (λ a. AnswerBelow (size table.now) a) }
{
    match w {
        Some(n) => {
            gone_expr(d);
            let answer = shifted_of(alloc, op, &k, &n, None);
            folded_untyped(alloc, at, answer)
        }
        None => constant_waits(alloc, table, at, op, k, d),
    }
}

fn constant_counted(
    alloc: Global,
    table: &TypeTable,
    at: Place,
    op: Op,
    k: Const,
    d: CoreExpr,
    w: Option<Const>,
) -> Result<Answer, NoMemory>
    requires shift { IsTrue (is_shift op) }
    ensures view { IfOk result (λ a. answer_view (places table.now) a ≡ shift_counted (names table.now) at op (constant_operand k) (expr_view (places table.now) d) w) }
    ensures within { IfOk result (λ a. AnswerBelow (size table.now) a) }
{
    if !is_number(&k) {
        gone_expr(d);
        return bad(alloc, at, 57);
    }
    constant_shifted(alloc, table, at, op, k, d, w)
}

fn pending_counted(
    alloc: Global,
    table: &TypeTable,
    op: Op,
    p: Pending,
    basis: Basis,
    d: CoreExpr,
) -> Result<Answer, NoMemory>
    ensures view { IfOk result (λ a. answer_view (places table.now) a ≡ pending (further op (pending_view (places table.now) p) (expr_view (places table.now) d)) basis) }
    ensures within { IfOk result (λ a. AnswerBelow (size table.now) a) }
{
    match number::further(alloc, op, p, d) {
        Ok(p) => Ok(Answer::Pending(p, basis)),
        Err(error) => Err(error),
    }
}

fn counted(
    alloc: Global,
    table: &TypeTable,
    at: Place,
    op: Op,
    x: Box<Operand>,
    d: CoreExpr,
    w: Option<Const>,
) -> Result<Answer, NoMemory>
    requires shift { IsTrue (is_shift op) }
    requires within { OperandBelow (size table.now) x.value }
    ensures view { IfOk result (λ a. answer_view (places table.now) a ≡ shift_counted (names table.now) at op (operand_view (places table.now) x.value) (expr_view (places table.now) d) w) }
    ensures within { IfOk result (λ a. AnswerBelow (size table.now) a) }
{
    match Box::into_inner(x) {
        Operand::Typed(found) => typed_counted(alloc, table, at, op, found, d, w),
        Operand::Constant(k) => constant_counted(alloc, table, at, op, k, d, w),
        Operand::Truth(c) => {
            gone_expr(c);
            gone_expr(d);
            bad(alloc, at, 57)
        }
        Operand::Pending(p, basis) => pending_counted(alloc, table, op, p, basis, d),
        Operand::Nil => {
            gone_expr(d);
            bad(alloc, at, 57)
        }
    }
}

fn can_shift(table: &TypeTable, x: &Operand) -> bool
    requires within { OperandBelow (size table.now) x.now }
    ensures { result ≡ can_shift (names table.now) (operand_view (places table.now) x.now) }
{
    match x {
        Operand::Typed(found) => is_int(table, found.ty),
        Operand::Constant(k) => is_number(k),
        Operand::Pending(_, _) => true,
        Operand::Truth(_) | Operand::Nil => false,
    }
}

fn operands(
    alloc: Global,
    table: &TypeTable,
    at: Place,
    op: Op,
    x: Box<Operand>,
    q: Place,
    count: Count,
) -> Result<Answer, NoMemory>
    requires shift { IsTrue (is_shift op) }
    requires within { OperandBelow (size table.now) x.value }
    ensures view { IfOk result (λ a. answer_view (places table.now) a ≡ shift_operands (names table.now) at op (operand_view (places table.now) x.value) q (count_view (places table.now) count)) }
    ensures within { IfOk result (λ a. AnswerBelow (size table.now) a) }
{
    match count {
        Count::Counted(d, w) => counted(alloc, table, at, op, x, d, w),
        Count::Negative => {
            let can = can_shift(table, &*x);
            gone_operand(Box::into_inner(x));
            if can {
                return bad(alloc, q, 33);
            }
            bad(alloc, at, 57)
        }
        Count::NoInteger => {
            gone_operand(Box::into_inner(x));
            bad(alloc, at, 57)
        }
        Count::Unfit(flaws) => {
            gone_operand(Box::into_inner(x));
            Ok(Answer::Wrong(flaws))
        }
    }
}

// ---- the row

fn both(
    alloc: Global,
    table: &TypeTable,
    at: Place,
    op: Op,
    x: Box<Operand>,
    q: Place,
    y: Box<Operand>,
) -> Result<Answer, NoMemory>
    requires table { HasPredeclared table.now }
    requires shift { IsTrue (is_shift op) }
    requires left { OperandBelow (size table.now) x.value }
    requires right { OperandBelow (size table.now) y.value }
    ensures view { IfOk result (λ a. answer_view (places table.now) a ≡ shift_operands (names table.now) at op (operand_view (places table.now) x.value) q (count_of (names table.now) q (operand_view (places table.now) y.value))) }
    ensures within { IfOk result (λ a. AnswerBelow (size table.now) a) }
{
    match count_of(alloc, table, q, Box::into_inner(y)) {
        Ok(count) => operands(alloc, table, at, op, x, q, count),
        Err(error) => {
            gone_operand(Box::into_inner(x));
            Err(error)
        }
    }
}

fn is_nil(table: &TypeTable, x: &Operand) -> bool
    ensures { result ≡ is_nil (operand_view (places table.now) x.now) }
{
    let _ = table;
    match x {
        Operand::Nil => true,
        _ => false,
    }
}

// `nil` can't be shifted, for it has no type.
#[tactic(auto, using(crate::proofs::ShiftLemmas::nil_shifted, crate::proofs::ShiftLemmas::other_shifted))]
fn typed_or_not(
    alloc: Global,
    table: &TypeTable,
    at: Place,
    op: Op,
    p: Place,
    x: Box<Operand>,
    q: Place,
    y: Box<Operand>,
) -> Result<Answer, NoMemory>
    requires table { HasPredeclared table.now }
    requires shift { IsTrue (is_shift op) }
    requires left { OperandBelow (size table.now) x.value }
    requires right { OperandBelow (size table.now) y.value }
    ensures view { IfOk result (λ a. answer_view (places table.now) a ≡ shift_single (names table.now) at op p (Some (operand_view (places table.now) x.value)) q (Some (operand_view (places table.now) y.value))) }
    ensures within { IfOk result (λ a. AnswerBelow (size table.now) a) }
{
    if is_nil(table, &*x) {
        gone_operand(Box::into_inner(x));
        gone_operand(Box::into_inner(y));
        return bad(alloc, p, 73);
    }
    both(alloc, table, at, op, x, q, y)
}

/// A shift of what stands at `p` by what stands at `q`, where both are typed.
fn shift(
    alloc: Global,
    table: &TypeTable,
    at: Place,
    op: Op,
    p: Place,
    x: Option<Box<Operand>>,
    q: Place,
    y: Option<Box<Operand>>,
) -> Result<Answer, NoMemory>
    requires table { HasPredeclared table.now }
    requires shift { IsTrue (is_shift op) }
    requires left { IfSome x (BoxBelow (size table.now)) }
    requires right { IfSome y (BoxBelow (size table.now)) }
    ensures view { IfOk result (λ a. answer_view (places table.now) a ≡ shift_single (names table.now) at op p (boxes_view (places table.now) x) q (boxes_view (places table.now) y)) }
    ensures within { IfOk result (λ a. AnswerBelow (size table.now) a) }
{
    match x {
        Some(x) => match y {
            Some(y) => typed_or_not(alloc, table, at, op, p, x, q, y),
            None => {
                gone_operand(Box::into_inner(x));
                bad(alloc, q, 52)
            }
        },
        None => no_left(alloc, p, q, y),
    }
}

// Operands that have waited.
fn shift_waiting(
    alloc: Global,
    table: &TypeTable,
    at: Place,
    op: Op,
    p: Place,
    q: Place,
    waiting: Waiting,
) -> Result<Answer, NoMemory>
    requires table { HasPredeclared table.now }
    requires shift { IsTrue (is_shift op) }
    requires left { IfSome waiting.left (BoxBelow (size table.now)) }
    requires right { IfSome waiting.right (BoxBelow (size table.now)) }
    ensures view { IfOk result (λ a. answer_view (places table.now) a ≡ shift_single (names table.now) at op p (boxes_view (places table.now) waiting.left) q (boxes_view (places table.now) waiting.right)) }
    ensures within { IfOk result (λ a. AnswerBelow (size table.now) a) }
{
    let Waiting { left, right } = waiting;
    shift(alloc, table, at, op, p, left, q, right)
}

/// A shift between what stands at `p` and what stands at `q`.
#[tactic(auto, using(crate::proofs::ShiftLemmas::known_shift, crate::proofs::ShiftLemmas::unknown_shift))]
pub fn shift_row(
    alloc: Global,
    table: &TypeTable,
    at: Place,
    op: Op,
    p: Place,
    x: Box<Answer>,
    q: Place,
    y: Answer,
) -> Result<Answer, NoMemory>
    requires table { HasPredeclared table.now }
    requires shift { IsTrue (is_shift op) }
    requires left { AnswerBelow (size table.now) x.value }
    requires right { AnswerBelow (size table.now) y }
    ensures view { IfOk result (λ a. answer_view (places table.now) a ≡ shift_row (names table.now) at op (part p (answer_view (places table.now) x.value)) (part q (answer_view (places table.now) y))) }
    ensures within { IfOk result (λ a. AnswerBelow (size table.now) a) }
{
    if !both_known(table, &*x, &y) {
        gone_answer(Box::into_inner(x));
        gone_answer(y);
        return Ok(Answer::Unknown);
    }
    match both_waiting(alloc, table, x, y) {
        Ok(waiting) => shift_waiting(alloc, table, at, op, p, q, waiting),
        Err(error) => Err(error),
    }
}
