//! Operators between operands, shifts aside.
//!
//! Go, "Operators".

ghost use Rattle.std.specs.Prelude.{◌≡◌, IfOk, IfSome, option_map};
ghost use Rattle.go_type.specs.Table.{places, names, size};
ghost use Rattle.go_typing.specs.Binary.{on_operands, on_singles, binary_row};
ghost use Rattle.go_typing.specs.Typing.{operator_row};
ghost use Rattle.go_operands.specs.AnswerView.{operand_view, answer_view};
ghost use Rattle.go_operands.specs.RulesReady.{HasPredeclared};
ghost use Rattle.go_operands.specs.Below.{OperandBelow, AnswerBelow};
ghost use Rattle.go_operands.specs.Parts.{part};
ghost use Rattle.go_operands.specs.Boxes.{boxes_view, BoxBelow};
ghost use Rattle.go_binary.specs.MatchView.{match_view, MatchBelow};
ghost use Rattle.go_binary.specs.ClassView.{class_view, class_of, compares, on_match};

use crate::matched::matched::matched;
use crate::matched::sides::Match;
use crate::rows::arithmetic::arithmetic;
use crate::rows::comparison::comparison;
use crate::rows::logical::logical;
use crate::shifts::shift::shift_row;
use gj_base::{NoMemory, Op, Place};
use go_operands::answers::answer::{Answer, Operand};
use go_operands::answers::gone::{gone_answer, gone_operand};
use go_operands::answers::rule::bad;
use go_operands::operands::boxes::{Waiting, both_known, both_waiting};
use go_operands::operands::operand::no_left;
use go_type::TypeTable;
use std::alloc::Global;

/// What an operator between operands is.
#[derive(Clone, Copy, Debug, PartialEq, Eq)]
pub enum OpClass {
    Arithmetic,
    Comparison,
    Logical,
}

// Whether one operand may go to the type of the other.
fn compares(class: OpClass) -> bool
    ensures { result ≡ compares (class_view class) }
{
    matches!(class, OpClass::Comparison)
}

// An operator between operands of one type.
fn on_match(
    alloc: Global,
    table: &TypeTable,
    class: OpClass,
    at: Place,
    op: Op,
    q: Place,
    sides: Match,
) -> Result<Answer, NoMemory>
    requires table { HasPredeclared table.now }
    requires within { MatchBelow (size table.now) sides }
    ensures view { IfOk result (λ a. answer_view (places table.now) a ≡ on_match (names table.now) (class_view class) at op q (match_view (places table.now) sides)) }
    ensures within { IfOk result (λ a. AnswerBelow (size table.now) a) }
{
    match class {
        OpClass::Arithmetic => arithmetic(alloc, table, at, op, q, sides),
        OpClass::Comparison => comparison(alloc, table, at, op, sides),
        OpClass::Logical => logical(alloc, table, at, op, sides),
    }
}

#[tactic(auto, using(crate::proofs::ClassLemmas::by_match))]
fn on_operands(
    alloc: Global,
    table: &TypeTable,
    class: OpClass,
    at: Place,
    op: Op,
    p: Place,
    x: Box<Operand>,
    q: Place,
    y: Box<Operand>,
) -> Result<Answer, NoMemory>
    requires table { HasPredeclared table.now }
    requires left { OperandBelow (size table.now) x.value }
    requires right { OperandBelow (size table.now) y.value }
    ensures view { IfOk result (λ a. answer_view (places table.now) a ≡ on_operands (names table.now) (class_view class) at op p (operand_view (places table.now) x.value) q (operand_view (places table.now) y.value)) }
    ensures within { IfOk result (λ a. AnswerBelow (size table.now) a) }
{
    match matched(alloc, table, compares(class), p, Box::into_inner(x), q, y) {
        Ok(sides) => on_match(alloc, table, class, at, op, q, sides),
        Err(error) => Err(error),
    }
}

fn on_singles(
    alloc: Global,
    table: &TypeTable,
    class: OpClass,
    at: Place,
    op: Op,
    p: Place,
    x: Option<Box<Operand>>,
    q: Place,
    y: Option<Box<Operand>>,
) -> Result<Answer, NoMemory>
    requires table { HasPredeclared table.now }
    requires left { IfSome x (BoxBelow (size table.now)) }
    requires right { IfSome y (BoxBelow (size table.now)) }
    ensures view { IfOk result (λ a. answer_view (places table.now) a ≡ on_singles (names table.now) (class_view class) at op p (boxes_view (places table.now) x) q (boxes_view (places table.now) y)) }
    ensures within { IfOk result (λ a. AnswerBelow (size table.now) a) }
{
    match x {
        Some(x) => match y {
            Some(y) => on_operands(alloc, table, class, at, op, p, x, q, y),
            None => {
                gone_operand(Box::into_inner(x));
                bad(alloc, q, 52)
            }
        },
        None => no_left(alloc, p, q, y),
    }
}

// Operands that have waited.
fn on_waiting(
    alloc: Global,
    table: &TypeTable,
    class: OpClass,
    at: Place,
    op: Op,
    p: Place,
    q: Place,
    waiting: Waiting,
) -> Result<Answer, NoMemory>
    requires table { HasPredeclared table.now }
    requires left { IfSome waiting.left (BoxBelow (size table.now)) }
    requires right { IfSome waiting.right (BoxBelow (size table.now)) }
    ensures view { IfOk result (λ a. answer_view (places table.now) a ≡ on_singles (names table.now) (class_view class) at op p (boxes_view (places table.now) waiting.left) q (boxes_view (places table.now) waiting.right)) }
    ensures within { IfOk result (λ a. AnswerBelow (size table.now) a) }
{
    let Waiting { left, right } = waiting;
    on_singles(alloc, table, class, at, op, p, left, q, right)
}

#[tactic(auto, using(crate::proofs::ClassLemmas::known_row, crate::proofs::ClassLemmas::unknown_row))]
fn row(
    alloc: Global,
    table: &TypeTable,
    class: OpClass,
    at: Place,
    op: Op,
    p: Place,
    x: Box<Answer>,
    q: Place,
    y: Answer,
) -> Result<Answer, NoMemory>
    requires table { HasPredeclared table.now }
    requires left { AnswerBelow (size table.now) x.value }
    requires right { AnswerBelow (size table.now) y }
    ensures view { IfOk result (λ a. answer_view (places table.now) a ≡ binary_row (names table.now) (class_view class) at op (part p (answer_view (places table.now) x.value)) (part q (answer_view (places table.now) y))) }
    ensures within { IfOk result (λ a. AnswerBelow (size table.now) a) }
{
    if !both_known(table, &*x, &y) {
        gone_answer(Box::into_inner(x));
        gone_answer(y);
        return Ok(Answer::Unknown);
    }
    match both_waiting(alloc, table, x, y) {
        Ok(waiting) => on_waiting(alloc, table, class, at, op, p, q, waiting),
        Err(error) => Err(error),
    }
}

// The class of an operator; shifts have none.
fn class_of(op: Op) -> Option<OpClass>
    ensures { option_map class_view result ≡ class_of op }
{
    match op {
        Op::Shl | Op::Shr => None,
        Op::Eq | Op::Ne | Op::Lt | Op::Le | Op::Gt | Op::Ge => Some(OpClass::Comparison),
        Op::AndThen | Op::OrElse => Some(OpClass::Logical),
        _ => Some(OpClass::Arithmetic),
    }
}

/// An operator between what stands at `p` and what stands at `q`. The first answer waits in a box while
/// the second one is found.
#[tactic(auto, using(crate::proofs::ClassLemmas::class_row, crate::proofs::ClassLemmas::no_class_row, crate::proofs::ClassLemmas::no_class_shifts))]
pub fn operator(
    alloc: Global,
    table: &TypeTable,
    at: Place,
    op: Op,
    p: Place,
    x: Box<Answer>,
    q: Place,
    y: Answer,
) -> Result<Answer, NoMemory>
    requires table { HasPredeclared table.now }
    requires left { AnswerBelow (size table.now) x.value }
    requires right { AnswerBelow (size table.now) y }
    ensures view { IfOk result (λ a. answer_view (places table.now) a ≡ operator_row (names table.now) at op (part p (answer_view (places table.now) x.value)) (part q (answer_view (places table.now) y))) }
    ensures within { IfOk result (λ a. AnswerBelow (size table.now) a) }
{
    match class_of(op) {
        Some(class) => row(alloc, table, class, at, op, p, x, q, y),
        None => shift_row(alloc, table, at, op, p, x, q, y),
    }
}
