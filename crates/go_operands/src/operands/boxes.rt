//! Answers and operands in boxes. Of two that wait side by side one lies in a box, so that only one at a
//! time is taken apart.

ghost use Rattle.std.specs.Prelude.{◌≡◌, ◌&&◌, IfOk, IfSome};
ghost use Rattle.go_type.specs.Table.{places, size};
ghost use Rattle.go_typing.specs.Answer.{is_known};
ghost use Rattle.go_typing.specs.Operand.{single};
ghost use Rattle.go_operands.specs.AnswerView.{answer_view, operand_view};
ghost use Rattle.go_operands.specs.Below.{AnswerBelow, OperandBelow};
ghost use Rattle.go_operands.specs.Boxes.{boxes_view, BoxBelow};

use crate::answers::answer::{Answer, Operand};
use crate::answers::gone::{gone_answer, gone_operand};
use crate::answers::rule::is_known;
use crate::operands::operand::single;
use gj_base::NoMemory;
use go_type::TypeTable;
use std::alloc::Global;

/// An answer in a box.
pub fn answer_box(alloc: Global, table: &TypeTable, answer: Answer) -> Result<Box<Answer>, NoMemory>
    requires within { AnswerBelow (size table.now) answer }
    ensures view { IfOk result (λ b. answer_view (places table.now) b.value ≡ answer_view (places table.now) answer) }
    ensures within { IfOk result (λ b. AnswerBelow (size table.now) b.value) }
{
    let _ = table;
    match Box::new(alloc, answer) {
        Ok(answer) => Ok(answer),
        Err(refused) => {
            gone_answer(refused.value);
            Err(NoMemory)
        }
    }
}

fn operand_box(alloc: Global, table: &TypeTable, x: Operand) -> Result<Box<Operand>, NoMemory>
    requires within { OperandBelow (size table.now) x }
    ensures view { IfOk result (λ b. operand_view (places table.now) b.value ≡ operand_view (places table.now) x) }
    ensures within { IfOk result (λ b. OperandBelow (size table.now) b.value) }
{
    let _ = table;
    match Box::new(alloc, x) {
        Ok(x) => Ok(x),
        Err(refused) => {
            gone_operand(refused.value);
            Err(NoMemory)
        }
    }
}

/// The value of a node in a box, if it is one.
pub fn single_box(
    alloc: Global,
    table: &TypeTable,
    answer: Answer,
) -> Result<Option<Box<Operand>>, NoMemory>
    requires within { AnswerBelow (size table.now) answer }
    ensures view { IfOk result (λ x. boxes_view (places table.now) x ≡ single (answer_view (places table.now) answer)) }
    ensures within { IfOk result (λ x. IfSome x (BoxBelow (size table.now))) }
{
    match single(table, answer) {
        None => Ok(None),
        Some(x) => match operand_box(alloc, table, x) {
            Ok(x) => Ok(Some(x)),
            Err(error) => Err(error),
        },
    }
}

/// Two operands that wait, each in its box.
pub struct Waiting {
    pub left: Option<Box<Operand>>,
    pub right: Option<Box<Operand>>,
}

/// Lets an operand in a box go, if there is one.
pub fn gone_box(x: Option<Box<Operand>>) {
    match x {
        Some(x) => gone_operand(Box::into_inner(x)),
        None => {}
    }
}

/// The values of both, each in its box.
pub fn both_waiting(
    alloc: Global,
    table: &TypeTable,
    x: Box<Answer>,
    y: Answer,
) -> Result<Waiting, NoMemory>
    requires left { AnswerBelow (size table.now) x.value }
    requires right { AnswerBelow (size table.now) y }
    ensures left { IfOk result (λ w. boxes_view (places table.now) w.left ≡ single (answer_view (places table.now) x.value)) }
    ensures right { IfOk result (λ w. boxes_view (places table.now) w.right ≡ single (answer_view (places table.now) y)) }
    ensures left_within { IfOk result (λ w. IfSome w.left (BoxBelow (size table.now))) }
    ensures right_within { IfOk result (λ w. IfSome w.right (BoxBelow (size table.now))) }
{
    match single_box(alloc, table, y) {
        Ok(right) => match single_box(alloc, table, Box::into_inner(x)) {
            Ok(left) => Ok(Waiting { left, right }),
            Err(error) => {
                gone_box(right);
                Err(error)
            }
        },
        Err(error) => {
            gone_answer(Box::into_inner(x));
            Err(error)
        }
    }
}

/// Whether both are typed.
pub fn both_known(table: &TypeTable, x: &Answer, y: &Answer) -> bool
    ensures { result ≡ (is_known (answer_view (places table.now) x.now) && is_known (answer_view (places table.now) y.now)) }
{
    let _ = table;
    let known = is_known(x);
    let also = is_known(y);
    known && also
}
