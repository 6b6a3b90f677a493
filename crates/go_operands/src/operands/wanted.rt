//! Where a value of a type, a value of any type, or a type is wanted.
//!
//! Go, "Assignability", "Constants", "Types".

ghost use Rattle.std.specs.Prelude.{◌≡◌, ◌<◌, IfOk, IfSome, option_map};
ghost use Rattle.go_type.specs.Levels.{tree_of};
ghost use Rattle.go_type.specs.Table.{places, names, size};
ghost use Rattle.go_typing.specs.Wanted.{settled_answer, wanted_operand, wanted, alone_operand, wanted_alone, wanted_type};
ghost use Rattle.go_operands.specs.RulesReady.{HasPredeclared};
ghost use Rattle.go_operands.specs.AnswerView.{answer_view, operand_view, settled_view};
ghost use Rattle.go_operands.specs.Below.{AnswerBelow, OperandBelow, SettledBelow};

use crate::answers::answer::{Answer, Operand, Settled};
use crate::answers::gone::{gone_answer, gone_found, gone_pending};
use crate::answers::passed::{settled_alone, settled_as};
use crate::answers::rule::{bad, is_known};
use crate::nodes::gone::gone_expr;
use crate::operands::operand::single;
use gj_base::{NoMemory, Place};
use go_type::TypeTable;
use go_type::types::TypeId;
use std::alloc::Global;

fn settled_answer(table: &TypeTable, settled: Settled) -> Answer
    requires within { SettledBelow (size table.now) settled }
    ensures view { answer_view (places table.now) result ≡ settled_answer (settled_view (places table.now) settled) }
    ensures within { AnswerBelow (size table.now) result }
{
    let _ = table;
    match settled {
        Settled::Value(found) => Answer::Value(found),
        Settled::Refused(flaws) => Answer::Wrong(flaws),
    }
}

fn wanted_operand(
    alloc: Global,
    table: &TypeTable,
    at: Place,
    t: TypeId,
    x: Option<Operand>,
) -> Result<Answer, NoMemory>
    requires table { HasPredeclared table.now }
    requires t { t.0 < size table.now }
    requires within { IfSome x (λ o. OperandBelow (size table.now) o) }
    ensures view { IfOk result (λ a. answer_view (places table.now) a ≡ wanted_operand (names table.now) at (tree_of (places table.now) t) (option_map (operand_view (places table.now)) x)) }
    ensures within { IfOk result (λ a. AnswerBelow (size table.now) a) }
{
    match x {
        None => bad(alloc, at, 52),
        Some(x) => match settled_as(alloc, table, at, t, x) {
            Ok(settled) => Ok(settled_answer(table, settled)),
            Err(error) => Err(error),
        },
    }
}

/// What stands at a place where a value of a type is wanted.
#[tactic(auto, using(crate::proofs::Known::wanted_known, crate::proofs::Known::wanted_unknown))]
pub fn wanted(
    alloc: Global,
    table: &TypeTable,
    at: Place,
    t: TypeId,
    x: Answer,
) -> Result<Answer, NoMemory>
    requires table { HasPredeclared table.now }
    requires t { t.0 < size table.now }
    requires within { AnswerBelow (size table.now) x }
    ensures view { IfOk result (λ a. answer_view (places table.now) a ≡ wanted (names table.now) at (tree_of (places table.now) t) (answer_view (places table.now) x)) }
    ensures within { IfOk result (λ a. AnswerBelow (size table.now) a) }
{
    if !is_known(&x) {
        gone_answer(x);
        return Ok(Answer::Unknown);
    }
    wanted_operand(alloc, table, at, t, single(table, x))
}

fn alone_operand(
    alloc: Global,
    table: &TypeTable,
    at: Place,
    x: Option<Operand>,
) -> Result<Answer, NoMemory>
    requires table { HasPredeclared table.now }
    requires within { IfSome x (λ o. OperandBelow (size table.now) o) }
    ensures view { IfOk result (λ a. answer_view (places table.now) a ≡ alone_operand (names table.now) at (option_map (operand_view (places table.now)) x)) }
    ensures within { IfOk result (λ a. AnswerBelow (size table.now) a) }
{
    match x {
        None => bad(alloc, at, 52),
        Some(x) => match settled_alone(alloc, table, at, x) {
            Ok(settled) => Ok(settled_answer(table, settled)),
            Err(error) => Err(error),
        },
    }
}

/// What stands at a place where a value is wanted, of any type.
#[tactic(auto, using(crate::proofs::Known::alone_known, crate::proofs::Known::alone_unknown))]
pub fn wanted_alone(
    alloc: Global,
    table: &TypeTable,
    at: Place,
    x: Answer,
) -> Result<Answer, NoMemory>
    requires table { HasPredeclared table.now }
    requires within { AnswerBelow (size table.now) x }
    ensures view { IfOk result (λ a. answer_view (places table.now) a ≡ wanted_alone (names table.now) at (answer_view (places table.now) x)) }
    ensures within { IfOk result (λ a. AnswerBelow (size table.now) a) }
{
    if !is_known(&x) {
        gone_answer(x);
        return Ok(Answer::Unknown);
    }
    alone_operand(alloc, table, at, single(table, x))
}

/// What stands at a place where a type is wanted.
pub fn wanted_type(
    alloc: Global,
    table: &TypeTable,
    at: Place,
    x: Answer,
) -> Result<Answer, NoMemory>
    requires within { AnswerBelow (size table.now) x }
    ensures view { IfOk result (λ a. answer_view (places table.now) a ≡ wanted_type at (answer_view (places table.now) x)) }
    ensures within { IfOk result (λ a. AnswerBelow (size table.now) a) }
{
    let _ = table;
    match x {
        Answer::Type(t) => Ok(Answer::Type(t)),
        Answer::Wrong(_flaws) => Ok(Answer::Unknown),
        Answer::Unknown => Ok(Answer::Unknown),
        Answer::Value(found) => {
            gone_found(found);
            bad(alloc, at, 51)
        }
        Answer::Constant(_k) => bad(alloc, at, 51),
        Answer::Truth(core) => {
            gone_expr(core);
            bad(alloc, at, 51)
        }
        Answer::Nil => bad(alloc, at, 51),
        Answer::Pending(p, _basis) => {
            gone_pending(p);
            bad(alloc, at, 51)
        }
        Answer::Package(_path) => bad(alloc, at, 51),
        Answer::BuiltIn(_function) => bad(alloc, at, 51),
        Answer::Blank => bad(alloc, at, 51),
        Answer::Prints {
            operands,
            ends_line,
        } => {
            gone_answer(Answer::Prints {
                operands,
                ends_line,
            });
            bad(alloc, at, 51)
        }
    }
}
