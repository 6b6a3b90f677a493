//! The single value of a node.

ghost use Rattle.std.specs.Prelude.{◌≡◌, ◌<◌, ◌∷◌, [], ℕ, IfOk, IfSome, List, option_map};
ghost use Rattle.go_type.specs.Tree.{Ty};
ghost use Rattle.go_type.specs.Levels.{tree_of};
ghost use Rattle.go_type.specs.Table.{places, names, size};
ghost use Rattle.go_core.specs.CoreView.{expr_view};
ghost use Rattle.go_typing.specs.Answer.{flaw, wrong, bad, unless};
ghost use Rattle.go_typing.specs.Operand.{untyped_operand, operand_of, single, pending_flaws, default_type};
ghost use Rattle.go_typing.specs.Wanted.{no_value};
ghost use Rattle.go_operands.specs.AnswerView.{operand_view, answer_view, pending_view};
ghost use Rattle.go_operands.specs.RulesReady.{HasPredeclared};
ghost use Rattle.go_operands.specs.Below.{OperandBelow, AnswerBelow};
ghost use Rattle.go_operands.specs.Boxes.{boxes_view};

use crate::answers::answer::{Answer, Flaws, Found, Operand, Pending};
use crate::answers::gone::{gone_answer, gone_found, gone_operand, gone_pending};
use crate::answers::pending::pending_flaws;
use crate::answers::rule::{and_flaw, bad, unless};
use crate::nodes::gone::gone_expr;
use crate::rules::kind::default_type;
use gj_base::{NoMemory, Place};
use go_type::TypeTable;
use go_type::types::{Basis, GoType};
use std::alloc::Global;

fn untyped(found: Found) -> Operand
    ensures view { (ts : List Ty) → operand_view ts result ≡ untyped_operand (expr_view ts found.core) found.value }
    ensures within { (n : ℕ) → OperandBelow n result }
{
    let Found {
        core,
        ty: _ty,
        value,
    } = found;
    match value {
        Some(k) => {
            gone_expr(core);
            Operand::Constant(k)
        }
        None => Operand::Truth(core),
    }
}

fn value_operand(table: &TypeTable, found: Found) -> Option<Operand>
    requires within { found.ty.0 < size table.now }
    ensures view { option_map (operand_view (places table.now)) result ≡ operand_of (expr_view (places table.now) found.core) (tree_of (places table.now) found.ty) found.value }
    ensures within { IfSome result (λ x. OperandBelow (size table.now) x) }
{
    match table.get(found.ty) {
        GoType::Untyped(_) => Some(untyped(found)),
        GoType::Nil => {
            gone_found(found);
            Some(Operand::Nil)
        }
        GoType::Tuple(_) => {
            gone_found(found);
            None
        }
        _ => Some(Operand::Typed(found)),
    }
}

/// The value of a node, if it is one.
pub fn single(table: &TypeTable, answer: Answer) -> Option<Operand>
    requires within { AnswerBelow (size table.now) answer }
    ensures view { option_map (operand_view (places table.now)) result ≡ single (answer_view (places table.now) answer) }
    ensures within { IfSome result (λ x. OperandBelow (size table.now) x) }
{
    match answer {
        Answer::Value(found) => value_operand(table, found),
        Answer::Constant(k) => Some(Operand::Constant(k)),
        Answer::Truth(core) => Some(Operand::Truth(core)),
        Answer::Nil => Some(Operand::Nil),
        Answer::Pending(p, basis) => Some(Operand::Pending(p, basis)),
        Answer::Prints {
            operands,
            ends_line,
        } => {
            gone_answer(Answer::Prints {
                operands,
                ends_line,
            });
            None
        }
        Answer::Type(_ty) => None,
        Answer::Package(_path) => None,
        Answer::BuiltIn(_function) => None,
        Answer::Blank => None,
        Answer::Wrong(_flaws) => None,
        Answer::Unknown => None,
    }
}

/// What is no value for its place, where an untyped number has its default type first.
pub fn pending_bad(
    alloc: Global,
    table: &TypeTable,
    at: Place,
    code: u16,
    p: Pending,
    basis: Basis,
) -> Result<Answer, NoMemory>
    requires { HasPredeclared table.now }
    ensures view { IfOk result (λ a. answer_view (places table.now) a ≡ unless (pending_flaws (names table.now) (default_type basis) (pending_view (places table.now) p)) (bad at code)) }
    ensures within { IfOk result (λ a. AnswerBelow (size table.now) a) }
{
    let flaws = pending_flaws(alloc, table, default_type(table, basis), &p);
    gone_pending(p);
    match flaws {
        Ok(flaws) => match bad(alloc, at, code) {
            Ok(answer) => Ok(unless(flaws, answer)),
            Err(error) => Err(error),
        },
        Err(error) => Err(error),
    }
}

// Two faults of one kind.
fn two_bad(alloc: Global, p: Place, q: Place, code: u16) -> Result<Answer, NoMemory>
    ensures view { IfOk result (λ a. (ts : List Ty) → answer_view ts a ≡ wrong (flaw p code) (flaw q code ∷ [])) }
    ensures within { IfOk result (λ a. (n : ℕ) → AnswerBelow n a) }
{
    let mut flaws = Vec::new(alloc);
    and_flaw(alloc, &mut flaws, p, code)?;
    and_flaw(alloc, &mut flaws, q, code)?;
    Ok(Answer::Wrong(Flaws { items: flaws }))
}

/// The left operand is no value, and maybe the right one isn't either.
pub fn no_left(
    alloc: Global,
    p: Place,
    q: Place,
    y: Option<Box<Operand>>,
) -> Result<Answer, NoMemory>
    ensures view { IfOk result (λ a. (ts : List Ty) → answer_view ts a ≡ wrong (flaw p 52) (no_value q (boxes_view ts y))) }
    ensures within { IfOk result (λ a. (n : ℕ) → AnswerBelow n a) }
{
    match y {
        Some(y) => {
            gone_operand(Box::into_inner(y));
            bad(alloc, p, 52)
        }
        None => two_bad(alloc, p, q, 52),
    }
}
