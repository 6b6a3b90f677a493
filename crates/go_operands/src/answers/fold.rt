//! What constants fold to, of a type or untyped.
//!
//! Go, "Constant expressions".

ghost use Rattle.std.specs.Prelude.{◌≡◌, ◌<◌, IfOk, List, ℕ, Result};
ghost use Rattle.go_const.specs.declared.constant.Const.{Const};
ghost use Rattle.go_const.specs.declared.constant.ConstRefusal.{ConstRefusal};
ghost use Rattle.go_const.specs.Answer.{OrNoMemory};
ghost use Rattle.go_type.specs.Tree.{Ty};
ghost use Rattle.go_type.specs.Levels.{tree_of};
ghost use Rattle.go_type.specs.Table.{places};
ghost use Rattle.go_typing.specs.Operand.{typed_constant, folded, folded_untyped};
ghost use Rattle.go_operands.specs.AnswerView.{answer_view};
ghost use Rattle.go_operands.specs.Below.{AnswerBelow};

use crate::answers::answer::{Answer, Found};
use crate::answers::constant::constant_at;
use crate::answers::rule::bad;
use gj_base::{NoMemory, Place};
use go_const::{Const, ConstRefusal};
use go_type::TypeTable;
use go_type::types::TypeId;
use std::alloc::Global;

/// A constant of a type as an answer.
pub fn typed_constant(
    alloc: Global,
    table: &TypeTable,
    t: TypeId,
    k: Const,
) -> Result<Answer, NoMemory>
    ensures view { IfOk result (λ a. answer_view (places table.now) a ≡ typed_constant (tree_of (places table.now) t) k) }
    ensures within { IfOk result (λ a. (n : ℕ) → t.0 < n → AnswerBelow n a) }
{
    match constant_at(alloc, t, &k) {
        Ok(core) => Ok(Answer::Value(Found {
            core,
            ty: t,
            value: Some(k),
        })),
        Err(error) => Err(error),
    }
}

/// What constants fold to, of a type.
pub fn folded(
    alloc: Global,
    table: &TypeTable,
    at: Place,
    t: TypeId,
    found: Result<Const, ConstRefusal>,
) -> Result<Answer, NoMemory>
    ensures view { (x : Result Const ConstRefusal) → OrNoMemory (Unit {0}) found x → IfOk result (λ a. answer_view (places table.now) a ≡ folded at (tree_of (places table.now) t) x) }
    ensures within { IfOk result (λ a. (n : ℕ) → t.0 < n → AnswerBelow n a) }
{
    match found {
        Ok(k) => typed_constant(alloc, table, t, k),
        Err(ConstRefusal::Code(code)) => bad(alloc, at, code),
        Err(ConstRefusal::NoMemory) => Err(NoMemory),
    }
}

/// What untyped constants fold to.
pub fn folded_untyped(
    alloc: Global,
    at: Place,
    found: Result<Const, ConstRefusal>,
) -> Result<Answer, NoMemory>
    ensures view { (x : Result Const ConstRefusal) → OrNoMemory (Unit {0}) found x → IfOk result (λ a. (ts : List Ty) → answer_view ts a ≡ folded_untyped at x) }
    ensures within { IfOk result (λ a. (n : ℕ) → AnswerBelow n a) }
{
    match found {
        Ok(k) => Ok(Answer::Constant(k)),
        Err(ConstRefusal::Code(code)) => bad(alloc, at, code),
        Err(ConstRefusal::NoMemory) => Err(NoMemory),
    }
}
