//! Literals: untyped constants.
//!
//! Go, "Constants", "Integer literals", "Rune literals", "String literals".

ghost use Rattle.std.specs.Prelude.{◌≡◌, ℕ, pos, IfOk, IfSome, List, option_map};
ghost use Rattle.go_type.specs.Tree.{Ty};
ghost use Rattle.go_const.specs.declared.constant.Const.TheVariants as form;
ghost use Rattle.go_typing.specs.Literal as go;
ghost use Rattle.go_typing.specs.Operand.{untyped_constant};
ghost use Rattle.go_operands.specs.Whole.{whole};
ghost use Rattle.go_operands.specs.AnswerView.{answer_view};
ghost use Rattle.go_operands.specs.Below.{AnswerBelow};

use gj_base::{NoMemory, Text};
use go_const::Const;
use go_operands::answers::answer::Answer;
use go_operands::scopes::literal::{int_value, rune_value};
use std::alloc::Global;

/// An integer literal, whose number is below 2^127: a greater one is told by the lexical stage.
pub fn int(text: &Text) -> Option<Answer>
    ensures view { (ts : List Ty) → option_map (answer_view ts) result ≡ option_map (λ z. untyped_constant (form.Int z)) (whole (go.int_value text.now)) }
    ensures within { IfSome result (λ a. (n : ℕ) → AnswerBelow n a) }
{
    match int_value(text.as_bytes()) {
        Some(z) => Some(Answer::Constant(Const::Int(z))),
        None => None,
    }
}

/// A rune literal, whose value stands in UTF-8.
pub fn rune(text: &Text) -> Answer
    ensures view { (ts : List Ty) → answer_view ts result ≡ untyped_constant (form.Rune (pos (go.rune_value text.now))) }
    ensures within { (n : ℕ) → AnswerBelow n result }
{
    Answer::Constant(Const::Rune(rune_value(text.as_bytes())))
}

/// A string literal, whose value stands as it is.
pub fn string(alloc: Global, text: &Text) -> Result<Answer, NoMemory>
    ensures view { IfOk result (λ a. (ts : List Ty) → answer_view ts a ≡ untyped_constant (form.Text text.now)) }
    ensures within { IfOk result (λ a. (n : ℕ) → AnswerBelow n a) }
{
    let text = Text::from_slice(alloc, text.as_bytes())?;
    Ok(Answer::Constant(Const::Text(text)))
}
