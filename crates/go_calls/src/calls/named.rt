//! Faults that tell a name.

ghost use Rattle.std.specs.Prelude.{◌≡◌, ◌<◌, IfOk, List, ℕ};
ghost use Rattle.go_type.specs.Tree.{Ty};
ghost use Rattle.go_typing.specs.Answer.{bad_name};
ghost use Rattle.go_operands.specs.AnswerView.{answer_view};
ghost use Rattle.go_operands.specs.Below.{AnswerBelow};

use gj_base::{NoMemory, Place, Text};
use go_operands::answers::answer::{Answer, Flaw, Flaws};
use std::alloc::Global;

/// A node with one fault, whose text tells a name.
pub fn bad_name(alloc: Global, at: Place, code: u16, name: &[u8]) -> Result<Answer, NoMemory>
    ensures view { IfOk result (λ a. (ts : List Ty) → answer_view ts a ≡ bad_name at code name.now) }
    ensures within { IfOk result (λ a. (n : ℕ) → AnswerBelow n a) }
{
    let name = Text::from_slice(alloc, name)?;
    let mut items = Vec::new(alloc);
    items.push(Flaw {
        place: at,
        code,
        name,
    })?;
    Ok(Answer::Wrong(Flaws { items }))
}
