//! Parts of nodes.

ghost use Rattle.std.specs.Prelude.{◌≡◌, IfOk};
ghost use Rattle.go_type.specs.Table.{places, size};
ghost use Rattle.go_operands.specs.Parts.{part_view, PartBelow};

use crate::answers::answer::Answer;
use crate::answers::gone::gone_answer;
use gj_base::{NoMemory, Place};
use go_type::TypeTable;
use std::alloc::Global;

/// A part of a node: where it stands, and what it is.
pub struct Part {
    pub place: Place,
    pub answer: Answer,
}

/// Lets a part go.
pub fn gone_part(part: Part) {
    let Part {
        place: _place,
        answer,
    } = part;
    gone_answer(answer);
}

/// A part in a box.
pub fn part_box(alloc: Global, table: &TypeTable, part: Part) -> Result<Box<Part>, NoMemory>
    requires within { PartBelow (size table.now) part }
    ensures view { IfOk result (λ b. part_view (places table.now) b.value ≡ part_view (places table.now) part) }
    ensures within { IfOk result (λ b. PartBelow (size table.now) b.value) }
{
    let _ = table;
    match Box::new(alloc, part) {
        Ok(part) => Ok(part),
        Err(refused) => {
            gone_part(refused.value);
            Err(NoMemory)
        }
    }
}
