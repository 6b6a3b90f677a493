//! The two functions that each program has besides its own.

ghost use Rattle.std.specs.Prelude.{◌≡◌, OnOk, map};
ghost use Rattle.go_typing.specs.Checked.{or_generated};
ghost use Rattle.go_operands.specs.AnswerView.{flaw_view};

use gj_base::{NoMemory, Place};
use go_operands::answers::answer::Flaw;
use go_operands::answers::rule::and_flaw;
use std::alloc::Global;

/// The first byte of the package's first file.
const FIRST: Place = Place { file: 0, offset: 0 };

/// Where nothing else is told, that the two generated functions bring the number past 65535.
pub fn or_generated(alloc: Global, flaws: &mut Vec<Flaw>, count: u32) -> Result<(), NoMemory>
    ensures value { OnOk result (map flaw_view flaws.new.items ≡ or_generated count (map flaw_view flaws.old.items)) }
{
    if flaws.is_empty() && count > 65533 {
        return and_flaw(alloc, flaws, FIRST, 79);
    }
    Ok(())
}
