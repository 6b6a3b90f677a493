//! What a user is told of all that is told.

ghost use Rattle.std.specs.Prelude.{◌≡◌, IfOk, map};
ghost use Rattle.go_operands.specs.AnswerView.{flaw_view};
ghost use Rattle.go_typing.specs.Checked.{or_generated};
ghost use Rattle.go_stmt.specs.Checks.{fault_with, Refuses, Judges};

use gj_base::{Fault, NoMemory, Refusal};
use go_items::least::{least, or_generated};
use go_operands::answers::answer::Flaw;
use std::alloc::Global;

// A fault with the name that is told of it.
fn fault_with(flaw: &Flaw) -> Result<Fault, NoMemory>
    ensures value { IfOk result (λ f. f ≡ fault_with (flaw_view flaw.now)) }
{
    let text = flaw.name.clone()?;
    Ok(Fault {
        place: flaw.place,
        code: flaw.code,
        text,
    })
}

fn refusal_of(flaw: &Flaw) -> Refusal
    ensures value { Refuses result (flaw_view flaw.now) }
{
    match fault_with(flaw) {
        Ok(fault) => Refusal::Fault(fault),
        Err(_) => Refusal::NoMemory,
    }
}

/// Whether nothing is told of a package with so many functions; the least fault else.
pub fn judge(alloc: Global, flaws: Vec<Flaw>, count: u32) -> Result<(), Refusal>
    ensures value { Judges result (or_generated count (map flaw_view flaws.items)) }
{
    let mut flaws = flaws;
    or_generated(alloc, &mut flaws, count)?;
    match least(flaws.as_slice()) {
        Some(flaw) => Err(refusal_of(flaw)),
        None => Ok(()),
    }
}
