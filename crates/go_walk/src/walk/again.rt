//! Names that their scope has already.

ghost use Rattle.std.specs.Prelude.{◌≡◌, ◌++◌, OnOk, map};
ghost use Rattle.go_operands.specs.AnswerView.{flaw_view};
ghost use Rattle.go_typing.specs.Walk.{redeclared};

use crate::labels::flaw::named_flaw;
use gj_base::{NoMemory, Place};
use go_operands::answers::answer::Flaw;
use go_syntax::tree::Name;

/// Adds what is told of a name that stands where its scope has it from (82).
pub fn redeclared(flaws: &mut Vec<Flaw>, n: &Name, at: Option<Place>) -> Result<(), NoMemory>
    ensures value { OnOk result (map flaw_view flaws.new.items ≡ map flaw_view flaws.old.items ++ redeclared n.now at) }
{
    match at {
        Some(_) => named_flaw(flaws, n, 82),
        None => Ok(()),
    }
}
