//! Faults that tell a name.

ghost use Rattle.std.specs.Prelude.{◌≡◌, ◌∷◌, ◌++◌, [], OnOk, map};
ghost use Rattle.go_operands.specs.AnswerView.{flaw_view};

use gj_base::NoMemory;
use go_operands::answers::answer::Flaw;
use go_syntax::tree::Name;

/// One fault more, at a name; a refusal leaves the faults as they were.
pub fn named_flaw(flaws: &mut Vec<Flaw>, n: &Name, code: u16) -> Result<(), NoMemory>
    ensures value { OnOk result (map flaw_view flaws.new.items ≡ map flaw_view flaws.old.items ++ record { place = n.now.place; code = code; name = n.now.text } ∷ []) }
{
    let name = n.text.clone()?;
    flaws.push(Flaw {
        place: n.place,
        code,
        name,
    })?;
    Ok(())
}
