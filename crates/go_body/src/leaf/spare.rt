//! Names that a statement declares in which a form stands that is not built yet: they count as used.

ghost use Rattle.std.specs.Prelude.{◌≡◌, true, OnOk, List, drop, map};
ghost use Rattle.go_type.specs.Tree.{Ty};
ghost use Rattle.go_operands.specs.AnswerView.{flaw_view};
ghost use Rattle.go_typing.specs.Statements as go;
ghost use Rattle.go_walk.specs.WalkView.{walk_of};
ghost use Rattle.go_body.specs.Spared.{with_spared};

use gj_base::{NoMemory, Place};
use go_operands::answers::answer::Flaw;
use go_syntax::tree::Name;
use go_walk::walk::Walk;

// Whether one of the faults from this one on is that of a form that is not built yet.
#[tactic(auto, using(crate::proofs::SpareLemmas::unbuilt_here, crate::proofs::SpareLemmas::unbuilt_on, crate::proofs::SpareLemmas::unbuilt_end))]
fn has_unbuilt(flaws: &[Flaw], before: usize) -> bool
    ensures value { result ≡ go.has_unbuilt (map flaw_view (drop before flaws.now)) }
{
    for i in before..flaws.len() {
        if flaws[i].code == 0 {
            return true;
        }
    }
    false
}

// Where the names from this one on stand.
#[tactic(auto, using(crate::proofs::SpareLemmas::places_on, crate::proofs::SpareLemmas::places_end))]
fn and_places(used: &mut Vec<Place>, names: &[Name], before: usize) -> Result<(), NoMemory>
    ensures value { OnOk result (used.new.items ≡ go.and_places true (drop before names.now) used.old.items) }
{
    for i in before..names.len() {
        used.push(names[i].place)?;
    }
    Ok(())
}

/// The names declared since there were so many count as used, where one of the faults told since there
/// were so many is that of a form that is not built yet.
pub fn spare(walk: &mut Walk, flaws: &[Flaw], names: usize, before: usize) -> Result<(), NoMemory>
    ensures value { OnOk result ((ts : List Ty) → walk_of ts walk.new ≡ with_spared (go.has_unbuilt (map flaw_view (drop before flaws.now))) names (walk_of ts walk.old)) }
    ensures env { walk.new.env ≡ walk.old.env }
{
    if has_unbuilt(flaws, before) {
        and_places(&mut walk.used, walk.declared.as_slice(), names)?;
        return Ok(());
    }
    Ok(())
}
