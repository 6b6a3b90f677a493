//! Variables that no expression uses.

ghost use Rattle.std.specs.Prelude.{◌≡◌, ◌∷◌, ◌++◌, [], OnOk, IfOk, map, if◌then◌else◌};
ghost use Rattle.gj_base.specs.declared.place.Place as place;
ghost use Rattle.go_operands.specs.AnswerView.{flaw_view};
ghost use Rattle.go_walk.specs.SetsHas.{has_place};
ghost use Rattle.go_typing.specs.Walk.{is_among, unused};

use crate::labels::flaw::named_flaw;
use crate::sets::PlaceSet;
use crate::walk::walk::Walk;
use gj_base::{NoMemory, Place};
use go_operands::answers::answer::Flaw;
use go_syntax::tree::Name;
use std::alloc::Global;

fn set_of(alloc: Global, places: &[Place]) -> Result<PlaceSet, NoMemory>
    ensures value { IfOk result (λ s. (q : place.Place) → has_place q s ≡ is_among q places.now) }
{
    let mut set = PlaceSet::new(alloc);
    for p in places {
        set.insert(*p)?;
    }
    Ok(set)
}

// A variable, told unless it is used.
fn told_one(flaws: &mut Vec<Flaw>, n: &Name, is_used: bool) -> Result<(), NoMemory>
    ensures value { OnOk result (map flaw_view flaws.new.items ≡ map flaw_view flaws.old.items ++ (if is_used then [] else record { place = n.now.place; code = 80; name = n.now.text } ∷ [])) }
{
    if is_used {
        return Ok(());
    }
    named_flaw(flaws, n, 80)
}

fn unused_names(flaws: &mut Vec<Flaw>, names: &[Name], used: &[Place]) -> Result<(), NoMemory>
    ensures value { OnOk result (map flaw_view flaws.new.items ≡ map flaw_view flaws.old.items ++ unused names.now used.now) }
{
    let used = set_of(*flaws.allocator(), used)?;
    for n in names {
        told_one(flaws, n, used.has(n.place))?;
    }
    Ok(())
}

/// Adds what is told of the variables that no expression uses (80).
pub fn told_unused(walk: &Walk, flaws: &mut Vec<Flaw>) -> Result<(), NoMemory>
    ensures value { OnOk result (map flaw_view flaws.new.items ≡ map flaw_view flaws.old.items ++ unused walk.now.declared.items walk.now.used.items) }
{
    unused_names(flaws, walk.declared.as_slice(), walk.used.as_slice())
}
