//! That variables in slots are the variables of the meaning of scripts. No function here does anything.

ghost use Rattle.js_code.specs.Slots.{ReadsSlots, SetsPlace, SetsSlot, BindsSlots, StandOnce};

/// The value of a name is what its place holds, an assignment sets its target, and arguments are
/// in the first slots.
pub fn variables_in_slots()
    ensures reads { ReadsSlots }
    ensures sets { SetsPlace }
    ensures slots { SetsSlot }
    ensures binds { BindsSlots }
    ensures once { StandOnce }
{}
