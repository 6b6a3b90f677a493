//! Variables that statements set: ECMA-262 5.1, 8.7.2, 11.13 and 12.2.

ghost use Rattle.std.specs.Prelude.{◌≡◌, Some, slice_set};

use crate::frames::state::{State, set_slot};
use js_value::heap::Value;

/// Sets a local of the call that runs, by its slot.
pub fn set_local<'a>(state: &mut State<'_, 'a>, slot: u32, v: Value<'a>)
    ensures value { state.new.locals.items ≡ slice_set state.old.locals.items slot (Some v.entry) }
    ensures same { state.new ≡ record state.old { locals = state.new.locals } }
{
    set_slot(state.locals.as_mut_slice(), slot, v);
}

/// Sets a top-level variable, by its slot.
pub fn set_global<'a>(state: &mut State<'_, 'a>, slot: u32, v: Value<'a>)
    ensures value { state.new.globals.items ≡ slice_set state.old.globals.items slot (Some v.entry) }
    ensures same { state.new ≡ record state.old { globals = state.new.globals } }
{
    set_slot(state.globals.as_mut_slice(), slot, v);
}
