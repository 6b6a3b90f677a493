//! Parts of a node that have no expressions in them.

ghost use Rattle.std.specs.Prelude.{◌≡◌, ◌<◌, true};
ghost use Rattle.go_walk.specs.Steady.{AreSteadyTypes, IsSteadyCallee, IsSteadyPlace};

use go_core::node::{Callee, CorePlace, PlaceForm};
use go_type::types::TypeId;

/// Whether a type is among the first so many.
pub fn is_below(count: u64, t: TypeId) -> bool
    ensures below { result ≡ true → t.0 < count }
{
    t.0 < count
}

/// Whether all of these hold.
pub fn both(a: bool, b: bool) -> bool
    ensures both { result ≡ true → (a ≡ true) × (b ≡ true) }
{
    a && b
}

/// Whether types are among the first so many.
pub fn types_are_steady(count: u64, types: &[TypeId]) -> bool
    ensures steady { result ≡ true → AreSteadyTypes count types.now }
{
    for t in types {
        if !is_below(count, *t) {
            return false;
        }
    }
    true
}

/// Whether a variable denotes storage. Other places are not built yet.
pub fn place_is_steady(place: &CorePlace) -> bool
    ensures steady { result ≡ true → IsSteadyPlace place.now }
{
    match &*place.form {
        PlaceForm::Local(_) => true,
        PlaceForm::Global(_) => true,
        _ => false,
    }
}

/// Whether a function is called by its number. Other calls are not built yet.
pub fn callee_is_steady(callee: &Callee) -> bool
    ensures steady { result ≡ true → IsSteadyCallee callee.now }
{
    match callee {
        Callee::Function(_) => true,
        _ => false,
    }
}
