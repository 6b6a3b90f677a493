//! Sets of places.

ghost use Rattle.std.specs.Prelude.{◌≡◌, ◌||◌, false, OnOk, OnErr};
ghost use Rattle.gj_base.specs.declared.place.Place as place;
ghost use Rattle.go_walk.specs.SetsHas.{has_place, same_place};

use gj_base::{NoMemory, Place};
use indexmap::IndexSet;
use std::alloc::Global;

/// Places. A look-up takes the same time however many they are.
#[derive(Drop)]
pub struct PlaceSet {
    places: IndexSet<Place>,
}

impl PlaceSet {
    /// No places; takes no memory.
    pub fn new(alloc: Global) -> PlaceSet
        ensures { (q : place.Place) → has_place q result ≡ false }
    {
        PlaceSet {
            places: IndexSet::new(alloc),
        }
    }

    /// One place more; a refusal leaves the set as it was.
    pub fn insert(&mut self, p: Place) -> Result<(), NoMemory>
        ensures value { OnOk result ((q : place.Place) → has_place q self.new ≡ (same_place q p || has_place q self.old)) }
        ensures same { OnErr result ((q : place.Place) → has_place q self.new ≡ has_place q self.old) }
    {
        self.places.insert(p)?;
        Ok(())
    }

    /// Whether a place is there.
    pub fn has(&self, p: Place) -> bool
        ensures value { result ≡ has_place p self.now }
    {
        self.places.contains(&p)
    }
}
