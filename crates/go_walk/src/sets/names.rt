//! Sets of names.

ghost use Rattle.std.specs.Prelude.{◌≡◌, ◌||◌, ℕ, List, false, OnOk, OnErr, bytes_eq};
ghost use Rattle.go_walk.specs.SetsHas.{has_name};

use gj_base::{NoMemory, Text};
use indexmap::IndexSet;
use std::alloc::Global;

/// Names. A look-up takes the same time however many they are.
#[derive(Drop)]
pub struct NameSet<'a> {
    names: IndexSet<&'a Text>,
}

impl<'a> NameSet<'a> {
    /// No names; takes no memory.
    pub fn new(alloc: Global) -> NameSet<'a>
        ensures { (y : List ℕ) → has_name y result ≡ false }
    {
        NameSet {
            names: IndexSet::new(alloc),
        }
    }

    /// One name more; a refusal leaves the set as it was.
    pub fn insert(&mut self, x: &'a Text) -> Result<(), NoMemory>
        ensures value { OnOk result ((y : List ℕ) → has_name y self.new ≡ (bytes_eq y x.now || has_name y self.old)) }
        ensures same { OnErr result ((y : List ℕ) → has_name y self.new ≡ has_name y self.old) }
    {
        self.names.insert(x)?;
        Ok(())
    }

    /// Whether a name is there.
    pub fn has(&self, x: &'a Text) -> bool
        ensures value { result ≡ has_name x.now self.now }
    {
        self.names.contains(&x)
    }
}
