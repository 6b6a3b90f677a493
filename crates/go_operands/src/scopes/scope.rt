//! One scope: its names in order of declaration, each found by a hash.

ghost use Rattle.std.specs.Prelude.{◌≡◌, [], OnOk, OnErr, IfOk, option_map};
ghost use Rattle.go_operands.specs.Held.{Held, what_in, place_held, declare_held, settle_held};
ghost use Rattle.go_operands.specs.Holds.{held};

use crate::scopes::declared::{Declaration, Declared};
use gj_base::{NoMemory, Place, Text};
use indexmap::IndexMap;
use std::alloc::Global;

/// A scope. A look-up takes the same time however many names it has.
#[derive(Drop)]
pub struct Scope {
    binds: IndexMap<Vec<u8>, Declaration>,
}

impl Scope {
    /// No names; takes no memory.
    pub fn new(alloc: Global) -> Scope
        ensures { held result ≡ [] }
    {
        Scope {
            binds: IndexMap::new(alloc),
        }
    }

    /// What a name stands for.
    pub fn find(&self, name: &[u8]) -> Option<&Declared>
        ensures value { option_map (λ d. d.now) result ≡ what_in name.now (held self.now) }
    {
        match self.binds.get(name) {
            Some(declaration) => Some(&declaration.what),
            None => None,
        }
    }

    /// Where a name is declared.
    pub fn place(&self, name: &[u8]) -> Option<Place>
        ensures value { result ≡ place_held name.now (held self.now) }
    {
        match self.binds.get(name) {
            Some(declaration) => Some(declaration.place),
            None => None,
        }
    }

    /// Declares a name. One that is there stays what it was, and its place is told. A refusal leaves the
    /// scope as it was.
    ///
    /// Go, "Declarations and scope": "No identifier may be declared twice in the same block".
    pub fn declare(
        &mut self,
        name: Text,
        place: Place,
        what: Declared,
    ) -> Result<Option<Place>, NoMemory>
        ensures answer { IfOk result (λ r. r ≡ place_held name (held self.old)) }
        ensures value { OnOk result (held self.new ≡ declare_held (record { name = name; place = place; what = what }) (held self.old)) }
        ensures same { OnErr result (held self.new ≡ held self.old) }
    {
        if let Some(earlier) = self.place(name.as_bytes()) {
            return Ok(Some(earlier));
        }
        self.binds
            .insert(name.into_vec(), Declaration { place, what })?;
        Ok(None)
    }

    /// Changes what a name stands for. One that isn't there stays so.
    pub fn settle(&mut self, name: &[u8], what: Declared)
        ensures value { held self.new ≡ settle_held name.now what (held self.old) }
    {
        if let Some(declaration) = self.binds.get_mut(name) {
            declaration.what = what;
        }
    }
}
