//! The scopes of packages.

ghost use Rattle.std.specs.Prelude.{◌≡◌, [], IfOk, OnOk, OnErr, option_map};
ghost use Rattle.go_operands.specs.Held.{what_in, place_held, declare_held, settle_held, held_at, package_with, enter_held};
ghost use Rattle.go_operands.specs.Holds.{held_packages};

use crate::scopes::declared::Declared;
use crate::scopes::scope::Scope;
use gj_base::{NoMemory, Place, Text};
use indexmap::IndexMap;
use std::alloc::Global;

/// A scope for each package, by its path.
#[derive(Drop)]
pub struct Packages {
    scopes: IndexMap<Vec<u8>, Scope>,
}

impl Packages {
    /// No packages; takes no memory.
    pub fn new(alloc: Global) -> Packages
        ensures { held_packages result ≡ [] }
    {
        Packages {
            scopes: IndexMap::new(alloc),
        }
    }

    /// Gives a package an empty scope, unless it has one. A refusal leaves the scopes as they were.
    pub fn enter(&mut self, path: &[u8]) -> Result<(), NoMemory>
        ensures value { OnOk result (held_packages self.new ≡ enter_held path.now (held_packages self.old)) }
        ensures same { OnErr result (held_packages self.new ≡ held_packages self.old) }
    {
        if self.scopes.contains_key(path) {
            return Ok(());
        }
        let alloc = *self.scopes.allocator();
        let path = Vec::from_slice(alloc, path)?;
        self.scopes.insert(path, Scope::new(alloc))?;
        Ok(())
    }

    /// What a name stands for in the scope of a package.
    pub fn find(&self, path: &[u8], name: &[u8]) -> Option<&Declared>
        ensures value { option_map (λ d. d.now) result ≡ what_in name.now (held_at path.now (held_packages self.now)) }
    {
        match self.scopes.get(path) {
            Some(scope) => scope.find(name),
            None => None,
        }
    }

    /// Where a name is declared in the scope of a package.
    pub fn place(&self, path: &[u8], name: &[u8]) -> Option<Place>
        ensures value { result ≡ place_held name.now (held_at path.now (held_packages self.now)) }
    {
        match self.scopes.get(path) {
            Some(scope) => scope.place(name),
            None => None,
        }
    }

    /// Declares a name in the scope of a package, if there is one.
    pub fn declare(
        &mut self,
        path: &[u8],
        name: Text,
        place: Place,
        what: Declared,
    ) -> Result<Option<Place>, NoMemory>
        ensures answer { IfOk result (λ r. r ≡ place_held name (held_at path.now (held_packages self.old))) }
        ensures value { OnOk result (held_packages self.new ≡ package_with (declare_held (record { name = name; place = place; what = what })) path.now (held_packages self.old)) }
        ensures same { OnErr result (held_packages self.new ≡ held_packages self.old) }
    {
        match self.scopes.get_mut(path) {
            Some(scope) => scope.declare(name, place, what),
            None => Ok(None),
        }
    }

    /// Changes what a name stands for in the scope of a package.
    pub fn settle(&mut self, path: &[u8], name: &[u8], what: Declared)
        ensures value { held_packages self.new ≡ package_with (settle_held name.now what) path.now (held_packages self.old) }
    {
        if let Some(scope) = self.scopes.get_mut(path) {
            scope.settle(name, what);
        }
    }
}
