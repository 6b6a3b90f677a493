//! The scopes that are open inside a package, from the outside in.

ghost use Rattle.std.specs.Prelude.{◌≡◌, ◌<◌, ◌++◌, [], ◌∷◌, IsTrue, IfOk, OnOk, OnErr, length, option_map};
ghost use Rattle.go_operands.specs.Held.{seek, sought, last_with, last_of, place_held, declare_held, settle_held, without_innermost};
ghost use Rattle.go_operands.specs.Holds.{held_blocks};

use crate::scopes::declared::Declared;
use crate::scopes::scope::Scope;
use gj_base::{NoMemory, Place, Text};
use std::alloc::Global;

/// Scopes within one another, the innermost last.
#[derive(Drop)]
pub struct Blocks {
    scopes: Vec<Scope>,
}

impl Blocks {
    /// No scopes; takes no memory.
    pub fn new(alloc: Global) -> Blocks
        ensures { held_blocks result ≡ [] }
    {
        Blocks {
            scopes: Vec::new(alloc),
        }
    }

    /// How many there are.
    pub fn len(&self) -> usize
        ensures { result ≡ length (held_blocks self.now) }
    {
        self.scopes.len()
    }

    /// Opens a scope. A refusal leaves the scopes as they were.
    pub fn push(&mut self) -> Result<(), NoMemory>
        ensures value { OnOk result (held_blocks self.new ≡ held_blocks self.old ++ [] ∷ []) }
        ensures same { OnErr result (held_blocks self.new ≡ held_blocks self.old) }
    {
        let scope = Scope::new(*self.scopes.allocator());
        self.scopes.push(scope)?;
        Ok(())
    }

    /// Closes the innermost scope, if there is one.
    pub fn pop(&mut self)
        ensures value { held_blocks self.new ≡ without_innermost (held_blocks self.old) }
    {
        self.scopes.pop();
    }

    /// Closes all scopes.
    pub fn clear(&mut self)
        ensures value { held_blocks self.new ≡ [] }
    {
        self.scopes.clear();
    }

    /// What a name stands for in the innermost scope that has it.
    pub fn find(&self, name: &[u8]) -> Option<&Declared>
        ensures value { option_map (λ d. d.now) result ≡ seek name.now (held_blocks self.now) }
    {
        let mut i = self.scopes.len();
        while i > 0 {
            i -= 1;
            if let Some(what) = self.scopes[i].find(name) {
                return Some(what);
            }
        }
        None
    }

    /// Where the innermost declaration of a name stands.
    pub fn origin(&self, name: &[u8]) -> Option<Place>
        ensures value { result ≡ sought name.now (held_blocks self.now) }
    {
        let mut i = self.scopes.len();
        while i > 0 {
            i -= 1;
            if let Some(place) = self.scopes[i].place(name) {
                return Some(place);
            }
        }
        None
    }

    /// Where a name is declared in the innermost scope.
    pub fn place(&self, name: &[u8]) -> Option<Place>
        requires { 0 < length (held_blocks self.now) }
        ensures value { result ≡ place_held name.now (last_of (held_blocks self.now)) }
    {
        let last = self.scopes.len() - 1;
        self.scopes[last].place(name)
    }

    /// Declares a name in the innermost scope.
    pub fn declare(
        &mut self,
        name: Text,
        place: Place,
        what: Declared,
    ) -> Result<Option<Place>, NoMemory>
        requires { 0 < length (held_blocks self.old) }
        ensures answer { IfOk result (λ r. r ≡ place_held name (last_of (held_blocks self.old))) }
        ensures value { OnOk result (held_blocks self.new ≡ last_with (declare_held (record { name = name; place = place; what = what })) (held_blocks self.old)) }
        ensures same { OnErr result (held_blocks self.new ≡ held_blocks self.old) }
    {
        let last = self.scopes.len() - 1;
        self.scopes[last].declare(name, place, what)
    }

    /// Changes what a name of the innermost scope stands for.
    pub fn settle(&mut self, name: &[u8], what: Declared)
        requires { 0 < length (held_blocks self.old) }
        ensures value { held_blocks self.new ≡ last_with (settle_held name.now what) (held_blocks self.old) }
    {
        let last = self.scopes.len() - 1;
        self.scopes[last].settle(name, what);
    }
}
