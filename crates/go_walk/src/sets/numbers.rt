//! Names with a number each.

ghost use Rattle.std.specs.Prelude.{◌≡◌, ℕ, List, None, OnOk, OnErr};
ghost use Rattle.go_walk.specs.SetsHas.{number_of, with_number};

use gj_base::{NoMemory, Text};
use indexmap::IndexMap;
use std::alloc::Global;

/// Names with a number each. A look-up takes the same time however many they are.
#[derive(Drop)]
pub struct NameMap<'a> {
    numbers: IndexMap<&'a Text, usize>,
}

impl<'a> NameMap<'a> {
    /// No names; takes no memory.
    pub fn new(alloc: Global) -> NameMap<'a>
        ensures { (y : List ℕ) → number_of y result ≡ None }
    {
        NameMap {
            numbers: IndexMap::new(alloc),
        }
    }

    /// Gives a name a number, unless it has one; a refusal leaves all as it was.
    pub fn insert(&mut self, x: &'a Text, number: usize) -> Result<(), NoMemory>
        ensures value { OnOk result ((y : List ℕ) → number_of y self.new ≡ with_number x.now number (number_of y self.old) y) }
        ensures same { OnErr result ((y : List ℕ) → number_of y self.new ≡ number_of y self.old) }
    {
        if self.numbers.contains_key(&x) {
            return Ok(());
        }
        self.numbers.insert(x, number)?;
        Ok(())
    }

    /// The number of a name, if it has one.
    pub fn number(&self, x: &'a Text) -> Option<usize>
        ensures value { result ≡ number_of x.now self.now }
    {
        self.numbers.get(&x).copied()
    }
}
