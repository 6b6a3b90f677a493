//! Functions by number.

ghost use Rattle.std.specs.Prelude.{◌≡◌, []};

use std::alloc::Global;

/// A function by its number: its place in the program's list.
#[derive(Clone, Copy, Debug, PartialEq, Eq)]
pub struct FuncId(pub u32);

/// The initialisers and `init` functions of a program, in the order in which they run.
#[derive(Drop)]
pub struct Order {
    pub items: Vec<FuncId>,
}

impl Order {
    /// The order of a program that has none.
    pub fn new(alloc: Global) -> Order
        ensures { result.items.items ≡ [] }
    {
        Order {
            items: Vec::new(alloc),
        }
    }
}

/// A set of functions.
#[derive(Drop)]
pub struct FuncSet {
    pub items: Vec<FuncId>,
}

impl FuncSet {
    /// The empty set.
    pub fn new(alloc: Global) -> FuncSet
        ensures { result.items.items ≡ [] }
    {
        FuncSet {
            items: Vec::new(alloc),
        }
    }
}
