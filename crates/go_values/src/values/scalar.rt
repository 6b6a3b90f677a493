//! What memory holds.
//!
//! The Go Programming Language Specification (as of Go 1.17), "Variables", "Types". Values are
//! lists of scalars in an arena: they are copied by reference, and live as long as the arena.

ghost use Rattle.std.specs.Prelude.{◌≡◌, List};
ghost use Rattle.go_type.specs.Tree.{Ty};
ghost use Rattle.go_type.specs.Levels.{tree_of};
ghost use Rattle.go_core.specs.Memory as core;
ghost use Rattle.go_core.specs.Memory.{packed};
ghost use Rattle.go_values.specs.ValuesSeen.{scalar_of, value_of};

use go_type::types::TypeId;

/// What one place of memory holds.
#[derive(Clone, Copy)]
pub enum Scalar<'a> {
    Truth(bool),
    Whole(i128),
    Text(&'a [u8]),
    Nil,
    /// The base of a variable.
    Pointer(u64),
    Slice {
        base: u64,
        length: u64,
        capacity: u64,
    },
    /// A function by its number, with the bases of the variables that it captured.
    Function {
        func: u64,
        bases: &'a [u64],
    },
    /// A method by the place of its row, with a copy of its receiver.
    BoundMethod {
        row: u64,
        receiver: &'a [Scalar<'a>],
    },
    /// The type of what an interface value holds, and that.
    Interface {
        ty: TypeId,
        content: &'a [Scalar<'a>],
    },
    /// A map by its place.
    Map(u64),
    /// A channel by its place.
    Channel(u64),
}

/// The zero of pointers, slices, functions, interface values, maps and channels.
pub fn nil<'a>() -> Scalar<'a>
    ensures value { (ts : List Ty) → scalar_of ts result ≡ core.nil }
{
    Scalar::Nil
}

/// A truth value.
pub fn truth<'a>(b: bool) -> Scalar<'a>
    ensures value { (ts : List Ty) → scalar_of ts result ≡ core.truth b }
{
    Scalar::Truth(b)
}

/// An interface value that holds a value of the type.
pub fn interface_value<'a>(ty: TypeId, content: &'a [Scalar<'a>]) -> Scalar<'a>
    ensures value { (ts : List Ty) → scalar_of ts result ≡ core.interface (tree_of ts ty) (packed (value_of ts content.now)) }
{
    Scalar::Interface { ty, content }
}
