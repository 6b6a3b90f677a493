//! What is indexed, and by what.

use gj_base::Place;
use go_core::node::CoreExpr;
use go_operands::answers::answer::{Flaws, Operand};
use go_type::types::TypeId;

/// What is indexed or sliced.
pub enum Indexed {
    /// A string with its type, and the length of a constant one in bytes.
    Text(CoreExpr, TypeId, Option<usize>),
    /// A type whose rows are not built yet.
    Unbuilt,
    Other,
    Unfit(Flaws),
}

/// An index, or a bound of a slice.
pub enum Index {
    /// With its value where it is a constant.
    Value(CoreExpr, Option<u32>),
    /// No integer, or a constant that is negative or greater than each `int`.
    None,
    Unfit(Flaws),
}

/// A bound with its place, if there is one.
pub enum Edge {
    Open,
    At(Place, Box<Index>),
}

/// A part where a value is due: where it stands, and its value, if it is one.
pub struct Valued {
    pub place: Place,
    pub value: Option<Box<Operand>>,
}
