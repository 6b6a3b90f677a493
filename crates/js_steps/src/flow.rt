//! Statements in order, and what is done when a statement was completed or a value thrown.
//! ECMA-262 5.1, cut to a subset.

pub mod back;
pub mod jumps;
pub mod order;
