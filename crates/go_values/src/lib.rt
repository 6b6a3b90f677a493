//! Values of Go's meaning in code: the scalars and texts of a run, how they lie in memory, when they
//! are equal, and the steps of operators on them.
//!
//! The Go Programming Language Specification (as of Go 1.17), "Operators", "Comparison operators",
//! "Size and alignment guarantees".
#![tactic(auto)]

pub mod layouts;
pub mod operators;
pub mod values;
