//! Steps of a frame that change nothing but itself, the memory and the units: operators, variables
//! and ranges, in code.
//!
//! The Go Programming Language Specification (as of Go 1.17), "Expressions", "Variable
//! declarations", "For statements with range clause". The definitions are in `go_core`.

pub mod operate;
pub mod range;
pub mod variables;
