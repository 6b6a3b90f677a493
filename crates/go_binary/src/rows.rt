//! The rows of operators between operands: what a node is, from what its parts are.
//!
//! The Go Programming Language Specification (as of Go 1.17), "Operators" and its parts. The rows stand
//! in go_typing, as `binary_row` and `operator_row`; each function here gives what its definition gives.

pub mod arithmetic;
pub mod binary;
pub mod comparison;
pub mod logical;
