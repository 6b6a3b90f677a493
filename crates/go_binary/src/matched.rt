//! Both operands of an operator at one type, as far as they are of one.
//!
//! The Go Programming Language Specification (as of Go 1.17), "Operators", "Comparison operators",
//! "Assignability". The definition stands in go_typing, as `matched`; each function here gives what its
//! definition gives.

pub mod beside;
pub mod matched;
pub mod sides;
pub mod typed;
pub mod untyped;
