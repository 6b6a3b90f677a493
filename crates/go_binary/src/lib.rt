//! Operators between operands: operands at one type, arithmetic, comparisons, shifts, indexes and
//! slices.
//!
//! The Go Programming Language Specification (as of Go 1.17), "Operators", "Index expressions",
//! "Slice expressions".
#![tactic(auto)]

pub mod indexes;
pub mod matched;
pub mod rows;
pub mod shifts;
