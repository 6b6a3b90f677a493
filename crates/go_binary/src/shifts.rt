//! The row of shifts: what a shift is, from what its parts are.
//!
//! The Go Programming Language Specification (as of Go 1.17), "Operators" (shifts). The row stands in
//! go_typing, as `shift_row`; each function here gives what its definition gives.

pub mod count;
pub mod shift;
