//! The rows of names and of literals: what a node without parts is.
//!
//! The Go Programming Language Specification (as of Go 1.17), "Declarations and scope", "Blank
//! identifier", "Constants". The rows stand in go_typing, as `name_row` and the rows of literals in
//! `typing`; each function here gives what its row gives.

pub mod literal;
pub mod name;
