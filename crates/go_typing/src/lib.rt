//! The definitions of typing for scalar programs: expressions, statements, packages. Nothing here
//! runs but rows that the check computes.
//!
//! The Go Programming Language Specification (as of Go 1.17), "Expressions", "Statements",
//! "Declarations and scope", "Packages".
#![tactic(auto)]

pub mod packages;
pub mod statements;
pub mod typing;
