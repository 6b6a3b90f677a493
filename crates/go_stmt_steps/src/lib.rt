//! The steps of the parser in statements.
//!
//! The Go Programming Language Specification (as of Go 1.17), "Statements".
#![tactic(auto)]

pub mod simple_steps;
pub mod stmt_steps;
