//! Calls and conversions: what is called, what it is given, and the rows of names and literals.
//!
//! The Go Programming Language Specification (as of Go 1.17), "Calls", "Conversions", "Operands".
#![tactic(auto)]

pub mod callee;
pub mod calls;
pub mod conversions;
pub mod given;
pub mod names;
