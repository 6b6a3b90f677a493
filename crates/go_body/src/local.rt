//! Declarations in functions: types here, variables and constants in crates of their own.
//!
//! The Go Programming Language Specification (as of Go 1.17), "Type declarations", "Declarations and
//! scope". The definitions stand in go_typing (`specs/Declare.antt`).

pub mod bare;
pub mod decl;
pub mod types;
