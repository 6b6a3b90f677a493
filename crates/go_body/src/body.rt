//! The body of a function: statements with statements in them.
//!
//! The Go Programming Language Specification (as of Go 1.17), "Blocks", "If statements", "For
//! statements", "Switch statements", "Labeled statements", "Terminating statements". The definitions
//! stand in go_typing (`specs/Statements.antt`).

pub mod body;
pub mod plain;
pub mod stmt;

pub use crate::body::body::function_body;
