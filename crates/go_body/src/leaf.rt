//! What stands before, between and after the statements within a statement, and what is told of a
//! function's body as a whole.
//!
//! The Go Programming Language Specification (as of Go 1.17), "If statements", "For statements", "Switch
//! statements", "Terminating statements". The definitions stand in go_typing
//! (`specs/Statements.antt`).

pub mod leaf;
pub mod made;
pub mod spare;
pub mod stand;
pub mod tagged;
pub mod whole;
