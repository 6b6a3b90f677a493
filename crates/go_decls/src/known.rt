//! What the names of a package stand for.
//!
//! The Go Programming Language Specification (as of Go 1.17), "Declarations and scope", "Constant
//! declarations", "Iota", "Type declarations". The definitions stand in go_typing
//! (`specs/Known.antt`, `specs/Cycles.antt`).

pub mod constants;
pub mod kinds;
pub mod names;
pub mod numbers;
pub mod pass;
pub mod settled;
pub mod types;

pub use crate::known::names::known;
