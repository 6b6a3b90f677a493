//! Assignments and package variables that are set, in code.
//!
//! The Go Programming Language Specification (as of Go 1.17), "Assignments", "Package
//! initialization". The definitions are in `go_core`.

pub mod assign;
pub mod counts;
pub mod find;
pub mod globals;
