//! What is told of the names of a package's scope.
//!
//! The Go Programming Language Specification (as of Go 1.17), "Uniqueness of identifiers", "Package
//! initialization". The definitions stand in go_typing (`specs/Told.antt`).

pub mod names;

pub use crate::told::names::names_told;
