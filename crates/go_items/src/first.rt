//! Where the check of a package begins: the predeclared types, the type of run-time panics, and the
//! scope of the package, in which nothing is declared.
//!
//! The Go Programming Language Specification (as of Go 1.17), "Run-time panics", "Predeclared
//! identifiers", "Packages". The definitions stand in go_typing (`specs/Known.antt`).

pub mod first;

pub use crate::first::first::{First, first_env};
