//! The functions of a package, with their bodies.
//!
//! The Go Programming Language Specification (as of Go 1.17), "Function declarations". The definitions
//! stand in go_typing (`specs/Functions.antt`).

pub mod all;
pub mod function;

pub use crate::functions::all::functions;
