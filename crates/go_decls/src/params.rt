//! Parameters and results: what is told of their names, and each as a variable of its function's scope.
//!
//! The Go Programming Language Specification (as of Go 1.17), "Function types", "Function
//! declarations". The definitions stand in go_typing (`specs/Signature.antt`).

pub mod bound;
pub mod names;

pub use crate::params::bound::bind_all;
pub use crate::params::names::names_told;
