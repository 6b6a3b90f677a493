//! What is told of the declarations of a package, bodies of functions and names aside.
//!
//! The Go Programming Language Specification (as of Go 1.17), "Constant declarations", "Type
//! declarations", "Program execution". The definitions stand in go_typing (`specs/Told.antt`).

pub mod constants;
pub mod decls;
pub mod functions;

pub use crate::decls::decls::decls_told;
