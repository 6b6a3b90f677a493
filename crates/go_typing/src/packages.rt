//! What the declarations of a package of scalar programs are typed as, and what is told of them.
//!
//! The Go Programming Language Specification (as of Go 1.17), "Packages", "Declarations and scope", "Program execution". The
//! definitions stand in `specs/`; a checker's code is held against them.

pub mod laws;
