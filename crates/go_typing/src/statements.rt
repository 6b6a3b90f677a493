//! What the statements of scalar programs are typed as, and what is told of them.
//!
//! The Go Programming Language Specification (as of Go 1.17), "Statements", "Declarations and
//! scope", "Blocks". The definitions stand in `specs/`; a checker's code is held against them.

pub mod laws;
