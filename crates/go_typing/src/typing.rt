//! What the nodes of scalar programs are typed as, and which of them are faulty.
//!
//! The Go Programming Language Specification (as of Go 1.17), "Declarations and scope",
//! "Expressions". The definitions stand in `specs/`; a checker's code is held against them.

pub mod laws;
