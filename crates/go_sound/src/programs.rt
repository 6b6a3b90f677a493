//! Laws on the definitions of the checker: what is a Sound program.
//!
//! The Go Programming Language Specification (as of Go 1.17), "Statements", "Function
//! declarations", "Program execution". The definitions stand in `specs/` of `go_typing` and
//! `go_typing`; here is what holds of them.

pub mod laws;
