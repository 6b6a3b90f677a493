//! Laws on the definitions of the checker.
//!
//! The Go Programming Language Specification (as of Go 1.17), "Declarations and scope",
//! "Packages". The definitions stand in `specs/` of `go_typing`, `go_typing` and
//! `go_typing`; here is what holds of them.

pub mod laws;
