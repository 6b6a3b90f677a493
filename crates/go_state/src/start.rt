//! The state of the Go meaning before the first move of a run, in code.
//!
//! The Go Programming Language Specification (as of Go 1.17), "Program initialization and
//! execution". The definitions are in `go_core`.

pub mod globals;
pub mod start;
pub mod tasks;
