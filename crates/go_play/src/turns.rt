//! What a goroutine of the Go meaning does whose turn it is, in code.
//!
//! The Go Programming Language Specification (as of Go 1.17), "Program execution", "Go statements".
//! The definitions are in `go_core`.

pub mod end;
pub mod todo;
pub mod turn;
