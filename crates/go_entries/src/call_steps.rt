//! Steps that make frames and goroutines, deferred calls, results that are set, panics and
//! `recover`, in code.
//!
//! The Go Programming Language Specification (as of Go 1.17), "Calls", "Go statements", "Defer
//! statements", "Return statements", "Handling panics". The definitions are in `go_core`;
//! `specs/Enters.antt` says what a clause here promises.

pub mod calls;
pub mod panics;
pub mod results;
