//! Frames, goroutines and the state of a run of the Go meaning, in code.
//!
//! The Go Programming Language Specification (as of Go 1.17), "Program execution". The definitions
//! are in `go_core`; `specs/StateSeen.antt` says what of them the types here stand for.

pub mod branch;
pub mod frame;
pub mod laws;
pub mod next;
pub mod stack;
pub mod state;
pub mod todo;
