//! Steps that end frames: deferred calls, results that go to the frame below, panics that are
//! handed on, and what is told of one that nobody recovers from, in code.
//!
//! The Go Programming Language Specification (as of Go 1.17), "Defer statements", "Return
//! statements", "Handling panics". The definitions are in `go_core`; `specs/Leaves.antt` says what
//! a clause here promises.

pub mod ends;
pub mod frames;
pub mod report;
pub mod told;
