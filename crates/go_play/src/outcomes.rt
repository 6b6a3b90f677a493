//! The state after a step of the Go meaning, by what the step has answered, in code.
//!
//! The Go Programming Language Specification (as of Go 1.17), "Program execution", "Go statements",
//! "Handling panics". The definitions are in `go_core`; `specs/Outcomes.antt` says what a clause
//! here promises.

pub mod outcome;
pub mod over;
