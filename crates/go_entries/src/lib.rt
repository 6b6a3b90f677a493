//! Calls in Go's meaning, the ends of frames, panics, and the steps of a frame on memory.
//!
//! The Go Programming Language Specification (as of Go 1.17), "Calls", "Defer statements", "Handling
//! panics", "Assignments".
#![tactic(auto)]

pub mod assign_steps;
pub mod call_steps;
pub mod doing;
pub mod end_steps;
pub mod entries;
pub mod local_steps;
