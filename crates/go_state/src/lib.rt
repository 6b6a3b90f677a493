//! The state of a run of Go's meaning: goroutines, frames and what they have left to do, the
//! beginning of a run, and the steps that change their frame alone.
//!
//! The Go Programming Language Specification (as of Go 1.17), "Program execution", "Statements", "For
//! statements with range clause".
#![tactic(auto)]

pub mod bindings;
pub mod frame_steps;
pub mod ranges;
pub mod start;
pub mod state;
pub mod tasks;
