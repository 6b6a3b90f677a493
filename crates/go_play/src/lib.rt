//! A plain program that plays one run of Go's meaning by a list of moves.
//!
//! The Go Programming Language Specification (as of Go 1.17), "Program initialization and execution".
//! The meaning is defined in `go_core`: `play` answers the state that its `after` has.
#![tactic(auto)]

pub mod dispatch;
pub mod outcomes;
pub mod play;
pub mod turns;
