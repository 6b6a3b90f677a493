//! A plain program that plays one run of the Go meaning by a list of moves.
//!
//! The Go Programming Language Specification (as of Go 1.17), "Program initialization and
//! execution". The meaning is defined in `go_core`: `play` answers the state that its `after` has.

pub mod play;
pub mod step;
