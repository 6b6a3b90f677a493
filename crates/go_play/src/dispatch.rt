//! One step of a goroutine of the Go meaning, by the task that its running frame does, in code.
//!
//! The Go Programming Language Specification (as of Go 1.17), "Program execution", "Statements",
//! "Expressions". The definitions are in `go_core`; `specs/Plays.antt` says what a clause here
//! promises.

pub mod calling;
pub mod dispatch;
pub mod game;
pub mod local;
pub mod output;
pub mod talking;
