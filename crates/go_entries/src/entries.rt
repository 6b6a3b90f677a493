//! What is called, how its receiver is taken, and the frame that is entered, in code.
//!
//! The Go Programming Language Specification (as of Go 1.17), "Calls", "Method values", "Method
//! sets". The definitions are in `go_core`; `specs/EntriesSeen.antt` says what of them the types here
//! stand for.

pub mod enter;
pub mod receiver;
pub mod resolve;
