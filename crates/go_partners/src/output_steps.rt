//! What a program of the Go meaning prints, and the ends that it asks for, in code.
//!
//! The Go Programming Language Specification (as of Go 1.17), "Bootstrapping". The definitions are
//! in `go_core`; `specs/Tells.antt` says what a clause here promises.

pub mod ends;
pub mod print;
