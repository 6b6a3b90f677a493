//! Operations that are reached, in code: the ways in which they can proceed, and the one that is
//! taken.
//!
//! The Go Programming Language Specification (as of Go 1.17), "Send statements", "Receive operator",
//! "Select statements". The definitions are in `go_core`; `specs/Talks.antt` says what a clause here
//! promises.

pub mod offers;
pub mod reach;
