//! Sends and receives that proceed, in code: what becomes of the channel, of the goroutine's frame,
//! and of the partner.
//!
//! The Go Programming Language Specification (as of Go 1.17), "Send statements", "Receive operator",
//! "Channel types". The definitions are in `go_core`; `specs/Moves.antt` says what a clause here
//! promises.

pub mod done;
pub mod partner;
pub mod take;
