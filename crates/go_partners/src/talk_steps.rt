//! Communication: the steps of sends, receives, selects and closes, in code.
//!
//! The Go Programming Language Specification (as of Go 1.17), "Send statements", "Receive operator",
//! "Select statements", "Close". The definitions are in `go_core`; what a clause here promises is
//! said by `Talks` of go_partners::selects.

pub mod close;
pub mod select;
