//! Who waits at which operation, which operation is ready, and who can move, in code.
//!
//! The Go Programming Language Specification (as of Go 1.17), "Channel types", "Send statements",
//! "Receive operator", "Select statements". Gates are own. The definitions are in `go_core`;
//! nothing is changed here.

pub mod gates;
pub mod moves;
pub mod partners;
pub mod ready;
