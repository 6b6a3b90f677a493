//! Gates, and goroutines that wait, in code.
//!
//! The Go Programming Language Specification (as of Go 1.17), "Channel types". Gates are own. The
//! definitions are in `go_core`; what a clause here promises is said by `Talks` of go_partners::selects.

pub mod gates;
pub mod waiting;
