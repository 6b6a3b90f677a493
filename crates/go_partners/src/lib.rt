//! Communication in Go's meaning: partners, sends and receives, `select`, gates, goroutines that
//! wait, and what a program prints.
//!
//! The Go Programming Language Specification (as of Go 1.17), "Channel types", "Send statements",
//! "Receive operator", "Select statements".
#![tactic(auto)]

pub mod exchanges;
pub mod output_steps;
pub mod partners;
pub mod selects;
pub mod talk_steps;
pub mod waits;
