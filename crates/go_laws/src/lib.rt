//! Laws of the Go meaning that stand beside its definitions.
//!
//! `specs/InOrder.antt` says that numbers of the list of choices are taken in order (The Go
//! Programming Language Specification as of Go 1.17, "Select statements"; the list is own).
#![tactic(auto)]

pub mod laws;
