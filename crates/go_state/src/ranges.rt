//! How far a range has come, and what it produces next, in code.
//!
//! The Go Programming Language Specification (as of Go 1.17), "For statements with range clause".
//! The definitions are in go_core's specs/Control; `specs/RangesFound.antt` says what an answer stands for.

pub mod begun;
mod entries;
pub mod next;
