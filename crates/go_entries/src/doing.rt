//! Which step a task of the text is, and how many operands it takes, in code.
//!
//! The Go Programming Language Specification (as of Go 1.17), "Order of evaluation", "Statements".
//! The definitions are in `go_core`; `specs/DoingSeen.antt` says which of its tasks a `Doing` stands for.

pub mod counts;
pub mod doing;
pub mod task;
