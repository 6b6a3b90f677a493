//! The labels of a function's body, and what its branches may leave.
//!
//! The Go Programming Language Specification (as of Go 1.17), "Labeled statements", "Break statements",
//! "Continue statements". The definitions stand in go_typing.

pub mod blank;
pub mod flaw;
pub mod found;
pub mod target;
pub mod told;

pub use crate::labels::target::Targets;
pub use crate::labels::told::labels_told;
