//! What of a file waits for a tree while it is parsed, how productions begin, and how they end.
//!
//! The Go Programming Language Specification (as of Go 1.17), "Source file organization",
//! "Statements", "Expressions".
#![tactic(auto)]

pub mod begins;
pub mod ends;
pub mod frames;
