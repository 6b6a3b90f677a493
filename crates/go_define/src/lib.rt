//! Short variable declarations, updates, and statements without blocks.
//!
//! The Go Programming Language Specification (as of Go 1.17), "Short variable declarations",
//! "Assignments", "IncDec statements", "Return statements".
#![tactic(auto)]

pub mod define;
pub mod simple;
pub mod update;
