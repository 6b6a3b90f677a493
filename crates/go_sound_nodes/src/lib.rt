//! Whether the nodes of a core program are sound: expressions, places and statements.
//!
//! `Sound` of `go_core` says which nodes those are (The Go Programming Language Specification as of
//! Go 1.17, "Expressions", "Statements", "Declarations and scope").
#![tactic(auto)]

mod expr;
pub mod judge;
mod place;
mod plain;
pub mod round;
mod statements;
mod targets;
