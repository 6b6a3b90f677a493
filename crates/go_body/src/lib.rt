//! The bodies of functions: declarations in them, and statements with statements in them.
//!
//! The Go Programming Language Specification (as of Go 1.17), "Blocks", "Statements", "Variable
//! declarations".
#![tactic(auto)]

pub mod body;
pub mod leaf;
pub mod local;
pub mod local_consts;
pub mod local_vars;
