//! What the files of a package declare, what needs itself, where the check of a package begins, and
//! which fault is the least.
//!
//! The Go Programming Language Specification (as of Go 1.17), "Packages", "Declarations and scope".
#![tactic(auto)]

pub mod binds;
pub mod first;
pub mod hidden;
pub mod items;
pub mod least;
pub mod needed;
pub mod needs;
