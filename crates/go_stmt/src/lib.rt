//! The check of a package of scalar programs: its functions with their bodies, and the whole.
//!
//! The Go Programming Language Specification (as of Go 1.17), "Packages", "Program execution".
#![tactic(auto)]

pub mod functions;
pub mod stmt;

pub use stmt::{check, gone_program, root_files};
