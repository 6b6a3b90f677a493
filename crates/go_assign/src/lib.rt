//! Values where a statement wants them, branches, assignments, and the types and values of declared
//! constants.
//!
//! The Go Programming Language Specification (as of Go 1.17), "Assignments", "Constant declarations",
//! "Expression statements".
#![tactic(auto)]

pub mod assign;
pub mod branch;
pub mod constants;
pub mod effects;
pub mod valued;
