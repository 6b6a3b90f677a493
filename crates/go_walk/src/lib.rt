//! What is known while the statements of a function are gone through, with the sets, labels, used
//! names and core statements that this takes.
//!
//! The Go Programming Language Specification (as of Go 1.17), "Blocks", "Declarations and scope",
//! "Labeled statements", "Switch statements".
#![tactic(auto)]

pub mod cases;
pub mod labels;
pub mod sets;
pub mod steady;
pub mod stmt_gone;
pub mod stmt_nodes;
pub mod uses;
pub mod walk;
