//! Nodes of script trees, each made from its parts.
//!
//! ECMA-262 5.1, sections 11 and 12, cut to a subset (docs/SCRIPT.md).
#![tactic(auto)]

pub mod nodes;
pub mod stmt_nodes;
