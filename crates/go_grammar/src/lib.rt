//! Tokens to the tree of a file.
#![tactic(auto)]

pub mod laws;
