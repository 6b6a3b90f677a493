//! What the frames of expressions and types do at a token, and with the tree that they waited for.
#![tactic(auto)]

pub mod expr;
pub mod part;
pub mod types;
