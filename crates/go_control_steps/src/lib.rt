//! What the frames of statements with a header do at a token, and with the tree that they waited for.
#![tactic(auto)]

pub mod control;
pub mod switch;
