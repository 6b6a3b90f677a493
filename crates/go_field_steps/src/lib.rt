//! What the frames of fields, members and signatures do at a token, and with the tree that they waited
//! for.
#![tactic(auto)]

pub mod field;
pub mod sig;
