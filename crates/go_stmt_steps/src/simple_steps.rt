//! What the frames of simple statements and of declarations do at a token, and with the tree that
//! they waited for.

pub mod decl;
pub mod simple;
