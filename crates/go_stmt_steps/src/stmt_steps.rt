//! What the frames of statements without a header do at a token, and with the tree that they waited for.

pub mod stmt;
