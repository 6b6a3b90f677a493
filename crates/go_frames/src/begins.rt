//! What the parser does at a token with which a production begins, and the lists in frames with one
//! more at their end.

pub mod control;
pub mod decl;
pub mod expr;
pub mod lists;
pub mod simple;
pub mod stmt;
pub mod types;
