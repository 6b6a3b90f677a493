//! Own: whether a tree of the core stands for the same where the table of types grows.
//!
//! A node of the core has its types by their ids in a table. Where all of them are among the first so
//! many ids, and these keep their trees, the node stands for the same.

pub mod expr;
pub mod leaf;

pub use crate::steady::expr::{are_steady, is_steady};
