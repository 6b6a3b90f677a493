//! Nodes of the core tree of expressions, each from its parts.
//!
//! The tree is that of go_core; a clause here says which tree of `specs/CoreTree.antt` there a node
//! stands for, whatever its types' ids stand for.

pub mod form;
pub mod gone;
pub mod leaf;
pub mod list;
pub mod node;
pub mod pair;
