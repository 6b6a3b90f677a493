//! Statements of the core tree, each from its parts, and after which of them control doesn't come to
//! the end of a body.
//!
//! The tree is that of go_core; a clause here says which tree of `specs/CoreTree.antt` there a
//! statement stands for, whatever its types' ids stand for.

pub mod branch;
pub mod breaks;
pub mod ends;
pub mod simple;
pub mod store;
