//! The core program, which the checker gives and the translation takes, and what it means in Go.
//!
//! `specs/CoreTree.antt` has the tree that contracts see, `specs/Run.antt` its runs (The Go
//! Programming Language Specification as of Go 1.17, "Program initialization and execution").
#![tactic(auto)]

pub mod meaning;
pub mod node;
pub mod program;
pub mod statement;
pub mod tree;
pub mod typing;

pub use tree::{FuncId, FuncSet, Order};
