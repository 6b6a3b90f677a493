//! What the names of a program stand for: scopes as they are entered, left and filled, and the types
//! that are declared.
//!
//! The Go Programming Language Specification (as of Go 1.17), "Blocks", "Declarations and scope",
//! "Predeclared identifiers", "Integer literals", "Rune literals". The definitions stand in go_typing
//! (`specs/Env.antt`, `specs/Scopes.antt`, `specs/Literal.antt`), and `specs/View.antt` leads to them.

mod blocks;
pub mod declared;
pub mod env;
mod iota;
pub mod literal;
mod packages;
pub mod scope;
mod universe;

pub use crate::scopes::declared::Declared;
pub use crate::scopes::env::Env;
