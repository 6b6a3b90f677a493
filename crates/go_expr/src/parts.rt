//! Nodes of expressions from their parts: a typed part waits on a stack until the node round it takes
//! it.
//!
//! The Go Programming Language Specification (as of Go 1.17), "Expressions". The rows stand in
//! go_typing (`specs/Typing.antt`).

pub mod calls;
pub mod leaf;
pub mod node;
pub mod slices;
pub mod stack;
