//! The typing of expressions: nodes from their parts, and the recursion over the tree.
//!
//! The Go Programming Language Specification (as of Go 1.17), "Expressions".
#![tactic(auto)]

pub mod expr;
pub mod parts;
pub mod typed;

pub use expr::{Typed, answer_in, numbers_fit, type_expr};
