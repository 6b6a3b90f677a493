//! The order in which package variables are set and `init` functions are called.
//!
//! The Go Programming Language Specification (as of Go 1.17), "Package initialization":
//! `specs/InitOrder.antt`. The code takes variables and functions as nodes of a graph, finds what
//! depends on itself by its components, and then sets one ready variable after the other.
#![tactic(auto)]

pub mod laws;
pub mod order;
pub mod packages;
pub mod references;
pub mod settle;

pub use order::init_order;
