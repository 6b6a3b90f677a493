//! Which functions may wait.
//!
//! `specs/Marks.antt` has the rules: the least set that they close (own). The code takes functions and
//! classes as nodes of a graph, with an edge to each node that is marked where this one is, and goes
//! through it from the functions that wait by themselves.
#![tactic(auto)]

pub mod graph;
pub mod keys;
pub mod laws;
pub mod rules;
pub mod untagged;

pub use rules::marks;
