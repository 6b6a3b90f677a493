//! Which nodes of a graph are on a cycle, and an order of the others, in time by the graph and a sort.
//!
//! A walk in depth finds components, and a walk back from each component's first node the ways back.
//! What they found is then tested, node by node and edge by edge: the answer rests on that test, and
//! nothing is said of the walks themselves. Where the test fails, a plain search answers.
#![tactic(auto)]

pub mod component;
pub mod cycles;
pub mod joined;
mod list;
mod plain;
mod ranked;
pub mod reversed;

pub use cycles::{Lasting, lasting_in};

#[cfg(test)]
mod tests;
