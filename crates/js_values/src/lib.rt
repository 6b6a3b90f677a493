//! Expressions, places and simple statements of the core, in a body under translation. Machines and plain
//! functions share them.
//!
//! One function goes over the tree of expressions, and leaves the values of each node on the stack. What
//! a node does with the values of its parts is a function of its own, which goes over no tree.
#![tactic(auto)]

pub mod calls;
pub mod channels;
pub mod compare;
pub mod composites;
pub mod constants;
pub mod expr;
pub mod globals;
pub mod interfaces;
pub mod logic;
pub mod maps;
pub mod numbers;
pub mod output;
pub mod places;
pub mod ranges;
pub mod simple;
pub mod slices;
pub mod stores;
pub mod strings;
