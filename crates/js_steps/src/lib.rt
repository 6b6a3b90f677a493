//! The steps of a run: what is left to be done, the operations, the flow of control, calls.
//!
//! ECMA-262 5.1, sections 11 to 13, cut to a subset (docs/SCRIPT.md).
#![tactic(auto)]

pub mod bodies;
pub mod calls;
pub mod flow;
pub mod frames;
pub mod operands;
pub mod steps;
