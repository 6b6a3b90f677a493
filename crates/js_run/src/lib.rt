//! The run of a script: calls of the host, one turn after the other, and the whole.
//!
//! ECMA-262 5.1, section 14 "Program", cut to a subset (docs/SCRIPT.md).
#![tactic(auto)]

pub mod turns;
pub mod walks;
pub mod whole;

pub use whole::{RunEnd, RunRefusal, run};
