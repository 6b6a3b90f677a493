//! Values of scripts, and the heap in which arrays and dictionaries live.
//!
//! ECMA-262 5.1, section 8 "Types", cut to a subset (docs/SCRIPT.md).
#![tactic(auto)]

pub mod heap;
pub mod value;
