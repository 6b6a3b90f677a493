//! Scripts as flat code: names in slots, and expressions, statements and functions as lists of parts.
//!
//! ECMA-262 5.1, sections 10 to 14, cut to a subset (docs/SCRIPT.md).
#![tactic(auto)]

pub mod code;
pub mod slots;
