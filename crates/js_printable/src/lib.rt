//! Whether a script has a text: the condition under which js_tree prints it, as a test.
//!
//! ECMA-262 5.1, cut to a subset: names begin with `$`, numbers are at most 2^53, strings hold bytes,
//! and no token is nested deeper than 1,000.
#![tactic(auto)]

mod expr;
pub mod level;
pub mod name;
pub mod script;
mod stmt;

pub use script::is_printable;
