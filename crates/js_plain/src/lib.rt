//! A function of the core that never waits as a plain function of the script.
//!
//! The function with number K is `$fK`. Its variables and temporaries are the script function's own, and
//! its control is the script's: a block that a branch leaves is a `switch` with one case, since the
//! subset has no other block with a label.
#![tactic(auto)]

pub mod control;
pub mod fresh;
pub mod function;
pub mod sets;
pub mod stmt;

pub use function::add_plain;
