//! The script of a whole program.
//!
//! Functions that may wait become machines (js_flat), all others plain functions (js_plain). What stands
//! at the script's top is what `$start` leads to by names: of the program's functions, of the run-time
//! library, and of what is known of types.
#![tactic(auto)]

pub mod classes;
pub mod direct;
pub mod items;
pub mod methods;
pub mod program;
pub mod reach;
pub mod start;
pub mod top;

pub use program::{EmitRefusal, emit};
