//! A function of the core as a switch machine over a frame array.
//!
//! The machine of the function with number K is `$mK`. It takes its frame from where it was left to the
//! next call, suspension, panic or end. `$aK` makes the frame.
#![tactic(auto)]

pub mod adapters;
pub mod communication;
pub mod control;
pub mod ends;
pub mod frames;
pub mod machine;
pub mod rows;
pub mod stmt;

pub use adapters::add_adapters;
pub use machine::{add_init, add_machine};
pub use rows::add_row;
