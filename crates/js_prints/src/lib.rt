//! The script of a program that only prints.
//!
//! `specs/Faithful.antt` says when a script is right: it is the statement to read first.
//! `specs/Prints.antt` says which programs are translated here, `specs/Emitted.antt` is the script
//! that is made, and `proofs/Simulation.antt` shows that it is faithful.
#![tactic(auto)]

pub mod kind;
pub mod laws;
pub mod lines;
mod output;
pub mod script;

pub use kind::only_prints;
pub use lines::script_of_lines;
pub use script::emit;
