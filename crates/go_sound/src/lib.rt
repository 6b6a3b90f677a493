//! Laws of the definitions of typing: what is found is a fixpoint, a fault is told exactly where
//! there is one, and a program of which nothing is told is Sound.
//!
//! The Go Programming Language Specification (as of Go 1.17), "Declarations and scope", "Packages".
#![tactic(auto)]

pub mod cycles;
pub mod programs;
pub mod settled;
pub mod sound;
