//! Whole runs of the Go meaning: goroutines move first in, first out.
//!
//! The Go Programming Language Specification (as of Go 1.17), "Program execution", "Select
//! statements". What Go leaves free at a step is settled here: who moves, which partner is meant,
//! the capacity of an append's new array, and the order of a map's range.
#![tactic(auto)]

mod numbers;
mod partner;
mod run;
mod schedule;
mod turn;

pub use run::{Halt, Played, play};
