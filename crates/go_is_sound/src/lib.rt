//! Whether a core program is Sound, so that its runs never get stuck.
//!
//! `Sound` of `go_core` says which programs those are (The Go Programming Language Specification as
//! of Go 1.17, "Declarations and scope", "Packages").
#![tactic(auto)]

mod bodies;
mod breaks;
mod ends;
mod facts;
mod functions;
mod imports;
mod packages;
mod rows;
mod sound;
mod types;
mod variables;

pub use sound::is_sound;
