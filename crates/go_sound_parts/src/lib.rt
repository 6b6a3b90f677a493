//! What the parts of a core node give, and whether the node takes them.
//!
//! `SoundNode` of `go_core` says what a node takes (The Go Programming Language Specification as of
//! Go 1.17, "Types", "Expressions").
#![tactic(auto)]

pub mod alike;
pub mod conversions;
pub mod fields;
pub mod given;
pub mod index;
pub mod levels;
pub mod lists;
pub mod measures;
pub mod methods;
pub mod operators;
pub mod parts;
