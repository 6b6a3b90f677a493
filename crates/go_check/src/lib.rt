//! The check of a program in the whole profile: the least fault that is told of it, or else the core
//! program that it is.
//!
//! The Go Programming Language Specification (as of Go 1.17).
#![tactic(auto)]

pub mod checking;
pub mod hidden;
pub mod limits;
pub mod lower;
pub mod members;
pub mod packages;
pub mod promoted;

pub use checking::check;
