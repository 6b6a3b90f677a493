//! Variables that functions declare, with the types and values of their specifications.
//!
//! The Go Programming Language Specification (as of Go 1.17), "Variable declarations". The definitions
//! stand in go_typing (`specs/Declare.antt`).

pub mod names;
pub mod spec;
pub mod specs;
pub mod taken;
pub mod valued;
pub mod zero;

pub use crate::local_vars::specs::var_specs;
