//! Constants that functions declare.
//!
//! The Go Programming Language Specification (as of Go 1.17), "Constant declarations", "Iota". The
//! definitions stand in go_typing (`specs/Declare.antt`).

pub mod consts;
pub mod names;
pub mod specs;
pub mod values;

pub use crate::local_consts::specs::const_specs;
