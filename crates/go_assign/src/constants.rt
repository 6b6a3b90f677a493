//! Types and constant values of declarations, each typed once, with all that is told of it.
//!
//! The Go Programming Language Specification (as of Go 1.17), "Constant declarations", "Type
//! declarations". The definitions stand in go_typing (`specs/Declare.antt`,
//! `specs/Expressions.antt`).

pub mod constant;
pub mod count;
pub mod told;
pub mod types;

pub use crate::constants::constant::{Constant, constant_value};
pub use crate::constants::count::count_told;
pub use crate::constants::types::{FoundType, Spec, SpecType, spec_type, type_found, type_of_spec};
