//! Calls of functions and of the host's functions, with their arguments: one step of each.
//! ECMA-262 5.1, cut to a subset.

pub mod begin;
pub mod function;
pub mod host;
pub mod value;

pub use crate::calls::begin::{arguments, call, with_callee};
pub use crate::calls::value::{call_value, called};
