//! The constants of a switch's cases: which of them stand twice.
//!
//! The Go Programming Language Specification (as of Go 1.17), "Expression switches". The definition of
//! what is the same stands in go_typing (`specs/Statements.antt`).

pub mod seen;

pub use crate::cases::seen::ConstSet;
