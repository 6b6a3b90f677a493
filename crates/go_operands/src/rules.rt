//! The rules of typing on types and on constants.
//!
//! The Go Programming Language Specification (as of Go 1.17), "Types", "Assignability", "Constants",
//! "Representability", "Constant expressions". The definitions stand in go_typing; each function here
//! gives what its definition gives.

pub mod builtin;
pub mod constant;
pub mod kind;
pub mod operator;
