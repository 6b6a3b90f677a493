//! Signatures: the types of their parameters and results, and what is told of them.
//!
//! The Go Programming Language Specification (as of Go 1.17), "Function types", "Function
//! declarations". The definitions stand in go_typing (`specs/Signature.antt`).

pub mod entry;
pub mod known;
pub mod signature;
pub mod types;

pub use crate::signatures::signature::{SigTypes, sig_types};
pub use crate::signatures::types::types_of;
