//! A law on declarations that are typed one after the other.
//!
//! The Go Programming Language Specification (as of Go 1.17), "Declarations and scope". The definitions
//! stand in go_typing (`specs/Known.antt`); here is what holds of them.

pub mod laws;
