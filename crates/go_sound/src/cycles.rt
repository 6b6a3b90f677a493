//! Laws on declarations that need one another.
//!
//! The Go Programming Language Specification (as of Go 1.17), "Declarations and scope". The
//! definitions stand in go_typing (`specs/Cycles.antt`); here is what holds of them.

pub mod laws;
