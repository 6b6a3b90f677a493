//! The declarations of a package: signatures, what names stand for whatever their order, and what is
//! told of them.
//!
//! The Go Programming Language Specification (as of Go 1.17), "Declarations and scope", "Function
//! declarations", "Method declarations".
#![tactic(auto)]

pub mod decls;
pub mod heads;
pub mod known;
pub mod params;
pub mod signatures;
pub mod told;
