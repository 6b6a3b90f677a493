//! What calls call, and the types of what calls give.
//!
//! The Go Programming Language Specification (as of Go 1.17), "Calls". What a call calls by its name
//! stands in go_typing (`specs/Typing.antt`, `callee_of`).

pub mod callee;
pub mod gives;
pub mod names;
