//! The functions of a package before and after their bodies: what their signatures say of each, the
//! scope where its body begins, and the function that is made where it ends.
//!
//! The Go Programming Language Specification (as of Go 1.17), "Function declarations". The definitions
//! stand in go_typing (`specs/Functions.antt`).

pub mod begin;
pub mod end;
pub mod head;
pub mod heads;
pub mod laws;

pub use crate::heads::head::Head;
