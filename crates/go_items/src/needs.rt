//! Which names of a package can't be found without themselves, and an order in which the others can be
//! found.
//!
//! The Go Programming Language Specification (as of Go 1.17), "Declarations and scope". The definitions
//! stand in go_typing (`specs/Cycles.antt`).

pub mod graph;
pub mod order;
pub mod own;
pub mod told;

pub use crate::needs::order::order_of;
pub use crate::needs::told::cycles_told;
