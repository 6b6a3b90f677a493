//! The tasks of core nodes, by reference: what of a program's text is still to be done.
//!
//! The Go Programming Language Specification (as of Go 1.17), "Order of evaluation". A node stands
//! for its tasks until one of them is wanted, and is opened one level then.

pub mod open;
pub mod open_expr;
pub mod open_lists;
pub mod open_stmt;
pub mod task;
