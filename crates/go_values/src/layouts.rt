//! How values lie in memory, and whether two are equal, in code: what a plain program of the Go
//! meaning stands on.

pub mod equality;
pub mod fields;
pub mod holds;
pub mod layout;
