//! A whole program from its files: the root, and all packages that imports lead to.
//!
//! The Go Programming Language Specification (as of Go 1.17), "Packages" and "Import declarations".
//! Files have the numbers of the order in which they are read: the root's by name, then those of each
//! import path in the order in which it is first met.
#![tactic(auto)]

mod embedded;
mod fault;
mod folder;
mod follow;
mod judge;
mod path;
mod program;
mod rank;
mod reading;

pub use follow::load_program;
