//! Steps of Go's meaning on slices, maps and composite literals, and on the values that they make.
//!
//! The Go Programming Language Specification (as of Go 1.17), "Slice types", "Map types", "Composite
//! literals", "Making slices, maps and channels".
#![tactic(auto)]

pub mod composites;
pub mod maps;
pub mod slices;
