//! The rows of indexes and slices, of strings: what a node is, from what its parts are.
//!
//! The Go Programming Language Specification (as of Go 1.17), "Index expressions", "Slice
//! expressions". The rows stand in go_typing, as `index_row` and `slice_row`; each function here
//! gives what its definition gives.

pub mod bound;
pub mod edge;
pub mod flaws;
pub mod gone;
pub mod index;
pub mod indexed;
pub mod kinds;
pub mod slice;
