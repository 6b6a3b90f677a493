//! Operands: the single value of a node, operators before it, and parts where a value or a type is
//! wanted.
//!
//! The Go Programming Language Specification (as of Go 1.17), "Operators" and its parts,
//! "Assignability", "Types". The rows stand in go_typing, as `single`, `unary_row`, `wanted`,
//! `wanted_alone` and `wanted_type`; each function here gives what its row gives.

pub mod boxes;
pub mod operand;
pub mod part;
pub mod prefix;
pub mod wanted;
