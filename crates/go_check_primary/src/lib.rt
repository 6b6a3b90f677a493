//! Operands, selectors, indexes, slices, assertions and types whose parts are typed.
//!
//! The Go Programming Language Specification (as of Go 1.17), "Types", "Operands", "Primary expressions",
//! "Address operators", "Receive operator". Nothing here goes over a tree of expressions.
#![tactic(auto)]

pub mod basic_literal;
pub mod index_row;
pub mod interface_type;
pub mod names;
pub mod parameters;
pub mod selectors;
pub mod struct_type;
pub mod type_row;
