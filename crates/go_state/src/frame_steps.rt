//! Steps of a frame that change nothing but itself: operands, logic and control, in code.
//!
//! The Go Programming Language Specification (as of Go 1.17), "Expressions", "Statements". The
//! definitions are in `go_core`; `specs/Goes.antt` says what a clause here promises.

pub mod control;
pub mod logic;
pub mod operands;
pub mod parts;
