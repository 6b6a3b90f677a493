//! What typing answers, and operands where a value of a type is wanted.
//!
//! The Go Programming Language Specification (as of Go 1.17), "Constants", "Assignability". The
//! definitions stand in go_typing; `specs/AnswerView.antt` says which of its answers each answer here
//! stands for.

pub mod answer;
pub mod constant;
pub mod fold;
pub mod gone;
pub mod number;
pub mod passed;
pub mod pending;
pub mod rule;
