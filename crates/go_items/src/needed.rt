//! The names without which an expression isn't typed.
//!
//! Go, "Declarations and scope". The definitions stand in go_typing (`specs/Cycles.antt`).

pub mod called;
pub mod needed;
