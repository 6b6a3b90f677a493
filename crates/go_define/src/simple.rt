//! Statements without blocks, and the cases of a `switch`.
//!
//! The Go Programming Language Specification (as of Go 1.17), "Expression statements", "Return
//! statements", "Expression switches". The definitions stand
//! in go_typing (`specs/Statements.antt`).

pub mod around;
pub mod cases;
pub mod expression;
pub mod returned;

pub use crate::simple::around::Around;
