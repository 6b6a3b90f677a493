//! What a program has beside the functions of its text: the two functions of the type of run-time
//! panics, their rows, and the program that is made of all.
//!
//! The Go Programming Language Specification (as of Go 1.17), "Run-time panics", "Errors", "Packages".
//! The definitions stand in go_typing (`specs/Checked.antt`).

pub mod functions;
pub mod lists;
pub mod program;

pub use crate::hidden::functions::hidden_functions;
pub use crate::hidden::lists::{and_func, gone_func, gone_funcs};
pub use crate::hidden::program::{Rows, rows_of, whole};
