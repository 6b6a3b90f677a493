//! The rows of calls: of functions by their names, of `len`, and of `print` and `println`.
//!
//! The Go Programming Language Specification (as of Go 1.17), "Calls", "Length and capacity",
//! "Bootstrapping". The rows stand in go_typing, as `function_row` and `built_in_row`; each function
//! here gives what its row gives.

pub mod builtin;
pub mod function;
pub mod length;
pub mod named;
pub mod printing;
