//! The rows of conversions, for boolean, integer and string types, and of calls of what is no
//! function's name.
//!
//! The Go Programming Language Specification (as of Go 1.17), "Conversions", "Calls". The rows stand in
//! go_typing, as `conversion_row` and `called_row`; each function here gives what its row gives.

pub mod called;
pub mod conversion;
