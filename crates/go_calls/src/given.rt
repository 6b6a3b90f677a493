//! What a call is given: its operands in order, or the several values of one call, and arguments as
//! values.
//!
//! The Go Programming Language Specification (as of Go 1.17), "Calls", "Assignability". The
//! definitions stand in go_typing, as `given`, `operands_of`, `values_at` and `values_alone`; each
//! function here gives what its definition gives.

pub mod given;
pub mod gone;
pub mod kinds;
pub mod values;
