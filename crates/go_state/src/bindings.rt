//! Variables of a frame: fresh ones, those that a function captured, and results, in code.
//!
//! The Go Programming Language Specification (as of Go 1.17), "Variables", "Calls", "Function
//! literals", "Return statements". The definitions are in `go_core`; `specs/Bound.antt` says what
//! a clause here promises.

pub mod bind;
pub mod captured;
pub mod results;
