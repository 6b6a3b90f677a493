//! Operations on integers in scripts: the expression of the result, which wraps, from operands that
//! are names or constants. ECMA-262 5.1, 8.5, 9.5, 9.6 and 11; Go specification (as of Go 1.17),
//! "Integer operators", "Integer overflow".
//!
//! A number of up to 32 bits is itself. One of 64 bits is an array of two halves, the high one first,
//! both without sign.
#![tactic(auto)]

pub mod convert;
pub mod kinds;
pub mod operation;
pub mod small;
pub mod wide;

pub use kinds::{is_signed, is_wide};
pub use operation::{binary, unary};
