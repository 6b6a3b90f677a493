//! Exact constants: truth values, whole numbers and byte strings, and what the operators and
//! conversions of constant expressions make of them.
//!
//! Go specification (as of Go 1.17), "Constants", "Constant expressions", "Representability".
//! `specs/Operation.antt` says what the exact value of each operation is, on whole numbers without
//! bound, and `specs/Representability.antt` which values a kind holds; the public calls answer that
//! value, or exactly the code whose row holds.
#![tactic(auto)]

pub mod arithmetic;
pub mod comparison;
pub mod constant;
pub mod conversion;
pub mod infix;
pub mod prefix;
pub mod range;
pub mod shifts;

pub use constant::{Basic, Const, ConstRefusal};
pub use conversion::convert;
pub use infix::binary;
pub use prefix::unary;
pub use range::fits;
pub use shifts::shift;
