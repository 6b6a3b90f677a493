//! The steps of the Go meaning that look at their operands and the memory alone, in code.

pub mod change;
pub mod convert;
pub mod did;
pub mod numbers;
pub mod places;
