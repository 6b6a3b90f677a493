//! The values and the memory of Go programs in code: what a plain program of the Go meaning stands on.

pub mod arithmetic;
pub mod level;
pub mod memory;
pub mod output;
pub mod run_panic;
pub mod scalar;
pub mod text;
