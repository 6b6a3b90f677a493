//! Assignments that update: `x op= y`, `x++` and `x--`.
//!
//! Go, "Assignments", "IncDec statements". The definitions stand in go_typing
//! (`specs/Assign.antt`).

pub mod spot;
pub mod top;

pub use crate::update::top::{step, update};
