//! Assignments, typed: `xs = ys`.
//!
//! Go, "Assignments". The definitions stand in go_typing (`specs/Assign.antt`);
//! `specs/LeftView.antt` says what a left side in code stands for, and `specs/Assigning.antt` what comes
//! of left sides and values.

pub mod bare;
pub mod each;
pub mod left;
pub mod several;
pub mod top;
pub mod uses;

pub use crate::assign::top::assign;
