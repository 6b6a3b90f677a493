//! Which of all that is told of a package a user sees: the least fault.
//!
//! The definitions stand in go_typing (`specs/Checked.antt`).

pub mod generated;
pub mod order;

pub use crate::least::generated::or_generated;
pub use crate::least::order::least;
