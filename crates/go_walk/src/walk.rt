//! What is known while the statements of a function are gone through: types and scopes, numbers of
//! variables and labels, and what was declared and used.
//!
//! The definitions stand in go_typing (`specs/Walk.antt`); `specs/WalkView.antt` says which of them
//! each value here stands for.

pub mod again;
pub mod kinds;
pub mod parts;
pub mod scopes;
pub mod unused;
pub mod uses;
pub mod variables;
pub mod walk;

pub use crate::walk::walk::Walk;
