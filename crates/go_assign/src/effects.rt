//! Parts of statements: expressions that are typed and used in a walk, what is told and stored of them,
//! and names that declare variables.
//!
//! Go, "Assignments", "Variable declarations", "Short variable declarations". The definitions stand in
//! go_typing; `specs/Moves.antt` says what a part does to the walk.

pub mod emit;
pub mod exprs;
pub mod names;

pub use crate::effects::emit::{and_valued, one_stored, stored, told_unless};
pub use crate::effects::exprs::{all_typed, all_used, place_in, typed, used};
pub use crate::effects::names::declared;
