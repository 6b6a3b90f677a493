//! Expressions in statements: what each is where its place wants a value of a type, any value or a type.
//!
//! Go, "Assignability", "If statements". The definitions stand in go_typing
//! (`specs/Expressions.antt`); `specs/Outcome.antt` says what a statement does.

pub mod taken;
pub mod told;
pub mod valued;

pub use crate::valued::taken::{constant_of, core_of, several, type_of};
pub use crate::valued::told::{all_known, move_all, move_flaws, told_where_typed};
pub use crate::valued::valued::{
    Valued, condition, fit_alone, fit_at, fit_type, gone_valued, type_in, value_alone, value_at,
};
