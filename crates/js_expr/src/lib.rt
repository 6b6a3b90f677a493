//! The script reader's expressions.
#![tactic(auto)]

mod descent;

pub use descent::{enclosed, expr, post};
