//! The values of expressions without calls, from flat code. ECMA-262 5.1, 11, cut to a subset.
#![tactic(auto)]

pub mod eval;
pub mod list;
pub mod marks;
pub mod numbers;
pub mod operate;
pub mod state;

pub use marks::Marks;
pub use state::{Context, Halt, Slot};
