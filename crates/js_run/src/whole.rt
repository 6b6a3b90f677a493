//! The runner of scripts: exactly their meaning, on a stack of its own. ECMA-262 5.1, cut to a
//! subset.

pub mod answer;
pub mod prepare;
pub mod script;
pub mod start;

pub use crate::whole::answer::{RunEnd, RunRefusal};
pub use crate::whole::script::run;
