//! The steps of a script's run, one after the other, until nothing is left to be done. ECMA-262
//! 5.1, cut to a subset.

pub mod step;
pub mod turns;

pub use crate::turns::turns::finish;
