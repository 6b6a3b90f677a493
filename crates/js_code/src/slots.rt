//! Names of scripts by slots: where what a name stands for is kept, found once before a run.
//! ECMA-262 5.1, 8.7 and 10.

pub mod laws;
pub mod names;
pub mod place;
