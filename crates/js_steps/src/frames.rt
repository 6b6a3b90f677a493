//! What is left to be done while a script runs: a stack of frames, and what a run keeps. ECMA-262
//! 5.1, cut to a subset.

pub mod frame;
pub mod state;
pub mod step;

pub use crate::frames::frame::{Caller, End, Flow, Frame, Halt, Task, Use};
pub use crate::frames::state::{Env, Spare, State};
