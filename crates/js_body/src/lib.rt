//! The body of a function under translation: what is known while expressions and statements of the core
//! become statements of the script.
//!
//! The code follows the meaning's own opening of tasks: the values on Go's stack are `$t0`, `$t1` and so
//! on, each under the number of its place there, or constants of the text. A function is a machine, whose
//! variables are in its frame and whose control is cases, or a plain function of the script, whose
//! variables are its own.
#![tactic(auto)]

pub mod body;
pub mod cases;
pub mod frame;
pub mod panics;
pub mod slices;
pub mod stack;
pub mod values;
pub mod vars;
pub mod zeros;

pub use body::{Body, Exits, Home, Known, Operand};
