//! What the translation knows of a core program before it makes a script of it: how values of a type are
//! held, which variables are boxed, which functions are machines, and where a method's row stands.
//!
//! All is found once, and each look-up takes constant or logarithmic time. A look-up of what a program
//! doesn't have answers something harmless.
#![tactic(auto)]

pub mod facts;
pub mod held;
pub mod keys;
pub mod parts;
pub mod types;

pub use facts::{Facts, VarFact};
pub use held::Held;
