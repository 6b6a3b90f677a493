//! The parts of the script reader that read single tokens, and the nodes of the expressions that it
//! makes.

pub mod infix;
pub mod literal;
pub mod look;
pub mod node;
mod part;
