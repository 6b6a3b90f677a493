//! Short variable declarations: `xs := ys`.
//!
//! Go, "Short variable declarations". The definitions stand in go_typing (`specs/Assign.antt`).

pub mod all;
pub mod fine;
pub mod fresh;
pub mod names;
pub mod one;
pub mod top;
pub mod uses;

pub use crate::define::top::{define, undeclared};
