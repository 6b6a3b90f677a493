//! The typing of expressions: the type, the core node and the constant value of an expression, and all
//! faults in it.
//!
//! The Go Programming Language Specification (as of Go 1.17), "Expressions", "Constants",
//! "Declarations and scope". The relation stands in go_typing (`specs/Typing.antt`,
//! `specs/Faulty.antt`); `type_expr` gives exactly what it says.

pub mod answered;
pub mod laws;
pub mod numbers;
pub mod prefix;
pub mod typed;
pub mod typing;

pub use crate::expr::answered::answer_in;
pub use crate::expr::numbers::numbers_fit;
pub use crate::expr::typed::{Typed, type_expr};
