//! Scripts as flat code, in which each name has its place.

pub mod code;
pub mod expr;
pub mod function;
pub mod laws;
pub mod part;
pub mod stmt;

pub use crate::code::code::Code;
pub use crate::code::expr::{DEPTH, add_expr};
pub use crate::code::function::{FunctionCode, ValueCode, function_code, value_code};
pub use crate::code::part::Part;
pub use crate::code::stmt::add_stmts;
