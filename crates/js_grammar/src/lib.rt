//! The ground of the script reader: tokens, and the laws of the grammar of scripts.
#![tactic(auto)]

pub mod laws;
pub mod lexer;
mod refusal;
pub mod scan;
mod token;

pub use refusal::{ReadRefusal, syntax};
pub use token::{Infix, Lexeme, Token};
