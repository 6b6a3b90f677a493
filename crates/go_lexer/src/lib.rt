//! Text to tokens.
//!
//! Go specification (as of Go 1.17), "Source code representation" and "Lexical elements".
//! `specs/Tokens.antt` says which tokens a text has, and `specs/LexicalFault.antt` which fault.
#![tactic(auto)]

mod chars;
mod escape;
mod keyword;
mod lexer;
mod number;
mod operator;
mod part;
mod progress;
mod run;
mod step;
mod text;

pub use lexer::lex;
