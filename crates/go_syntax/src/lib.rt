//! Tokens and trees of Go source files.
//!
//! The lexical part follows the Go specification (as of Go 1.17), "Lexical elements"; the trees have
//! a form for each production of the profile's grammar, with the production's parts in order.
//! `specs/Token.antt` has the tokens as contracts see them, `specs/Tree.antt` the trees.
#![tactic(auto)]

pub mod keyword;
pub mod kind;
pub mod node;
pub mod operator;
pub mod token;
pub mod tree;

pub use keyword::Keyword;
pub use kind::TokenKind;
pub use operator::Operator;
pub use token::Tokens;
