//! Kinds of tokens.

use crate::keyword::Keyword;
use crate::operator::Operator;

/// What a token is. Go specification, "Tokens".
#[derive(Clone, Copy, Debug, PartialEq, Eq)]
pub enum TokenKind {
    /// an identifier
    Name,
    /// an integer literal; its text is the literal
    Int,
    /// a rune literal; its text is the value in UTF-8
    Rune,
    /// a string literal; its text is the value's bytes
    Str,
    /// a keyword
    Word(Keyword),
    /// an operator or a punctuation
    Op(Operator),
    /// a semicolon of the text
    Semi,
    /// an inserted semicolon, right after the token before it
    Auto,
    /// the end of the file, at its length
    End,
}
