//! Tokens of a script: ECMA-262 5.1, 7, cut to the subset.

use js_tree::BinaryOp;

/// What a token is; its bytes are those of the text.
#[derive(Clone, Copy)]
pub enum Lexeme<'a> {
    /// A name, or a word such as `while`.
    Word(&'a [u8]),
    /// A sign such as `===`.
    Sign(&'a [u8]),
    /// A number.
    Number(u64),
    /// A string: the text after its opening quote, to the end of the script.
    Quoted(&'a [u8]),
}

/// A token with the offset of its first byte.
#[derive(Clone, Copy)]
pub struct Token<'a> {
    pub lexeme: Lexeme<'a>,
    pub at: u32,
}

/// An operator between two operands.
#[derive(Clone, Copy)]
pub enum Infix {
    Op(BinaryOp),
    /// `&&`
    And,
    /// `||`
    Or,
}
