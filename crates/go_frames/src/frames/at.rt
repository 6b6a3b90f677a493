//! The token that the parser stands at.

ghost use Rattle.std.specs.Prelude.{◌≡◌, [], bytes_eq};
ghost use Rattle.go_grammar.specs.Classes.{binary_op, level, assign_op, prefix_op, begins_type};
ghost use Rattle.go_grammar.specs.Nodes.{is_op, is_word, is_name_token, is_string, is_semicolon, begins_word_type, begins_expr, begins_word_stmt, begins_stmt};
ghost use Rattle.go_syntax.specs.Spelling.{operator_text};
ghost use Rattle.go_frames.specs.FrameView.{token_of};
ghost use Rattle.go_frames.specs.Numbers.{number_of};

use gj_base::{Op, Place};
use go_syntax::tree::Prefix;
use go_syntax::{Keyword, Operator, TokenKind};

/// A token, by its kind and place.
#[derive(Clone, Copy)]
pub struct At {
    pub kind: TokenKind,
    pub place: Place,
}

impl At {
    /// Whether it is this operator or punctuation.
    pub fn is(self, op: Operator) -> bool
        ensures value { result ≡ is_op op (token_of self []) }
    {
        match self.kind {
            TokenKind::Op(x) => same(x, op),
            _ => false,
        }
    }

    /// Whether it is this keyword.
    pub fn is_word(self, word: Keyword) -> bool
        ensures value { result ≡ is_word word (token_of self []) }
    {
        self.kind == TokenKind::Word(word)
    }

    /// Whether it is a name.
    pub fn is_name(self) -> bool
        ensures value { result ≡ is_name_token self.kind }
    {
        self.kind == TokenKind::Name
    }

    /// Whether it is a string literal.
    pub fn is_string(self) -> bool
        ensures value { result ≡ is_string self.kind }
    {
        self.kind == TokenKind::Str
    }

    /// Whether it is a semicolon, written or inserted.
    pub fn is_semicolon(self) -> bool
        ensures value { result ≡ is_semicolon self.kind }
    {
        matches!(self.kind, TokenKind::Semi | TokenKind::Auto)
    }
}

/// The binary operator that a token is.
pub fn binary_of(kind: TokenKind) -> Option<Op>
    ensures value { result ≡ binary_op kind }
{
    let TokenKind::Op(op) = kind else {
        return None;
    };
    match op {
        Operator::Add => Some(Op::Add),
        Operator::Sub => Some(Op::Sub),
        Operator::Mul => Some(Op::Mul),
        Operator::Div => Some(Op::Div),
        Operator::Rem => Some(Op::Rem),
        Operator::And => Some(Op::And),
        Operator::Or => Some(Op::Or),
        Operator::Xor => Some(Op::Xor),
        Operator::Shl => Some(Op::Shl),
        Operator::Shr => Some(Op::Shr),
        Operator::AndNot => Some(Op::AndNot),
        Operator::AndThen => Some(Op::AndThen),
        Operator::OrElse => Some(Op::OrElse),
        Operator::Eq => Some(Op::Eq),
        Operator::Ne => Some(Op::Ne),
        Operator::Lt => Some(Op::Lt),
        Operator::Le => Some(Op::Le),
        Operator::Gt => Some(Op::Gt),
        Operator::Ge => Some(Op::Ge),
        _ => None,
    }
}

/// The precedence of a binary operator, 5 the highest. Go specification, "Operator precedence".
pub fn level(op: Op) -> u32
    ensures value { result ≡ level op }
{
    match op {
        Op::Mul | Op::Div | Op::Rem | Op::Shl | Op::Shr | Op::And | Op::AndNot => 5,
        Op::Add | Op::Sub | Op::Or | Op::Xor => 4,
        Op::Eq | Op::Ne | Op::Lt | Op::Le | Op::Gt | Op::Ge => 3,
        Op::AndThen => 2,
        Op::OrElse => 1,
        _ => 0,
    }
}

/// The operator of `op=` that a token is.
pub fn assign_of(kind: TokenKind) -> Option<Op>
    ensures value { result ≡ assign_op kind }
{
    let TokenKind::Op(op) = kind else {
        return None;
    };
    match op {
        Operator::AddAssign => Some(Op::Add),
        Operator::SubAssign => Some(Op::Sub),
        Operator::MulAssign => Some(Op::Mul),
        Operator::DivAssign => Some(Op::Div),
        Operator::RemAssign => Some(Op::Rem),
        Operator::AndAssign => Some(Op::And),
        Operator::OrAssign => Some(Op::Or),
        Operator::XorAssign => Some(Op::Xor),
        Operator::ShlAssign => Some(Op::Shl),
        Operator::ShrAssign => Some(Op::Shr),
        Operator::AndNotAssign => Some(Op::AndNot),
        _ => None,
    }
}

/// The operator before an operand that a token is.
pub fn prefix_of(kind: TokenKind) -> Option<Prefix>
    ensures value { result ≡ prefix_op kind }
{
    let TokenKind::Op(op) = kind else {
        return None;
    };
    match op {
        Operator::Add => Some(Prefix::Plus),
        Operator::Sub => Some(Prefix::Neg),
        Operator::Not => Some(Prefix::Not),
        Operator::Xor => Some(Prefix::Compl),
        Operator::Mul => Some(Prefix::Star),
        Operator::And => Some(Prefix::Address),
        Operator::Arrow => Some(Prefix::Receive),
        _ => None,
    }
}

/// Whether a type may begin with the token.
pub fn begins_type(kind: TokenKind) -> bool
    ensures value { result ≡ begins_type kind }
{
    match kind {
        TokenKind::Name => true,
        TokenKind::Op(op) => matches!(
            op,
            Operator::LeftParen | Operator::LeftBracket | Operator::Mul | Operator::Arrow
        ),
        TokenKind::Word(word) => begins_with_word(word),
        _ => false,
    }
}

fn begins_with_word(word: Keyword) -> bool
    ensures value { result ≡ begins_word_type word }
{
    matches!(
        word,
        Keyword::Chan | Keyword::Func | Keyword::Interface | Keyword::Map | Keyword::Struct
    )
}

/// Whether an expression may begin with the token.
pub fn begins_expr(kind: TokenKind) -> bool
    ensures value { result ≡ begins_expr kind }
{
    match kind {
        TokenKind::Name | TokenKind::Int | TokenKind::Rune | TokenKind::Str => true,
        TokenKind::Op(op) => {
            matches!(op, Operator::LeftParen | Operator::LeftBracket) || prefix_of(kind).is_some()
        }
        TokenKind::Word(word) => begins_with_word(word),
        _ => false,
    }
}

fn begins_stmt_with_word(word: Keyword) -> bool
    ensures value { result ≡ begins_word_stmt word }
{
    matches!(
        word,
        Keyword::Const
            | Keyword::Type
            | Keyword::Var
            | Keyword::Go
            | Keyword::Defer
            | Keyword::Return
            | Keyword::Break
            | Keyword::Continue
            | Keyword::Fallthrough
            | Keyword::If
            | Keyword::For
            | Keyword::Switch
            | Keyword::Select
            | Keyword::Chan
            | Keyword::Func
            | Keyword::Interface
            | Keyword::Map
            | Keyword::Struct
    )
}

/// Whether a statement may begin with the token.
pub fn begins_stmt(at: At) -> bool
    ensures value { result ≡ begins_stmt (token_of at []) }
{
    if at.is(Operator::LeftBrace) {
        return true;
    }
    match at.kind {
        TokenKind::Word(word) => begins_stmt_with_word(word),
        _ => begins_expr(at.kind),
    }
}

/// A number for each operator, to tell them apart.
fn number(op: Operator) -> u8
    ensures value { result ≡ number_of op }
{
    match op {
        Operator::Add => 0,
        Operator::Sub => 1,
        Operator::Mul => 2,
        Operator::Div => 3,
        Operator::Rem => 4,
        Operator::And => 5,
        Operator::Or => 6,
        Operator::Xor => 7,
        Operator::Shl => 8,
        Operator::Shr => 9,
        Operator::AndNot => 10,
        Operator::AddAssign => 11,
        Operator::SubAssign => 12,
        Operator::MulAssign => 13,
        Operator::DivAssign => 14,
        Operator::RemAssign => 15,
        Operator::AndAssign => 16,
        Operator::OrAssign => 17,
        Operator::XorAssign => 18,
        Operator::ShlAssign => 19,
        Operator::ShrAssign => 20,
        Operator::AndNotAssign => 21,
        Operator::AndThen => 22,
        Operator::OrElse => 23,
        Operator::Arrow => 24,
        Operator::Increment => 25,
        Operator::Decrement => 26,
        Operator::Eq => 27,
        Operator::Lt => 28,
        Operator::Gt => 29,
        Operator::Assign => 30,
        Operator::Not => 31,
        Operator::Ne => 32,
        Operator::Le => 33,
        Operator::Ge => 34,
        Operator::Define => 35,
        Operator::Ellipsis => 36,
        Operator::LeftParen => 37,
        Operator::RightParen => 38,
        Operator::LeftBracket => 39,
        Operator::RightBracket => 40,
        Operator::LeftBrace => 41,
        Operator::RightBrace => 42,
        Operator::Comma => 43,
        Operator::Dot => 44,
        Operator::Colon => 45,
    }
}

/// Whether they are the same.
#[tactic(auto, using(crate::proofs::NumberLemmas::numbers_tell))]
fn same(a: Operator, b: Operator) -> bool
    ensures value { result ≡ bytes_eq (operator_text b) (operator_text a) }
{
    number(a) == number(b)
}
