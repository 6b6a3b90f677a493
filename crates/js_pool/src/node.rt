//! Nodes, and parts of the tables.

use crate::name::Name;
use js_tree::{BinaryOp, UnaryOp};

/// An expression's number.
#[derive(Clone, Copy)]
pub struct ExprId(pub u32);

/// Bytes of the table of bytes.
#[derive(Clone, Copy)]
pub struct Bytes {
    pub from: u32,
    pub many: u32,
}

/// Expressions in order: a part of the table of lists.
#[derive(Clone, Copy)]
pub struct Span {
    pub from: u32,
    pub many: u32,
}

/// Statements in order: a part of the table of statements.
#[derive(Clone, Copy)]
pub struct Block {
    pub from: u32,
    pub many: u32,
}

/// The cases of a `switch`, in order: a part of the table of cases.
#[derive(Clone, Copy)]
pub struct Cases {
    pub from: u32,
    pub many: u32,
}

/// Parameters in order: a part of the table of names.
#[derive(Clone, Copy)]
pub struct Names {
    pub from: u32,
    pub many: u32,
}

/// An expression.
#[derive(Clone, Copy)]
pub enum Node {
    Number(u64),
    Str(Bytes),
    Bool(bool),
    Null,
    Name(Name),
    Unary(UnaryOp, ExprId),
    Binary(BinaryOp, ExprId, ExprId),
    And(ExprId, ExprId),
    Or(ExprId, ExprId),
    Conditional(ExprId, ExprId, ExprId),
    Call(ExprId, Span),
    Index(ExprId, ExprId),
    Length(ExprId),
    Pop(ExprId),
    CharCodeAt(ExprId, ExprId),
    Substring(ExprId, ExprId, ExprId),
    Array(Span),
    Dictionary,
    Decimal(ExprId),
    FromCharCode(ExprId),
}

/// A statement.
#[derive(Clone, Copy)]
pub enum Stmt {
    Declare(Name, ExprId),
    Assign(Name, ExprId),
    Store(ExprId, ExprId, ExprId),
    Perform(ExprId),
    Push(ExprId, ExprId),
    Delete(ExprId, ExprId),
    If(ExprId, Block, Else),
    While(Option<Name>, ExprId, Block),
    Forever(Option<Name>, Block),
    Switch(Option<Name>, ExprId, Cases, Option<Block>),
    Return(Option<ExprId>),
    Throw(ExprId),
    Break(Option<Name>),
    Continue(Option<Name>),
    Try(Block, Block),
}

/// What stands after the block of an `if`.
#[derive(Clone, Copy)]
pub enum Else {
    Nothing,
    /// `else { .. }`; a block that is one `if` becomes `else if ..`.
    Block(Block),
}

/// The statements after `case number:`.
#[derive(Clone, Copy)]
pub struct Case {
    pub number: u32,
    pub body: Block,
}

/// What stands at a script's top.
#[derive(Clone, Copy)]
pub enum Item {
    Function(Name, Names, Block),
    /// A variable with its first value.
    Global(Name, ExprId),
}
