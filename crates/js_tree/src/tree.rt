//! The tree of a script: ECMA-262 5.1, clauses 11 to 14, cut to the subset.
//!
//! Each node has its offset `at`: that of its first byte in the text that it was read from, and 0
//! where it was made. `specs/Script.antt` is the same tree without boxes and vectors, and what
//! contracts speak of.

use gj_base::Text;

/// An operator before one operand.
#[derive(Clone, Copy, Debug, PartialEq, Eq)]
pub enum UnaryOp {
    /// `-`
    Negate,
    /// `~`
    Complement,
    /// `!`
    Not,
}

/// An operator between two operands, both of which are always evaluated.
#[derive(Clone, Copy, Debug, PartialEq, Eq)]
pub enum BinaryOp {
    Add,
    Subtract,
    Multiply,
    Divide,
    Remainder,
    BitOr,
    BitAnd,
    BitXor,
    ShiftLeft,
    /// `>>`, which keeps the sign
    ShiftRight,
    /// `>>>`
    ShiftRightUnsigned,
    Less,
    LessEqual,
    Greater,
    GreaterEqual,
    /// `===`
    Same,
    /// `!==`
    Different,
    /// `in`
    In,
}

/// An expression with the offset of its first byte.
#[cycle(expr)]
#[derive(Drop)]
pub struct JsExpr {
    pub form: ExprForm,
    pub at: u32,
}

/// The forms of expressions.
#[cycle(expr)]
#[derive(Drop)]
pub enum ExprForm {
    /// A decimal number.
    Number(u64),
    /// A string by its bytes.
    Str(Text),
    /// `true` or `false`
    Bool(bool),
    /// `null`
    Null,
    /// A name; `$catch` is what the innermost `catch` caught.
    Name(Text),
    Unary(UnaryOp, Box<JsExpr>),
    Binary(BinaryOp, Box<JsExpr>, Box<JsExpr>),
    /// `a && b`
    And(Box<JsExpr>, Box<JsExpr>),
    /// `a || b`
    Or(Box<JsExpr>, Box<JsExpr>),
    /// `test ? a : b`
    Conditional(Box<JsExpr>, Box<JsExpr>, Box<JsExpr>),
    /// `callee(a, b)`
    Call(Box<JsExpr>, JsExprs),
    /// `a[i]`
    Index(Box<JsExpr>, Box<JsExpr>),
    /// `a.length`
    Length(Box<JsExpr>),
    /// `a.pop()`
    Pop(Box<JsExpr>),
    /// `s.charCodeAt(i)`
    CharCodeAt(Box<JsExpr>, Box<JsExpr>),
    /// `s.substring(from, to)`
    Substring(Box<JsExpr>, Box<JsExpr>, Box<JsExpr>),
    /// `[a, b]`
    Array(JsExprs),
    /// `Object.create(null)`
    Dictionary,
    /// `String(n)`
    Decimal(Box<JsExpr>),
    /// `String.fromCharCode(n)`
    FromCharCode(Box<JsExpr>),
}

/// Expressions in order.
#[cycle(expr)]
#[derive(Drop)]
pub struct JsExprs {
    pub items: Vec<JsExpr>,
}

/// A statement with the offset of its first byte, its label included.
#[cycle(stmt)]
#[derive(Drop)]
pub struct JsStmt {
    pub form: StmtForm,
    pub at: u32,
}

/// The forms of statements.
#[cycle(stmt)]
#[derive(Drop)]
pub enum StmtForm {
    /// `var x = e;`
    Declare(Text, JsExpr),
    /// `x = e;`
    Assign(Text, JsExpr),
    /// `a[i] = e;`
    Store(JsExpr, JsExpr, JsExpr),
    /// `e;`, where the expression is a call or `.pop()`
    Perform(JsExpr),
    /// `a.push(e);`
    Push(JsExpr, JsExpr),
    /// `delete d[k];`
    Delete(JsExpr, JsExpr),
    If(JsExpr, JsStmts, JsElse),
    /// A `while` with its label.
    While(Option<Text>, JsExpr, JsStmts),
    /// `for (;;)` with its label.
    Forever(Option<Text>, JsStmts),
    /// A `switch` with its label.
    Switch(Option<Text>, JsExpr, JsCases),
    Return(Option<JsExpr>),
    Throw(JsExpr),
    /// `break` with the label that it leads to.
    Break(Option<Text>),
    /// `continue` with the label that it leads to.
    Continue(Option<Text>),
    /// `try` with the block after `catch ($catch)`.
    Try(JsStmts, JsStmts),
}

/// Statements in order.
#[cycle(stmt)]
#[derive(Drop)]
pub struct JsStmts {
    pub items: Vec<JsStmt>,
}

/// What stands after the block of an `if`.
#[cycle(stmt)]
#[derive(Drop)]
pub enum JsElse {
    Nothing,
    /// `else { .. }`
    Block(JsStmts),
    /// `else if ..`
    ElseIf(Box<JsElseIf>),
}

/// An `if` after an `else`, with the offset of its `if`.
#[cycle(stmt)]
#[derive(Drop)]
pub struct JsElseIf {
    pub test: JsExpr,
    pub body: JsStmts,
    pub rest: JsElse,
    pub at: u32,
}

/// The cases of a `switch` in order, and what stands after `default`, where it is there.
#[cycle(stmt)]
#[derive(Drop)]
pub struct JsCases {
    pub items: Vec<JsCase>,
    pub default: Option<JsStmts>,
}

/// The statements after `case number:`.
#[cycle(stmt)]
#[derive(Drop)]
pub struct JsCase {
    pub number: u64,
    pub body: JsStmts,
}

/// A function; `at` is the offset of the word `function`.
#[derive(Drop)]
pub struct JsFunction {
    pub name: Text,
    pub params: Vec<Text>,
    pub body: JsStmts,
    pub at: u32,
}

/// What stands at a script's top.
#[derive(Drop)]
pub enum JsItem {
    Function(JsFunction),
    /// A variable, its first value, and the offset of the word `var`.
    Global(Text, JsExpr, u32),
}

/// A script: its items in order, and the function that is called at its end, with the offset of
/// that call.
#[derive(Drop)]
pub struct Script {
    pub items: Vec<JsItem>,
    pub start: Text,
    pub start_at: u32,
}
