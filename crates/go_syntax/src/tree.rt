//! Trees of the grammar: a form for each production, with the production's parts in order.
//!
//! Each node has the place of its first token, and each name its own place. Types are expressions.
//!
//! An expression, a statement and a declaration are a place and a box with the form. So each takes little
//! room where it stands, and what holds several is moved as a few words.

use gj_base::{Op, Place, Text};

/// A name where it stands. A `.` before an import path is the name of one dot.
#[derive(Drop)]
pub struct Name {
    pub place: Place,
    pub text: Text,
}

/// An operator before its operand.
#[derive(Clone, Copy, Debug, PartialEq, Eq)]
pub enum Prefix {
    /// `+`
    Plus,
    /// `-`
    Neg,
    /// `!`
    Not,
    /// `^`
    Compl,
    /// `*`: what a pointer points to, or the pointer type
    Star,
    /// `&`
    Address,
    /// `<-`
    Receive,
}

/// What may be done with a channel of a channel type.
#[derive(Clone, Copy, Debug, PartialEq, Eq)]
pub enum ChanDir {
    /// `chan T`
    Both,
    /// `chan<- T`
    Send,
    /// `<-chan T`
    Receive,
}

/// An expression or a type.
#[cycle(tree)]
#[derive(Drop)]
pub struct Expr {
    pub place: Place,
    pub form: Box<ExprForm>,
}

#[cycle(tree)]
#[derive(Drop)]
pub enum ExprForm {
    /// `x`
    Name(Text),
    /// `0x_1F`, as it is written
    Int(Text),
    /// `'x'`: the value's bytes in UTF-8
    Rune(Text),
    /// `"text"`: the value's bytes
    Str(Text),
    /// `(x)`
    Paren(Expr),
    /// `-x`; a pointer type is `*T`
    Unary(Prefix, Expr),
    /// `x + y`
    Binary(Expr, Op, Expr),
    /// `x.name`, also of a package and a name in it
    Select(Expr, Name),
    /// `x[i]`
    Index(Expr, Expr),
    /// `x[low:high:max]`
    Slice(Expr, Option<Expr>, Option<Expr>, Option<Expr>),
    /// `x.(T)`
    Assert(Expr, Expr),
    /// `f(x, y)`; the last part says whether `...` follows the last argument
    Call(Expr, Vec<Expr>, bool),
    /// `T{k: v}`; an inner literal may have no type
    Literal(Option<Expr>, Vec<Elem>),
    /// `func(x T) T {}`
    Func(Sig, Block),
    /// `[n]T`; no length for `[...]T`
    ArrayT(Option<Expr>, Expr),
    /// `[]T`
    SliceT(Expr),
    /// `struct { x T }`
    StructT(Vec<Field>),
    /// `func(T) T`
    FuncT(Sig),
    /// `interface { m() }`
    InterfaceT(Vec<Member>),
    /// `map[K]T`
    MapT(Expr, Expr),
    /// `chan T`
    ChanT(ChanDir, Expr),
}

/// `key: value` or `value`, in a literal.
#[cycle(tree)]
#[derive(Drop)]
pub struct Elem {
    pub key: Option<Expr>,
    pub value: Expr,
}

/// Parameters and results.
#[cycle(tree)]
#[derive(Drop)]
pub struct Sig {
    pub params: Params,
    pub results: Results,
}

#[cycle(tree)]
#[derive(Drop)]
pub enum Results {
    None,
    /// one type, without parentheses
    Type(Expr),
    List(Params),
}

/// `(x, y T)`, with the place of `(`.
///
/// The list is as it is written: a name alone is a type here, also where a later one has both.
#[cycle(tree)]
#[derive(Drop)]
pub struct Params {
    pub place: Place,
    pub items: Vec<Param>,
}

/// `name ...T`; `variadic` says whether there is a `...`.
#[cycle(tree)]
#[derive(Drop)]
pub struct Param {
    pub place: Place,
    pub name: Option<Name>,
    pub variadic: bool,
    pub ty: Expr,
}

/// A field, or fields of one type, of a struct type, with the tag's bytes where there is one.
#[cycle(tree)]
#[derive(Drop)]
pub enum Field {
    /// `x, y T`
    Named(Vec<Name>, Expr, Option<Text>),
    /// `T`, `*T`, `p.T` or `*p.T`, by the place of its first token, whether there is a `*`, and the
    /// name without it
    Embedded(Place, bool, Expr, Option<Text>),
}

/// A method or an embedded type of an interface type.
#[cycle(tree)]
#[derive(Drop)]
pub enum Member {
    /// `name(T) T`
    Method(Name, Sig),
    /// `T` or `p.T`
    Embedded(Expr),
}

/// `{ .. }`, with the place of `{` and, as `end`, that of `}`.
#[cycle(tree)]
#[derive(Drop)]
pub struct Block {
    pub place: Place,
    pub stmts: Vec<Stmt>,
    pub end: Place,
}

/// A statement.
#[cycle(tree)]
#[derive(Drop)]
pub struct Stmt {
    pub place: Place,
    pub form: Box<StmtForm>,
}

#[cycle(tree)]
#[derive(Drop)]
pub enum StmtForm {
    /// nothing after a label, with the place of the next token
    Empty,
    /// `x`; here and in the next two forms the grammar also has several expressions, which the
    /// types stage refuses
    Expr(Vec<Expr>),
    /// `x <- y`
    Send(Vec<Expr>, Expr),
    /// `x++`, or `x--` where the second part is false
    IncDec(Vec<Expr>, bool),
    /// `x, y = z, w`, or `x += y` with its operator
    Assign(Vec<Expr>, Option<Op>, Vec<Expr>),
    /// `x, y := z, w`
    Define(Vec<Expr>, Vec<Expr>),
    /// `var x T`
    Decl(Decl),
    /// `{ .. }`
    Block(Block),
    /// `if init; x { .. } else { .. }`; the last part is an `if` or a block
    If(Option<Stmt>, Expr, Block, Option<Stmt>),
    /// `for init; x; post { .. }`
    For(Option<Stmt>, Option<Expr>, Option<Stmt>, Block),
    /// `for x, y = range z { .. }`; the second part says whether it is `:=`, and is false where
    /// nothing stands before `range`
    Range(Vec<Expr>, bool, Expr, Block),
    /// `switch init; x { .. }`
    Switch(Option<Stmt>, Option<Expr>, Vec<Clause>),
    /// `switch init; x := y.(type) { .. }`
    TypeSwitch(Option<Stmt>, Option<Name>, Expr, Vec<Clause>),
    /// `select { .. }`
    Select(Vec<Comm>),
    /// `go f(x)`
    Go(Expr),
    /// `defer f(x)`
    Defer(Expr),
    /// `return x, y`
    Return(Vec<Expr>),
    /// `break label`
    Break(Option<Name>),
    /// `continue label`
    Continue(Option<Name>),
    /// `fallthrough`
    Fallthrough,
    /// `label: x`
    Labeled(Name, Stmt),
}

/// `case x, y: ..` of a switch, or `default: ..` where there are no expressions.
#[cycle(tree)]
#[derive(Drop)]
pub struct Clause {
    pub place: Place,
    pub exprs: Vec<Expr>,
    pub body: Vec<Stmt>,
}

/// `case x <- y: ..` of a select, or `default: ..` without a communication.
#[cycle(tree)]
#[derive(Drop)]
pub struct Comm {
    pub place: Place,
    pub stmt: Option<Stmt>,
    pub body: Vec<Stmt>,
}

/// A declaration.
#[cycle(tree)]
#[derive(Drop)]
pub struct Decl {
    pub place: Place,
    pub form: Box<DeclForm>,
}

#[cycle(tree)]
#[derive(Drop)]
pub enum DeclForm {
    /// `const x T = y`
    Const(Vec<ValueSpec>),
    /// `type x T`
    TypeDecl(Vec<TypeSpec>),
    /// `var x T = y`
    Var(Vec<ValueSpec>),
    /// `func (r T) name(x T) T { .. }`: receiver, name, signature, body
    Func(Option<Params>, Name, Sig, Block),
}

/// `x, y T = z, w`: constants or variables, with the values that are given.
#[cycle(tree)]
#[derive(Drop)]
pub struct ValueSpec {
    pub names: Vec<Name>,
    pub ty: Option<Expr>,
    pub values: Vec<Expr>,
}

/// `x T`, or `x = T` where `alias` is true.
#[cycle(tree)]
#[derive(Drop)]
pub struct TypeSpec {
    pub name: Name,
    pub alias: bool,
    pub ty: Expr,
}

/// `name "path"`: the place of its first token, its name, and the path with its place.
#[derive(Drop)]
pub struct Import {
    pub place: Place,
    pub name: Option<Name>,
    pub path: Text,
    pub path_place: Place,
}

/// A source file.
#[derive(Drop)]
pub struct File {
    pub package: Name,
    pub imports: Vec<Import>,
    pub decls: Vec<Decl>,
}
