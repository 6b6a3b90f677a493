//! What the parser still waits for, frame on frame.
//!
//! The top frame stands at the next token. A frame below waits for the tree that the frame above it
//! makes. `Want..` in a comment: what may come next; `wait`: for which tree.

use crate::frames::ctx::Ctx;
use gj_base::{Op, Place};
use go_syntax::tree::{
    Block, Clause, Comm, Decl, Elem, Expr, Field, File, Import, Member, Name, Param, Prefix, Sig,
    Stmt, TypeSpec, ValueSpec,
};

/// A tree that is done.
#[derive(Drop)]
pub enum Value {
    /// an expression or a type
    Expr(Expr),
    /// an operand of a chain of so many operators so far
    Chain(u32, Expr),
    /// `x := e.(type`, the `)` still to come
    Guard(Option<Name>, Expr),
    /// `x, y = range` or `x, y := range`
    Ranging(Vec<Expr>, bool),
    Sig(Sig),
    Block(Block),
    Stmt(Stmt),
    Decl(Decl),
}

#[derive(Drop)]
pub enum Frame {
    Expr(ExprFrame),
    Part(PartFrame),
    Type(TypeFrame),
    Field(FieldFrame),
    Sig(SigFrame),
    Stmt(StmtFrame),
    Control(ControlFrame),
    Switch(SwitchFrame),
    Decl(DeclFrame),
    File(FileFrame),
    /// a tree that is done, before any token
    Done(Value),
}

#[derive(Drop)]
pub enum ExprFrame {
    /// want: Unary
    Operand(Ctx),
    /// an operand with so many parts; want: a part, or what comes after
    Tail(Ctx, u32, Expr),
    /// `-`; wait: Unary
    Prefix(Place, Prefix),
    /// wait: the first operand of a chain
    Chain(Ctx),
    /// `x +`, the operator being the so manieth; wait: the right operand
    Left(Ctx, u32, Expr, Op),
    /// `(`; wait: Expr
    Paren(Ctx, Place),
    /// wait: the type that is an operand
    TypeOperand(Ctx),
    /// `func`; wait: Sig
    Func(Ctx, Place),
    /// `func` Sig; wait: Block
    FuncBody(Ctx, Place, Sig),
}

/// The operand of a part, with what is open round it and how many parts it has.
#[derive(Drop)]
pub struct Base {
    pub ctx: Ctx,
    pub count: u32,
    pub expr: Expr,
}

/// The `{` of a literal, with its type where it has one.
#[derive(Drop)]
pub struct Braces {
    pub ctx: Ctx,
    pub count: u32,
    pub place: Place,
    pub ty: Option<Expr>,
}

#[derive(Drop)]
pub enum PartFrame {
    /// `x.`; want: name or `(`
    Dot(Base),
    /// `x.(`; want: Type or `type`
    AssertOpen(Base),
    /// `x.(`; wait: Type
    Assert(Base),
    /// `x[`; want: Expr or `:`
    Bracket(Base),
    /// `x[`; wait: Expr
    Index(Base),
    /// `x[i:`; want: Expr or `]`
    High(Base, Option<Expr>),
    /// `x[i:`; wait: Expr
    HighExpr(Base, Option<Expr>),
    /// `x[i:j:`; wait: Expr
    Max(Base, Option<Expr>, Expr),
    /// `f(x,`; want: Expr or `)`
    Args(Base, Vec<Expr>),
    /// `f(x,`; wait: Expr
    Arg(Base, Vec<Expr>),
    /// `f(x...`, and whether `,` is past; want: `,` or `)`
    Spread(Base, Vec<Expr>, bool),
    /// `T{x,`; want: Value or `}`
    Elems(Braces, Vec<Elem>),
    /// `T{x,` and a key; wait: Value
    Elem(Braces, Vec<Elem>, Option<Expr>),
    /// `T{x, k:`; want: Value
    ElemValue(Braces, Vec<Elem>, Expr),
}

#[derive(Drop)]
pub enum TypeFrame {
    /// want: Type
    Type(Ctx),
    /// `T`; want: `.`, or what comes after
    Name(Expr),
    /// `p.`; want: name
    Dot(Expr),
    /// `(`; wait: Type
    Paren(Place),
    /// `*`; wait: Type
    Star(Place),
    /// `[`; want: `]`, `...` or Expr
    Bracket(Ctx, Place),
    /// `[...`; want: `]`
    Dots(Ctx, Place),
    /// `[`; wait: Expr
    Len(Ctx, Place),
    /// `[]`; wait: Type
    Slice(Place),
    /// `[n]` or `[...]`; wait: Type
    Array(Place, Option<Expr>),
    /// `map`; want: `[`
    Map(Ctx, Place),
    /// `map[`; wait: Type
    Key(Ctx, Place),
    /// `map[K]`; wait: Type
    MapElem(Place, Expr),
    /// `chan`; want: `<-` or Type
    Chan(Ctx, Place),
    /// `chan`; wait: Type
    Both(Place),
    /// `chan<-`; wait: Type
    Send(Place),
    /// `<-`; want: `chan`
    Arrow(Ctx, Place),
    /// `<-chan`; wait: Type
    Receive(Place),
    /// `func`; wait: Sig
    Func(Place),
    /// `struct`; want: `{`
    Struct(Ctx, Place),
    /// `interface`; want: `{`
    Interface(Ctx, Place),
}

/// `struct {` and fields.
#[derive(Drop)]
pub struct StructPart {
    pub ctx: Ctx,
    pub place: Place,
    pub fields: Vec<Field>,
}

/// `interface {` and members.
#[derive(Drop)]
pub struct InterfacePart {
    pub ctx: Ctx,
    pub place: Place,
    pub members: Vec<Member>,
}

/// An embedded field: its first token's place, whether there is a `*`, and its type so far.
#[derive(Drop)]
pub struct Embedded {
    pub place: Place,
    pub star: bool,
    pub ty: Expr,
}

#[derive(Drop)]
pub enum FieldFrame {
    /// want: Field or `}`
    Fields(StructPart),
    /// `x`; want: what makes it a field's name, or a type
    Name(StructPart, Name),
    /// `x,`; want: name
    Next(StructPart, Vec<Name>),
    /// `x, y`; want: `,` or Type
    Names(StructPart, Vec<Name>),
    /// `x, y`; wait: Type
    Named(StructPart, Vec<Name>),
    /// `*`; want: name
    Star(StructPart, Place),
    /// `*T`; want: `.`, a tag, or the field's end
    Embedded(StructPart, Embedded),
    /// `p.`; want: name
    Dot(StructPart, Embedded),
    /// `p.T`; want: a tag, or the field's end
    EmbeddedEnd(StructPart, Embedded),
    /// want: the field's end
    End(StructPart),
    /// want: a member or `}`
    Members(InterfacePart),
    /// `m`; want: `(`, `.` or the member's end
    Member(InterfacePart, Name),
    /// `p.`; want: name
    MemberDot(InterfacePart, Expr),
    /// want: the member's end
    MemberEnd(InterfacePart),
    /// `m`; wait: Sig
    Method(InterfacePart, Name),
}

/// `(` and parameters, and `)`.
#[derive(Drop)]
pub struct ParamList {
    pub place: Place,
    pub items: Vec<Param>,
}

/// What a parameter list is.
#[derive(Drop)]
pub enum Role {
    /// the parameters of a signature
    Params,
    /// the results of a signature with these parameters
    Results(ParamList),
    /// the receiver of the function whose `func` stands there
    Receiver(Place),
}

/// `(` and parameters.
#[derive(Drop)]
pub struct ParamsPart {
    pub ctx: Ctx,
    pub place: Place,
    pub items: Vec<Param>,
    pub role: Role,
}

#[derive(Drop)]
pub enum SigFrame {
    /// want: `(`
    Open(Ctx),
    /// want: Param or `)`
    Params(ParamsPart),
    /// `x`; want: what makes it a parameter's name or a type
    Name(ParamsPart, Name),
    /// place, name, whether there is a `...`; wait: Type
    Param(ParamsPart, Place, Option<Name>, bool),
    /// Params; want: Params, Type, or what comes after
    Results(Ctx, ParamList),
    /// Params; wait: Type
    Result(ParamList),
}

/// What a simple statement stands in.
#[derive(Clone, Copy)]
pub enum Mode {
    /// a list of statements, after so many labels
    Stmt(u32),
    /// a header or a `case` of a `select`
    Header,
    /// the header of a `for`, at its start
    For,
    /// the header of a `switch`, at its start
    Switch,
    /// the header of a `switch`, after its `;`: Expr, or the guard of a type switch
    Tag,
}

/// Where a simple statement stands.
#[derive(Clone, Copy)]
pub struct Spot {
    pub ctx: Ctx,
    pub mode: Mode,
    pub place: Place,
}

#[derive(Drop)]
pub enum StmtFrame {
    /// `{` and statements; want: Stmt, `;` or `}`; wait: Stmt
    Block(u32, Place, Vec<Stmt>),
    /// wait: Decl
    Decl,
    /// wait: Block
    Inner,
    /// `go`; wait: Expr
    Go(Place),
    /// `defer`; wait: Expr
    Defer(Place),
    /// `return`; want: Expr, or what comes after
    Return(u32, Place),
    /// `return x,`; wait: Expr
    Returned(u32, Place, Vec<Expr>),
    /// `break`; want: name, or what comes after
    Break(Place),
    Continue(Place),
    /// `x:` and how many labels; want: Stmt, or what comes after
    Label(u32, u32),
    /// `x:`; wait: Stmt
    Labeled(Name),
    /// `x,`; wait: Expr
    Simple(Spot, Vec<Expr>),
    /// `x, y =` or, where the last part is true, `x, y :=`; want: Expr or `range`
    Right(Spot, Vec<Expr>, bool),
    /// `x, y = z,` or `x += z,`; wait: Expr
    Assign(Spot, Vec<Expr>, Option<Op>, Vec<Expr>),
    /// `x, y := z,`; wait: Expr
    Define(Spot, Vec<Expr>, Vec<Expr>),
    /// `x <-`; wait: Expr
    Send(Place, Vec<Expr>),
}

/// `if`: blocks open round it, its place, how many `else` are before it, the statement before its
/// condition.
#[derive(Drop)]
pub struct IfPart {
    pub blocks: u32,
    pub place: Place,
    pub elses: u32,
    pub init: Option<Stmt>,
}

/// `for`: blocks open round it, its place.
#[derive(Clone, Copy)]
pub struct ForPart {
    pub blocks: u32,
    pub place: Place,
}

#[derive(Drop)]
pub enum ControlFrame {
    /// `if`; want: Simple or `;`; wait: Stmt
    If(IfPart),
    /// `if x;`; want: Expr; wait: Expr
    Condition(IfPart),
    /// wait: Block
    Then(IfPart, Expr),
    /// `else`; want: `if` or `{`
    Else(IfPart, Expr, Block),
    /// wait: Stmt or Block
    Other(IfPart, Expr, Block),
    /// `for`; want: all that may follow; wait: Stmt or Ranging
    For(ForPart),
    /// `for x;`; want: Expr or `;`; wait: Expr
    ForCondition(ForPart, Option<Stmt>),
    /// `for x; y;`; want: Simple or `{`; wait: Stmt
    Post(ForPart, Option<Stmt>, Option<Expr>),
    /// wait: Block
    ForBody(ForPart, Option<Stmt>, Option<Expr>, Option<Stmt>),
    /// `for x = range`; wait: Expr
    Range(ForPart, Vec<Expr>, bool),
    /// wait: Block
    RangeBody(ForPart, Vec<Expr>, bool, Expr),
}

/// What a `switch` is on.
#[derive(Drop)]
pub enum Subject {
    Tag(Option<Expr>),
    Guard(Option<Name>, Expr),
}

/// `switch` up to its `{`: blocks open in it, its place, the statement before, what it is on.
#[derive(Drop)]
pub struct SwitchPart {
    pub blocks: u32,
    pub place: Place,
    pub init: Option<Stmt>,
    pub subject: Subject,
    pub clauses: Vec<Clause>,
}

/// `select {` and its clauses.
#[derive(Drop)]
pub struct SelectPart {
    pub blocks: u32,
    pub place: Place,
    pub comms: Vec<Comm>,
}

#[derive(Drop)]
pub enum SwitchFrame {
    /// `switch`; want: Simple, `;` or `{`; wait: Stmt or Guard
    Head(u32, Place),
    /// `switch x;`; want: Expr, a guard or `{`; wait: Stmt or Guard
    Tag(u32, Place, Option<Stmt>),
    /// `switch x; y := z.(type)`; want: `{`
    GuardEnd(u32, Place, Option<Stmt>, Option<Name>, Expr),
    /// want: `case`, `default` or `}`
    Clauses(SwitchPart),
    /// `case x,`; wait: Expr
    Case(SwitchPart, Place, Vec<Expr>),
    /// `default`; want: `:`
    Default(SwitchPart, Place),
    /// `case x:` and statements; want: Stmt, `;` or the clause's end; wait: Stmt
    Body(SwitchPart, Place, Vec<Expr>, Vec<Stmt>),
    /// `select`; want: `{`
    Select(u32, Place),
    /// want: `case`, `default` or `}`
    Comms(SelectPart),
    /// `case`; want: Simple; wait: Stmt
    Comm(SelectPart, Place),
    /// `default`; want: `:`
    CommDefault(SelectPart, Place),
    /// `case x:` and statements; want: Stmt, `;` or the clause's end; wait: Stmt
    CommBody(SelectPart, Place, Option<Stmt>, Vec<Stmt>),
}

/// `const` or `var`: blocks open round it, its place, whether it is `const`, whether it is a group.
#[derive(Drop)]
pub struct ValuesPart {
    pub blocks: u32,
    pub place: Place,
    pub constant: bool,
    pub group: bool,
    pub specs: Vec<ValueSpec>,
}

/// `type`: blocks open round it, its place, whether it is a group.
#[derive(Drop)]
pub struct TypesPart {
    pub blocks: u32,
    pub place: Place,
    pub group: bool,
    pub specs: Vec<TypeSpec>,
}

#[derive(Drop)]
pub enum DeclFrame {
    /// `const`; want: name or `(`
    Values(ValuesPart),
    /// `const (`; want: name or `)`
    ValueGroup(ValuesPart),
    /// `const x,`; want: name
    NextName(ValuesPart, Vec<Name>),
    /// `const x, y`; want: `,`, `=`, Type, or what comes after
    Names(ValuesPart, Vec<Name>),
    /// `const x, y`; wait: Type
    ValueType(ValuesPart, Vec<Name>),
    /// `const x, y T = z,`; wait: Expr
    ValueExprs(ValuesPart, Vec<Name>, Option<Expr>, Vec<Expr>),
    /// `type`; want: name or `(`
    Types(TypesPart),
    /// `type (`; want: name or `)`
    TypeGroup(TypesPart),
    /// `type x`; want: `=` or Type
    TypeName(TypesPart, Name),
    /// `type x =`, and whether there is a `=`; wait: Type
    TypeOf(TypesPart, Name, bool),
}

/// The file so far.
#[derive(Drop)]
pub struct FilePart {
    pub package: Name,
    pub imports: Vec<Import>,
    pub decls: Vec<Decl>,
}

#[derive(Drop)]
pub enum FileFrame {
    /// want: `package`
    Start,
    /// `package`; want: name
    Package,
    /// `package x`; want: `;`
    PackageEnd(Name),
    /// want: `import`, Top or End; wait: Decl
    Top(FilePart),
    /// `import`; want: Spec or `(`
    Import(FilePart),
    /// `import (`; want: Spec or `)`
    ImportGroup(FilePart),
    /// whether it is in a group, the place of the name, the name; want: string
    Path(FilePart, bool, Name),
    /// after a Spec, and whether it is in a group; want: `;` or `)`
    ImportEnd(FilePart, bool),
    /// `func`; want: name or `(`
    Func(Place),
    /// `func (r T)`; want: name
    FuncName(Place, ParamList),
    /// `func x`; wait: Sig
    FuncSig(Place, Option<ParamList>, Name),
    /// wait: Block
    FuncBody(Place, Option<ParamList>, Name, Sig),
    /// after End
    Whole(File),
}

/// A field without its tag.
#[derive(Drop)]
pub enum Untagged {
    Named(Vec<Name>, Expr),
    Embedded(Embedded),
}
