//! Nodes of signatures, fields, statements and declarations, each from its parts.

ghost use Rattle.std.specs.Prelude.{◌≡◌, IfOk, map};
ghost use Rattle.go_syntax.specs.Tree as t;
ghost use Rattle.go_syntax.specs.View.{expr_view, sig_view, block_view, stmt_view, stmts_of, exprs_of, params_view, param_view, field_view, member_view, clause_view, comm_view, decl_view, value_spec_view, type_spec_view, joined};
ghost use Rattle.go_grammar.specs.Nodes as nodes;
ghost use Rattle.go_grammar.specs.StmtSteps as rows;
ghost use Rattle.go_frames.specs.FrameView.{one_of, expr_in_option, expr_perhaps, stmt_perhaps, exprs_in, stmts_in, params_in};

use crate::frames::frame::ParamList;
use gj_base::{NoMemory, Op, Place, Text};
use go_syntax::node::{declaration, statement};
use go_syntax::tree::{
    Block, Clause, Comm, Decl, DeclForm, Expr, Field, Member, Name, Param, Params, Results, Sig,
    Stmt, StmtForm, TypeSpec, ValueSpec,
};
use std::alloc::Global;

pub fn named_field(names: Vec<Name>, ty: Expr, tag: Option<Text>) -> Field
    ensures value { (rest : t.Fields) → field_view result rest ≡ t.NamedFields names.items (expr_view ty) tag rest }
{
    Field::Named(names, ty, tag)
}

pub fn embedded_field(place: Place, star: bool, ty: Expr, tag: Option<Text>) -> Field
    ensures value { (rest : t.Fields) → field_view result rest ≡ t.EmbeddedField place star (expr_view ty) tag rest }
{
    Field::Embedded(place, star, ty, tag)
}

pub fn embedded_member(ty: Expr) -> Member
    ensures value { (rest : t.Members) → member_view result rest ≡ t.EmbeddedMember (expr_view ty) rest }
{
    Member::Embedded(ty)
}

pub fn method_member(name: Name, sig: Sig) -> Member
    ensures value { (rest : t.Members) → member_view result rest ≡ t.MethodMember name (sig_view sig) rest }
{
    Member::Method(name, sig)
}

pub fn param(place: Place, name: Option<Name>, variadic: bool, ty: Expr) -> Param
    ensures value { (rest : t.Params) → param_view result rest ≡ t.MoreParams place name variadic (expr_view ty) rest }
{
    Param {
        place,
        name,
        variadic,
        ty,
    }
}

pub fn params(list: ParamList) -> Params
    ensures value { params_view result ≡ (list.place, joined (params_in list) t.NoParams) }
{
    Params {
        place: list.place,
        items: list.items,
    }
}

pub fn sig_of_none(list: ParamList) -> Sig
    ensures value { sig_view result ≡ t.SigOf list.place (joined (params_in list) t.NoParams) t.NoResults }
{
    Sig {
        params: params(list),
        results: Results::None,
    }
}

/// A signature with one result without parentheses.
pub fn sig_of_one(list: ParamList, ty: Expr) -> Sig
    ensures value { sig_view result ≡ t.SigOf list.place (joined (params_in list) t.NoParams) (t.OneResult (expr_view ty)) }
{
    Sig {
        params: params(list),
        results: Results::Type(ty),
    }
}

pub fn sig_of_many(list: ParamList, after: ParamList) -> Sig
    ensures value { sig_view result ≡ t.SigOf list.place (joined (params_in list) t.NoParams) (t.ManyResults after.place (joined (params_in after) t.NoParams)) }
{
    Sig {
        params: params(list),
        results: Results::List(params(after)),
    }
}

pub fn block(place: Place, stmts: Vec<Stmt>, end: Place) -> Block
    ensures value { block_view result ≡ t.BlockOf place (stmts_of (stmts_in stmts.items)) end }
{
    Block { place, stmts, end }
}

pub fn block_stmt(alloc: Global, block: Block) -> Result<Stmt, NoMemory>
    ensures value { IfOk result (λ s. stmt_view s ≡ nodes.block_stmt (block_view block)) }
{
    statement(alloc, block.place, StmtForm::Block(block))
}

/// A statement that is an expression, or several.
pub fn exprs_stmt(alloc: Global, place: Place, es: Vec<Expr>) -> Result<Stmt, NoMemory>
    ensures value { IfOk result (λ s. stmt_view s ≡ t.ExprStmt place (exprs_of (exprs_in es.items))) }
{
    statement(alloc, place, StmtForm::Expr(es))
}

/// The one expression that a statement is, where it is one.
pub fn into_expr(s: Stmt) -> Option<Expr>
    ensures value { expr_in_option result ≡ nodes.expr_in (stmt_view s) }
{
    match Box::into_inner(s.form) {
        StmtForm::Expr(es) => only_one(es),
        _ => None,
    }
}

/// What a list of one holds.
pub fn only_one(es: Vec<Expr>) -> Option<Expr>
    ensures value { expr_in_option result ≡ one_of (exprs_in es.items) }
{
    let mut es = es;
    if es.len() != 1 {
        return None;
    }
    es.pop()
}

pub fn go(alloc: Global, place: Place, e: Expr) -> Result<Stmt, NoMemory>
    ensures value { IfOk result (λ s. stmt_view s ≡ t.GoStmt place (expr_view e)) }
{
    statement(alloc, place, StmtForm::Go(e))
}

pub fn defer(alloc: Global, place: Place, e: Expr) -> Result<Stmt, NoMemory>
    ensures value { IfOk result (λ s. stmt_view s ≡ t.DeferStmt place (expr_view e)) }
{
    statement(alloc, place, StmtForm::Defer(e))
}

pub fn send(alloc: Global, place: Place, cs: Vec<Expr>, e: Expr) -> Result<Stmt, NoMemory>
    ensures value { IfOk result (λ s. stmt_view s ≡ t.SendStmt place (exprs_of (exprs_in cs.items)) (expr_view e)) }
{
    statement(alloc, place, StmtForm::Send(cs, e))
}

pub fn increment(alloc: Global, place: Place, es: Vec<Expr>, up: bool) -> Result<Stmt, NoMemory>
    ensures value { IfOk result (λ s. stmt_view s ≡ t.IncDecStmt place (exprs_of (exprs_in es.items)) up) }
{
    statement(alloc, place, StmtForm::IncDec(es, up))
}

pub fn labeled(alloc: Global, name: Name, s: Stmt) -> Result<Stmt, NoMemory>
    ensures value { IfOk result (λ r. stmt_view r ≡ t.LabeledStmt name.place name (stmt_view s)) }
{
    let place = name.place;
    statement(alloc, place, StmtForm::Labeled(name, s))
}

pub fn empty(alloc: Global, place: Place) -> Result<Stmt, NoMemory>
    ensures value { IfOk result (λ s. stmt_view s ≡ t.EmptyStmt place) }
{
    statement(alloc, place, StmtForm::Empty)
}

pub fn fall_through(alloc: Global, place: Place) -> Result<Stmt, NoMemory>
    ensures value { IfOk result (λ s. stmt_view s ≡ t.FallthroughStmt place) }
{
    statement(alloc, place, StmtForm::Fallthrough)
}

pub fn return_stmt(alloc: Global, place: Place, es: Vec<Expr>) -> Result<Stmt, NoMemory>
    ensures value { IfOk result (λ s. stmt_view s ≡ t.ReturnStmt place (exprs_of (exprs_in es.items))) }
{
    statement(alloc, place, StmtForm::Return(es))
}

pub fn break_to(
    alloc: Global,
    place: Place,
    is_break: bool,
    name: Option<Name>,
) -> Result<Stmt, NoMemory>
    ensures value { IfOk result (λ s. stmt_view s ≡ rows.break_to place is_break name) }
{
    if is_break {
        return break_stmt(alloc, place, name);
    }
    continue_stmt(alloc, place, name)
}

fn break_stmt(alloc: Global, place: Place, name: Option<Name>) -> Result<Stmt, NoMemory>
    ensures value { IfOk result (λ s. stmt_view s ≡ t.BreakStmt place name) }
{
    statement(alloc, place, StmtForm::Break(name))
}

fn continue_stmt(alloc: Global, place: Place, name: Option<Name>) -> Result<Stmt, NoMemory>
    ensures value { IfOk result (λ s. stmt_view s ≡ t.ContinueStmt place name) }
{
    statement(alloc, place, StmtForm::Continue(name))
}

pub fn assign(
    alloc: Global,
    place: Place,
    left: Vec<Expr>,
    op: Option<Op>,
    right: Vec<Expr>,
) -> Result<Stmt, NoMemory>
    ensures value { IfOk result (λ s. stmt_view s ≡ t.AssignStmt place (exprs_of (exprs_in left.items)) op (exprs_of (exprs_in right.items))) }
{
    statement(alloc, place, StmtForm::Assign(left, op, right))
}

pub fn define(
    alloc: Global,
    place: Place,
    left: Vec<Expr>,
    right: Vec<Expr>,
) -> Result<Stmt, NoMemory>
    ensures value { IfOk result (λ s. stmt_view s ≡ t.DefineStmt place (exprs_of (exprs_in left.items)) (exprs_of (exprs_in right.items))) }
{
    statement(alloc, place, StmtForm::Define(left, right))
}

pub fn decl_stmt(alloc: Global, d: Decl) -> Result<Stmt, NoMemory>
    ensures value { IfOk result (λ s. stmt_view s ≡ t.DeclStmt (nodes.place_of_decl (decl_view d)) (decl_view d)) }
{
    let place = d.place;
    statement(alloc, place, StmtForm::Decl(d))
}

pub fn if_stmt(
    alloc: Global,
    place: Place,
    init: Option<Stmt>,
    e: Expr,
    block: Block,
    other: Option<Stmt>,
) -> Result<Stmt, NoMemory>
    ensures value { IfOk result (λ s. stmt_view s ≡ t.IfStmt place (stmt_perhaps init) (expr_view e) (block_view block) (stmt_perhaps other)) }
{
    statement(alloc, place, StmtForm::If(init, e, block, other))
}

pub fn for_stmt(
    alloc: Global,
    place: Place,
    init: Option<Stmt>,
    e: Option<Expr>,
    post: Option<Stmt>,
    block: Block,
) -> Result<Stmt, NoMemory>
    ensures value { IfOk result (λ s. stmt_view s ≡ t.ForStmt place (stmt_perhaps init) (expr_perhaps e) (stmt_perhaps post) (block_view block)) }
{
    statement(alloc, place, StmtForm::For(init, e, post, block))
}

pub fn range(
    alloc: Global,
    place: Place,
    left: Vec<Expr>,
    fresh: bool,
    e: Expr,
    block: Block,
) -> Result<Stmt, NoMemory>
    ensures value { IfOk result (λ s. stmt_view s ≡ t.RangeStmt place (exprs_of (exprs_in left.items)) fresh (expr_view e) (block_view block)) }
{
    statement(alloc, place, StmtForm::Range(left, fresh, e, block))
}

pub fn switch(
    alloc: Global,
    place: Place,
    init: Option<Stmt>,
    e: Option<Expr>,
    clauses: Vec<Clause>,
) -> Result<Stmt, NoMemory>
    ensures value { IfOk result (λ s. stmt_view s ≡ t.SwitchStmt place (stmt_perhaps init) (expr_perhaps e) (joined (map clause_view clauses.items) t.NoClauses)) }
{
    statement(alloc, place, StmtForm::Switch(init, e, clauses))
}

pub fn type_switch(
    alloc: Global,
    place: Place,
    init: Option<Stmt>,
    name: Option<Name>,
    e: Expr,
    clauses: Vec<Clause>,
) -> Result<Stmt, NoMemory>
    ensures value { IfOk result (λ s. stmt_view s ≡ t.TypeSwitchStmt place (stmt_perhaps init) name (expr_view e) (joined (map clause_view clauses.items) t.NoClauses)) }
{
    statement(alloc, place, StmtForm::TypeSwitch(init, name, e, clauses))
}

pub fn select_stmt(alloc: Global, place: Place, comms: Vec<Comm>) -> Result<Stmt, NoMemory>
    ensures value { IfOk result (λ s. stmt_view s ≡ t.SelectStmt place (joined (map comm_view comms.items) t.NoComms)) }
{
    statement(alloc, place, StmtForm::Select(comms))
}

pub fn clause(place: Place, exprs: Vec<Expr>, body: Vec<Stmt>) -> Clause
    ensures value { (rest : t.Clauses) → clause_view result rest ≡ t.MoreClauses place (exprs_of (exprs_in exprs.items)) (stmts_of (stmts_in body.items)) rest }
{
    Clause { place, exprs, body }
}

pub fn comm(place: Place, stmt: Option<Stmt>, body: Vec<Stmt>) -> Comm
    ensures value { (rest : t.Comms) → comm_view result rest ≡ t.MoreComms place (stmt_perhaps stmt) (stmts_of (stmts_in body.items)) rest }
{
    Comm { place, stmt, body }
}

pub fn const_decl(alloc: Global, place: Place, specs: Vec<ValueSpec>) -> Result<Decl, NoMemory>
    ensures value { IfOk result (λ d. decl_view d ≡ t.ConstDecl place (joined (map value_spec_view specs.items) t.NoValues)) }
{
    declaration(alloc, place, DeclForm::Const(specs))
}

pub fn var_decl(alloc: Global, place: Place, specs: Vec<ValueSpec>) -> Result<Decl, NoMemory>
    ensures value { IfOk result (λ d. decl_view d ≡ t.VarDecl place (joined (map value_spec_view specs.items) t.NoValues)) }
{
    declaration(alloc, place, DeclForm::Var(specs))
}

pub fn type_decl(alloc: Global, place: Place, specs: Vec<TypeSpec>) -> Result<Decl, NoMemory>
    ensures value { IfOk result (λ d. decl_view d ≡ t.TypeDecl place (joined (map type_spec_view specs.items) t.NoTypes)) }
{
    declaration(alloc, place, DeclForm::TypeDecl(specs))
}

pub fn func_decl(
    alloc: Global,
    place: Place,
    name: Name,
    sig: Sig,
    body: Block,
) -> Result<Decl, NoMemory>
    ensures value { IfOk result (λ d. decl_view d ≡ t.FuncDecl place name (sig_view sig) (block_view body)) }
{
    declaration(alloc, place, DeclForm::Func(None, name, sig, body))
}

pub fn method_decl(
    alloc: Global,
    place: Place,
    list: ParamList,
    name: Name,
    sig: Sig,
    body: Block,
) -> Result<Decl, NoMemory>
    ensures value { IfOk result (λ d. decl_view d ≡ t.MethodDecl place list.place (joined (params_in list) t.NoParams) name (sig_view sig) (block_view body)) }
{
    declaration(
        alloc,
        place,
        DeclForm::Func(Some(params(list)), name, sig, body),
    )
}

pub fn value_spec(names: Vec<Name>, ty: Option<Expr>, values: Vec<Expr>) -> ValueSpec
    ensures value { (rest : t.ValueSpecs) → value_spec_view result rest ≡ t.MoreValues names.items (expr_perhaps ty) (exprs_of (exprs_in values.items)) rest }
{
    ValueSpec { names, ty, values }
}

pub fn type_spec(name: Name, alias: bool, ty: Expr) -> TypeSpec
    ensures value { (rest : t.TypeSpecs) → type_spec_view result rest ≡ t.MoreTypes name alias (expr_view ty) rest }
{
    TypeSpec { name, alias, ty }
}
