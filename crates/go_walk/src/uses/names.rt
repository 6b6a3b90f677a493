//! Names that occur, in the order of the text, also inside forms that are not built yet.
//!
//! A name after a dot, a label, and a name that is declared are none of them.

ghost use Rattle.std.specs.Prelude.{◌≡◌, ◌++◌, ◌∷◌, [], OnOk, map, option_map};
ghost use Rattle.go_syntax.specs.Tree as t;
ghost use Rattle.go_syntax.specs.View.{expr_view, exprs_of, elem_view, sig_view, results_view, params_view, param_view, field_view, member_view, block_view, stmt_view, stmts_of, clause_view, comm_view, decl_view, value_spec_view, type_spec_view, joined, maybe_expr, maybe_stmt};
ghost use Rattle.go_typing.specs.Uses.{names_in, names_in_bound, names_in_all, names_in_elems, names_in_sig, names_in_results, names_in_params, names_in_fields, names_in_members, names_in_block, names_in_stmts, names_in_maybe, names_in_stmt, names_in_clauses, names_in_comms, names_in_decl, names_in_values, names_in_types};
ghost use Rattle.go_walk.specs.Texts.{texts};

use gj_base::{NoMemory, Text};
use go_syntax::tree::{
    Clause, Comm, Decl, DeclForm, Elem, Expr, ExprForm, Field, Member, Params, Results, Sig, Stmt,
    StmtForm, TypeSpec, ValueSpec,
};

fn one<'a>(names: &mut Vec<&'a Text>, x: &'a Text) -> Result<(), NoMemory>
    ensures value { OnOk result (texts names.new.items ≡ texts names.old.items ++ x.now ∷ []) }
{
    names.push(x)?;
    Ok(())
}

/// Adds the names in an expression or a type.
#[cycle(uses)]
pub fn in_expr<'a>(names: &mut Vec<&'a Text>, e: &'a Expr) -> Result<(), NoMemory>
    ensures value { OnOk result (texts names.new.items ≡ texts names.old.items ++ names_in (expr_view e.now)) }
{
    match &*e.form {
        ExprForm::Name(x) => one(names, x),
        ExprForm::Int(_) => Ok(()),
        ExprForm::Rune(_) => Ok(()),
        ExprForm::Str(_) => Ok(()),
        ExprForm::Paren(x) => in_expr(names, x),
        ExprForm::Unary(_, x) => in_expr(names, x),
        ExprForm::Binary(x, _, y) => {
            in_expr(names, x)?;
            in_expr(names, y)
        }
        ExprForm::Select(x, _) => in_expr(names, x),
        ExprForm::Index(x, i) => {
            in_expr(names, x)?;
            in_expr(names, i)
        }
        ExprForm::Slice(x, low, high, most) => {
            in_expr(names, x)?;
            in_bound(names, low)?;
            in_bound(names, high)?;
            in_bound(names, most)
        }
        ExprForm::Assert(x, ty) => {
            in_expr(names, x)?;
            in_expr(names, ty)
        }
        ExprForm::Call(f, args, _) => {
            in_expr(names, f)?;
            in_exprs(names, args.as_slice())
        }
        ExprForm::Literal(ty, elems) => {
            in_bound(names, ty)?;
            in_elems(names, elems.as_slice())
        }
        ExprForm::Func(sig, block) => {
            in_sig(names, sig)?;
            in_stmts(names, block.stmts.as_slice())
        }
        ExprForm::ArrayT(n, ty) => {
            in_bound(names, n)?;
            in_expr(names, ty)
        }
        ExprForm::SliceT(ty) => in_expr(names, ty),
        ExprForm::StructT(fields) => in_fields(names, fields.as_slice()),
        ExprForm::FuncT(sig) => in_sig(names, sig),
        ExprForm::InterfaceT(members) => in_members(names, members.as_slice()),
        ExprForm::MapT(key, ty) => {
            in_expr(names, key)?;
            in_expr(names, ty)
        }
        ExprForm::ChanT(_, ty) => in_expr(names, ty),
    }
}

#[cycle(uses)]
fn in_bound<'a>(names: &mut Vec<&'a Text>, x: &'a Option<Expr>) -> Result<(), NoMemory>
    ensures value { OnOk result (texts names.new.items ≡ texts names.old.items ++ names_in_bound (maybe_expr (option_map expr_view x.now))) }
{
    match x {
        Some(x) => in_expr(names, x),
        None => Ok(()),
    }
}

/// Adds the names in expressions.
#[cycle(uses)]
pub fn in_exprs<'a>(names: &mut Vec<&'a Text>, xs: &'a [Expr]) -> Result<(), NoMemory>
    ensures value { OnOk result (texts names.new.items ≡ texts names.old.items ++ names_in_all (exprs_of (map expr_view xs.now))) }
{
    for x in xs {
        in_expr(names, x)?;
    }
    Ok(())
}

#[cycle(uses)]
fn in_elems<'a>(names: &mut Vec<&'a Text>, elems: &'a [Elem]) -> Result<(), NoMemory>
    ensures value { OnOk result (texts names.new.items ≡ texts names.old.items ++ names_in_elems (joined (map elem_view elems.now) t.NoElems)) }
{
    for e in elems {
        in_bound(names, &e.key)?;
        in_expr(names, &e.value)?;
    }
    Ok(())
}

#[cycle(uses)]
fn in_sig<'a>(names: &mut Vec<&'a Text>, sig: &'a Sig) -> Result<(), NoMemory>
    ensures value { OnOk result (texts names.new.items ≡ texts names.old.items ++ names_in_sig (sig_view sig.now)) }
{
    in_params(names, &sig.params)?;
    match &sig.results {
        Results::None => Ok(()),
        Results::Type(ty) => in_expr(names, ty),
        Results::List(params) => in_params(names, params),
    }
}

#[cycle(uses)]
fn in_params<'a>(names: &mut Vec<&'a Text>, params: &'a Params) -> Result<(), NoMemory>
    ensures value { OnOk result (texts names.new.items ≡ texts names.old.items ++ names_in_params (params_view params.now).1) }
{
    for p in &params.items {
        in_expr(names, &p.ty)?;
    }
    Ok(())
}

#[cycle(uses)]
fn in_fields<'a>(names: &mut Vec<&'a Text>, fields: &'a [Field]) -> Result<(), NoMemory>
    ensures value { OnOk result (texts names.new.items ≡ texts names.old.items ++ names_in_fields (joined (map field_view fields.now) t.NoFields)) }
{
    for f in fields {
        match f {
            Field::Named(_, ty, _) => in_expr(names, ty)?,
            Field::Embedded(_, _, ty, _) => in_expr(names, ty)?,
        }
    }
    Ok(())
}

#[cycle(uses)]
fn in_members<'a>(names: &mut Vec<&'a Text>, members: &'a [Member]) -> Result<(), NoMemory>
    ensures value { OnOk result (texts names.new.items ≡ texts names.old.items ++ names_in_members (joined (map member_view members.now) t.NoMembers)) }
{
    for m in members {
        match m {
            Member::Method(_, sig) => in_sig(names, sig)?,
            Member::Embedded(ty) => in_expr(names, ty)?,
        }
    }
    Ok(())
}

#[cycle(uses)]
fn in_stmts<'a>(names: &mut Vec<&'a Text>, ss: &'a [Stmt]) -> Result<(), NoMemory>
    ensures value { OnOk result (texts names.new.items ≡ texts names.old.items ++ names_in_stmts (stmts_of (map stmt_view ss.now))) }
{
    for s in ss {
        in_stmt(names, s)?;
    }
    Ok(())
}

#[cycle(uses)]
fn in_maybe<'a>(names: &mut Vec<&'a Text>, s: &'a Option<Stmt>) -> Result<(), NoMemory>
    ensures value { OnOk result (texts names.new.items ≡ texts names.old.items ++ names_in_maybe (maybe_stmt (option_map stmt_view s.now))) }
{
    match s {
        Some(s) => in_stmt(names, s),
        None => Ok(()),
    }
}

/// Adds the names in a statement.
#[cycle(uses)]
pub fn in_stmt<'a>(names: &mut Vec<&'a Text>, s: &'a Stmt) -> Result<(), NoMemory>
    ensures value { OnOk result (texts names.new.items ≡ texts names.old.items ++ names_in_stmt (stmt_view s.now)) }
{
    match &*s.form {
        StmtForm::Empty => Ok(()),
        StmtForm::Expr(xs) => in_exprs(names, xs.as_slice()),
        StmtForm::Send(xs, y) => {
            in_exprs(names, xs.as_slice())?;
            in_expr(names, y)
        }
        StmtForm::IncDec(xs, _) => in_exprs(names, xs.as_slice()),
        StmtForm::Assign(xs, _, ys) => {
            in_exprs(names, xs.as_slice())?;
            in_exprs(names, ys.as_slice())
        }
        StmtForm::Define(xs, ys) => {
            in_exprs(names, xs.as_slice())?;
            in_exprs(names, ys.as_slice())
        }
        StmtForm::Decl(d) => in_decl(names, d),
        StmtForm::Block(b) => in_stmts(names, b.stmts.as_slice()),
        StmtForm::If(init, x, b, other) => {
            in_maybe(names, init)?;
            in_expr(names, x)?;
            in_stmts(names, b.stmts.as_slice())?;
            in_maybe(names, other)
        }
        StmtForm::For(init, x, post, b) => {
            in_maybe(names, init)?;
            in_bound(names, x)?;
            in_maybe(names, post)?;
            in_stmts(names, b.stmts.as_slice())
        }
        StmtForm::Range(xs, _, y, b) => {
            in_exprs(names, xs.as_slice())?;
            in_expr(names, y)?;
            in_stmts(names, b.stmts.as_slice())
        }
        StmtForm::Switch(init, x, cs) => {
            in_maybe(names, init)?;
            in_bound(names, x)?;
            in_clauses(names, cs.as_slice())
        }
        StmtForm::TypeSwitch(init, _, x, cs) => {
            in_maybe(names, init)?;
            in_expr(names, x)?;
            in_clauses(names, cs.as_slice())
        }
        StmtForm::Select(cs) => in_comms(names, cs.as_slice()),
        StmtForm::Go(x) => in_expr(names, x),
        StmtForm::Defer(x) => in_expr(names, x),
        StmtForm::Return(xs) => in_exprs(names, xs.as_slice()),
        StmtForm::Break(_) => Ok(()),
        StmtForm::Continue(_) => Ok(()),
        StmtForm::Fallthrough => Ok(()),
        StmtForm::Labeled(_, s) => in_stmt(names, s),
    }
}

#[cycle(uses)]
fn in_clauses<'a>(names: &mut Vec<&'a Text>, cs: &'a [Clause]) -> Result<(), NoMemory>
    ensures value { OnOk result (texts names.new.items ≡ texts names.old.items ++ names_in_clauses (joined (map clause_view cs.now) t.NoClauses)) }
{
    for c in cs {
        in_exprs(names, c.exprs.as_slice())?;
        in_stmts(names, c.body.as_slice())?;
    }
    Ok(())
}

#[cycle(uses)]
fn in_comms<'a>(names: &mut Vec<&'a Text>, cs: &'a [Comm]) -> Result<(), NoMemory>
    ensures value { OnOk result (texts names.new.items ≡ texts names.old.items ++ names_in_comms (joined (map comm_view cs.now) t.NoComms)) }
{
    for c in cs {
        in_maybe(names, &c.stmt)?;
        in_stmts(names, c.body.as_slice())?;
    }
    Ok(())
}

#[cycle(uses)]
fn in_decl<'a>(names: &mut Vec<&'a Text>, d: &'a Decl) -> Result<(), NoMemory>
    ensures value { OnOk result (texts names.new.items ≡ texts names.old.items ++ names_in_decl (decl_view d.now)) }
{
    match &*d.form {
        DeclForm::Const(specs) => in_values(names, specs.as_slice()),
        DeclForm::TypeDecl(specs) => in_types(names, specs.as_slice()),
        DeclForm::Var(specs) => in_values(names, specs.as_slice()),
        DeclForm::Func(None, _, sig, block) => {
            in_sig(names, sig)?;
            in_stmts(names, block.stmts.as_slice())
        }
        DeclForm::Func(Some(receiver), _, sig, block) => {
            in_params(names, receiver)?;
            in_sig(names, sig)?;
            in_stmts(names, block.stmts.as_slice())
        }
    }
}

#[cycle(uses)]
fn in_values<'a>(names: &mut Vec<&'a Text>, specs: &'a [ValueSpec]) -> Result<(), NoMemory>
    ensures value { OnOk result (texts names.new.items ≡ texts names.old.items ++ names_in_values (joined (map value_spec_view specs.now) t.NoValues)) }
{
    for s in specs {
        in_bound(names, &s.ty)?;
        in_exprs(names, s.values.as_slice())?;
    }
    Ok(())
}

#[cycle(uses)]
fn in_types<'a>(names: &mut Vec<&'a Text>, specs: &'a [TypeSpec]) -> Result<(), NoMemory>
    ensures value { OnOk result (texts names.new.items ≡ texts names.old.items ++ names_in_types (joined (map type_spec_view specs.now) t.NoTypes)) }
{
    for s in specs {
        in_expr(names, &s.ty)?;
    }
    Ok(())
}
