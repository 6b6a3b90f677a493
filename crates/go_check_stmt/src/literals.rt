//! The function literals of a body, but for those within others. Go, "Function literals".

use gj_base::{NoMemory, Place};
use go_syntax::tree::{
    Block, Clause, Comm, Decl, DeclForm, Elem, Expr, ExprForm, Sig, Stmt, StmtForm, ValueSpec,
};

/// A function literal.
#[derive(Clone, Copy)]
pub struct LiteralRow<'a> {
    pub place: Place,
    pub sig: &'a Sig,
    pub block: &'a Block,
}

/// Function literals, in the order of the text.
#[derive(Drop)]
pub struct Literals<'a> {
    pub rows: Vec<LiteralRow<'a>>,
}

/// Those of statements.
#[cycle(literals)]
pub fn in_stmts<'a>(l: &mut Literals<'a>, list: &'a Vec<Stmt>) -> Result<(), NoMemory> {
    for s in list {
        in_stmt(l, s)?;
    }
    Ok(())
}

#[cycle(literals)]
fn in_stmt<'a>(l: &mut Literals<'a>, s: &'a Stmt) -> Result<(), NoMemory> {
    match &*s.form {
        StmtForm::Block(b) => in_stmts(l, &b.stmts),
        StmtForm::Labeled(_, s) => in_stmt(l, s),
        StmtForm::If(init, test, body, other) => {
            in_maybe_stmt(l, init)?;
            in_expr(l, test)?;
            in_stmts(l, &body.stmts)?;
            in_maybe_stmt(l, other)
        }
        StmtForm::For(init, test, post, body) => {
            in_maybe_stmt(l, init)?;
            in_maybe_expr(l, test)?;
            in_maybe_stmt(l, post)?;
            in_stmts(l, &body.stmts)
        }
        StmtForm::Range(left, _, over, body) => {
            in_exprs(l, left)?;
            in_expr(l, over)?;
            in_stmts(l, &body.stmts)
        }
        StmtForm::Switch(init, tag, clauses) => {
            in_maybe_stmt(l, init)?;
            in_maybe_expr(l, tag)?;
            in_clauses(l, clauses)
        }
        StmtForm::TypeSwitch(init, _, of, clauses) => {
            in_maybe_stmt(l, init)?;
            in_expr(l, of)?;
            in_clauses(l, clauses)
        }
        StmtForm::Select(comms) => in_comms(l, comms),
        _ => in_leaf(l, s),
    }
}

#[cycle(literals)]
fn in_maybe_stmt<'a>(l: &mut Literals<'a>, s: &'a Option<Stmt>) -> Result<(), NoMemory> {
    match s {
        Some(s) => in_stmt(l, s),
        None => Ok(()),
    }
}

#[cycle(literals)]
fn in_clauses<'a>(l: &mut Literals<'a>, clauses: &'a Vec<Clause>) -> Result<(), NoMemory> {
    for clause in clauses {
        in_exprs(l, &clause.exprs)?;
        in_stmts(l, &clause.body)?;
    }
    Ok(())
}

#[cycle(literals)]
fn in_comms<'a>(l: &mut Literals<'a>, comms: &'a Vec<Comm>) -> Result<(), NoMemory> {
    for comm in comms {
        in_maybe_stmt(l, &comm.stmt)?;
        in_stmts(l, &comm.body)?;
    }
    Ok(())
}

// Those of a statement that has no others in it.
fn in_leaf<'a>(l: &mut Literals<'a>, s: &'a Stmt) -> Result<(), NoMemory> {
    match &*s.form {
        StmtForm::Expr(list) | StmtForm::IncDec(list, _) | StmtForm::Return(list) => {
            in_exprs(l, list)
        }
        StmtForm::Send(left, right) => {
            in_exprs(l, left)?;
            in_expr(l, right)
        }
        StmtForm::Assign(left, _, right) | StmtForm::Define(left, right) => {
            in_exprs(l, left)?;
            in_exprs(l, right)
        }
        StmtForm::Decl(d) => in_decl(l, d),
        StmtForm::Go(e) | StmtForm::Defer(e) => in_expr(l, e),
        _ => Ok(()),
    }
}

fn in_decl<'a>(l: &mut Literals<'a>, d: &'a Decl) -> Result<(), NoMemory> {
    match &*d.form {
        DeclForm::Const(specs) | DeclForm::Var(specs) => {
            for spec in specs {
                in_spec(l, spec)?;
            }
            Ok(())
        }
        _ => Ok(()),
    }
}

fn in_spec<'a>(l: &mut Literals<'a>, spec: &'a ValueSpec) -> Result<(), NoMemory> {
    in_exprs(l, &spec.values)
}

#[cycle(operands)]
fn in_exprs<'a>(l: &mut Literals<'a>, list: &'a Vec<Expr>) -> Result<(), NoMemory> {
    for e in list {
        in_expr(l, e)?;
    }
    Ok(())
}

#[cycle(operands)]
fn in_maybe_expr<'a>(l: &mut Literals<'a>, e: &'a Option<Expr>) -> Result<(), NoMemory> {
    match e {
        Some(e) => in_expr(l, e),
        None => Ok(()),
    }
}

#[cycle(operands)]
fn in_elems<'a>(l: &mut Literals<'a>, list: &'a Vec<Elem>) -> Result<(), NoMemory> {
    for elem in list {
        if let Some(key) = &elem.key {
            in_expr(l, key)?;
        }
        in_expr(l, &elem.value)?;
    }
    Ok(())
}

/// Those of an expression.
#[cycle(operands)]
pub fn in_expr<'a>(l: &mut Literals<'a>, e: &'a Expr) -> Result<(), NoMemory> {
    match &*e.form {
        ExprForm::Func(sig, block) => {
            l.rows.push(LiteralRow {
                place: e.place,
                sig,
                block,
            })?;
            Ok(())
        }
        ExprForm::Paren(x) | ExprForm::Unary(_, x) | ExprForm::Select(x, _) => in_expr(l, x),
        ExprForm::Assert(x, _) => in_expr(l, x),
        ExprForm::Binary(x, _, y) | ExprForm::Index(x, y) => {
            in_expr(l, x)?;
            in_expr(l, y)
        }
        ExprForm::Slice(x, low, high, max) => {
            in_expr(l, x)?;
            in_maybe_expr(l, low)?;
            in_maybe_expr(l, high)?;
            in_maybe_expr(l, max)
        }
        ExprForm::Call(f, args, _) => {
            in_expr(l, f)?;
            in_exprs(l, args)
        }
        ExprForm::Literal(_, elems) => in_elems(l, elems),
        _ => Ok(()),
    }
}
