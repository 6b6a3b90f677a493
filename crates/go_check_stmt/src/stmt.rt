//! Statements of the syntax tree. Go, "Statements", "Blocks".
//!
//! One function goes over the tree; what it finds goes to the rows, which go over no statements.

use crate::assign::{assign, assign_op, define, inc_dec};
use crate::control::{branch, condition, declares, if_row, loop_row, maybe_condition, return_stmt};
use crate::frame::Frame;
use crate::hold::{both, nothing, sequence};
use crate::local::decl;
use crate::range::{range_head, range_row};
use crate::select::{Select, begin_select, end_comm, end_select, maybe_communication, send};
use crate::start::{expr_stmt, start};
use crate::switch::{
    Switch, begin_switch, begin_type_switch, cases, end_clause, end_switch, falls_at, symbol,
    type_cases,
};
use gj_base::NoMemory;
use go_check_state::node::StmtId;
use go_check_state::{Checker, FaultCode, NameId};
use go_syntax::tree::{Block, Clause, Comm, Stmt, StmtForm};

/// No statement of a list.
pub const NONE_OF_THEM: usize = usize::MAX;

/// Statements, one after another, but for the one with a number.
#[cycle(statement)]
pub fn stmt_list(
    c: &mut Checker,
    f: &mut Frame,
    list: &Vec<Stmt>,
    but: usize,
) -> Result<StmtId, NoMemory> {
    let mut parts: Vec<u32> = Vec::new(c.alloc);
    let mut number = 0usize;
    for s in list {
        if number != but {
            parts.push(stmt(c, f, s)?.0)?;
        }
        number = number.saturating_add(1);
    }
    sequence(c, &parts)
}

/// A statement. A label before it is taken by a loop, a switch or a select.
///
/// Forms with statements in them are apart, so that a level of a deep tree takes little room.
#[cycle(statement)]
pub fn stmt(c: &mut Checker, f: &mut Frame, s: &Stmt) -> Result<StmtId, NoMemory> {
    let label = f.take_label();
    match &*s.form {
        StmtForm::Block(b) => scoped(c, f, b),
        StmtForm::If(_, _, _, _) => if_form(c, f, s),
        StmtForm::For(_, _, _, _) => for_form(c, f, s, label),
        StmtForm::Range(_, _, _, _) => range_form(c, f, s, label),
        StmtForm::Switch(_, _, _) => switch_form(c, f, s, label),
        StmtForm::TypeSwitch(_, _, _, _) => type_switch_form(c, f, s, label),
        StmtForm::Select(_) => select_form(c, f, s, label),
        StmtForm::Labeled(name, s) => {
            let id = c.names.intern(name.text.as_bytes())?;
            f.label = Some(id);
            stmt(c, f, s)
        }
        _ => leaf(c, f, s),
    }
}

// A statement that has no others in it.
fn leaf(c: &mut Checker, f: &mut Frame, s: &Stmt) -> Result<StmtId, NoMemory> {
    match &*s.form {
        StmtForm::Decl(d) => decl(c, d),
        StmtForm::Go(e) => start(c, s.place, e, false),
        StmtForm::Defer(e) => start(c, s.place, e, true),
        StmtForm::Return(list) => return_stmt(c, f, s.place, list),
        StmtForm::Break(label) => branch(c, f, s.place, label, false),
        StmtForm::Continue(label) => branch(c, f, s.place, label, true),
        StmtForm::Fallthrough => {
            c.fault(FaultCode::MisplacedFallthrough, s.place)?;
            nothing(c)
        }
        _ => simple(c, s),
    }
}

// Go, "Simple statements".
fn simple(c: &mut Checker, s: &Stmt) -> Result<StmtId, NoMemory> {
    match &*s.form {
        StmtForm::Expr(list) => expr_stmt(c, s.place, list),
        StmtForm::Send(left, right) => send(c, s.place, left, right),
        StmtForm::IncDec(list, up) => inc_dec(c, s.place, list, *up),
        StmtForm::Assign(left, None, right) => assign(c, s.place, left, right),
        StmtForm::Assign(left, Some(op), right) => assign_op(c, s.place, left, *op, right),
        StmtForm::Define(left, right) => define(c, s.place, left, right),
        _ => nothing(c),
    }
}

// Statements in a scope of their own.
#[cycle(statement)]
fn scoped(c: &mut Checker, f: &mut Frame, b: &Block) -> Result<StmtId, NoMemory> {
    c.open()?;
    let id = stmt_list(c, f, &b.stmts, NONE_OF_THEM)?;
    c.close();
    Ok(id)
}

// What stands before the test of a statement.
#[cycle(statement)]
fn before_test(c: &mut Checker, f: &mut Frame, s: &Option<Stmt>) -> Result<StmtId, NoMemory> {
    match s {
        Some(s) => stmt(c, f, s),
        None => nothing(c),
    }
}

#[cycle(statement)]
fn otherwise(c: &mut Checker, f: &mut Frame, s: &Option<Stmt>) -> Result<Option<StmtId>, NoMemory> {
    match s {
        Some(s) => Ok(Some(stmt(c, f, s)?)),
        None => Ok(None),
    }
}

// Go, "If statements".
#[cycle(statement)]
fn if_form(c: &mut Checker, f: &mut Frame, s: &Stmt) -> Result<StmtId, NoMemory> {
    match &*s.form {
        StmtForm::If(before, test, body, other) => {
            c.open()?;
            let first = before_test(c, f, before)?;
            let test = condition(c, test)?;
            let when_true = scoped(c, f, body)?;
            let when_false = otherwise(c, f, other)?;
            c.close();
            if_row(c, first, test, when_true, when_false)
        }
        _ => nothing(c),
    }
}

// The last part of a `for`, which declares nothing.
#[cycle(statement)]
fn after_turn(
    c: &mut Checker,
    f: &mut Frame,
    s: &Option<Stmt>,
) -> Result<Option<StmtId>, NoMemory> {
    match s {
        Some(s) => {
            if declares(c, s)? {
                return Ok(None);
            }
            Ok(Some(stmt(c, f, s)?))
        }
        None => Ok(None),
    }
}

// Go, "For statements".
#[cycle(statement)]
fn for_form(
    c: &mut Checker,
    f: &mut Frame,
    s: &Stmt,
    label: Option<NameId>,
) -> Result<StmtId, NoMemory> {
    match &*s.form {
        StmtForm::For(before, test, after, body) => {
            c.open()?;
            let first = before_test(c, f, before)?;
            let test = maybe_condition(c, test)?;
            let after = after_turn(c, f, after)?;
            let number = f.enter(c, label, true)?;
            let body = scoped(c, f, body)?;
            f.leave();
            c.close();
            loop_row(c, number, first, test, after, body)
        }
        _ => nothing(c),
    }
}

#[cycle(statement)]
fn range_form(
    c: &mut Checker,
    f: &mut Frame,
    s: &Stmt,
    label: Option<NameId>,
) -> Result<StmtId, NoMemory> {
    match &*s.form {
        StmtForm::Range(left, defines, over, body) => {
            c.open()?;
            let head = range_head(c, s.place, left, *defines, over)?;
            let number = f.enter(c, label, true)?;
            let body = scoped(c, f, body)?;
            f.leave();
            c.close();
            range_row(c, head, number, body)
        }
        _ => nothing(c),
    }
}

// Go, "Expression switches".
#[cycle(statement)]
fn switch_form(
    c: &mut Checker,
    f: &mut Frame,
    s: &Stmt,
    label: Option<NameId>,
) -> Result<StmtId, NoMemory> {
    match &*s.form {
        StmtForm::Switch(before, tag, clauses) => {
            c.open()?;
            let first = before_test(c, f, before)?;
            let mut g = begin_switch(c, s.place, first, tag, clauses)?;
            g.set_label(f.enter(c, label, false)?);
            value_clauses(c, f, &mut g, clauses)?;
            f.leave();
            c.close();
            end_switch(c, g)
        }
        _ => nothing(c),
    }
}

#[cycle(statement)]
fn value_clauses(
    c: &mut Checker,
    f: &mut Frame,
    g: &mut Switch,
    clauses: &Vec<Clause>,
) -> Result<(), NoMemory> {
    let mut rest = clauses.len();
    for clause in clauses {
        rest = rest.saturating_sub(1);
        cases(c, g, clause)?;
        let but = falls_at(clause, rest == 0);
        c.open()?;
        let body = stmt_list(c, f, &clause.body, but)?;
        c.close();
        end_clause(g, body, but != NONE_OF_THEM)?;
    }
    Ok(())
}

// Go, "Type switches".
#[cycle(statement)]
fn type_switch_form(
    c: &mut Checker,
    f: &mut Frame,
    s: &Stmt,
    label: Option<NameId>,
) -> Result<StmtId, NoMemory> {
    match &*s.form {
        StmtForm::TypeSwitch(before, name, of, clauses) => {
            c.open()?;
            let first = before_test(c, f, before)?;
            let mut g = begin_type_switch(c, s.place, first, name, of, clauses)?;
            g.set_label(f.enter(c, label, false)?);
            type_clauses(c, f, &mut g, clauses)?;
            f.leave();
            c.close();
            end_switch(c, g)
        }
        _ => nothing(c),
    }
}

#[cycle(statement)]
fn type_clauses(
    c: &mut Checker,
    f: &mut Frame,
    g: &mut Switch,
    clauses: &Vec<Clause>,
) -> Result<(), NoMemory> {
    for clause in clauses {
        let t = type_cases(c, g, clause)?;
        c.open()?;
        let first = symbol(c, g, clause, t)?;
        let body = stmt_list(c, f, &clause.body, NONE_OF_THEM)?;
        c.close();
        let body = both(c, first, body)?;
        end_clause(g, body, false)?;
    }
    Ok(())
}

// Go, "Select statements".
#[cycle(statement)]
fn select_form(
    c: &mut Checker,
    f: &mut Frame,
    s: &Stmt,
    label: Option<NameId>,
) -> Result<StmtId, NoMemory> {
    match &*s.form {
        StmtForm::Select(comms) => {
            let number = f.enter(c, label, false)?;
            let mut g = begin_select(c, s.place, number, comms)?;
            select_clauses(c, f, &mut g, comms)?;
            f.leave();
            end_select(c, g)
        }
        _ => nothing(c),
    }
}

#[cycle(statement)]
fn select_clauses(
    c: &mut Checker,
    f: &mut Frame,
    g: &mut Select,
    comms: &Vec<Comm>,
) -> Result<(), NoMemory> {
    for comm in comms {
        c.open()?;
        let first = maybe_communication(c, &comm.stmt)?;
        let body = stmt_list(c, f, &comm.body, NONE_OF_THEM)?;
        c.close();
        end_comm(c, g, comm.place, first, body)?;
    }
    Ok(())
}
