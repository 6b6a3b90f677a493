//! Terminating statements, on the syntax tree. Go, "Terminating statements".

use gj_base::Text;
use go_check_state::Checker;
use go_check_state::state::joined;
use go_syntax::tree::{Clause, Comm, Expr, ExprForm, Name, Stmt, StmtForm};

/// Whether a list of statements ends in a terminating one: its last that isn't empty.
#[cycle(terminating)]
pub fn ends(c: &Checker, list: &Vec<Stmt>) -> bool {
    let mut out = false;
    for s in list {
        match &*s.form {
            StmtForm::Empty => {}
            _ => out = is_terminating(c, s, None),
        }
    }
    out
}

// The last statement that isn't empty.
fn last(list: &Vec<Stmt>) -> Option<&Stmt> {
    for s in list.iter().rev() {
        match &*s.form {
            StmtForm::Empty => {}
            _ => return Some(s),
        }
    }
    None
}

#[cycle(terminating)]
fn is_terminating(c: &Checker, s: &Stmt, label: Option<&Name>) -> bool {
    match &*s.form {
        StmtForm::Return(_) => true,
        StmtForm::Expr(list) => match list.first() {
            Some(e) => list.len() == 1 && is_panic(c, e),
            None => false,
        },
        StmtForm::Block(block) => ends(c, &block.stmts),
        StmtForm::If(_, _, block, Some(other)) => {
            ends(c, &block.stmts) && is_terminating(c, other, None)
        }
        StmtForm::For(_, None, _, block) => !leaves(&block.stmts, label, true),
        StmtForm::Switch(_, _, clauses) => clauses_end(c, clauses, label),
        StmtForm::TypeSwitch(_, _, _, clauses) => clauses_end(c, clauses, label),
        StmtForm::Select(comms) => comms_end(c, comms, label),
        StmtForm::Labeled(name, s) => is_terminating(c, s, Some(name)),
        _ => false,
    }
}

// Whether it is a call of the built-in `panic`, parentheses aside.
fn is_panic(c: &Checker, e: &Expr) -> bool {
    match &*e.form {
        ExprForm::Paren(x) => is_panic(c, x),
        ExprForm::Call(_, _, _) => c.panics.contains(&joined(e.place.file, e.place.offset)),
        _ => false,
    }
}

fn is_fallthrough(list: &Vec<Stmt>) -> bool {
    match last(list) {
        Some(s) => falls(s),
        None => false,
    }
}

fn falls(s: &Stmt) -> bool {
    match &*s.form {
        StmtForm::Fallthrough => true,
        StmtForm::Labeled(_, s) => falls(s),
        _ => false,
    }
}

#[cycle(terminating)]
fn clauses_end(c: &Checker, clauses: &Vec<Clause>, label: Option<&Name>) -> bool {
    let mut has_default = false;
    for clause in clauses {
        if clause.exprs.is_empty() {
            has_default = true;
        }
        if !ends(c, &clause.body) && !is_fallthrough(&clause.body) {
            return false;
        }
        if leaves(&clause.body, label, true) {
            return false;
        }
    }
    has_default
}

#[cycle(terminating)]
fn comms_end(c: &Checker, comms: &Vec<Comm>, label: Option<&Name>) -> bool {
    for comm in comms {
        if !ends(c, &comm.body) || leaves(&comm.body, label, true) {
            return false;
        }
    }
    true
}

// Whether a `break` among the statements leaves the one around: by its label, or without one where `plain`.
#[cycle(leaving)]
fn leaves(list: &Vec<Stmt>, label: Option<&Name>, plain: bool) -> bool {
    for s in list {
        if stmt_leaves(s, label, plain) {
            return true;
        }
    }
    false
}

fn is_label(name: &Text, label: Option<&Name>) -> bool {
    match label {
        Some(label) => label.text == *name,
        None => false,
    }
}

#[cycle(leaving)]
fn stmt_leaves(s: &Stmt, label: Option<&Name>, plain: bool) -> bool {
    match &*s.form {
        StmtForm::Break(None) => plain,
        StmtForm::Break(Some(name)) => is_label(&name.text, label),
        StmtForm::Block(block) => leaves(&block.stmts, label, plain),
        StmtForm::If(_, _, block, other) => {
            leaves(&block.stmts, label, plain)
                || match other {
                    Some(s) => stmt_leaves(s, label, plain),
                    None => false,
                }
        }
        StmtForm::For(_, _, _, block) => leaves(&block.stmts, label, false),
        StmtForm::Range(_, _, _, block) => leaves(&block.stmts, label, false),
        StmtForm::Switch(_, _, clauses) => clauses_leave(clauses, label),
        StmtForm::TypeSwitch(_, _, _, clauses) => clauses_leave(clauses, label),
        StmtForm::Select(comms) => {
            for comm in comms {
                if leaves(&comm.body, label, false) {
                    return true;
                }
            }
            false
        }
        StmtForm::Labeled(_, s) => stmt_leaves(s, label, plain),
        _ => false,
    }
}

#[cycle(leaving)]
fn clauses_leave(clauses: &Vec<Clause>, label: Option<&Name>) -> bool {
    for clause in clauses {
        if leaves(&clause.body, label, false) {
            return true;
        }
    }
    false
}
