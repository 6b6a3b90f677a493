//! Statements.

ghost use Rattle.std.specs.Prelude.{◌≡◌, ◌<◌, ◌≤◌, ◌&&◌, suc, true};
ghost use Rattle.js_tree.specs.View.{stmt_view, stmts_view, else_view, else_if_view, cases_view};
ghost use Rattle.js_tree.specs.Printable.{stmt_fits, stmts_fit, else_fits, cases_fit};

use crate::expr::{expr, within};
use crate::level::{after, deeper, dot_level, is_call, parts};
use crate::name::{is_in_range, is_own_label, is_own_name};
use js_tree::{JsCases, JsElse, JsElseIf, JsStmt, JsStmts, StmtForm};

/// Whether a statement whose first token is nested so deep has a text.
#[cycle(fits)]
pub fn stmt(d: u32, s: &JsStmt) -> bool
    ensures fits { result ≡ true → stmt_fits d (stmt_view s.now) ≡ true }
{
    if d > 1000 {
        return false;
    }
    match &s.form {
        StmtForm::Declare(x, e) => is_own_name(x) && expr(d, e),
        StmtForm::Assign(x, e) => is_own_name(x) && expr(d, e),
        StmtForm::Store(e, i, v) => {
            let n = parts(e);
            n < 1000 && within(12, d, e) && expr(after(d, n), i) && expr(d, v)
        }
        StmtForm::Perform(e) => is_call(e) && expr(d, e),
        StmtForm::Push(e, v) => {
            let n = parts(e);
            n < 1000 && within(dot_level(e), d, e) && expr(after(d, n), v)
        }
        StmtForm::Delete(e, k) => {
            let n = parts(e);
            n < 1000 && within(12, d, e) && expr(after(d, n), k)
        }
        StmtForm::If(test, body, other) => {
            expr(deeper(d), test) && stmts(deeper(d), body) && otherwise(d, other)
        }
        StmtForm::While(l, test, body) => {
            is_own_label(l) && expr(deeper(d), test) && stmts(deeper(d), body)
        }
        StmtForm::Forever(l, body) => is_own_label(l) && d < 1000 && stmts(deeper(d), body),
        StmtForm::Switch(l, e, list) => is_own_label(l)
            && expr(deeper(d), e)
            && cases(deeper(d), list),
        StmtForm::Return(None) => true,
        StmtForm::Return(Some(e)) => expr(d, e),
        StmtForm::Throw(e) => expr(d, e),
        StmtForm::Break(l) => is_own_label(l),
        StmtForm::Continue(l) => is_own_label(l),
        StmtForm::Try(body, handler) => d < 1000
            && stmts(deeper(d), body)
            && stmts(deeper(d), handler),
    }
}

/// Statements, each of whose first tokens is nested so deep.
#[cycle(fits)]
pub fn stmts(d: u32, list: &JsStmts) -> bool
    ensures fits { result ≡ true → stmts_fit d (stmts_view list.now) ≡ true }
{
    for s in &list.items {
        if !stmt(d, s) {
            return false;
        }
    }
    true
}

/// What stands after the block of an `if` is nested one deeper.
#[cycle(fits)]
fn otherwise(d: u32, other: &JsElse) -> bool
    ensures fits { result ≡ true → else_fits d (else_view other.now) ≡ true }
{
    if d > 1000 {
        return false;
    }
    match other {
        JsElse::Nothing => true,
        JsElse::Block(body) => d < 1000 && stmts(deeper(deeper(d)), body),
        JsElse::ElseIf(other) => else_if(d, other),
    }
}

#[cycle(fits)]
fn else_if(d: u32, other: &JsElseIf) -> bool
    requires { d ≤ 1000 }
    ensures fits { result ≡ true → else_fits d (else_if_view other.now) ≡ true }
{
    expr(deeper(deeper(d)), &other.test)
        && stmts(deeper(deeper(d)), &other.body)
        && otherwise(deeper(d), &other.rest)
}

/// The cases of a `switch`.
#[cycle(fits)]
fn cases(d: u32, list: &JsCases) -> bool
    ensures fits { result ≡ true → cases_fit d (cases_view list.now) ≡ true }
{
    if d > 1000 {
        return false;
    }
    for c in &list.items {
        if !(is_in_range(c.number) && stmts(d, &c.body)) {
            return false;
        }
    }
    match &list.default {
        Some(body) => stmts(d, body),
        None => true,
    }
}
