//! Statements to code: ECMA-262 5.1, 12.

ghost use Rattle.std.specs.Prelude.{◌≡◌, OnOk, IfOk, option_map};
ghost use Rattle.js_tree.specs.View.{expr_view, stmt_view, stmts_view, else_view, cases_view, last_case};
ghost use Rattle.js_tree.specs.Script as tree;
ghost use Rattle.js_code.specs.Names.{index_in};
ghost use Rattle.js_code.specs.Places.{table, target_of, global_place};
ghost use Rattle.js_code.specs.Held.{part_of};
ghost use Rattle.js_code.specs.Parts as list;
ghost use Rattle.js_code.specs.Parts.{last};
ghost use Rattle.js_code.specs.StmtParts.{with_stmt, with_stmts, with_else, with_cases};

use crate::code::code::{Code, narrow};
use crate::code::expr::{add_expr, add_three, add_two};
use crate::code::part::Part;
use crate::slots::place::Scope;
use gj_base::{NoMemory, Text};
use js_tree::{JsCases, JsElse, JsExpr, JsStmt, JsStmts, StmtForm};

/// `var` with the slot of its local.
fn declared<'a>(scope: Scope<'_, 'a>, at: u32, x: &'a Text, e: u32) -> Result<Part<'a>, NoMemory>
    ensures value { IfOk result (λ p. part_of p ≡ list.declare at x.now (index_in (table scope.entry).locals x.now) e) }
{
    match scope.locals.slot(x) {
        Some(slot) => {
            let slot = narrow(slot)?;
            Ok(Part::Declare { at, slot, e, x })
        }
        None => Ok(Part::DeclareNowhere { at, e, x }),
    }
}

fn assigned_at_top<'a>(
    scope: Scope<'_, 'a>,
    at: u32,
    x: &'a Text,
    e: u32,
) -> Result<Part<'a>, NoMemory>
    ensures value { IfOk result (λ p. part_of p ≡ list.assign at x.now (global_place (table scope.entry) x.now) e) }
{
    match scope.globals.slot(x) {
        Some(slot) => {
            let slot = narrow(slot)?;
            Ok(Part::AssignGlobal { at, slot, e, x })
        }
        None => Ok(Part::AssignNowhere { at, e, x }),
    }
}

/// An assignment with the place that it sets.
fn assigned<'a>(scope: Scope<'_, 'a>, at: u32, x: &'a Text, e: u32) -> Result<Part<'a>, NoMemory>
    ensures value { IfOk result (λ p. part_of p ≡ list.assign at x.now (target_of (table scope.entry) x.now) e) }
{
    match scope.locals.slot(x) {
        Some(slot) => {
            let slot = narrow(slot)?;
            Ok(Part::AssignLocal { at, slot, e, x })
        }
        None => assigned_at_top(scope, at, x, e),
    }
}

fn add_declare<'a>(
    code: &mut Code<'a>,
    scope: Scope<'_, 'a>,
    depth: u32,
    at: u32,
    x: &'a Text,
    e: &'a JsExpr,
) -> Result<u32, NoMemory>
    ensures value { OnOk result (code.new ≡ with_stmt (table scope.entry) code.old (tree.declare at x.now (expr_view e.now))) }
    ensures last { IfOk result (λ n. n ≡ last code.new) }
{
    let e = add_expr(code, scope, depth, e)?;
    let part = declared(scope, at, x, e)?;
    code.add(part)
}

fn add_assign<'a>(
    code: &mut Code<'a>,
    scope: Scope<'_, 'a>,
    depth: u32,
    at: u32,
    x: &'a Text,
    e: &'a JsExpr,
) -> Result<u32, NoMemory>
    ensures value { OnOk result (code.new ≡ with_stmt (table scope.entry) code.old (tree.assign at x.now (expr_view e.now))) }
    ensures last { IfOk result (λ n. n ≡ last code.new) }
{
    let e = add_expr(code, scope, depth, e)?;
    let part = assigned(scope, at, x, e)?;
    code.add(part)
}

fn add_return<'a>(
    code: &mut Code<'a>,
    scope: Scope<'_, 'a>,
    depth: u32,
    at: u32,
    e: &'a Option<JsExpr>,
) -> Result<u32, NoMemory>
    ensures value { OnOk result (code.new ≡ with_stmt (table scope.entry) code.old (tree.return at (option_map expr_view e.now))) }
    ensures last { IfOk result (λ n. n ≡ last code.new) }
{
    match e {
        None => code.add(Part::ReturnNothing { at }),
        Some(e) => {
            let e = add_expr(code, scope, depth, e)?;
            code.add(Part::Return { at, e })
        }
    }
}

/// Adds the parts of a statement whose nodes are nested at most so deep, and gives the number of
/// the last one, which stands for it.
#[cycle(code)]
pub fn add_stmt<'a>(
    code: &mut Code<'a>,
    scope: Scope<'_, 'a>,
    depth: u32,
    s: &'a JsStmt,
) -> Result<u32, NoMemory>
    ensures value { OnOk result (code.new ≡ with_stmt (table scope.entry) code.old (stmt_view s.now)) }
    ensures last { IfOk result (λ n. n ≡ last code.new) }
{
    if depth == 0 {
        return Err(NoMemory);
    }
    let depth = depth - 1;
    let at = s.at;
    match &s.form {
        StmtForm::Declare(x, e) => add_declare(code, scope, depth, at, x, e),
        StmtForm::Assign(x, e) => add_assign(code, scope, depth, at, x, e),
        StmtForm::Store(e, i, value) => {
            let (e, i, value) = add_three(code, scope, depth, e, i, value)?;
            code.add(Part::Store { at, e, i, value })
        }
        StmtForm::Perform(e) => {
            let e = add_expr(code, scope, depth, e)?;
            code.add(Part::Perform { at, e })
        }
        StmtForm::Push(e, value) => {
            let (e, value) = add_two(code, scope, depth, e, value)?;
            code.add(Part::Push { at, e, value })
        }
        StmtForm::Delete(e, key) => {
            let (e, key) = add_two(code, scope, depth, e, key)?;
            code.add(Part::Delete { at, e, key })
        }
        StmtForm::If(test, body, other) => {
            let test = add_expr(code, scope, depth, test)?;
            let body = add_stmts(code, scope, depth, body)?;
            let other = add_else(code, scope, depth, other)?;
            code.add(Part::If {
                at,
                test,
                body,
                other,
            })
        }
        StmtForm::While(label, test, body) => {
            let test = add_expr(code, scope, depth, test)?;
            let body = add_stmts(code, scope, depth, body)?;
            code.add(Part::While {
                at,
                test,
                body,
                label,
            })
        }
        StmtForm::Forever(label, body) => {
            let body = add_stmts(code, scope, depth, body)?;
            code.add(Part::Forever { at, body, label })
        }
        StmtForm::Switch(label, e, list) => {
            let e = add_expr(code, scope, depth, e)?;
            let cases = add_cases(code, scope, depth, list)?;
            code.add(Part::Switch {
                at,
                e,
                cases,
                label,
            })
        }
        StmtForm::Return(e) => add_return(code, scope, depth, at, e),
        StmtForm::Throw(e) => {
            let e = add_expr(code, scope, depth, e)?;
            code.add(Part::Throw { at, e })
        }
        StmtForm::Break(label) => code.add(Part::Break { at, label }),
        StmtForm::Continue(label) => code.add(Part::Continue { at, label }),
        StmtForm::Try(body, handler) => {
            let body = add_stmts(code, scope, depth, body)?;
            let handler = add_stmts(code, scope, depth, handler)?;
            code.add(Part::Try { at, body, handler })
        }
    }
}

/// Statements in order, as cells from the last one on.
#[cycle(code)]
pub fn add_stmts<'a>(
    code: &mut Code<'a>,
    scope: Scope<'_, 'a>,
    depth: u32,
    ss: &'a JsStmts,
) -> Result<u32, NoMemory>
    ensures value { OnOk result (code.new ≡ with_stmts (table scope.entry) code.old (stmts_view ss.now)) }
    ensures last { IfOk result (λ n. n ≡ last code.new) }
{
    let mut rest = code.add(Part::Done)?;
    let items = ss.items.as_slice();
    let count = items.len();
    for i in (0..count).rev() {
        let first = add_stmt(code, scope, depth, &items[i])?;
        rest = code.add(Part::Then { first, rest })?;
    }
    Ok(rest)
}

/// What stands after the block of an `if`.
#[cycle(code)]
fn add_else<'a>(
    code: &mut Code<'a>,
    scope: Scope<'_, 'a>,
    depth: u32,
    other: &'a JsElse,
) -> Result<u32, NoMemory>
    ensures value { OnOk result (code.new ≡ with_else (table scope.entry) code.old (else_view other.now)) }
    ensures last { IfOk result (λ n. n ≡ last code.new) }
{
    if depth == 0 {
        return Err(NoMemory);
    }
    let depth = depth - 1;
    match other {
        JsElse::Nothing => code.add(Part::NoElse),
        JsElse::Block(body) => {
            let body = add_stmts(code, scope, depth, body)?;
            code.add(Part::ElseBlock { body })
        }
        JsElse::ElseIf(next) => {
            let test = add_expr(code, scope, depth, &next.test)?;
            let body = add_stmts(code, scope, depth, &next.body)?;
            let other = add_else(code, scope, depth, &next.rest)?;
            let at = next.at;
            code.add(Part::ElseIf {
                at,
                test,
                body,
                other,
            })
        }
    }
}

/// What stands after the last case.
#[cycle(code)]
fn add_default<'a>(
    code: &mut Code<'a>,
    scope: Scope<'_, 'a>,
    depth: u32,
    default: &'a Option<JsStmts>,
) -> Result<u32, NoMemory>
    ensures value { OnOk result (code.new ≡ with_cases (table scope.entry) code.old (last_case (option_map stmts_view default.now))) }
    ensures last { IfOk result (λ n. n ≡ last code.new) }
{
    match default {
        None => code.add(Part::NoCases),
        Some(body) => {
            let body = add_stmts(code, scope, depth, body)?;
            code.add(Part::Default { body })
        }
    }
}

/// The cases of a `switch`, from the last one on.
#[cycle(code)]
fn add_cases<'a>(
    code: &mut Code<'a>,
    scope: Scope<'_, 'a>,
    depth: u32,
    list: &'a JsCases,
) -> Result<u32, NoMemory>
    ensures value { OnOk result (code.new ≡ with_cases (table scope.entry) code.old (cases_view list.now)) }
    ensures last { IfOk result (λ n. n ≡ last code.new) }
{
    let mut rest = add_default(code, scope, depth, &list.default)?;
    let items = list.items.as_slice();
    let count = items.len();
    for i in (0..count).rev() {
        let case = &items[i];
        let body = add_stmts(code, scope, depth, &case.body)?;
        let n = case.number;
        rest = code.add(Part::Case { body, rest, n })?;
    }
    Ok(rest)
}
