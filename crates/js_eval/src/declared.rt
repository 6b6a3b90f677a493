//! The names of a function's locals: ECMA-262 5.1, 10.5.

ghost use Rattle.std.specs.Prelude.{◌≡◌, ◌++◌, OnOk, IfOk};
ghost use Rattle.js_tree.specs.Evaluate as part;
ghost use Rattle.js_tree.specs.View.{stmt_view, stmts_view, else_view, cases_view, function_view};
ghost use Rattle.js_eval.specs.Seen.{names_of};

use gj_base::{NoMemory, Text};
use js_tree::{JsCases, JsElse, JsFunction, JsStmt, JsStmts, StmtForm};
use std::alloc::Global;

#[cycle(declared)]
fn stmt<'a>(names: &mut Vec<&'a Text>, s: &'a JsStmt) -> Result<(), NoMemory>
    ensures value { OnOk result (names_of names.new.items ≡ names_of names.old.items ++ part.declared (stmt_view s.now)) }
{
    match &s.form {
        StmtForm::Declare(x, _) => {
            names.push(x)?;
            Ok(())
        }
        StmtForm::If(_, body, other) => {
            stmts(names, body)?;
            otherwise(names, other)
        }
        StmtForm::While(_, _, body) => stmts(names, body),
        StmtForm::Forever(_, body) => stmts(names, body),
        StmtForm::Switch(_, _, list) => cases(names, list),
        StmtForm::Try(body, handler) => {
            stmts(names, body)?;
            stmts(names, handler)
        }
        _ => Ok(()),
    }
}

#[cycle(declared)]
fn stmts<'a>(names: &mut Vec<&'a Text>, ss: &'a JsStmts) -> Result<(), NoMemory>
    ensures value { OnOk result (names_of names.new.items ≡ names_of names.old.items ++ part.declared_all (stmts_view ss.now)) }
{
    for s in &ss.items {
        stmt(names, s)?;
    }
    Ok(())
}

#[cycle(declared)]
fn otherwise<'a>(names: &mut Vec<&'a Text>, other: &'a JsElse) -> Result<(), NoMemory>
    ensures value { OnOk result (names_of names.new.items ≡ names_of names.old.items ++ part.declared_else (else_view other.now)) }
{
    match other {
        JsElse::Nothing => Ok(()),
        JsElse::Block(body) => stmts(names, body),
        JsElse::ElseIf(next) => {
            stmts(names, &next.body)?;
            otherwise(names, &next.rest)
        }
    }
}

#[cycle(declared)]
fn cases<'a>(names: &mut Vec<&'a Text>, list: &'a JsCases) -> Result<(), NoMemory>
    ensures value { OnOk result (names_of names.new.items ≡ names_of names.old.items ++ part.declared_cases (cases_view list.now)) }
{
    for c in &list.items {
        stmts(names, &c.body)?;
    }
    match &list.default {
        Some(body) => stmts(names, body),
        None => Ok(()),
    }
}

/// A function's names: its parameters, and those that have a `var` in it.
pub fn names_in<'a>(alloc: Global, f: &'a JsFunction) -> Result<Vec<&'a Text>, NoMemory>
    ensures value { IfOk result (λ names. names_of names.items ≡ (part.scope_of (function_view f.now)).names) }
{
    let mut names = Vec::new(alloc);
    for x in &f.params {
        names.push(x)?;
    }
    stmts(&mut names, &f.body)?;
    Ok(names)
}
