//! Statements with blocks to text: ECMA-262 5.1, 12.

ghost use Rattle.std.specs.Prelude.{◌≡◌, ◌++◌, OnOk, IfOk, codes, decimal};
ghost use Rattle.js_tree.specs.View.{expr_view, stmt_view, stmts_view, else_view, else_if_view, cases_view};
ghost use Rattle.js_tree.specs.Printed.{expr_text, stmt_text, stmts_text, else_text, cases_text, in_braces, deeper, label_text};

use super::expr::expr;
use super::simple::{assign, declare, give_back, jump, label, perform, push, remove, store, throw};
use super::text::number;
use super::words::catch_word;
use crate::tree::{JsCases, JsElse, JsElseIf, JsExpr, JsStmt, JsStmts, StmtForm};
use gj_base::{NoMemory, Text};

/// The margin inside one more brace.
fn deeper(margin: &Text) -> Result<Text, NoMemory>
    ensures text { IfOk result (λ t. t ≡ deeper margin.now) }
{
    let mut inside = margin.clone()?;
    inside.push_bytes(b"  ")?;
    Ok(inside)
}

/// `(e)` after a word that ends with the `(`.
fn head(out: &mut Text, word: &[u8], e: &JsExpr) -> Result<(), NoMemory>
    ensures text { OnOk result (out.new ≡ out.old ++ word.now ++ expr_text (expr_view e.now) ++ codes ")") }
{
    out.push_bytes(word)?;
    expr(out, e)?;
    out.push(b')')
}

/// A statement whose lines have this margin, from its first word to its last sign.
#[cycle(printer)]
pub fn stmt(out: &mut Text, margin: &Text, s: &JsStmt) -> Result<(), NoMemory>
    ensures text { OnOk result (out.new ≡ out.old ++ stmt_text margin.now (stmt_view s.now)) }
{
    match &s.form {
        StmtForm::Declare(x, e) => declare(out, x, e),
        StmtForm::Assign(x, e) => assign(out, x, e),
        StmtForm::Store(e, i, value) => store(out, e, i, value),
        StmtForm::Perform(e) => perform(out, e),
        StmtForm::Push(e, value) => push(out, e, value),
        StmtForm::Delete(e, key) => remove(out, e, key),
        StmtForm::If(test, body, other) => {
            head(out, b"if(", test)?;
            block(out, margin, body)?;
            otherwise(out, margin, other)
        }
        StmtForm::While(l, test, body) => {
            label(out, l)?;
            head(out, b"while(", test)?;
            block(out, margin, body)
        }
        StmtForm::Forever(l, body) => {
            label(out, l)?;
            out.push_bytes(b"for(;;)")?;
            block(out, margin, body)
        }
        StmtForm::Switch(l, e, list) => {
            label(out, l)?;
            head(out, b"switch(", e)?;
            switch_block(out, margin, list)
        }
        StmtForm::Return(e) => give_back(out, e),
        StmtForm::Throw(e) => throw(out, e),
        StmtForm::Break(l) => jump(out, b"break", l),
        StmtForm::Continue(l) => jump(out, b"continue", l),
        StmtForm::Try(body, handler) => {
            out.push_bytes(b"try")?;
            block(out, margin, body)?;
            out.push_bytes(catch_word())?;
            block(out, margin, handler)
        }
    }
}

/// Statements, each with its margin and its newline.
#[cycle(printer)]
pub fn stmts(out: &mut Text, margin: &Text, list: &JsStmts) -> Result<(), NoMemory>
    ensures text { OnOk result (out.new ≡ out.old ++ stmts_text margin.now (stmts_view list.now)) }
{
    for s in &list.items {
        out.push_bytes(margin.as_bytes())?;
        stmt(out, margin, s)?;
        out.push(b'\n')?;
    }
    Ok(())
}

/// Statements in braces.
#[cycle(printer)]
pub fn block(out: &mut Text, margin: &Text, body: &JsStmts) -> Result<(), NoMemory>
    ensures text { OnOk result (out.new ≡ out.old ++ in_braces margin.now (stmts_text (deeper margin.now) (stmts_view body.now))) }
{
    let inside = deeper(margin)?;
    out.push_bytes(b"{\n")?;
    stmts(out, &inside, body)?;
    out.push_bytes(margin.as_bytes())?;
    out.push(b'}')
}

/// What stands after the block of an `if`.
#[cycle(printer)]
fn otherwise(out: &mut Text, margin: &Text, other: &JsElse) -> Result<(), NoMemory>
    ensures text { OnOk result (out.new ≡ out.old ++ else_text margin.now (else_view other.now)) }
{
    match other {
        JsElse::Nothing => Ok(()),
        JsElse::Block(body) => {
            out.push_bytes(b"else")?;
            block(out, margin, body)
        }
        JsElse::ElseIf(other) => else_if(out, margin, other),
    }
}

#[cycle(printer)]
fn else_if(out: &mut Text, margin: &Text, other: &JsElseIf) -> Result<(), NoMemory>
    ensures text { OnOk result (out.new ≡ out.old ++ else_text margin.now (else_if_view other.now)) }
{
    head(out, b"else if(", &other.test)?;
    block(out, margin, &other.body)?;
    otherwise(out, margin, &other.rest)
}

/// The cases of a `switch` in braces.
#[cycle(printer)]
fn switch_block(out: &mut Text, margin: &Text, list: &JsCases) -> Result<(), NoMemory>
    ensures text { OnOk result (out.new ≡ out.old ++ in_braces margin.now (cases_text (deeper margin.now) (cases_view list.now))) }
{
    let inside = deeper(margin)?;
    out.push_bytes(b"{\n")?;
    cases(out, &inside, list)?;
    out.push_bytes(margin.as_bytes())?;
    out.push(b'}')
}

/// `case number:`, and the line's end.
fn case_line(out: &mut Text, margin: &Text, n: u64) -> Result<(), NoMemory>
    ensures text { OnOk result (out.new ≡ out.old ++ margin.now ++ codes "case " ++ decimal n ++ codes ":\n") }
{
    out.push_bytes(margin.as_bytes())?;
    out.push_bytes(b"case ")?;
    number(out, n)?;
    out.push_bytes(b":\n")
}

/// `default:`, and the line's end.
fn default_line(out: &mut Text, margin: &Text) -> Result<(), NoMemory>
    ensures text { OnOk result (out.new ≡ out.old ++ margin.now ++ codes "default:\n") }
{
    out.push_bytes(margin.as_bytes())?;
    out.push_bytes(b"default:\n")
}

#[cycle(printer)]
fn cases(out: &mut Text, margin: &Text, list: &JsCases) -> Result<(), NoMemory>
    ensures text { OnOk result (out.new ≡ out.old ++ cases_text margin.now (cases_view list.now)) }
{
    for c in &list.items {
        case_line(out, margin, c.number)?;
        stmts(out, margin, &c.body)?;
    }
    match &list.default {
        None => Ok(()),
        Some(body) => {
            default_line(out, margin)?;
            stmts(out, margin, body)
        }
    }
}
