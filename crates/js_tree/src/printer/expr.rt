//! Expressions to text: ECMA-262 5.1, 11.

ghost use Rattle.std.specs.Prelude.{◌≡◌, ◌++◌, ◌<◌, suc, OnOk, codes};
ghost use Rattle.js_tree.specs.View.{expr_view, exprs_view};
ghost use Rattle.js_tree.specs.Printed.{sign_text, within, before_dot, expr_text, exprs_text, char_code_at_word, substring_word};

use super::level::{dot_level, level, op_level, op_text, sign_text};
use super::text::{boolean, number, string};
use super::words::{
    char_code_at_word, dictionary_word, from_char_code_word, string_word, substring_word,
};
use crate::tree::{ExprForm, JsExpr, JsExprs};
use gj_base::{NoMemory, Text};

/// An expression.
#[cycle(printer)]
pub fn expr(out: &mut Text, e: &JsExpr) -> Result<(), NoMemory>
    ensures text { OnOk result (out.new ≡ out.old ++ expr_text (expr_view e.now)) }
{
    match &e.form {
        ExprForm::Number(n) => number(out, *n),
        ExprForm::Str(s) => string(out, s),
        ExprForm::Bool(b) => boolean(out, *b),
        ExprForm::Null => out.push_bytes(b"null"),
        ExprForm::Name(x) => out.push_bytes(x.as_bytes()),
        ExprForm::Unary(op, a) => {
            out.push_bytes(sign_text(*op, a))?;
            within(out, 11, a)
        }
        ExprForm::Binary(op, a, b) => infix(out, op_level(*op), a, op_text(*op), b),
        ExprForm::And(a, b) => infix(out, 2, a, b" && ", b),
        ExprForm::Or(a, b) => infix(out, 1, a, b" || ", b),
        ExprForm::Conditional(test, a, b) => conditional(out, test, a, b),
        ExprForm::Call(f, es) => call(out, f, es),
        ExprForm::Index(a, i) => index(out, a, i),
        ExprForm::Length(a) => {
            before_dot(out, a)?;
            out.push_bytes(b".length")
        }
        ExprForm::Pop(a) => {
            before_dot(out, a)?;
            out.push_bytes(b".pop()")
        }
        ExprForm::CharCodeAt(a, i) => char_code_at(out, a, i),
        ExprForm::Substring(a, i, j) => substring(out, a, i, j),
        ExprForm::Array(es) => {
            out.push(b'[')?;
            exprs(out, es)?;
            out.push(b']')
        }
        ExprForm::Dictionary => out.push_bytes(dictionary_word()),
        ExprForm::Decimal(a) => {
            out.push_bytes(string_word())?;
            expr(out, a)?;
            out.push(b')')
        }
        ExprForm::FromCharCode(a) => {
            out.push_bytes(from_char_code_word())?;
            expr(out, a)?;
            out.push(b')')
        }
    }
}

/// An expression where one of this level may stand.
#[cycle(printer)]
pub fn within(out: &mut Text, k: u8, e: &JsExpr) -> Result<(), NoMemory>
    ensures text { OnOk result (out.new ≡ out.old ++ within k (expr_view e.now) (expr_text (expr_view e.now))) }
{
    if level(e) < k {
        out.push(b'(')?;
        expr(out, e)?;
        return out.push(b')');
    }
    expr(out, e)
}

/// What stands before a `.`.
#[cycle(printer)]
pub fn before_dot(out: &mut Text, e: &JsExpr) -> Result<(), NoMemory>
    ensures text { OnOk result (out.new ≡ out.old ++ before_dot (expr_view e.now) (expr_text (expr_view e.now))) }
{
    within(out, dot_level(e), e)
}

/// An operator between operands, of which the right one binds tighter.
#[cycle(printer)]
fn infix(out: &mut Text, k: u8, a: &JsExpr, op: &[u8], b: &JsExpr) -> Result<(), NoMemory>
    requires { k < 12 }
    ensures text { OnOk result (out.new ≡ out.old ++ within k (expr_view a.now) (expr_text (expr_view a.now)) ++ op.now ++ within (suc k) (expr_view b.now) (expr_text (expr_view b.now))) }
{
    within(out, k, a)?;
    out.push_bytes(op)?;
    within(out, k + 1, b)
}

#[cycle(printer)]
fn conditional(out: &mut Text, test: &JsExpr, a: &JsExpr, b: &JsExpr) -> Result<(), NoMemory>
    ensures text { OnOk result (out.new ≡ out.old ++ within 1 (expr_view test.now) (expr_text (expr_view test.now)) ++ codes " ? " ++ expr_text (expr_view a.now) ++ codes " : " ++ expr_text (expr_view b.now)) }
{
    within(out, 1, test)?;
    out.push_bytes(b" ? ")?;
    expr(out, a)?;
    out.push_bytes(b" : ")?;
    expr(out, b)
}

#[cycle(printer)]
fn call(out: &mut Text, f: &JsExpr, es: &JsExprs) -> Result<(), NoMemory>
    ensures text { OnOk result (out.new ≡ out.old ++ within 12 (expr_view f.now) (expr_text (expr_view f.now)) ++ codes "(" ++ exprs_text (exprs_view es.now) ++ codes ")") }
{
    within(out, 12, f)?;
    out.push(b'(')?;
    exprs(out, es)?;
    out.push(b')')
}

#[cycle(printer)]
fn index(out: &mut Text, a: &JsExpr, i: &JsExpr) -> Result<(), NoMemory>
    ensures text { OnOk result (out.new ≡ out.old ++ within 12 (expr_view a.now) (expr_text (expr_view a.now)) ++ codes "[" ++ expr_text (expr_view i.now) ++ codes "]") }
{
    within(out, 12, a)?;
    out.push(b'[')?;
    expr(out, i)?;
    out.push(b']')
}

#[cycle(printer)]
fn char_code_at(out: &mut Text, a: &JsExpr, i: &JsExpr) -> Result<(), NoMemory>
    ensures text { OnOk result (out.new ≡ out.old ++ before_dot (expr_view a.now) (expr_text (expr_view a.now)) ++ char_code_at_word ++ expr_text (expr_view i.now) ++ codes ")") }
{
    before_dot(out, a)?;
    out.push_bytes(char_code_at_word())?;
    expr(out, i)?;
    out.push(b')')
}

#[cycle(printer)]
fn substring(out: &mut Text, a: &JsExpr, i: &JsExpr, j: &JsExpr) -> Result<(), NoMemory>
    ensures text { OnOk result (out.new ≡ out.old ++ before_dot (expr_view a.now) (expr_text (expr_view a.now)) ++ substring_word ++ expr_text (expr_view i.now) ++ codes ", " ++ expr_text (expr_view j.now) ++ codes ")") }
{
    before_dot(out, a)?;
    out.push_bytes(substring_word())?;
    expr(out, i)?;
    out.push_bytes(b", ")?;
    expr(out, j)?;
    out.push(b')')
}

/// Expressions with commas between them.
#[cycle(printer)]
pub fn exprs(out: &mut Text, es: &JsExprs) -> Result<(), NoMemory>
    ensures text { OnOk result (out.new ≡ out.old ++ exprs_text (exprs_view es.now)) }
{
    let mut is_first = true;
    for e in &es.items {
        if !is_first {
            out.push_bytes(b", ")?;
        }
        is_first = false;
        expr(out, e)?;
    }
    Ok(())
}
