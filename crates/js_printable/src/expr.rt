//! Expressions.

ghost use Rattle.std.specs.Prelude.{◌≡◌, ◌<◌, ◌≤◌, ◌+◌, ◌&&◌, suc, true};
ghost use Rattle.js_tree.specs.View.{expr_view, exprs_view};
ghost use Rattle.js_tree.specs.Printed.{dot_level};
ghost use Rattle.js_tree.specs.Printable.{depth_within, operators, parts, fits, expr_fits, exprs_fit};

use crate::level::{after, deeper, dot_level, level, op_level, operators, parts};
use crate::name::{are_bytes, is_in_range, is_name};
use js_tree::{ExprForm, JsExpr, JsExprs};

/// Whether an expression whose first token is nested so deep has a text.
#[cycle(fits)]
pub fn expr(d: u32, e: &JsExpr) -> bool
    ensures fits { result ≡ true → expr_fits d (expr_view e.now) ≡ true }
{
    if d > 1000 {
        return false;
    }
    match &e.form {
        ExprForm::Number(n) => is_in_range(*n),
        ExprForm::Str(s) => are_bytes(s),
        ExprForm::Bool(_) => true,
        ExprForm::Null => true,
        ExprForm::Name(x) => is_name(x),
        ExprForm::Unary(_, a) => within(11, deeper(d), a),
        ExprForm::Binary(op, a, b) => infix(op_level(*op), d, a, b),
        ExprForm::And(a, b) => infix(2, d, a, b),
        ExprForm::Or(a, b) => infix(1, d, a, b),
        ExprForm::Conditional(test, a, b) => {
            within(1, d, test) && expr(deeper(d), a) && expr(deeper(d), b)
        }
        ExprForm::Call(f, es) => {
            let n = parts(f);
            n < 1000 && d + n <= 1000 && within(12, d, f) && exprs(after(d, n), es)
        }
        ExprForm::Index(a, i) => {
            let n = parts(a);
            n < 1000 && within(12, d, a) && expr(after(d, n), i)
        }
        ExprForm::Length(a) => dotted(d, a),
        ExprForm::Pop(a) => dotted(d, a),
        ExprForm::CharCodeAt(a, i) => {
            let n = parts(a);
            n < 1000 && within(dot_level(a), d, a) && expr(after(d, n), i)
        }
        ExprForm::Substring(a, i, j) => {
            let n = parts(a);
            n < 1000 && within(dot_level(a), d, a) && expr(after(d, n), i) && expr(after(d, n), j)
        }
        ExprForm::Array(es) => exprs(deeper(d), es),
        ExprForm::Dictionary => d < 1000,
        ExprForm::Decimal(a) => expr(deeper(d), a),
        ExprForm::FromCharCode(a) => expr(deeper(d), a),
    }
}

/// The same where an expression of this level may stand.
#[cycle(fits)]
pub fn within(k: u8, d: u32, e: &JsExpr) -> bool
    requires { d < 3000 }
    ensures fits { result ≡ true → expr_fits (depth_within k d (expr_view e.now)) (expr_view e.now) ≡ true }
{
    if level(e) < k {
        return expr(deeper(d), e);
    }
    expr(d, e)
}

/// An operator between operands, of which the right one binds tighter.
#[cycle(fits)]
fn infix(k: u8, d: u32, a: &JsExpr, b: &JsExpr) -> bool
    requires level { k < 12 }
    requires depth { d ≤ 1000 }
    ensures fits { result ≡ true → expr_fits (depth_within k d (expr_view a.now)) (expr_view a.now) && expr_fits (depth_within (suc k) (suc (d + operators k (expr_view a.now))) (expr_view b.now)) (expr_view b.now) ≡ true }
{
    let n = operators(k, a);
    n < 1000 && within(k, d, a) && within(k + 1, after(d, n), b)
}

/// What a word follows after a `.`.
#[cycle(fits)]
fn dotted(d: u32, a: &JsExpr) -> bool
    requires { d ≤ 1000 }
    ensures fits { result ≡ true → expr_fits (depth_within (dot_level (expr_view a.now)) d (expr_view a.now)) (expr_view a.now) && fits (d + parts (expr_view a.now)) ≡ true }
{
    let n = parts(a);
    n < 1000 && d + n <= 1000 && within(dot_level(a), d, a)
}

/// Expressions, each of whose first tokens is nested so deep.
#[cycle(fits)]
pub fn exprs(d: u32, es: &JsExprs) -> bool
    requires { d < 3000 }
    ensures fits { result ≡ true → exprs_fit d (exprs_view es.now) ≡ true }
{
    for e in &es.items {
        if !expr(d, e) {
            return false;
        }
    }
    true
}
