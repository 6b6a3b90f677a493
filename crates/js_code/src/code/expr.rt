//! Expressions to code: ECMA-262 5.1, 11.

ghost use Rattle.std.specs.Prelude.{◌≡◌, OnOk, IfOk};
ghost use Rattle.js_tree.specs.View.{expr_view, exprs_view};
ghost use Rattle.js_tree.specs.Script as tree;
ghost use Rattle.js_code.specs.Places.{table};
ghost use Rattle.js_code.specs.Held.{part_of};
ghost use Rattle.js_code.specs.Parts as list;
ghost use Rattle.js_code.specs.Parts.{last};
ghost use Rattle.js_code.specs.ExprParts.{with_expr, with_exprs, with_two, with_three};

use crate::code::code::{Code, narrow};
use crate::code::part::Part;
use crate::slots::place::{Place, Scope, place_of};
use gj_base::{NoMemory, Text};
use js_tree::{ExprForm, JsExpr, JsExprs};

/// How deep nodes may be nested where a stack of the usual size is to hold the descent.
pub const DEPTH: u32 = 2000;

/// A name with its place.
fn named<'a>(at: u32, x: &'a Text, place: Place) -> Result<Part<'a>, NoMemory>
    ensures value { IfOk result (λ p. part_of p ≡ list.name at x.now place) }
{
    match place {
        Place::Caught => Ok(Part::Caught { at, x }),
        Place::Local(slot) => {
            let slot = narrow(slot)?;
            Ok(Part::Local { at, slot, x })
        }
        Place::Host(host) => Ok(Part::Host { at, host, x }),
        Place::Function(number) => {
            let number = narrow(number)?;
            Ok(Part::Function { at, number, x })
        }
        Place::Global(slot) => {
            let slot = narrow(slot)?;
            Ok(Part::Global { at, slot, x })
        }
        Place::Nowhere => Ok(Part::Nowhere { at, x }),
    }
}

fn add_name<'a>(
    code: &mut Code<'a>,
    scope: Scope<'_, 'a>,
    at: u32,
    x: &'a Text,
) -> Result<u32, NoMemory>
    ensures value { OnOk result (code.new ≡ with_expr (table scope.entry) code.old (tree.name at x.now)) }
    ensures last { IfOk result (λ n. n ≡ last code.new) }
{
    let part = named(at, x, place_of(scope, x))?;
    code.add(part)
}

/// Adds the parts of an expression whose nodes are nested at most so deep, and gives the number of
/// the last one, which stands for it.
#[cycle(code)]
pub fn add_expr<'a>(
    code: &mut Code<'a>,
    scope: Scope<'_, 'a>,
    depth: u32,
    e: &'a JsExpr,
) -> Result<u32, NoMemory>
    ensures value { OnOk result (code.new ≡ with_expr (table scope.entry) code.old (expr_view e.now)) }
    ensures last { IfOk result (λ n. n ≡ last code.new) }
{
    if depth == 0 {
        return Err(NoMemory);
    }
    let depth = depth - 1;
    let at = e.at;
    match &e.form {
        ExprForm::Number(n) => code.add(Part::Number { at, n: *n }),
        ExprForm::Str(text) => code.add(Part::Str { at, text }),
        ExprForm::Bool(b) => code.add(Part::Bool { at, b: *b }),
        ExprForm::Null => code.add(Part::Null { at }),
        ExprForm::Name(x) => add_name(code, scope, at, x),
        ExprForm::Unary(op, e) => {
            let e = add_expr(code, scope, depth, e)?;
            code.add(Part::Unary { at, op: *op, e })
        }
        ExprForm::Binary(op, a, b) => {
            let (left, right) = add_two(code, scope, depth, a, b)?;
            let op = *op;
            code.add(Part::Binary {
                at,
                op,
                left,
                right,
            })
        }
        ExprForm::And(a, b) => {
            let (left, right) = add_two(code, scope, depth, a, b)?;
            code.add(Part::And { at, left, right })
        }
        ExprForm::Or(a, b) => {
            let (left, right) = add_two(code, scope, depth, a, b)?;
            code.add(Part::Or { at, left, right })
        }
        ExprForm::Conditional(test, a, b) => {
            let (test, left, right) = add_three(code, scope, depth, test, a, b)?;
            code.add(Part::Conditional {
                at,
                test,
                left,
                right,
            })
        }
        ExprForm::Call(f, es) => {
            let callee = add_expr(code, scope, depth, f)?;
            let arguments = add_exprs(code, scope, depth, es)?;
            code.add(Part::Call {
                at,
                callee,
                arguments,
            })
        }
        ExprForm::Index(e, i) => {
            let (e, i) = add_two(code, scope, depth, e, i)?;
            code.add(Part::Index { at, e, i })
        }
        ExprForm::Length(e) => {
            let e = add_expr(code, scope, depth, e)?;
            code.add(Part::Length { at, e })
        }
        ExprForm::Pop(e) => {
            let e = add_expr(code, scope, depth, e)?;
            code.add(Part::Pop { at, e })
        }
        ExprForm::CharCodeAt(e, i) => {
            let (e, i) = add_two(code, scope, depth, e, i)?;
            code.add(Part::CharCodeAt { at, e, i })
        }
        ExprForm::Substring(e, i, j) => {
            let (e, from, to) = add_three(code, scope, depth, e, i, j)?;
            code.add(Part::Substring { at, e, from, to })
        }
        ExprForm::Array(es) => {
            let items = add_exprs(code, scope, depth, es)?;
            code.add(Part::Array { at, items })
        }
        ExprForm::Dictionary => code.add(Part::Dictionary { at }),
        ExprForm::Decimal(e) => {
            let e = add_expr(code, scope, depth, e)?;
            code.add(Part::Decimal { at, e })
        }
        ExprForm::FromCharCode(e) => {
            let e = add_expr(code, scope, depth, e)?;
            code.add(Part::FromCharCode { at, e })
        }
    }
}

/// Two expressions, from the left.
#[cycle(code)]
pub fn add_two<'a>(
    code: &mut Code<'a>,
    scope: Scope<'_, 'a>,
    depth: u32,
    a: &'a JsExpr,
    b: &'a JsExpr,
) -> Result<(u32, u32), NoMemory>
    ensures value { OnOk result (code.new ≡ with_two (table scope.entry) code.old (expr_view a.now) (expr_view b.now)) }
    ensures first { IfOk result (λ n. n.0 ≡ last (with_expr (table scope.entry) code.old (expr_view a.now))) }
    ensures second { IfOk result (λ n. n.1 ≡ last code.new) }
{
    let first = add_expr(code, scope, depth, a)?;
    let second = add_expr(code, scope, depth, b)?;
    Ok((first, second))
}

/// Three expressions, from the left.
#[cycle(code)]
pub fn add_three<'a>(
    code: &mut Code<'a>,
    scope: Scope<'_, 'a>,
    depth: u32,
    a: &'a JsExpr,
    b: &'a JsExpr,
    c: &'a JsExpr,
) -> Result<(u32, u32, u32), NoMemory>
    ensures value { OnOk result (code.new ≡ with_three (table scope.entry) code.old (expr_view a.now) (expr_view b.now) (expr_view c.now)) }
    ensures first { IfOk result (λ n. n.0 ≡ last (with_expr (table scope.entry) code.old (expr_view a.now))) }
    ensures second { IfOk result (λ n. n.1 ≡ last (with_two (table scope.entry) code.old (expr_view a.now) (expr_view b.now))) }
    ensures third { IfOk result (λ n. n.2 ≡ last code.new) }
{
    let (first, second) = add_two(code, scope, depth, a, b)?;
    let third = add_expr(code, scope, depth, c)?;
    Ok((first, second, third))
}

/// Expressions in order, as cells from the last one on.
#[cycle(code)]
pub fn add_exprs<'a>(
    code: &mut Code<'a>,
    scope: Scope<'_, 'a>,
    depth: u32,
    es: &'a JsExprs,
) -> Result<u32, NoMemory>
    ensures value { OnOk result (code.new ≡ with_exprs (table scope.entry) code.old (exprs_view es.now)) }
    ensures last { IfOk result (λ n. n ≡ last code.new) }
{
    let mut rest = code.add(Part::NoMore)?;
    let items = es.items.as_slice();
    let count = items.len();
    for i in (0..count).rev() {
        let first = add_expr(code, scope, depth, &items[i])?;
        rest = code.add(Part::More { first, rest })?;
    }
    Ok(rest)
}
