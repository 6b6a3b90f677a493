//! Expressions: ECMA-262 5.1, 11, cut to the subset. Each function reads what stands first among
//! tokens, nested `d` deep, and gives what it read with the tokens after it.

ghost use Rattle.std.specs.Prelude.{◌≡◌, ◌<◌, ◌≤◌, ◌+◌, length, IfOk, map};
ghost use Rattle.js_tree.specs.Scripts.{sign};
ghost use Rattle.js_tree.specs.View.{expr_view};
ghost use Rattle.js_grammar.specs.Tokens.{places};
ghost use Rattle.js_grammar.specs.Goals as goal;
ghost use Rattle.js_grammar.specs.Reads.{Reads, seen};
ghost use Rattle.js_nodes.specs.Views.{expr_read, post_read, exprs_read};

use js_grammar::{ReadRefusal, Token};
use js_nodes::nodes::infix::{earlier, infix_level, joined, next_infix, unary_op};
use js_nodes::nodes::literal::literal;
use js_nodes::nodes::look::{
    begins_part, is_second_sign, is_second_word, is_sign, is_word, place, take_operator, take_sign,
    take_word,
};
use js_nodes::nodes::node;
use js_tree::JsExpr;
use std::alloc::Global;

/// An expression: ECMA-262 5.1, 11.12.
#[cycle(expr)]
pub fn expr<'a>(
    alloc: Global,
    ts: &'a [Token<'a>],
    d: u32,
) -> Result<(JsExpr, &'a [Token<'a>]), ReadRefusal>
    requires { d ≤ 1001 }
    ensures read { Reads (goal.expression d) (places ts.now) (seen expr_read result) }
    ensures shorter { IfOk result (λ p. length p.1.now < length ts.now) }
{
    let at = place(ts);
    let (test, rest) = operation(alloc, ts, d, 1)?;
    if !is_sign(rest, b"?") {
        return Ok((test, rest));
    }
    let rest = take_sign(rest, d, b"?")?;
    let (left, rest) = expr(alloc, rest, d + 1)?;
    let rest = take_sign(rest, d + 1, b":")?;
    let (right, rest) = expr(alloc, rest, d + 1)?;
    let e = node::choice(alloc, at, test, left, right)?;
    Ok((e, rest))
}

/// Operands with operators between that bind at least so tightly: ECMA-262 5.1, 11.5 to 11.11.
/// In a chain of operators that bind alike, what follows the n-th is nested n deeper.
#[cycle(expr)]
fn operation<'a>(
    alloc: Global,
    ts: &'a [Token<'a>],
    d: u32,
    least: u32,
) -> Result<(JsExpr, &'a [Token<'a>]), ReadRefusal>
    requires { d ≤ 1001 }
    ensures read { Reads (goal.operation d least) (places ts.now) (seen expr_read result) }
    ensures shorter { IfOk result (λ p. length p.1.now < length ts.now) }
{
    let at = place(ts);
    let (first, after) = unary(alloc, ts, d)?;
    let mut left = first;
    let mut rest = after;
    let mut level: u32 = 11;
    let mut n: u32 = 0;
    'chain: while let Some(operator) = next_infix(rest, least, level) {
        let own = infix_level(operator);
        let before = earlier(own, level, n);
        let after = take_operator(rest, d + before)?;
        let (right, after) = operation(alloc, after, d + before + 1, own + 1)?;
        left = joined(alloc, at, operator, left, right)?;
        rest = after;
        level = own;
        n = before + 1;
    }
    Ok((left, rest))
}

/// An operator before its operand: ECMA-262 5.1, 11.4.
#[cycle(expr)]
fn unary<'a>(
    alloc: Global,
    ts: &'a [Token<'a>],
    d: u32,
) -> Result<(JsExpr, &'a [Token<'a>]), ReadRefusal>
    requires { d ≤ 1001 }
    ensures read { Reads (goal.unary d) (places ts.now) (seen expr_read result) }
    ensures shorter { IfOk result (λ p. length p.1.now < length ts.now) }
{
    let at = place(ts);
    let Some(op) = unary_op(ts) else {
        let (e, _, rest) = post(alloc, ts, d)?;
        return Ok((e, rest));
    };
    let rest = take_operator(ts, d)?;
    let (e, rest) = unary(alloc, rest, d + 1)?;
    let e = node::unary(alloc, at, op, e)?;
    Ok((e, rest))
}

/// An atom with the parts after it, and how many they are: ECMA-262 5.1, 11.2. A part after n
/// others is nested n deeper. `.push` is left where it stands.
#[cycle(expr)]
pub fn post<'a>(
    alloc: Global,
    ts: &'a [Token<'a>],
    d: u32,
) -> Result<(JsExpr, u32, &'a [Token<'a>]), ReadRefusal>
    requires { d ≤ 1001 }
    ensures read { Reads (goal.post d) (places ts.now) (seen post_read result) }
    ensures shorter { IfOk result (λ p. length p.2.now < length ts.now) }
    ensures within { IfOk result (λ p. d + p.1 ≤ 1001) }
{
    let at = place(ts);
    let (atom, after) = atom(alloc, ts, d)?;
    let mut e = atom;
    let mut rest = after;
    let mut n: u32 = 0;
    'parts: while begins_part(rest) {
        let (longer, after) = part(alloc, at, e, rest, d + n)?;
        e = longer;
        rest = after;
        n += 1;
    }
    Ok((e, n, rest))
}

/// An expression that begins at an offset with one more part.
#[cycle(expr)]
fn part<'a>(
    alloc: Global,
    at: u32,
    e: JsExpr,
    ts: &'a [Token<'a>],
    d: u32,
) -> Result<(JsExpr, &'a [Token<'a>]), ReadRefusal>
    requires { d ≤ 1001 }
    ensures read { Reads (goal.part d at (expr_view e)) (places ts.now) (seen expr_read result) }
    ensures shorter { IfOk result (λ p. length p.1.now < length ts.now) }
    ensures within { IfOk result (λ p. d ≤ 1000) }
{
    if is_sign(ts, b"(") {
        let rest = take_sign(ts, d, b"(")?;
        let (items, rest) = listed(alloc, rest, d, b")")?;
        let e = node::call(alloc, at, e, items)?;
        return Ok((e, rest));
    }
    if is_sign(ts, b"[") {
        let rest = take_sign(ts, d, b"[")?;
        let (i, rest) = enclosed(alloc, rest, d, b"]")?;
        let e = node::index(alloc, at, e, i)?;
        return Ok((e, rest));
    }
    member(alloc, at, e, ts, d)
}

/// An expression with one more part that begins with a `.`.
#[cycle(expr)]
fn member<'a>(
    alloc: Global,
    at: u32,
    e: JsExpr,
    ts: &'a [Token<'a>],
    d: u32,
) -> Result<(JsExpr, &'a [Token<'a>]), ReadRefusal>
    requires { d ≤ 1001 }
    ensures read { Reads (goal.member d at (expr_view e)) (places ts.now) (seen expr_read result) }
    ensures shorter { IfOk result (λ p. length p.1.now < length ts.now) }
    ensures within { IfOk result (λ p. d ≤ 1000) }
{
    if is_second_word(ts, b"length") {
        let rest = take_sign(ts, d, b".")?;
        let rest = take_word(rest, d, b"length")?;
        let e = node::length(alloc, at, e)?;
        return Ok((e, rest));
    }
    if is_second_word(ts, b"pop") {
        let rest = take_sign(ts, d, b".")?;
        let rest = take_word(rest, d, b"pop")?;
        let rest = take_sign(rest, d, b"(")?;
        let rest = take_sign(rest, d, b")")?;
        let e = node::pop(alloc, at, e)?;
        return Ok((e, rest));
    }
    if is_second_word(ts, b"charCodeAt") {
        let rest = take_sign(ts, d, b".")?;
        let rest = take_word(rest, d, b"charCodeAt")?;
        let rest = take_sign(rest, d, b"(")?;
        let (i, rest) = enclosed(alloc, rest, d, b")")?;
        let e = node::char_code_at(alloc, at, e, i)?;
        return Ok((e, rest));
    }
    substring(alloc, at, e, ts, d)
}

/// `.substring(from, to)` after an expression.
#[cycle(expr)]
fn substring<'a>(
    alloc: Global,
    at: u32,
    e: JsExpr,
    ts: &'a [Token<'a>],
    d: u32,
) -> Result<(JsExpr, &'a [Token<'a>]), ReadRefusal>
    requires { d ≤ 1001 }
    ensures read { Reads (goal.substring d at (expr_view e)) (places ts.now) (seen expr_read result) }
    ensures shorter { IfOk result (λ p. length p.1.now < length ts.now) }
    ensures within { IfOk result (λ p. d ≤ 1000) }
{
    let rest = take_sign(ts, d, b".")?;
    let rest = take_word(rest, d, b"substring")?;
    let rest = take_sign(rest, d, b"(")?;
    let (from, rest) = expr(alloc, rest, d + 1)?;
    let rest = take_sign(rest, d + 1, b",")?;
    let (to, rest) = enclosed(alloc, rest, d, b")")?;
    let e = node::substring(alloc, at, e, from, to)?;
    Ok((e, rest))
}

/// An atom: ECMA-262 5.1, 11.1.
#[cycle(expr)]
fn atom<'a>(
    alloc: Global,
    ts: &'a [Token<'a>],
    d: u32,
) -> Result<(JsExpr, &'a [Token<'a>]), ReadRefusal>
    requires { d ≤ 1001 }
    ensures read { Reads (goal.atom d) (places ts.now) (seen expr_read result) }
    ensures shorter { IfOk result (λ p. length p.1.now < length ts.now) }
{
    if is_sign(ts, b"(") {
        let rest = take_sign(ts, d, b"(")?;
        return enclosed(alloc, rest, d, b")");
    }
    if is_sign(ts, b"[") {
        let at = place(ts);
        let rest = take_sign(ts, d, b"[")?;
        let (items, rest) = listed(alloc, rest, d, b"]")?;
        return Ok((node::array(at, items), rest));
    }
    if is_word(ts, b"String") {
        return converted(alloc, ts, d);
    }
    literal(alloc, ts, d)
}

/// `String(e)` or `String.fromCharCode(e)`.
#[cycle(expr)]
fn converted<'a>(
    alloc: Global,
    ts: &'a [Token<'a>],
    d: u32,
) -> Result<(JsExpr, &'a [Token<'a>]), ReadRefusal>
    requires { d ≤ 1001 }
    ensures read { Reads (goal.converted d) (places ts.now) (seen expr_read result) }
    ensures shorter { IfOk result (λ p. length p.1.now < length ts.now) }
{
    let at = place(ts);
    if is_second_sign(ts, b"(") {
        let rest = take_word(ts, d, b"String")?;
        let rest = take_sign(rest, d, b"(")?;
        let (e, rest) = enclosed(alloc, rest, d, b")")?;
        let e = node::decimal(alloc, at, e)?;
        return Ok((e, rest));
    }
    let rest = take_word(ts, d, b"String")?;
    let rest = take_sign(rest, d, b".")?;
    let rest = take_word(rest, d, b"fromCharCode")?;
    let rest = take_sign(rest, d, b"(")?;
    let (e, rest) = enclosed(alloc, rest, d, b")")?;
    let e = node::from_char_code(alloc, at, e)?;
    Ok((e, rest))
}

/// An expression that is nested one deeper, and the bracket after it.
#[cycle(expr)]
pub fn enclosed<'a>(
    alloc: Global,
    ts: &'a [Token<'a>],
    d: u32,
    close: &[u8],
) -> Result<(JsExpr, &'a [Token<'a>]), ReadRefusal>
    requires { d ≤ 1000 }
    ensures read { Reads (goal.enclosed d (sign close.now)) (places ts.now) (seen expr_read result) }
    ensures shorter { IfOk result (λ p. length p.1.now < length ts.now) }
{
    let (e, rest) = expr(alloc, ts, d + 1)?;
    let rest = take_sign(rest, d, close)?;
    Ok((e, rest))
}

/// Expressions with commas between, nested one deeper, and the bracket after them.
#[cycle(expr)]
fn listed<'a>(
    alloc: Global,
    ts: &'a [Token<'a>],
    d: u32,
    close: &[u8],
) -> Result<(Vec<JsExpr>, &'a [Token<'a>]), ReadRefusal>
    requires { d ≤ 1000 }
    ensures read { Reads (goal.listed d (sign close.now)) (places ts.now) (seen exprs_read result) }
    ensures shorter { IfOk result (λ p. length p.1.now < length ts.now) }
{
    let mut items = Vec::new(alloc);
    if is_sign(ts, close) {
        let rest = take_sign(ts, d, close)?;
        return Ok((items, rest));
    }
    let (e, after) = expr(alloc, ts, d + 1)?;
    node::add(&mut items, e)?;
    let mut rest = after;
    'commas: while is_sign(rest, b",") {
        let after = take_sign(rest, d + 1, b",")?;
        let (e, after) = expr(alloc, after, d + 1)?;
        node::add(&mut items, e)?;
        rest = after;
    }
    let rest = take_sign(rest, d, close)?;
    Ok((items, rest))
}
