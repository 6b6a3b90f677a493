//! Statements without a block: ECMA-262 5.1, 12.2, 12.4, 12.7 to 12.9 and 12.13, cut to the
//! subset.

ghost use Rattle.std.specs.Prelude.{◌≡◌, ◌<◌, ◌≤◌, ◌+◌, length, IfOk, nat_lt, ◌&&◌};
ghost use Rattle.js_tree.specs.Scripts.{word};
ghost use Rattle.js_tree.specs.Printable.{is_call};
ghost use Rattle.js_tree.specs.View.{expr_view};
ghost use Rattle.js_grammar.specs.Tokens.{places};
ghost use Rattle.js_grammar.specs.Steps.{is_index};
ghost use Rattle.js_grammar.specs.Goals as goal;
ghost use Rattle.js_grammar.specs.Reads.{Reads, seen};
ghost use Rattle.js_nodes.specs.Views.{rest_read, expr_read, stmt_read, label_read, declared_read};

use gj_base::Text;
use js_expr::{enclosed, expr, post};
use js_grammar::{ReadRefusal, Token, syntax};
use js_nodes::nodes::literal::{names, take_own_name};
use js_nodes::nodes::look::{is_push, is_sign, is_word, place, take_sign, take_word};
use js_nodes::stmt_nodes::node_stmt as node;
use js_tree::{JsExpr, JsStmt};
use std::alloc::Global;

/// `var x = e;` as its name and its value: ECMA-262 5.1, 12.2.
pub fn declaration<'a>(
    alloc: Global,
    ts: &'a [Token<'a>],
    d: u32,
) -> Result<(Text, JsExpr, &'a [Token<'a>]), ReadRefusal>
    requires { d ≤ 1001 }
    ensures read { Reads (goal.declaration d) (places ts.now) (seen declared_read result) }
    ensures shorter { IfOk result (λ p. length p.2.now < length ts.now) }
{
    let rest = take_word(ts, d, b"var")?;
    let (x, rest) = take_own_name(alloc, rest, d)?;
    let rest = take_sign(rest, d, b"=")?;
    let (e, rest) = expr(alloc, rest, d)?;
    let rest = take_sign(rest, d, b";")?;
    Ok((x, e, rest))
}

/// What an expression does that begins at an offset and has so many parts: from what follows it.
fn effect_of<'a>(
    alloc: Global,
    at: u32,
    n: u32,
    e: JsExpr,
    ts: &'a [Token<'a>],
    d: u32,
) -> Result<(JsStmt, &'a [Token<'a>]), ReadRefusal>
    requires { d + n ≤ 1001 }
    ensures read { Reads (goal.effect_of d at n (expr_view e)) (places ts.now) (seen stmt_read result) }
    ensures shorter { IfOk result (λ p. length p.1.now < length ts.now) }
{
    if is_push(ts) {
        let rest = take_sign(ts, d + n, b".")?;
        let rest = take_word(rest, d + n, b"push")?;
        let rest = take_sign(rest, d + n, b"(")?;
        let (v, rest) = enclosed(alloc, rest, d + n, b")")?;
        let rest = take_sign(rest, d, b";")?;
        return Ok((node::push(at, e, v), rest));
    }
    if is_sign(ts, b"=") {
        return store(alloc, at, n, e, ts, d);
    }
    if !performs(n, &e) {
        return Err(syntax());
    }
    let rest = take_sign(ts, d, b";")?;
    Ok((node::perform(at, e), rest))
}

/// Whether an expression with so many parts may stand as a statement.
fn performs(n: u32, e: &JsExpr) -> bool
    ensures { result ≡ (nat_lt 0 n && is_call (expr_view e.now)) }
{
    0 < n && node::is_call(e)
}

/// Whether an expression with so many parts is an element of an array.
fn is_element(n: u32, e: &JsExpr) -> bool
    ensures { result ≡ (nat_lt 0 n && is_index (expr_view e.now)) }
{
    0 < n && node::is_index(e)
}

/// `e[i] = v;` from the `=` on, where what stands before it has so many parts.
fn store<'a>(
    alloc: Global,
    at: u32,
    n: u32,
    e: JsExpr,
    ts: &'a [Token<'a>],
    d: u32,
) -> Result<(JsStmt, &'a [Token<'a>]), ReadRefusal>
    requires { d ≤ 1001 }
    ensures read { Reads (goal.store d at n (expr_view e)) (places ts.now) (seen stmt_read result) }
    ensures shorter { IfOk result (λ p. length p.1.now < length ts.now) }
{
    if !is_element(n, &e) {
        return Err(syntax());
    }
    let rest = take_sign(ts, d, b"=")?;
    let (v, rest) = expr(alloc, rest, d)?;
    let rest = take_sign(rest, d, b";")?;
    Ok((node::store(at, e, v), rest))
}

/// `delete e[k];`
pub fn remove<'a>(
    alloc: Global,
    ts: &'a [Token<'a>],
    d: u32,
) -> Result<(JsStmt, &'a [Token<'a>]), ReadRefusal>
    requires { d ≤ 1001 }
    ensures read { Reads (goal.remove d) (places ts.now) (seen stmt_read result) }
    ensures shorter { IfOk result (λ p. length p.1.now < length ts.now) }
{
    let at = place(ts);
    let rest = take_word(ts, d, b"delete")?;
    let (e, n, rest) = post(alloc, rest, d)?;
    if !is_element(n, &e) {
        return Err(syntax());
    }
    let rest = take_sign(rest, d, b";")?;
    Ok((node::remove(at, e), rest))
}

/// What an expression does: a call, a store or a push.
pub fn effect<'a>(
    alloc: Global,
    ts: &'a [Token<'a>],
    d: u32,
) -> Result<(JsStmt, &'a [Token<'a>]), ReadRefusal>
    requires { d ≤ 1001 }
    ensures read { Reads (goal.effect d) (places ts.now) (seen stmt_read result) }
    ensures shorter { IfOk result (λ p. length p.1.now < length ts.now) }
{
    let at = place(ts);
    let (e, n, rest) = post(alloc, ts, d)?;
    effect_of(alloc, at, n, e, rest, d)
}

/// The label that a jump leads to, where one stands there.
fn target<'a>(
    alloc: Global,
    ts: &'a [Token<'a>],
    d: u32,
) -> Result<(Option<Text>, &'a [Token<'a>]), ReadRefusal>
    ensures read { Reads (goal.target d) (places ts.now) (seen label_read result) }
    ensures shorter { IfOk result (λ p. length p.1.now ≤ length ts.now) }
{
    if !names(ts) {
        return Ok((None, ts));
    }
    let (x, rest) = take_own_name(alloc, ts, d)?;
    Ok((Some(x), rest))
}

/// A word, and an expression in parentheses.
pub fn tested<'a>(
    alloc: Global,
    ts: &'a [Token<'a>],
    d: u32,
    w: &[u8],
) -> Result<(JsExpr, &'a [Token<'a>]), ReadRefusal>
    requires { d ≤ 1001 }
    ensures read { Reads (goal.tested d (word w.now)) (places ts.now) (seen expr_read result) }
    ensures shorter { IfOk result (λ p. length p.1.now < length ts.now) }
    ensures within { IfOk result (λ p. d ≤ 1000) }
{
    let rest = take_word(ts, d, w)?;
    let rest = take_sign(rest, d, b"(")?;
    enclosed(alloc, rest, d, b")")
}

/// `for (;;)`
pub fn forever<'a>(ts: &'a [Token<'a>], d: u32) -> Result<&'a [Token<'a>], ReadRefusal>
    requires { d ≤ 1001 }
    ensures read { Reads (goal.forever d) (places ts.now) (seen rest_read result) }
    ensures shorter { IfOk result (λ rest. length rest.now < length ts.now) }
    ensures within { IfOk result (λ rest. d ≤ 1000) }
{
    let rest = take_word(ts, d, b"for")?;
    let rest = take_sign(rest, d, b"(")?;
    let rest = take_sign(rest, d + 1, b";")?;
    let rest = take_sign(rest, d + 1, b";")?;
    take_sign(rest, d, b")")
}

/// A statement without a block that begins with a keyword.
pub fn simple<'a>(
    alloc: Global,
    ts: &'a [Token<'a>],
    d: u32,
) -> Result<(JsStmt, &'a [Token<'a>]), ReadRefusal>
    requires { d ≤ 1001 }
    ensures read { Reads (goal.simple d) (places ts.now) (seen stmt_read result) }
    ensures shorter { IfOk result (λ p. length p.1.now < length ts.now) }
{
    if is_word(ts, b"var") {
        let at = place(ts);
        let (x, e, rest) = declaration(alloc, ts, d)?;
        return Ok((node::declare(at, x, e), rest));
    }
    if is_word(ts, b"delete") {
        return remove(alloc, ts, d);
    }
    if is_word(ts, b"return") {
        return returned(alloc, ts, d);
    }
    jump(alloc, ts, d)
}

/// `return e;` or `return;`: ECMA-262 5.1, 12.9.
pub fn returned<'a>(
    alloc: Global,
    ts: &'a [Token<'a>],
    d: u32,
) -> Result<(JsStmt, &'a [Token<'a>]), ReadRefusal>
    requires { d ≤ 1001 }
    ensures read { Reads (goal.returned d) (places ts.now) (seen stmt_read result) }
    ensures shorter { IfOk result (λ p. length p.1.now < length ts.now) }
{
    let at = place(ts);
    let rest = take_word(ts, d, b"return")?;
    if is_sign(rest, b";") {
        let rest = take_sign(rest, d, b";")?;
        return Ok((node::returns_nothing(at), rest));
    }
    let (e, rest) = expr(alloc, rest, d)?;
    let rest = take_sign(rest, d, b";")?;
    Ok((node::returns(at, e), rest))
}

/// `throw`, `break` or `continue`: ECMA-262 5.1, 12.7, 12.8 and 12.13.
pub fn jump<'a>(
    alloc: Global,
    ts: &'a [Token<'a>],
    d: u32,
) -> Result<(JsStmt, &'a [Token<'a>]), ReadRefusal>
    requires { d ≤ 1001 }
    ensures read { Reads (goal.jump d) (places ts.now) (seen stmt_read result) }
    ensures shorter { IfOk result (λ p. length p.1.now < length ts.now) }
{
    let at = place(ts);
    if is_word(ts, b"throw") {
        let rest = take_word(ts, d, b"throw")?;
        let (e, rest) = expr(alloc, rest, d)?;
        let rest = take_sign(rest, d, b";")?;
        return Ok((node::throw(at, e), rest));
    }
    if is_word(ts, b"break") {
        let rest = take_word(ts, d, b"break")?;
        let (label, rest) = target(alloc, rest, d)?;
        let rest = take_sign(rest, d, b";")?;
        return Ok((node::leave(at, label), rest));
    }
    let rest = take_word(ts, d, b"continue")?;
    let (label, rest) = target(alloc, rest, d)?;
    let rest = take_sign(rest, d, b";")?;
    Ok((node::go_on(at, label), rest))
}
