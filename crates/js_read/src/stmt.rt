//! Statements: ECMA-262 5.1, 12, cut to the subset. Each function reads what stands first among
//! tokens, nested `d` deep, and gives what it read with the tokens after it.

ghost use Rattle.std.specs.Prelude.{◌≡◌, ◌<◌, ◌≤◌, ◌+◌, length, IfOk, [], map, codes, false, ◌||◌, ◌&&◌};
ghost use Rattle.js_tree.specs.View.{case_view};
ghost use Rattle.js_grammar.specs.Tokens.{places, is_first, is_second};
ghost use Rattle.js_tree.specs.Scripts.{word};
ghost use Rattle.js_grammar.specs.Steps.{begins, is_name_token, equals, colon};
ghost use Rattle.js_grammar.specs.Goals as goal;
ghost use Rattle.js_grammar.specs.Reads.{Reads, seen};
ghost use Rattle.js_nodes.specs.Views.{stmt_read, stmts_read, else_read, cases_read, case_read};

use crate::effect::{effect, forever, simple, tested};
use gj_base::Text;
use js_expr::expr;
use js_grammar::{ReadRefusal, Token};
use js_nodes::nodes::literal::{names, take_number, take_own_name};
use js_nodes::nodes::look::{
    begins_atom, ends_statements, is_second_sign, is_sign, is_word, place, take_sign, take_word,
};
use js_nodes::stmt_nodes::node_stmt as node;
use js_tree::{JsCase, JsCases, JsElse, JsStmt, JsStmts};
use std::alloc::Global;

/// Whether `while`, `for` or `switch` comes first.
fn begins_turning(ts: &[Token]) -> bool
    ensures { result ≡ (is_first (word (codes "while")) (places ts.now) || is_first (word (codes "for")) (places ts.now) || is_first (word (codes "switch")) (places ts.now)) }
{
    is_word(ts, b"while") || is_word(ts, b"for") || is_word(ts, b"switch")
}

/// Whether a name and `=` come first.
fn begins_assignment(ts: &[Token]) -> bool
    ensures { result ≡ (begins is_name_token (places ts.now) && is_second equals (places ts.now)) }
{
    names(ts) && is_second_sign(ts, b"=")
}

/// Whether a name and `:` come first.
fn begins_label(ts: &[Token]) -> bool
    ensures { result ≡ (begins is_name_token (places ts.now) && is_second colon (places ts.now)) }
{
    names(ts) && is_second_sign(ts, b":")
}

/// The same tokens, for a loop to go on with.
pub fn all<'a>(ts: &'a [Token<'a>]) -> &'a [Token<'a>]
    ensures same { result.now ≡ ts.now }
    ensures long { length result.now ≡ length ts.now }
{
    ts
}

/// Statements, up to what ends them.
#[cycle(stmt)]
fn stmts<'a>(
    alloc: Global,
    ts: &'a [Token<'a>],
    d: u32,
) -> Result<(JsStmts, &'a [Token<'a>]), ReadRefusal>
    requires { d ≤ 1001 }
    ensures read { Reads (goal.statements d []) (places ts.now) (seen stmts_read result) }
    ensures shorter { IfOk result (λ p. length p.1.now ≤ length ts.now) }
{
    let mut items = Vec::new(alloc);
    let mut rest = ts;
    'each: while !ends_statements(rest) {
        let (s, after) = stmt(alloc, rest, d)?;
        node::add(&mut items, s)?;
        rest = all(after);
    }
    Ok((node::stmts(items), rest))
}

/// A block: ECMA-262 5.1, 12.1.
#[cycle(stmt)]
pub fn block<'a>(
    alloc: Global,
    ts: &'a [Token<'a>],
    d: u32,
) -> Result<(JsStmts, &'a [Token<'a>]), ReadRefusal>
    requires { d ≤ 1001 }
    ensures read { Reads (goal.block d) (places ts.now) (seen stmts_read result) }
    ensures shorter { IfOk result (λ p. length p.1.now < length ts.now) }
{
    let rest = take_sign(ts, d, b"{")?;
    let (ss, rest) = stmts(alloc, rest, d + 1)?;
    let rest = take_sign(rest, d, b"}")?;
    Ok((ss, rest))
}

/// A statement: ECMA-262 5.1, 12.
#[cycle(stmt)]
fn stmt<'a>(
    alloc: Global,
    ts: &'a [Token<'a>],
    d: u32,
) -> Result<(JsStmt, &'a [Token<'a>]), ReadRefusal>
    requires { d ≤ 1001 }
    ensures read { Reads (goal.statement d) (places ts.now) (seen stmt_read result) }
    ensures shorter { IfOk result (λ p. length p.1.now < length ts.now) }
{
    if begins_atom(ts) {
        return named(alloc, ts, d);
    }
    if is_word(ts, b"if") {
        return branch(alloc, ts, d);
    }
    if is_word(ts, b"try") {
        return attempt(alloc, ts, d);
    }
    if begins_turning(ts) {
        let at = place(ts);
        return turning(alloc, at, None, ts, d);
    }
    simple(alloc, ts, d)
}

/// A statement that begins with an expression, an assignment, or a label.
#[cycle(stmt)]
fn named<'a>(
    alloc: Global,
    ts: &'a [Token<'a>],
    d: u32,
) -> Result<(JsStmt, &'a [Token<'a>]), ReadRefusal>
    requires { d ≤ 1001 }
    ensures read { Reads (goal.named d) (places ts.now) (seen stmt_read result) }
    ensures shorter { IfOk result (λ p. length p.1.now < length ts.now) }
{
    let at = place(ts);
    if begins_assignment(ts) {
        let (x, rest) = take_own_name(alloc, ts, d)?;
        let rest = take_sign(rest, d, b"=")?;
        let (e, rest) = expr(alloc, rest, d)?;
        let rest = take_sign(rest, d, b";")?;
        return Ok((node::assign(at, x, e), rest));
    }
    if begins_label(ts) {
        let (x, rest) = take_own_name(alloc, ts, d)?;
        let rest = take_sign(rest, d, b":")?;
        return turning(alloc, at, Some(x), rest, d);
    }
    effect(alloc, ts, d)
}

/// `if`: ECMA-262 5.1, 12.5.
#[cycle(stmt)]
fn branch<'a>(
    alloc: Global,
    ts: &'a [Token<'a>],
    d: u32,
) -> Result<(JsStmt, &'a [Token<'a>]), ReadRefusal>
    requires { d ≤ 1001 }
    ensures read { Reads (goal.branch d) (places ts.now) (seen stmt_read result) }
    ensures shorter { IfOk result (λ p. length p.1.now < length ts.now) }
{
    let at = place(ts);
    let (t, rest) = tested(alloc, ts, d, b"if")?;
    let (ss, rest) = block(alloc, rest, d)?;
    let (other, rest) = otherwise(alloc, rest, d)?;
    Ok((node::branch(at, t, ss, other), rest))
}

/// What stands after the block of an `if`. What follows `else` is nested one deeper.
#[cycle(stmt)]
fn otherwise<'a>(
    alloc: Global,
    ts: &'a [Token<'a>],
    d: u32,
) -> Result<(JsElse, &'a [Token<'a>]), ReadRefusal>
    requires { d ≤ 1001 }
    ensures read { Reads (goal.otherwise d) (places ts.now) (seen else_read result) }
    ensures shorter { IfOk result (λ p. length p.1.now ≤ length ts.now) }
{
    if !is_word(ts, b"else") {
        return Ok((node::no_else(), ts));
    }
    let rest = take_word(ts, d, b"else")?;
    if !is_word(rest, b"if") {
        let (ss, rest) = block(alloc, rest, d + 1)?;
        return Ok((node::else_block(ss), rest));
    }
    let at = place(rest);
    let (t, rest) = tested(alloc, rest, d + 1, b"if")?;
    let (ss, rest) = block(alloc, rest, d + 1)?;
    let (other, rest) = otherwise(alloc, rest, d + 1)?;
    let e = node::else_if(alloc, at, t, ss, other)?;
    Ok((e, rest))
}

/// `while`, `for (;;)` or `switch`, whose label has been read: ECMA-262 5.1, 12.6 and 12.11.
#[cycle(stmt)]
fn turning<'a>(
    alloc: Global,
    at: u32,
    label: Option<Text>,
    ts: &'a [Token<'a>],
    d: u32,
) -> Result<(JsStmt, &'a [Token<'a>]), ReadRefusal>
    requires { d ≤ 1001 }
    ensures read { Reads (goal.turning d at label) (places ts.now) (seen stmt_read result) }
    ensures shorter { IfOk result (λ p. length p.1.now < length ts.now) }
{
    if is_word(ts, b"while") {
        let (t, rest) = tested(alloc, ts, d, b"while")?;
        let (ss, rest) = block(alloc, rest, d)?;
        return Ok((node::turns(at, label, t, ss), rest));
    }
    if is_word(ts, b"for") {
        let rest = forever(ts, d)?;
        let (ss, rest) = block(alloc, rest, d)?;
        return Ok((node::forever(at, label, ss), rest));
    }
    let (e, rest) = tested(alloc, ts, d, b"switch")?;
    let rest = take_sign(rest, d, b"{")?;
    let (cases, rest) = clauses(alloc, rest, d + 1)?;
    let rest = take_sign(rest, d, b"}")?;
    Ok((node::switch(at, label, e, cases), rest))
}

/// The cases of a `switch`.
#[cycle(stmt)]
fn clauses<'a>(
    alloc: Global,
    ts: &'a [Token<'a>],
    d: u32,
) -> Result<(JsCases, &'a [Token<'a>]), ReadRefusal>
    requires { d ≤ 1001 }
    ensures read { Reads (goal.clauses d []) (places ts.now) (seen cases_read result) }
    ensures shorter { IfOk result (λ p. length p.1.now ≤ length ts.now) }
{
    let mut items = Vec::new(alloc);
    let mut rest = ts;
    'clauses: while is_word(rest, b"case") {
        let (next, after) = clause(alloc, rest, d)?;
        node::add_case(&mut items, next)?;
        rest = all(after);
    }
    ended(alloc, items, rest, d)
}

/// What stands after the last `case`: a `default` with its statements, or nothing.
#[cycle(stmt)]
fn ended<'a>(
    alloc: Global,
    items: Vec<JsCase>,
    ts: &'a [Token<'a>],
    d: u32,
) -> Result<(JsCases, &'a [Token<'a>]), ReadRefusal>
    requires within { d ≤ 1001 }
    requires past { is_first (word (codes "case")) (places ts.now) ≡ false }
    ensures read { Reads (goal.clauses d (map case_view items.items)) (places ts.now) (seen cases_read result) }
    ensures shorter { IfOk result (λ p. length p.1.now ≤ length ts.now) }
{
    if is_word(ts, b"default") {
        let rest = take_word(ts, d, b"default")?;
        let rest = take_sign(rest, d, b":")?;
        let (ss, rest) = stmts(alloc, rest, d)?;
        return Ok((node::cases_default(items, ss), rest));
    }
    Ok((node::cases(items), ts))
}

#[cycle(stmt)]
fn clause<'a>(
    alloc: Global,
    ts: &'a [Token<'a>],
    d: u32,
) -> Result<(JsCase, &'a [Token<'a>]), ReadRefusal>
    requires { d ≤ 1001 }
    ensures read { Reads (goal.clause d) (places ts.now) (seen case_read result) }
    ensures shorter { IfOk result (λ p. length p.1.now < length ts.now) }
{
    let rest = take_word(ts, d, b"case")?;
    let (n, rest) = take_number(rest, d)?;
    let rest = take_sign(rest, d, b":")?;
    let (ss, rest) = stmts(alloc, rest, d)?;
    Ok((node::case(n, ss), rest))
}

/// `try` and `catch`: ECMA-262 5.1, 12.14.
#[cycle(stmt)]
fn attempt<'a>(
    alloc: Global,
    ts: &'a [Token<'a>],
    d: u32,
) -> Result<(JsStmt, &'a [Token<'a>]), ReadRefusal>
    requires { d ≤ 1001 }
    ensures read { Reads (goal.attempt d) (places ts.now) (seen stmt_read result) }
    ensures shorter { IfOk result (λ p. length p.1.now < length ts.now) }
{
    let at = place(ts);
    let rest = take_word(ts, d, b"try")?;
    let (ss, rest) = block(alloc, rest, d)?;
    let rest = take_word(rest, d, b"catch")?;
    let rest = take_sign(rest, d, b"(")?;
    let rest = take_word(rest, d + 1, b"$catch")?;
    let rest = take_sign(rest, d, b")")?;
    let (handler, rest) = block(alloc, rest, d)?;
    Ok((node::attempt(at, ss, handler), rest))
}
