//! Operators: ECMA-262 5.1, 11.4 to 11.11.

ghost use Rattle.std.specs.Prelude.{◌≡◌, ◌≤◌, ◌==◌, if◌then◌else◌, MatchResult};
ghost use Rattle.js_tree.specs.Printed.{op_level};
ghost use Rattle.js_tree.specs.View.{expr_view};
ghost use Rattle.js_grammar.specs.Tokens.{places, infix_at, infix_among, one_sign, comparisons, long_signs, between, sign_at, infix_level, joined};

use crate::nodes::look::{is_sign, is_word};
use crate::nodes::node;
use js_grammar::{Infix, ReadRefusal, Token};
use js_tree::{BinaryOp, JsExpr, UnaryOp};
use std::alloc::Global;

fn one_sign(ts: &[Token]) -> Option<Infix>
    ensures { result ≡ infix_among one_sign (places ts.now) }
{
    if is_sign(ts, b"+") {
        return Some(Infix::Op(BinaryOp::Add));
    }
    if is_sign(ts, b"-") {
        return Some(Infix::Op(BinaryOp::Subtract));
    }
    if is_sign(ts, b"*") {
        return Some(Infix::Op(BinaryOp::Multiply));
    }
    if is_sign(ts, b"/") {
        return Some(Infix::Op(BinaryOp::Divide));
    }
    if is_sign(ts, b"%") {
        return Some(Infix::Op(BinaryOp::Remainder));
    }
    if is_sign(ts, b"|") {
        return Some(Infix::Op(BinaryOp::BitOr));
    }
    if is_sign(ts, b"&") {
        return Some(Infix::Op(BinaryOp::BitAnd));
    }
    if is_sign(ts, b"^") {
        return Some(Infix::Op(BinaryOp::BitXor));
    }
    None
}

fn comparison(ts: &[Token]) -> Option<Infix>
    ensures { result ≡ infix_among comparisons (places ts.now) }
{
    if is_sign(ts, b"<") {
        return Some(Infix::Op(BinaryOp::Less));
    }
    if is_sign(ts, b"<=") {
        return Some(Infix::Op(BinaryOp::LessEqual));
    }
    if is_sign(ts, b">") {
        return Some(Infix::Op(BinaryOp::Greater));
    }
    if is_sign(ts, b">=") {
        return Some(Infix::Op(BinaryOp::GreaterEqual));
    }
    if is_sign(ts, b"===") {
        return Some(Infix::Op(BinaryOp::Same));
    }
    if is_sign(ts, b"!==") {
        return Some(Infix::Op(BinaryOp::Different));
    }
    if is_word(ts, b"in") {
        return Some(Infix::Op(BinaryOp::In));
    }
    None
}

fn long_sign(ts: &[Token]) -> Option<Infix>
    ensures { result ≡ infix_among long_signs (places ts.now) }
{
    if is_sign(ts, b"<<") {
        return Some(Infix::Op(BinaryOp::ShiftLeft));
    }
    if is_sign(ts, b">>") {
        return Some(Infix::Op(BinaryOp::ShiftRight));
    }
    if is_sign(ts, b">>>") {
        return Some(Infix::Op(BinaryOp::ShiftRightUnsigned));
    }
    if is_sign(ts, b"&&") {
        return Some(Infix::And);
    }
    if is_sign(ts, b"||") {
        return Some(Infix::Or);
    }
    None
}

fn infix(ts: &[Token]) -> Option<Infix>
    ensures { result ≡ infix_at (places ts.now) }
{
    if let Some(i) = one_sign(ts) {
        return Some(i);
    }
    if let Some(i) = comparison(ts) {
        return Some(i);
    }
    long_sign(ts)
}

/// The operator that comes first, where it binds between two levels, both included.
pub fn next_infix(ts: &[Token], least: u32, most: u32) -> Option<Infix>
    ensures { result ≡ between least most (infix_at (places ts.now)) }
{
    match infix(ts) {
        None => None,
        Some(i) => {
            if least <= infix_level(i) && infix_level(i) <= most {
                return Some(i);
            }
            None
        }
    }
}

/// The operator before an operand that comes first.
pub fn unary_op(ts: &[Token]) -> Option<UnaryOp>
    ensures { result ≡ sign_at (places ts.now) }
{
    if is_sign(ts, b"-") {
        return Some(UnaryOp::Negate);
    }
    if is_sign(ts, b"~") {
        return Some(UnaryOp::Complement);
    }
    if is_sign(ts, b"!") {
        return Some(UnaryOp::Not);
    }
    None
}

/// How many operators of its chain stand before one, where n stand before that bind so tightly.
pub fn earlier(own: u32, level: u32, n: u32) -> u32
    ensures value { result ≡ (if own == level then n else 0) }
    ensures within { result ≤ n }
{
    if own == level { n } else { 0 }
}

/// How tightly an operator binds.
pub fn infix_level(operator: Infix) -> u32
    ensures value { result ≡ infix_level operator }
    ensures within { result ≤ 10 }
{
    match operator {
        Infix::Op(op) => op_level(op),
        Infix::And => 2,
        Infix::Or => 1,
    }
}

fn op_level(op: BinaryOp) -> u32
    ensures value { result ≡ op_level op }
    ensures within { result ≤ 10 }
{
    match op {
        BinaryOp::Multiply => 10,
        BinaryOp::Divide => 10,
        BinaryOp::Remainder => 10,
        BinaryOp::Add => 9,
        BinaryOp::Subtract => 9,
        BinaryOp::ShiftLeft => 8,
        BinaryOp::ShiftRight => 8,
        BinaryOp::ShiftRightUnsigned => 8,
        BinaryOp::Less => 7,
        BinaryOp::LessEqual => 7,
        BinaryOp::Greater => 7,
        BinaryOp::GreaterEqual => 7,
        BinaryOp::In => 7,
        BinaryOp::Same => 6,
        BinaryOp::Different => 6,
        BinaryOp::BitAnd => 5,
        BinaryOp::BitXor => 4,
        BinaryOp::BitOr => 3,
    }
}

/// Two operands with an operator between.
pub fn joined(
    alloc: Global,
    at: u32,
    operator: Infix,
    left: JsExpr,
    right: JsExpr,
) -> Result<JsExpr, ReadRefusal>
    ensures { MatchResult result (λ r. expr_view r ≡ joined operator at (expr_view left) (expr_view right)) (λ z. z ≡ ReadRefusal.NoMemory) }
{
    match operator {
        Infix::Op(op) => node::binary(alloc, at, op, left, right),
        Infix::And => node::both(alloc, at, left, right),
        Infix::Or => node::either(alloc, at, left, right),
    }
}
