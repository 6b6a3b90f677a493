//! How tightly operators and expressions bind, and how long chains of them are: ECMA-262 5.1, 11.

ghost use Rattle.std.specs.Prelude.{◌≡◌, ◌<◌, ◌+◌, suc};
ghost use Rattle.js_tree.specs.View.{expr_view};
ghost use Rattle.js_tree.specs.Printed.{level, op_level, dot_level};
ghost use Rattle.js_tree.specs.Printable.{operators, parts, is_call};

use js_tree::{BinaryOp, ExprForm, JsExpr};

/// No count is told beyond this one.
const MANY: u32 = 2000;

/// How tightly an operator binds its operands.
pub fn op_level(op: BinaryOp) -> u8
    ensures { result ≡ op_level op }
{
    match op {
        BinaryOp::Multiply => 10,
        BinaryOp::Divide => 10,
        BinaryOp::Remainder => 10,
        BinaryOp::Add => 9,
        BinaryOp::Subtract => 9,
        BinaryOp::ShiftLeft => 8,
        BinaryOp::ShiftRight => 8,
        BinaryOp::ShiftRightUnsigned => 8,
        BinaryOp::Less => 7,
        BinaryOp::LessEqual => 7,
        BinaryOp::Greater => 7,
        BinaryOp::GreaterEqual => 7,
        BinaryOp::In => 7,
        BinaryOp::Same => 6,
        BinaryOp::Different => 6,
        BinaryOp::BitAnd => 5,
        BinaryOp::BitXor => 4,
        BinaryOp::BitOr => 3,
    }
}

/// How tightly an expression binds.
pub fn level(e: &JsExpr) -> u8
    ensures { result ≡ level (expr_view e.now) }
{
    match &e.form {
        ExprForm::Conditional(_, _, _) => 0,
        ExprForm::Or(_, _) => 1,
        ExprForm::And(_, _) => 2,
        ExprForm::Binary(op, _, _) => op_level(*op),
        ExprForm::Unary(_, _) => 11,
        ExprForm::Number(_)
        | ExprForm::Str(_)
        | ExprForm::Bool(_)
        | ExprForm::Null
        | ExprForm::Name(_)
        | ExprForm::Call(_, _)
        | ExprForm::Index(_, _)
        | ExprForm::Length(_)
        | ExprForm::Pop(_)
        | ExprForm::CharCodeAt(_, _)
        | ExprForm::Substring(_, _, _)
        | ExprForm::Array(_)
        | ExprForm::Dictionary
        | ExprForm::Decimal(_)
        | ExprForm::FromCharCode(_) => 12,
    }
}

/// How tightly what stands before a `.` binds: a number needs parentheses there.
pub fn dot_level(e: &JsExpr) -> u8
    ensures { result ≡ dot_level (expr_view e.now) }
{
    match &e.form {
        ExprForm::Number(_) => 13,
        ExprForm::Str(_)
        | ExprForm::Bool(_)
        | ExprForm::Null
        | ExprForm::Name(_)
        | ExprForm::Unary(_, _)
        | ExprForm::Binary(_, _, _)
        | ExprForm::And(_, _)
        | ExprForm::Or(_, _)
        | ExprForm::Conditional(_, _, _)
        | ExprForm::Call(_, _)
        | ExprForm::Index(_, _)
        | ExprForm::Length(_)
        | ExprForm::Pop(_)
        | ExprForm::CharCodeAt(_, _)
        | ExprForm::Substring(_, _, _)
        | ExprForm::Array(_)
        | ExprForm::Dictionary
        | ExprForm::Decimal(_)
        | ExprForm::FromCharCode(_) => 12,
    }
}

/// One deeper.
pub fn deeper(d: u32) -> u32
    requires { d < 4000 }
    ensures { result ≡ suc d }
{
    d + 1
}

/// One deeper, after so many operators or parts.
pub fn after(d: u32, n: u32) -> u32
    requires depth { d < 2000 }
    requires count { n < 2000 }
    ensures { result ≡ suc (d + n) }
{
    d + n + 1
}

/// One more than a count that is below `MANY`.
fn counted(n: u32) -> u32
    ensures counted { result < 2000 → result ≡ suc n }
{
    if n < MANY { n + 1 } else { MANY }
}

/// How many operators of a level stand in the chain that an expression is, or `MANY`.
pub fn operators(k: u8, e: &JsExpr) -> u32
    ensures counted { result < 2000 → result ≡ operators k (expr_view e.now) }
{
    match &e.form {
        ExprForm::Binary(op, a, _) => {
            if op_level(*op) == k {
                return counted(operators(k, a));
            }
            0
        }
        ExprForm::And(a, _) => {
            if k == 2 {
                return counted(operators(k, a));
            }
            0
        }
        ExprForm::Or(a, _) => {
            if k == 1 {
                return counted(operators(k, a));
            }
            0
        }
        ExprForm::Number(_)
        | ExprForm::Str(_)
        | ExprForm::Bool(_)
        | ExprForm::Null
        | ExprForm::Name(_)
        | ExprForm::Unary(_, _)
        | ExprForm::Conditional(_, _, _)
        | ExprForm::Call(_, _)
        | ExprForm::Index(_, _)
        | ExprForm::Length(_)
        | ExprForm::Pop(_)
        | ExprForm::CharCodeAt(_, _)
        | ExprForm::Substring(_, _, _)
        | ExprForm::Array(_)
        | ExprForm::Dictionary
        | ExprForm::Decimal(_)
        | ExprForm::FromCharCode(_) => 0,
    }
}

/// How many indices, calls and words after a `.` follow the atom that an expression begins with, or
/// `MANY`.
pub fn parts(e: &JsExpr) -> u32
    ensures counted { result < 2000 → result ≡ parts (expr_view e.now) }
{
    match &e.form {
        ExprForm::Call(a, _) => counted(parts(a)),
        ExprForm::Index(a, _) => counted(parts(a)),
        ExprForm::Length(a) => counted(parts(a)),
        ExprForm::Pop(a) => counted(parts(a)),
        ExprForm::CharCodeAt(a, _) => counted(parts(a)),
        ExprForm::Substring(a, _, _) => counted(parts(a)),
        ExprForm::Number(_)
        | ExprForm::Str(_)
        | ExprForm::Bool(_)
        | ExprForm::Null
        | ExprForm::Name(_)
        | ExprForm::Unary(_, _)
        | ExprForm::Binary(_, _, _)
        | ExprForm::And(_, _)
        | ExprForm::Or(_, _)
        | ExprForm::Conditional(_, _, _)
        | ExprForm::Array(_)
        | ExprForm::Dictionary
        | ExprForm::Decimal(_)
        | ExprForm::FromCharCode(_) => 0,
    }
}

/// Whether an expression may stand as a statement.
pub fn is_call(e: &JsExpr) -> bool
    ensures { result ≡ is_call (expr_view e.now) }
{
    match &e.form {
        ExprForm::Call(_, _) => true,
        ExprForm::Pop(_) => true,
        ExprForm::Number(_)
        | ExprForm::Str(_)
        | ExprForm::Bool(_)
        | ExprForm::Null
        | ExprForm::Name(_)
        | ExprForm::Unary(_, _)
        | ExprForm::Binary(_, _, _)
        | ExprForm::And(_, _)
        | ExprForm::Or(_, _)
        | ExprForm::Conditional(_, _, _)
        | ExprForm::Index(_, _)
        | ExprForm::Length(_)
        | ExprForm::CharCodeAt(_, _)
        | ExprForm::Substring(_, _, _)
        | ExprForm::Array(_)
        | ExprForm::Dictionary
        | ExprForm::Decimal(_)
        | ExprForm::FromCharCode(_) => false,
    }
}
