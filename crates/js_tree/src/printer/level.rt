//! How tightly operators and expressions bind: ECMA-262 5.1, 11.

ghost use Rattle.std.specs.Prelude.{◌≡◌};
ghost use Rattle.js_tree.specs.View.{expr_view};
ghost use Rattle.js_tree.specs.Printed.{level, op_level, op_text, sign_text, is_negate, negates, is_number, dot_level, begins_within, begins_with_word};

use crate::tree::{BinaryOp, ExprForm, JsExpr, UnaryOp};

/// How tightly an operator binds its operands.
pub fn op_level(op: BinaryOp) -> u8
    ensures { result ≡ op_level op }
{
    match op {
        BinaryOp::Multiply => 10,
        BinaryOp::Divide => 10,
        BinaryOp::Remainder => 10,
        BinaryOp::Add => 9,
        BinaryOp::Subtract => 9,
        BinaryOp::ShiftLeft => 8,
        BinaryOp::ShiftRight => 8,
        BinaryOp::ShiftRightUnsigned => 8,
        BinaryOp::Less => 7,
        BinaryOp::LessEqual => 7,
        BinaryOp::Greater => 7,
        BinaryOp::GreaterEqual => 7,
        BinaryOp::In => 7,
        BinaryOp::Same => 6,
        BinaryOp::Different => 6,
        BinaryOp::BitAnd => 5,
        BinaryOp::BitXor => 4,
        BinaryOp::BitOr => 3,
    }
}

/// An operator with its spaces.
pub fn op_text(op: BinaryOp) -> &'static [u8]
    ensures { result.now ≡ op_text op }
{
    match op {
        BinaryOp::Add => b" + ",
        BinaryOp::Subtract => b" - ",
        BinaryOp::Multiply => b" * ",
        BinaryOp::Divide => b" / ",
        BinaryOp::Remainder => b" % ",
        BinaryOp::BitOr => b" | ",
        BinaryOp::BitAnd => b" & ",
        BinaryOp::BitXor => b" ^ ",
        BinaryOp::ShiftLeft => b" << ",
        BinaryOp::ShiftRight => b" >> ",
        BinaryOp::ShiftRightUnsigned => b" >>> ",
        BinaryOp::Less => b" < ",
        BinaryOp::LessEqual => b" <= ",
        BinaryOp::Greater => b" > ",
        BinaryOp::GreaterEqual => b" >= ",
        BinaryOp::Same => b" === ",
        BinaryOp::Different => b" !== ",
        BinaryOp::In => b" in ",
    }
}

/// How tightly an expression binds.
pub fn level(e: &JsExpr) -> u8
    ensures { result ≡ level (expr_view e.now) }
{
    match &e.form {
        ExprForm::Conditional(_, _, _) => 0,
        ExprForm::Or(_, _) => 1,
        ExprForm::And(_, _) => 2,
        ExprForm::Binary(op, _, _) => op_level(*op),
        ExprForm::Unary(_, _) => 11,
        ExprForm::Number(_)
        | ExprForm::Str(_)
        | ExprForm::Bool(_)
        | ExprForm::Null
        | ExprForm::Name(_)
        | ExprForm::Call(_, _)
        | ExprForm::Index(_, _)
        | ExprForm::Length(_)
        | ExprForm::Pop(_)
        | ExprForm::CharCodeAt(_, _)
        | ExprForm::Substring(_, _, _)
        | ExprForm::Array(_)
        | ExprForm::Dictionary
        | ExprForm::Decimal(_)
        | ExprForm::FromCharCode(_) => 12,
    }
}

/// A number needs parentheses before a `.`.
pub fn is_number(e: &JsExpr) -> bool
    ensures { result ≡ is_number (expr_view e.now) }
{
    match &e.form {
        ExprForm::Number(_) => true,
        ExprForm::Str(_)
        | ExprForm::Bool(_)
        | ExprForm::Null
        | ExprForm::Name(_)
        | ExprForm::Unary(_, _)
        | ExprForm::Binary(_, _, _)
        | ExprForm::And(_, _)
        | ExprForm::Or(_, _)
        | ExprForm::Conditional(_, _, _)
        | ExprForm::Call(_, _)
        | ExprForm::Index(_, _)
        | ExprForm::Length(_)
        | ExprForm::Pop(_)
        | ExprForm::CharCodeAt(_, _)
        | ExprForm::Substring(_, _, _)
        | ExprForm::Array(_)
        | ExprForm::Dictionary
        | ExprForm::Decimal(_)
        | ExprForm::FromCharCode(_) => false,
    }
}

fn negates(e: &JsExpr) -> bool
    ensures { result ≡ negates (expr_view e.now) }
{
    match &e.form {
        ExprForm::Unary(op, _) => is_negate(*op),
        ExprForm::Number(_)
        | ExprForm::Str(_)
        | ExprForm::Bool(_)
        | ExprForm::Null
        | ExprForm::Name(_)
        | ExprForm::Binary(_, _, _)
        | ExprForm::And(_, _)
        | ExprForm::Or(_, _)
        | ExprForm::Conditional(_, _, _)
        | ExprForm::Call(_, _)
        | ExprForm::Index(_, _)
        | ExprForm::Length(_)
        | ExprForm::Pop(_)
        | ExprForm::CharCodeAt(_, _)
        | ExprForm::Substring(_, _, _)
        | ExprForm::Array(_)
        | ExprForm::Dictionary
        | ExprForm::Decimal(_)
        | ExprForm::FromCharCode(_) => false,
    }
}

fn is_negate(op: UnaryOp) -> bool
    ensures { result ≡ is_negate op }
{
    match op {
        UnaryOp::Negate => true,
        UnaryOp::Complement => false,
        UnaryOp::Not => false,
    }
}

/// An operator before this operand; two `-` never join.
pub fn sign_text(op: UnaryOp, e: &JsExpr) -> &'static [u8]
    ensures { result.now ≡ sign_text op (expr_view e.now) }
{
    match op {
        UnaryOp::Negate => {
            if negates(e) {
                return b"- ";
            }
            b"-"
        }
        UnaryOp::Complement => b"~",
        UnaryOp::Not => b"!",
    }
}

/// How tightly what stands before a `.` binds.
pub fn dot_level(e: &JsExpr) -> u8
    ensures { result ≡ dot_level (expr_view e.now) }
{
    if is_number(e) { 13 } else { 12 }
}

/// Whether the text of an expression begins with a name, a keyword or a number, where one of this
/// level may stand.
#[cycle(begins)]
pub fn begins_within(k: u8, e: &JsExpr) -> bool
    ensures { result ≡ begins_within k (expr_view e.now) (begins_with_word (expr_view e.now)) }
{
    if level(e) < k {
        return false;
    }
    begins_with_word(e)
}

#[cycle(begins)]
fn begins_with_word(e: &JsExpr) -> bool
    ensures { result ≡ begins_with_word (expr_view e.now) }
{
    match &e.form {
        ExprForm::Number(_) => true,
        ExprForm::Str(_) => false,
        ExprForm::Bool(_) => true,
        ExprForm::Null => true,
        ExprForm::Name(_) => true,
        ExprForm::Unary(_, _) => false,
        ExprForm::Binary(op, a, _) => begins_within(op_level(*op), a),
        ExprForm::And(a, _) => begins_within(2, a),
        ExprForm::Or(a, _) => begins_within(1, a),
        ExprForm::Conditional(test, _, _) => begins_within(1, test),
        ExprForm::Call(f, _) => begins_within(12, f),
        ExprForm::Index(a, _) => begins_within(12, a),
        ExprForm::Length(a) => begins_within(dot_level(a), a),
        ExprForm::Pop(a) => begins_within(dot_level(a), a),
        ExprForm::CharCodeAt(a, _) => begins_within(dot_level(a), a),
        ExprForm::Substring(a, _, _) => begins_within(dot_level(a), a),
        ExprForm::Array(_) => false,
        ExprForm::Dictionary => true,
        ExprForm::Decimal(_) => true,
        ExprForm::FromCharCode(_) => true,
    }
}
