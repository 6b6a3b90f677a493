//! Operators on constants.
//!
//! Go, "Constant expressions". Each call answers for any two constants, also where a row that is
//! given such a pair never comes.

ghost use Rattle.std.specs.Prelude.{◌≡◌, IsTrue, Ok, Some, true, false};
ghost use Rattle.go_const.specs.declared.constant.Const.TheVariants as form;
ghost use Rattle.go_const.specs.Operation.{is_sign, is_logical, number_has, text_has, is_shift, whole_of};
ghost use Rattle.go_const.specs.Answer.{OrNoMemory, unary_answer, binary_answer, shift_of, with_truth, with_number, with_text};

use gj_base::{Kind, Op, Text};
use go_const::range::settled;
use go_const::{Const, ConstRefusal, binary, shift, unary};
use std::alloc::Global;

fn is_sign(op: Op) -> bool
    ensures { result ≡ is_sign op }
{
    matches!(op, Op::Plus | Op::Neg | Op::Compl)
}

fn is_logical(op: Op) -> bool
    ensures { result ≡ is_logical op }
{
    matches!(op, Op::AndThen | Op::OrElse | Op::Eq | Op::Ne)
}

fn text_has(op: Op) -> bool
    ensures { result ≡ text_has op }
{
    matches!(
        op,
        Op::Add | Op::Eq | Op::Ne | Op::Lt | Op::Le | Op::Gt | Op::Ge
    )
}

fn number_has(op: Op) -> bool
    ensures { result ≡ number_has op }
{
    match op {
        Op::Add | Op::Sub | Op::Mul | Op::Div | Op::Rem => true,
        Op::And | Op::Or | Op::Xor | Op::AndNot => true,
        Op::Eq | Op::Ne | Op::Lt | Op::Le | Op::Gt | Op::Ge => true,
        _ => false,
    }
}

fn copied(alloc: Global, text: &Text) -> Result<Const, ConstRefusal>
    ensures { OrNoMemory (Unit {0}) result (Ok (form.Text text.now)) }
{
    Ok(Const::Text(Text::from_slice(alloc, text.as_bytes())?))
}

/// An operator before a constant.
pub fn unary_of(alloc: Global, op: Op, k: &Const, kind: Option<Kind>) -> Result<Const, ConstRefusal>
    ensures { OrNoMemory (Unit {0}) result (unary_answer op kind k.now) }
{
    match k {
        Const::Bool(b) => Ok(Const::Bool(!*b)),
        Const::Int(z) => {
            if is_sign(op) {
                return unary(op, k, kind);
            }
            settled(kind, false, Some(*z))
        }
        Const::Rune(z) => {
            if is_sign(op) {
                return unary(op, k, kind);
            }
            settled(kind, true, Some(*z))
        }
        Const::Text(text) => copied(alloc, text),
    }
}

fn truth_of(
    alloc: Global,
    op: Op,
    k: &Const,
    b: bool,
    l: &Const,
    kind: Option<Kind>,
) -> Result<Const, ConstRefusal>
    requires { k.now ≡ form.Bool b }
    ensures { OrNoMemory (Unit {0}) result (with_truth op b l.now) }
{
    match l {
        Const::Bool(_) => {
            if is_logical(op) {
                return binary(alloc, op, k, l, kind);
            }
            Ok(Const::Bool(false))
        }
        Const::Int(_) | Const::Rune(_) | Const::Text(_) => Ok(Const::Bool(b)),
    }
}

fn text_of(
    alloc: Global,
    op: Op,
    k: &Const,
    text: &Text,
    l: &Const,
    kind: Option<Kind>,
) -> Result<Const, ConstRefusal>
    requires { k.now ≡ form.Text text.now }
    ensures { OrNoMemory (Unit {0}) result (with_text op text.now l.now) }
{
    match l {
        Const::Text(_) => {
            if text_has(op) {
                return binary(alloc, op, k, l, kind);
            }
            Ok(Const::Bool(false))
        }
        Const::Int(_) | Const::Rune(_) | Const::Bool(_) => copied(alloc, text),
    }
}

fn int_of(
    alloc: Global,
    op: Op,
    k: &Const,
    z: i128,
    l: &Const,
    kind: Option<Kind>,
) -> Result<Const, ConstRefusal>
    requires { k.now ≡ form.Int z }
    ensures { OrNoMemory (Unit {0}) result (with_number op kind false z l.now) }
{
    match l {
        Const::Int(_) => {
            if number_has(op) {
                return binary(alloc, op, k, l, kind);
            }
            settled(kind, false, Some(z))
        }
        Const::Rune(_) => {
            if number_has(op) {
                return binary(alloc, op, k, l, kind);
            }
            settled(kind, true, Some(z))
        }
        Const::Bool(_) | Const::Text(_) => Ok(Const::Int(z)),
    }
}

fn rune_of(
    alloc: Global,
    op: Op,
    k: &Const,
    z: i128,
    l: &Const,
    kind: Option<Kind>,
) -> Result<Const, ConstRefusal>
    requires { k.now ≡ form.Rune z }
    ensures { OrNoMemory (Unit {0}) result (with_number op kind true z l.now) }
{
    match l {
        Const::Int(_) | Const::Rune(_) => {
            if number_has(op) {
                return binary(alloc, op, k, l, kind);
            }
            settled(kind, true, Some(z))
        }
        Const::Bool(_) | Const::Text(_) => Ok(Const::Int(z)),
    }
}

/// An operator between constants.
pub fn binary_of(
    alloc: Global,
    op: Op,
    k: &Const,
    l: &Const,
    kind: Option<Kind>,
) -> Result<Const, ConstRefusal>
    ensures { OrNoMemory (Unit {0}) result (binary_answer op kind k.now l.now) }
{
    match k {
        Const::Bool(b) => truth_of(alloc, op, k, *b, l, kind),
        Const::Int(z) => int_of(alloc, op, k, *z, l, kind),
        Const::Rune(z) => rune_of(alloc, op, k, *z, l, kind),
        Const::Text(text) => text_of(alloc, op, k, text, l, kind),
    }
}

fn shift_number(
    op: Op,
    k: &Const,
    z: i128,
    count: &Const,
    kind: Option<Kind>,
) -> Result<Const, ConstRefusal>
    requires shift { IsTrue (is_shift op) }
    requires whole { whole_of k.now ≡ Some z }
    ensures { OrNoMemory (Unit {0}) result (shift_of op kind k.now count.now) }
{
    match count {
        Const::Int(_) | Const::Rune(_) => shift(op, k, count, kind),
        Const::Bool(_) | Const::Text(_) => Ok(Const::Int(z)),
    }
}

/// A constant shifted by a constant.
pub fn shifted_of(
    alloc: Global,
    op: Op,
    k: &Const,
    count: &Const,
    kind: Option<Kind>,
) -> Result<Const, ConstRefusal>
    requires { IsTrue (is_shift op) }
    ensures { OrNoMemory (Unit {0}) result (shift_of op kind k.now count.now) }
{
    match k {
        Const::Int(z) | Const::Rune(z) => shift_number(op, k, *z, count, kind),
        Const::Bool(b) => Ok(Const::Bool(*b)),
        Const::Text(text) => copied(alloc, text),
    }
}
