//! Binary operators. Go, "Operators", "Arithmetic operators", "String concatenation".

ghost use Rattle.std.specs.Prelude.{◌≡◌, IsTrue};
ghost use Rattle.go_const.specs.Operation.{is_logical, HasBinary, number_has, text_has};

use crate::assignment::single_value;
use crate::comparison::{comparison, is_comparison};
use crate::shift::{is_shift, shift};
use crate::unary::{folded, kind_in};
use crate::untyped::match_types;
use gj_base::{Kind, NoMemory, Op, Place};
use go_check_state::node::{ConstId, Node};
use go_check_state::{Checker, FaultCode, Operand};
use go_const::{Const, ConstRefusal};
use go_type::types::TypeId;
use std::alloc::Global;

fn is_logical(op: Op) -> bool {
    match op {
        Op::AndThen | Op::OrElse => true,
        _ => false,
    }
}

// Whether the type has the operator.
fn is_defined(c: &Checker, op: Op, t: TypeId) -> bool {
    if is_logical(op) {
        return c.is_boolean(t);
    }
    op == Op::Add && c.is_string(t) || c.is_integer(t)
}

// Whether whole numbers have the operator.
fn number_has(op: Op) -> bool
    ensures { result ≡ number_has op }
{
    match op {
        Op::Add | Op::Sub | Op::Mul | Op::Div | Op::Rem => true,
        Op::And | Op::Or | Op::Xor | Op::AndNot => true,
        Op::Eq | Op::Ne | Op::Lt | Op::Le | Op::Gt | Op::Ge => true,
        _ => false,
    }
}

// Whether texts have the operator.
fn text_has(op: Op) -> bool
    ensures { result ≡ text_has op }
{
    match op {
        Op::Add | Op::Eq | Op::Ne | Op::Lt | Op::Le | Op::Gt | Op::Ge => true,
        _ => false,
    }
}

// Whether truth values have the operator.
fn truth_has(op: Op) -> bool
    ensures { result ≡ is_logical op }
{
    match op {
        Op::AndThen | Op::OrElse | Op::Eq | Op::Ne => true,
        _ => false,
    }
}

// Whether two constants have the operator.
fn has_binary(op: Op, x: &Const, y: &Const) -> bool
    ensures { IsTrue result → HasBinary op x.now y.now }
{
    match x {
        Const::Bool(_) => match y {
            Const::Bool(_) => truth_has(op),
            _ => false,
        },
        Const::Int(_) | Const::Rune(_) => match y {
            Const::Int(_) | Const::Rune(_) => number_has(op),
            _ => false,
        },
        Const::Text(_) => match y {
            Const::Text(_) => text_has(op),
            _ => false,
        },
    }
}

/// The operator on two constants, where they have it.
pub fn fold(
    alloc: Global,
    op: Op,
    x: &Const,
    y: &Const,
    kind: Option<Kind>,
) -> Result<Const, ConstRefusal> {
    if has_binary(op, x, y) {
        return go_const::binary(alloc, op, x, y, kind);
    }
    Err(ConstRefusal::Code(32))
}

/// `x op y`: F55 where the types differ or lack the operator.
pub fn binary(
    c: &mut Checker,
    place: Place,
    op: Op,
    x: Operand,
    y: Operand,
) -> Result<Operand, NoMemory> {
    if x.is_unknown() || y.is_unknown() {
        return c.unknown(place);
    }
    let x = single_value(c, x)?;
    let y = single_value(c, y)?;
    if x.is_unknown() || y.is_unknown() {
        return c.unknown(place);
    }
    if is_shift(op) {
        return shift(c, place, op, x, y);
    }
    let beside_nil = x.is_nil() || y.is_nil();
    let (x, y) = match_types(c, x, y)?;
    if x.is_unknown() || y.is_unknown() {
        return c.unknown(place);
    }
    if is_comparison(op) {
        return comparison(c, place, op, x, y, beside_nil);
    }
    arithmetic(c, place, op, x, y)
}

fn arithmetic(
    c: &mut Checker,
    place: Place,
    op: Op,
    x: Operand,
    y: Operand,
) -> Result<Operand, NoMemory> {
    if x.ty.0 != y.ty.0 || !is_defined(c, op, x.ty) {
        return c.fail(FaultCode::OperandMismatch, place);
    }
    if is_zero_divisor(c, op, x, y) {
        return c.fail(FaultCode::DivisionByZero, y.place);
    }
    if let (Some(a), Some(b)) = (x.constant(), y.constant()) {
        return fold_constants(c, place, op, x.ty, a, b);
    }
    let ty = x.ty;
    let left = x.node;
    let right = y.node;
    let node = match op {
        Op::AndThen => Node::AndThen { ty, left, right },
        Op::OrElse => Node::OrElse { ty, left, right },
        Op::Add if c.is_string(ty) => Node::Concat { ty, left, right },
        _ => Node::Binary {
            op,
            ty,
            left,
            right,
        },
    };
    c.value(place, ty, node)
}

// F30: a constant zero divisor of an integer.
fn is_zero_divisor(c: &Checker, op: Op, x: Operand, y: Operand) -> bool {
    match op {
        Op::Div | Op::Rem => match y.constant() {
            Some(id) => c.is_integer(x.ty) && c.number_of(id) == Some(0),
            None => false,
        },
        _ => false,
    }
}

fn fold_constants(
    c: &mut Checker,
    place: Place,
    op: Op,
    t: TypeId,
    a: ConstId,
    b: ConstId,
) -> Result<Operand, NoMemory> {
    let kind = kind_in(c, t);
    let value = match (c.constant(a), c.constant(b)) {
        (Some(a), Some(b)) => fold(c.alloc, op, a, b, kind),
        _ => Err(ConstRefusal::Code(32)),
    };
    folded(c, place, t, value)
}
