//! Shifts. Go, "Operators", "Arithmetic operators".

ghost use Rattle.std.specs.Prelude.{◌≡◌, IsTrue};
ghost use Rattle.go_const.specs.Operation.{is_shift, IsWhole};

use crate::unary::{folded, kind_in};
use crate::untyped::{Represented, convert_untyped, represent};
use gj_base::{NoMemory, Op, Place};
use go_check_state::node::{ConstId, Node};
use go_check_state::{Checker, FaultCode, Operand};
use go_const::{Const, ConstRefusal};
use go_type::predeclared::int_id;
use go_type::types::IntName;

/// Whether the operator is a shift.
pub fn is_shift(op: Op) -> bool
    ensures { result ≡ is_shift op }
{
    match op {
        Op::Shl | Op::Shr => true,
        _ => false,
    }
}

// The count: an untyped constant one takes `uint` (own). F33 where it is negative and the other operand can
// be shifted.
fn count(c: &mut Checker, place: Place, y: Operand, shifts: bool) -> Result<Operand, NoMemory> {
    if let Some(id) = y.constant() {
        match c.number_of(id) {
            None => return c.fail(FaultCode::BadShift, place),
            Some(n) if n < 0 && shifts => return c.fail(FaultCode::NegativeShift, y.place),
            Some(n) if n < 0 => return c.fail(FaultCode::BadShift, place),
            Some(_) => {}
        }
    }
    if y.is_nil() || !c.is_integer(y.ty) {
        return c.fail(FaultCode::BadShift, place);
    }
    if c.is_untyped(y.ty) {
        return convert_untyped(c, y, int_id(IntName::Uint), FaultCode::BadShift);
    }
    Ok(y)
}

/// `x << y` or `x >> y`: F73 at a `nil`, F57 where one is no integer.
pub fn shift(
    c: &mut Checker,
    place: Place,
    op: Op,
    x: Operand,
    y: Operand,
) -> Result<Operand, NoMemory> {
    if x.is_nil() || y.is_nil() {
        let nil = if x.is_nil() { x } else { y };
        return c.fail(FaultCode::UntypedNil, nil.place);
    }
    let shifts = c.is_integer(x.ty);
    let by = match y.constant() {
        // A constant shift keeps the exact count.
        Some(id) if x.constant().is_some() && c.is_untyped(y.ty) && is_count(c, id) => y,
        _ => count(c, place, y, shifts)?,
    };
    if by.is_unknown() {
        return c.unknown(place);
    }
    if !shifts {
        return c.fail(FaultCode::BadShift, place);
    }
    if let (Some(a), Some(b)) = (x.constant(), by.constant()) {
        return shift_constants(c, place, op, x, a, b);
    }
    let ty = x.ty;
    let left = x.node;
    let right = by.node;
    c.value(
        place,
        ty,
        Node::Binary {
            op,
            ty,
            left,
            right,
        },
    )
}

fn is_count(c: &mut Checker, id: ConstId) -> bool {
    match represent(c, id, int_id(IntName::Uint)) {
        Ok(Represented::Value(_)) => true,
        _ => false,
    }
}

fn shift_constants(
    c: &mut Checker,
    place: Place,
    op: Op,
    x: Operand,
    a: ConstId,
    b: ConstId,
) -> Result<Operand, NoMemory> {
    let kind = kind_in(c, x.ty);
    let value = match (c.constant(a), c.constant(b)) {
        (Some(a), Some(b)) => fold(op, a, b, kind),
        _ => Err(ConstRefusal::Code(32)),
    };
    folded(c, place, x.ty, value)
}

fn is_whole(x: &Const) -> bool
    ensures { IsTrue result → IsWhole x.now }
{
    match x {
        Const::Int(_) | Const::Rune(_) => true,
        _ => false,
    }
}

fn fold(op: Op, x: &Const, y: &Const, kind: Option<gj_base::Kind>) -> Result<Const, ConstRefusal> {
    if is_shift(op) && is_whole(x) && is_whole(y) {
        return go_const::shift(op, x, y, kind);
    }
    Err(ConstRefusal::Code(32))
}
