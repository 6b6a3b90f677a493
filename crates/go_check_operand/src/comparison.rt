//! Comparisons. Go, "Comparison operators".

use crate::assignment::value_of;
use crate::binary::fold;
use crate::unary::folded;
use crate::untyped::{convert_untyped, default_type};
use gj_base::{NoMemory, Op, Place};
use go_check_state::node::{ConstId, Node};
use go_check_state::{Checker, FaultCode, Operand, Shape};
use go_const::ConstRefusal;
use go_type::predeclared::untyped_id;
use go_type::types::{Basis, TypeId};

/// Whether the operator is a comparison.
pub fn is_comparison(op: Op) -> bool {
    match op {
        Op::Eq | Op::Ne | Op::Lt | Op::Le | Op::Gt | Op::Ge => true,
        _ => false,
    }
}

fn is_equality(op: Op) -> bool {
    match op {
        Op::Eq | Op::Ne => true,
        _ => false,
    }
}

// Whether values of the type can stand beside `nil` alone.
fn only_beside_nil(c: &Checker, t: TypeId) -> bool {
    match c.shape(t) {
        Shape::Slice(_) | Shape::Map(_, _) | Shape::Func(_, _, _) => true,
        _ => false,
    }
}

// Whether the two can be compared by the operator.
fn can_compare(c: &Checker, op: Op, x: Operand, y: Operand, beside_nil: bool) -> bool {
    if !is_equality(op) {
        return c.is_integer(x.ty) && c.is_integer(y.ty) || c.is_string(x.ty) && c.is_string(y.ty);
    }
    if c.is_untyped(x.ty) && c.is_untyped(y.ty) {
        return true;
    }
    if beside_nil {
        return only_beside_nil(c, x.ty) || c.comparable(x.ty) && c.comparable(y.ty);
    }
    c.comparable(x.ty) && c.comparable(y.ty)
}

// Both with the type that they are compared at.
fn joined(c: &mut Checker, x: Operand, y: Operand) -> Result<(Operand, Operand), NoMemory> {
    if c.is_untyped(x.ty) {
        let t = default_type(c, x.ty);
        let x = convert_untyped(c, x, t, FaultCode::OperandMismatch)?;
        let y = convert_untyped(c, y, t, FaultCode::OperandMismatch)?;
        return Ok((x, y));
    }
    if c.assignable(y.ty, x.ty) {
        let y = value_of(c, y, x.ty)?;
        return Ok((x, y));
    }
    let x = value_of(c, x, y.ty)?;
    Ok((x, y))
}

/// `x == y` and the like: F55 where neither side is assignable to the other, F56 where the types lack it.
pub fn comparison(
    c: &mut Checker,
    place: Place,
    op: Op,
    x: Operand,
    y: Operand,
    beside_nil: bool,
) -> Result<Operand, NoMemory> {
    if !c.is_untyped(x.ty) && !c.assignable(x.ty, y.ty) && !c.assignable(y.ty, x.ty) {
        return c.fail(FaultCode::OperandMismatch, place);
    }
    if !can_compare(c, op, x, y, beside_nil) {
        return c.fail(FaultCode::NotComparable, place);
    }
    if let (Some(a), Some(b)) = (x.constant(), y.constant()) {
        return compare_constants(c, place, op, a, b);
    }
    let (x, y) = joined(c, x, y)?;
    if x.is_unknown() || y.is_unknown() {
        return c.unknown(place);
    }
    let ty = untyped_id(Basis::Bool);
    let node = if is_equality(op) {
        Node::Equal {
            negated: op == Op::Ne,
            operands: x.ty,
            ty,
            left: x.node,
            right: y.node,
        }
    } else {
        Node::Less {
            op,
            operands: x.ty,
            ty,
            left: x.node,
            right: y.node,
        }
    };
    c.value(place, ty, node)
}

fn compare_constants(
    c: &mut Checker,
    place: Place,
    op: Op,
    a: ConstId,
    b: ConstId,
) -> Result<Operand, NoMemory> {
    let value = match (c.constant(a), c.constant(b)) {
        (Some(a), Some(b)) => fold(c.alloc, op, a, b, None),
        _ => Err(ConstRefusal::Code(32)),
    };
    folded(c, place, untyped_id(Basis::Bool), value)
}
