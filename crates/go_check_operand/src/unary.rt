//! Unary operators on values. Go, "Arithmetic operators", "Logical operators".

use crate::assignment::single_value;
use gj_base::{Kind, NoMemory, Op, Place};
use go_check_state::constants::kind_of;
use go_check_state::node::Node;
use go_check_state::{Checker, FaultCode, Operand, Shape};
use go_const::{Const, ConstRefusal};
use go_type::types::TypeId;

/// The size of a typed integer's type; none for an untyped number and all else.
pub fn kind_in(c: &Checker, t: TypeId) -> Option<Kind> {
    match c.shape(t) {
        Shape::Int(name) => Some(kind_of(name)),
        _ => None,
    }
}

/// The fault of a constant that can't be.
pub fn constant_code(code: u16) -> FaultCode {
    match code {
        30 => FaultCode::DivisionByZero,
        31 => FaultCode::ConstantTooLarge,
        33 => FaultCode::NegativeShift,
        _ => FaultCode::ConstantDoesNotFit,
    }
}

/// The operand of a folded constant.
pub fn folded(
    c: &mut Checker,
    place: Place,
    t: TypeId,
    folded: Result<Const, ConstRefusal>,
) -> Result<Operand, NoMemory> {
    match folded {
        Ok(value) => {
            let value = c.add_const(value)?;
            c.constant_operand(place, t, value)
        }
        Err(ConstRefusal::Code(code)) => c.fail(constant_code(code), place),
        Err(ConstRefusal::NoMemory) => Err(NoMemory),
    }
}

// Whether the type has the operator.
fn is_defined(c: &Checker, op: Op, t: TypeId) -> bool {
    match op {
        Op::Not => c.is_boolean(t),
        _ => c.is_integer(t),
    }
}

/// `+x`, `-x`, `^x` or `!x`: F73 of `nil`, F54 where the type lacks it.
pub fn unary(c: &mut Checker, place: Place, op: Op, x: Operand) -> Result<Operand, NoMemory> {
    let x = single_value(c, x)?;
    if x.is_unknown() {
        return c.unknown(place);
    }
    if x.is_nil() {
        return c.fail(FaultCode::UntypedNil, x.place);
    }
    if !is_defined(c, op, x.ty) {
        return c.fail(FaultCode::BadOperator, place);
    }
    if let Some(id) = x.constant() {
        let kind = kind_in(c, x.ty);
        if let Some(value) = c.constant(id) {
            let value = fold(op, value, kind);
            return folded(c, place, x.ty, value);
        }
    }
    let ty = x.ty;
    let operand = x.node;
    match op {
        Op::Not => c.value(place, ty, Node::Not { ty, operand }),
        _ => c.value(place, ty, Node::Unary { op, ty, operand }),
    }
}

// The operator on a constant that has it.
fn fold(op: Op, x: &Const, kind: Option<Kind>) -> Result<Const, ConstRefusal> {
    match (op, x) {
        (Op::Not, Const::Bool(_)) => go_const::unary(op, x, kind),
        (Op::Plus, Const::Int(_)) | (Op::Plus, Const::Rune(_)) => go_const::unary(op, x, kind),
        (Op::Neg, Const::Int(_)) | (Op::Neg, Const::Rune(_)) => go_const::unary(op, x, kind),
        (Op::Compl, Const::Int(_)) | (Op::Compl, Const::Rune(_)) => go_const::unary(op, x, kind),
        _ => Err(ConstRefusal::Code(32)),
    }
}
