//! Values where a type is wanted, and where none is. Go, "Assignability".

use crate::untyped::{convert_untyped, default_type, is_untyped};
use gj_base::NoMemory;
use go_check_state::node::Node;
use go_check_state::{Checker, FaultCode, Mode, Operand, Shape};
use go_type::types::TypeId;

/// An operand that is to be one value: F52 at a type, a package, a built-in, or a call without one result,
/// F71 at a gate.
pub fn single_value(c: &mut Checker, x: Operand) -> Result<Operand, NoMemory> {
    match x.mode {
        Mode::NoValue | Mode::Builtin(_) | Mode::TypeName | Mode::Package(_) => {
            c.fail(FaultCode::NotAValue, x.place)
        }
        Mode::Gate(_) | Mode::GatePointer | Mode::GateCell => {
            c.fail(FaultCode::NotInProfile, x.place)
        }
        Mode::Value if is_tuple(c, x) => c.fail(FaultCode::NotAValue, x.place),
        _ => Ok(x),
    }
}

/// Whether an operand is the several results of a call.
pub fn is_tuple(c: &Checker, x: Operand) -> bool {
    match c.level(x.ty) {
        Shape::Tuple(_) => true,
        _ => false,
    }
}

/// A value where no type is wanted: an untyped one takes its default type. Go, "Constants".
pub fn default_value(c: &mut Checker, x: Operand) -> Result<Operand, NoMemory> {
    let x = single_value(c, x)?;
    if x.is_nil() {
        return c.fail(FaultCode::UntypedNil, x.place);
    }
    if x.is_unknown() || !is_untyped(c, x) {
        return Ok(x);
    }
    let t = default_type(c, x.ty);
    convert_untyped(c, x, t, FaultCode::NotAssignable)
}

/// A value where a type is wanted: F61 where it isn't assignable. Where the type isn't known, nothing is told.
/// Go, "Assignability".
pub fn assignment(c: &mut Checker, x: Operand, t: TypeId) -> Result<Operand, NoMemory> {
    if !c.has(t) || !c.need(t)? {
        return c.unknown(x.place);
    }
    let x = single_value(c, x)?;
    if x.is_unknown() {
        return Ok(x);
    }
    let x = if is_untyped(c, x) {
        convert_untyped(c, x, t, FaultCode::NotAssignable)?
    } else {
        x
    };
    if x.is_unknown() {
        return Ok(x);
    }
    if !c.assignable(x.ty, t) {
        if c.is_interface(t) && c.has_untyped_method(x.ty, None) {
            return c.unknown(x.place);
        }
        return c.fail(FaultCode::NotAssignable, x.place);
    }
    value_of(c, x, t)
}

/// The value as one of a type that it is assignable to.
pub fn value_of(c: &mut Checker, x: Operand, t: TypeId) -> Result<Operand, NoMemory> {
    let from = x.ty;
    if from.0 == t.0 {
        return Ok(Operand {
            mode: Mode::Value,
            ..x
        });
    }
    let operand = x.node;
    if c.is_interface(t) && !c.is_interface(from) {
        let node = Node::Wrap {
            from,
            ty: t,
            operand,
        };
        return c.value(x.place, t, node);
    }
    let node = Node::Convert {
        from,
        ty: t,
        operand,
    };
    c.value(x.place, t, node)
}
