//! Constant declarations. Go, "Constant declarations", "Iota".

use gj_base::NoMemory;
use go_check_expr::expr::expr;
use go_check_expr::type_expr;
use go_check_operand::assignment::single_value;
use go_check_operand::untyped::convert_untyped;
use go_check_state::node::ConstId;
use go_check_state::{Checker, FaultCode, Operand, Shape};
use go_const::Const;
use go_syntax::tree::{Expr, ValueSpec};
use go_type::types::TypeId;

/// Whether the type and the values of a declaration are typed, where `iota` has a number if it is one of constants.
pub fn is_spec_typed(
    c: &mut Checker,
    spec: &ValueSpec,
    iota: Option<usize>,
) -> Result<bool, NoMemory> {
    let mut typed = match &spec.ty {
        Some(e) => {
            let t = type_expr(c, e, true)?;
            c.has(t)
        }
        None => true,
    };
    for e in &spec.values {
        typed &= !value_of(c, e, iota)?.is_unknown();
    }
    Ok(typed)
}

// A value where `iota` has a number, or none.
fn value_of(c: &mut Checker, e: &Expr, iota: Option<usize>) -> Result<Operand, NoMemory> {
    let outer = c.iota;
    c.iota = match iota {
        Some(number) => Some(c.add_const(Const::Int(number as i128))?),
        None => None,
    };
    let x = expr(c, e)?;
    c.iota = outer;
    Ok(x)
}

/// The value and the type of a constant: F61 where the value is no constant, or the type has none.
pub fn constant_value(
    c: &mut Checker,
    ty: Option<&Expr>,
    value: &Expr,
    iota: usize,
) -> Result<Option<(ConstId, TypeId)>, NoMemory> {
    let t = match ty {
        Some(e) => Some(type_expr(c, e, true)?),
        None => None,
    };
    let x = value_of(c, value, Some(iota))?;
    let x = match t {
        None => single_value(c, x)?,
        Some(t) => typed(c, x, t)?,
    };
    match x.constant() {
        Some(id) => Ok(Some((id, x.ty))),
        None => {
            if !x.is_unknown() {
                c.fault(FaultCode::NotAssignable, x.place)?;
            }
            Ok(None)
        }
    }
}

// The value as a constant of the declaration's type.
fn typed(c: &mut Checker, x: Operand, t: TypeId) -> Result<Operand, NoMemory> {
    if !c.has(t) {
        return c.unknown(x.place);
    }
    match c.shape(t) {
        Shape::Bool | Shape::Int(_) | Shape::Str => {}
        _ => return c.fail(FaultCode::NotAssignable, x.place),
    }
    let x = single_value(c, x)?;
    if x.is_unknown() {
        return Ok(x);
    }
    let y = if c.is_untyped(x.ty) {
        convert_untyped(c, x, t, FaultCode::NotAssignable)?
    } else {
        x
    };
    if !y.is_unknown() && !c.assignable(y.ty, t) {
        return c.fail(FaultCode::NotAssignable, x.place);
    }
    Ok(y)
}
