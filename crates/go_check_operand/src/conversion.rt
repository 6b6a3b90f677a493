//! Conversions. Go, "Conversions".

use crate::assignment::{default_value, single_value, value_of};
use crate::unary::folded;
use crate::untyped::{Represented, convert_untyped, is_untyped, refuse_shifts, represent};
use gj_base::{NoMemory, Place};
use go_check_state::node::{ConstId, Node};
use go_check_state::{Checker, FaultCode, Operand, Shape};
use go_const::{Basic, Const, ConstRefusal};
use go_type::types::{Dir, IntName, TypeId};

/// `T(x)`: F58 where the specification lacks it.
pub fn conversion(
    c: &mut Checker,
    place: Place,
    x: Operand,
    t: TypeId,
) -> Result<Operand, NoMemory> {
    let x = single_value(c, x)?;
    if x.is_unknown() || !c.has(t) {
        return c.unknown(place);
    }
    if let Some(id) = x.constant() {
        if let Some(y) = constant_conversion(c, place, x, id, t)? {
            return Ok(y);
        }
    }
    if x.is_nil() {
        return convert_untyped(c, Operand { place, ..x }, t, FaultCode::BadConversion);
    }
    if is_untyped(c, x) {
        return convert_untyped_value(c, place, x, t);
    }
    convert_value(c, place, x, t)
}

fn at(place: Place, x: Operand) -> Result<Operand, NoMemory> {
    Ok(Operand { place, ..x })
}

// A value of a pending type takes the type, or where that is no type for it its default type.
fn convert_untyped_value(
    c: &mut Checker,
    place: Place,
    x: Operand,
    t: TypeId,
) -> Result<Operand, NoMemory> {
    if x.constant().is_none() && !c.is_interface(t) && c.is_integer(x.ty) && !c.is_integer(t) {
        refuse_shifts(c, x.node)?;
        return c.unknown(place);
    }
    if c.is_integer(x.ty) && c.is_integer(t) || c.is_boolean(x.ty) && c.is_boolean(t) {
        return at(place, convert_untyped(c, x, t, FaultCode::BadConversion)?);
    }
    let x = default_value(c, x)?;
    if x.is_unknown() {
        return c.unknown(place);
    }
    convert_value(c, place, x, t)
}

// A constant goes to a constant of a boolean, integer or string type.
fn constant_conversion(
    c: &mut Checker,
    place: Place,
    x: Operand,
    id: ConstId,
    t: TypeId,
) -> Result<Option<Operand>, NoMemory> {
    if let Shape::Str = c.shape(t) {
        if c.number_of(id).is_some() {
            let value = match c.constant(id) {
                Some(value) => to_text(c, value),
                None => Err(ConstRefusal::Code(32)),
            };
            return Ok(Some(folded(c, place, t, value)?));
        }
    }
    match represent(c, id, t)? {
        Represented::Value(value) => Ok(Some(c.constant_operand(place, t, value)?)),
        Represented::TooLarge => {
            c.fault(FaultCode::ConstantDoesNotFit, x.place)?;
            Ok(Some(c.unknown(place)?))
        }
        Represented::OtherKind if is_scalar(c, t) => {
            Ok(Some(c.fail(FaultCode::BadConversion, place)?))
        }
        Represented::OtherKind => Ok(None),
    }
}

fn is_scalar(c: &Checker, t: TypeId) -> bool {
    match c.shape(t) {
        Shape::Bool | Shape::Int(_) | Shape::Str => true,
        _ => false,
    }
}

fn to_text(c: &Checker, value: &Const) -> Result<Const, ConstRefusal> {
    match value {
        Const::Int(_) | Const::Rune(_) => go_const::convert(c.alloc, value, Basic::Str),
        _ => Err(ConstRefusal::Code(32)),
    }
}

fn convert_value(
    c: &mut Checker,
    place: Place,
    x: Operand,
    t: TypeId,
) -> Result<Operand, NoMemory> {
    if c.assignable(x.ty, t) {
        return at(place, value_of(c, x, t)?);
    }
    if is_slice_to_array(c, x.ty, t)? {
        return c.fail(FaultCode::NotInProfile, place);
    }
    if !convertible(c, x.ty, t)? {
        return c.fail(FaultCode::BadConversion, place);
    }
    let from = x.ty;
    let operand = x.node;
    c.value(
        place,
        t,
        Node::Convert {
            from,
            ty: t,
            operand,
        },
    )
}

// The conversion of a slice to an array pointer, which is left out.
fn is_slice_to_array(c: &Checker, from: TypeId, to: TypeId) -> Result<bool, NoMemory> {
    match (c.shape(from), c.shape(to)) {
        (Shape::Slice(of), Shape::Pointer(target)) => match c.shape(target) {
            Shape::Array(_, element) => same_but_tags(c, of, element),
            _ => Ok(false),
        },
        _ => Ok(false),
    }
}

fn convertible(c: &Checker, from: TypeId, to: TypeId) -> Result<bool, NoMemory> {
    if same_but_tags(c, c.underlying(from), c.underlying(to))? {
        return Ok(true);
    }
    if let (Shape::Pointer(a), Shape::Pointer(b)) = (c.level(from), c.level(to)) {
        if same_but_tags(c, c.underlying(a), c.underlying(b))? {
            return Ok(true);
        }
    }
    Ok(match (c.shape(from), c.shape(to)) {
        (Shape::Int(_), Shape::Int(_)) | (Shape::Int(_), Shape::Str) => true,
        (Shape::Str, Shape::Slice(of)) | (Shape::Slice(of), Shape::Str) => is_character(c, of),
        _ => false,
    })
}

// Whether the underlying type is that of bytes or runes.
fn is_character(c: &Checker, t: TypeId) -> bool {
    match c.shape(t) {
        Shape::Int(IntName::Uint8) | Shape::Int(IntName::Int32) => true,
        _ => false,
    }
}

/// Whether two types are identical but for the tags of fields. Go, "Conversions".
pub fn same_but_tags(c: &Checker, a: TypeId, b: TypeId) -> Result<bool, NoMemory> {
    let mut rest: Vec<(TypeId, TypeId)> = Vec::new(c.alloc);
    rest.push((a, b))?;
    for _ in 0..u64::MAX {
        let Some((a, b)) = rest.pop() else {
            return Ok(true);
        };
        if !same_level(c, a, b, &mut rest)? {
            return Ok(false);
        }
    }
    Ok(false)
}

// One level of both; the parts that have to be the same go to the rest.
fn same_level(
    c: &Checker,
    a: TypeId,
    b: TypeId,
    rest: &mut Vec<(TypeId, TypeId)>,
) -> Result<bool, NoMemory> {
    if a.0 == b.0 {
        return Ok(c.has(a));
    }
    match (c.level(a), c.level(b)) {
        (Shape::Array(n, a), Shape::Array(m, b)) => {
            rest.push((a, b))?;
            Ok(n == m)
        }
        (Shape::Slice(a), Shape::Slice(b)) | (Shape::Pointer(a), Shape::Pointer(b)) => {
            rest.push((a, b))?;
            Ok(true)
        }
        (Shape::Map(k, a), Shape::Map(l, b)) => {
            rest.push((k, l))?;
            rest.push((a, b))?;
            Ok(true)
        }
        (Shape::Chan(d, a), Shape::Chan(e, b)) => {
            rest.push((a, b))?;
            Ok(same_direction(d, e))
        }
        (Shape::Struct(n), Shape::Struct(m)) => Ok(n == m && same_fields(c, a, b, n, rest)?),
        (Shape::Func(p, r, v), Shape::Func(q, s, w)) => {
            if p != q || r != s || v != w {
                return Ok(false);
            }
            for number in 0..p {
                rest.push((c.param(a, number), c.param(b, number)))?;
            }
            for number in 0..r {
                rest.push((c.result_type(a, number), c.result_type(b, number)))?;
            }
            Ok(true)
        }
        _ => Ok(false),
    }
}

fn same_direction(a: Dir, b: Dir) -> bool {
    a as u8 == b as u8
}

fn same_fields(
    c: &Checker,
    a: TypeId,
    b: TypeId,
    count: usize,
    rest: &mut Vec<(TypeId, TypeId)>,
) -> Result<bool, NoMemory> {
    for number in 0..count {
        match (c.field(a, number), c.field(b, number)) {
            (Some(x), Some(y)) => {
                if x.name != y.name || x.package != y.package || x.embedded != y.embedded {
                    return Ok(false);
                }
                rest.push((x.ty, y.ty))?;
            }
            _ => return Ok(false),
        }
    }
    Ok(true)
}
