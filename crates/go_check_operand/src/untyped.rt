//! Untyped operands that take a type. Go, "Constants", "Representability".

use gj_base::{NoMemory, Op};
use go_check_state::constants::kind_of;
use go_check_state::node::{ConstId, Node, NodeId};
use go_check_state::{Checker, FaultCode, Mode, NONE, Operand, Shape};
use go_const::{Const, fits};
use go_type::predeclared::{BOOL, STR, int_id, untyped_id};
use go_type::types::{Basis, IntName, TypeId};

/// What a constant is in a type.
#[derive(Clone, Copy, Debug)]
pub enum Represented {
    Value(ConstId),
    /// The type is one of numbers, but not of this one.
    TooLarge,
    /// The type is of another kind.
    OtherKind,
}

/// The default type of an untyped one, and any other type itself. Go, "Constants".
pub fn default_type(c: &Checker, t: TypeId) -> TypeId {
    match c.level(t) {
        Shape::Untyped(Basis::Bool) => BOOL,
        Shape::Untyped(Basis::Int) => int_id(IntName::Int),
        Shape::Untyped(Basis::Rune) => int_id(IntName::Int32),
        Shape::Untyped(Basis::Str) => STR,
        _ => t,
    }
}

/// The constant in the type. Go, "Representability".
pub fn represent(c: &mut Checker, id: ConstId, t: TypeId) -> Result<Represented, NoMemory> {
    let value = match c.constant(id) {
        Some(value) => value,
        None => return Ok(Represented::OtherKind),
    };
    match (value, c.shape(t)) {
        (Const::Bool(_), Shape::Bool) => Ok(Represented::Value(id)),
        (Const::Text(_), Shape::Str) => Ok(Represented::Value(id)),
        (Const::Int(x), Shape::Int(name)) | (Const::Rune(x), Shape::Int(name)) => {
            if !fits(value, kind_of(name)) {
                return Ok(Represented::TooLarge);
            }
            let x = *x;
            Ok(Represented::Value(c.add_const(Const::Int(x))?))
        }
        _ => Ok(Represented::OtherKind),
    }
}

/// Whether an operand is untyped.
pub fn is_untyped(c: &Checker, x: Operand) -> bool {
    x.is_nil() || c.is_untyped(x.ty)
}

/// Gives an untyped value's node, and those that it takes its type from, a type. Go, "Operators": "If
/// the left operand of a non-constant shift expression is an untyped constant ..".
pub fn settle(c: &mut Checker, id: NodeId, t: TypeId) -> Result<(), NoMemory> {
    let mut rest: Vec<NodeId> = Vec::new(c.alloc);
    rest.push(id)?;
    for _ in 0..u64::MAX {
        let Some(next) = rest.pop() else {
            return Ok(());
        };
        settle_one(c, next, t, &mut rest)?;
    }
    Ok(())
}

// One node; the parts that take the type too go to the rest.
fn settle_one(
    c: &mut Checker,
    id: NodeId,
    t: TypeId,
    rest: &mut Vec<NodeId>,
) -> Result<(), NoMemory> {
    let node = c.nodes.get(id);
    match node {
        Node::Const { ty, value } if c.is_untyped(ty) => return settle_const(c, id, value, t),
        Node::Unary { op, ty, operand } if c.is_untyped(ty) => {
            c.nodes.set(id, Node::Unary { op, ty: t, operand });
        }
        Node::Not { ty, operand } if c.is_untyped(ty) => {
            c.nodes.set(id, Node::Not { ty: t, operand });
        }
        Node::Binary {
            op,
            ty,
            left,
            right,
        } if c.is_untyped(ty) => {
            let node = Node::Binary {
                op,
                ty: t,
                left,
                right,
            };
            c.nodes.set(id, node);
        }
        Node::AndThen { ty, left, right } if c.is_untyped(ty) => {
            c.nodes.set(id, Node::AndThen { ty: t, left, right });
        }
        Node::OrElse { ty, left, right } if c.is_untyped(ty) => {
            c.nodes.set(id, Node::OrElse { ty: t, left, right });
        }
        _ => return settle_comparison(c, id, node, t),
    }
    untyped_parts(node, rest)
}

// A constant in the type: F32 where that doesn't hold it.
fn settle_const(c: &mut Checker, id: NodeId, value: ConstId, t: TypeId) -> Result<(), NoMemory> {
    let at = c.nodes.place_of(id);
    match represent(c, value, t)? {
        Represented::Value(value) => {
            c.nodes.set(id, Node::Const { ty: t, value });
            Ok(())
        }
        Represented::TooLarge => c.fault(FaultCode::ConstantDoesNotFit, at),
        Represented::OtherKind => c.fault(FaultCode::NotAssignable, at),
    }
}

fn settle_comparison(c: &mut Checker, id: NodeId, node: Node, t: TypeId) -> Result<(), NoMemory> {
    match node {
        Node::Equal {
            negated,
            operands,
            ty,
            left,
            right,
        } if c.is_untyped(ty) => {
            let node = Node::Equal {
                negated,
                operands,
                ty: t,
                left,
                right,
            };
            c.nodes.set(id, node);
        }
        Node::Less {
            op,
            operands,
            ty,
            left,
            right,
        } if c.is_untyped(ty) => {
            let node = Node::Less {
                op,
                operands,
                ty: t,
                left,
                right,
            };
            c.nodes.set(id, node);
        }
        _ => {}
    }
    Ok(())
}

// The parts of a node that have its type: of a shift the left one alone.
fn untyped_parts(node: Node, rest: &mut Vec<NodeId>) -> Result<(), NoMemory> {
    match node {
        Node::Unary { operand, .. } | Node::Not { operand, .. } => rest.push(operand)?,
        Node::Binary {
            op,
            left,
            right,
            ..
        } => {
            rest.push(left)?;
            match op {
                Op::Shl | Op::Shr => {}
                _ => rest.push(right)?,
            }
        }
        Node::AndThen { left, right, .. } | Node::OrElse { left, right, .. } => {
            rest.push(left)?;
            rest.push(right)?;
        }
        _ => {}
    }
    Ok(())
}

/// F57 at each shift that would take a type that is no integer type.
pub fn refuse_shifts(c: &mut Checker, id: NodeId) -> Result<(), NoMemory> {
    let mut rest: Vec<NodeId> = Vec::new(c.alloc);
    rest.push(id)?;
    for _ in 0..u64::MAX {
        let Some(next) = rest.pop() else {
            return Ok(());
        };
        refuse_one(c, next, &mut rest)?;
    }
    Ok(())
}

fn refuse_one(c: &mut Checker, id: NodeId, rest: &mut Vec<NodeId>) -> Result<(), NoMemory> {
    let node = c.nodes.get(id);
    match node {
        Node::Binary { op, ty, .. } if c.is_untyped(ty) => {
            match op {
                Op::Shl | Op::Shr => {
                    let at = c.nodes.place_of(id);
                    c.fault(FaultCode::BadShift, at)?;
                }
                _ => {}
            }
            untyped_parts(node, rest)
        }
        Node::Unary { ty, .. } if c.is_untyped(ty) => untyped_parts(node, rest),
        _ => Ok(()),
    }
}

// Whether `nil` is a value of the type.
fn has_nil(c: &Checker, t: TypeId) -> bool {
    match c.shape(t) {
        Shape::Pointer(_)
        | Shape::Slice(_)
        | Shape::Func(_, _, _)
        | Shape::Map(_, _)
        | Shape::Chan(_, _)
        | Shape::Interface(_) => true,
        _ => false,
    }
}

/// An untyped operand as one of the type; the code is told where the type is of another kind.
pub fn convert_untyped(
    c: &mut Checker,
    x: Operand,
    t: TypeId,
    code: FaultCode,
) -> Result<Operand, NoMemory> {
    if x.is_unknown() || !c.has(t) {
        return c.unknown(x.place);
    }
    if x.is_nil() {
        if has_nil(c, t) {
            return c.value(x.place, t, Node::Zero { ty: t });
        }
        return c.fail(code, x.place);
    }
    if !c.is_untyped(x.ty) {
        return Ok(x);
    }
    if c.is_interface(t) {
        let t = default_type(c, x.ty);
        return convert_basic(c, x, t, code);
    }
    convert_basic(c, x, t, code)
}

fn convert_basic(
    c: &mut Checker,
    x: Operand,
    t: TypeId,
    code: FaultCode,
) -> Result<Operand, NoMemory> {
    if let Mode::Constant(id) = x.mode {
        return match represent(c, id, t)? {
            Represented::Value(value) => c.constant_operand(x.place, t, value),
            Represented::TooLarge => c.fail(FaultCode::ConstantDoesNotFit, x.place),
            Represented::OtherKind => c.fail(code, x.place),
        };
    }
    convert_value(c, x, t, code)
}

fn convert_value(
    c: &mut Checker,
    x: Operand,
    t: TypeId,
    code: FaultCode,
) -> Result<Operand, NoMemory> {
    if c.is_boolean(x.ty) {
        if !c.is_boolean(t) {
            return c.fail(code, x.place);
        }
    } else if !c.is_integer(t) {
        refuse_shifts(c, x.node)?;
        return c.unknown(x.place);
    }
    let faults = c.faults.len();
    settle(c, x.node, t)?;
    if c.faults.len() != faults {
        return c.unknown(x.place);
    }
    Ok(Operand {
        mode: Mode::Value,
        ty: t,
        node: x.node,
        place: x.place,
    })
}

/// Both operands of an operator with one type, where one can take that of the other: F73 at a `nil` beside
/// an untyped one. Go, "Operators".
pub fn match_types(
    c: &mut Checker,
    x: Operand,
    y: Operand,
) -> Result<(Operand, Operand), NoMemory> {
    if x.is_nil() && is_untyped(c, y) {
        let x = c.fail(FaultCode::UntypedNil, x.place)?;
        return Ok((x, y));
    }
    if y.is_nil() && is_untyped(c, x) {
        let y = c.fail(FaultCode::UntypedNil, y.place)?;
        return Ok((x, y));
    }
    match (is_untyped(c, x), is_untyped(c, y)) {
        (true, true) => match_untyped(c, x, y),
        (true, false) => {
            let x = convert_operand(c, x, y.ty, x.place)?;
            Ok((x, y))
        }
        (false, true) => {
            let y = convert_operand(c, y, x.ty, x.place)?;
            Ok((x, y))
        }
        (false, false) => Ok((x, y)),
    }
}

// An untyped operand beside a typed one: F55 at the whole, which begins at a place, where it is of another
// kind.
fn convert_operand(
    c: &mut Checker,
    x: Operand,
    t: TypeId,
    at: gj_base::Place,
) -> Result<Operand, NoMemory> {
    let whole = Operand { place: at, ..x };
    match x.mode {
        Mode::Constant(id) if !c.is_interface(t) => match represent(c, id, t)? {
            Represented::OtherKind => c.fail(FaultCode::OperandMismatch, at),
            _ => convert_untyped(c, x, t, FaultCode::OperandMismatch),
        },
        Mode::Constant(_) => convert_untyped(c, x, t, FaultCode::OperandMismatch),
        _ => convert_untyped(c, whole, t, FaultCode::OperandMismatch),
    }
}

// Two untyped operands take the kind that comes later: integer, rune.
fn match_untyped(c: &mut Checker, x: Operand, y: Operand) -> Result<(Operand, Operand), NoMemory> {
    let (Shape::Untyped(a), Shape::Untyped(b)) = (c.level(x.ty), c.level(y.ty)) else {
        let x = c.fail(FaultCode::OperandMismatch, x.place)?;
        return Ok((x, y));
    };
    match (a, b) {
        (Basis::Int, Basis::Rune) => Ok((as_rune(x), y)),
        (Basis::Rune, Basis::Int) => Ok((x, as_rune(y))),
        (Basis::Int, Basis::Int)
        | (Basis::Rune, Basis::Rune)
        | (Basis::Bool, Basis::Bool)
        | (Basis::Str, Basis::Str) => Ok((x, y)),
        _ => {
            let x = c.fail(FaultCode::OperandMismatch, x.place)?;
            Ok((x, y))
        }
    }
}

fn as_rune(x: Operand) -> Operand {
    Operand {
        ty: untyped_id(Basis::Rune),
        ..x
    }
}

/// The node of an operand, where it has one.
pub fn node_of(x: Operand) -> NodeId {
    x.node
}

/// No type at all.
pub fn no_type() -> TypeId {
    NONE
}
