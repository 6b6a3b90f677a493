//! Index and slice expressions, assertions and receives. Go, "Index expressions", "Slice expressions",
//! "Type assertions", "Receive operator".

use gj_base::{NoMemory, Place};
use go_check_operand::assignment::{assignment, default_value, single_value};
use go_check_operand::index::index;
use go_check_state::node::{Node, NodeId, PlaceId, PlaceNode};
use go_check_state::{Checker, EMPTY, FaultCode, Mode, Operand, Shape};
use go_type::predeclared::{STR, int_id};
use go_type::types::{Dir, IntName, TypeId};

/// `x[i]`: F73 of `nil`, F64 of a type without it.
pub fn index_row(
    c: &mut Checker,
    place: Place,
    x: Operand,
    i: Operand,
) -> Result<Operand, NoMemory> {
    if x.is_unknown() || i.is_unknown() {
        return c.unknown(place);
    }
    let x = single_value(c, x)?;
    let i = single_value(c, i)?;
    if x.is_unknown() || i.is_unknown() {
        return c.unknown(place);
    }
    if x.is_nil() {
        return c.fail(FaultCode::UntypedNil, x.place);
    }
    if c.is_string(x.ty) {
        return byte_at(c, place, x, i);
    }
    match c.shape(x.ty) {
        Shape::Array(n, of) => element(c, place, x, i, n, of),
        Shape::Pointer(target) => match c.shape(target) {
            Shape::Array(n, of) => pointed_element(c, place, x, i, target, n, of),
            _ => not_indexed(c, place, i),
        },
        Shape::Slice(of) => slice_element(c, place, x, i, of),
        Shape::Map(key, of) => entry(c, place, x, i, key, of),
        _ => not_indexed(c, place, i),
    }
}

// What has no index: F73 at one that is `nil`.
fn not_indexed(c: &mut Checker, place: Place, i: Operand) -> Result<Operand, NoMemory> {
    if i.is_nil() {
        return c.fail(FaultCode::UntypedNil, i.place);
    }
    c.fail(FaultCode::NotIndexable, place)
}

fn byte_at(c: &mut Checker, place: Place, x: Operand, i: Operand) -> Result<Operand, NoMemory> {
    let limit = match x.constant() {
        Some(id) => c.text_of(id).map(|text| text.as_bytes().len() as i128),
        None => None,
    };
    let i = index(c, i, limit, FaultCode::BadIndex)?;
    let x = default_value(c, x)?;
    if x.is_unknown() || i.is_unknown() {
        return c.unknown(place);
    }
    let node = Node::ByteAt {
        text: x.node,
        index: i.node,
    };
    c.value(place, int_id(IntName::Uint8), node)
}

// The storage of an operand, which a fresh variable holds where no place does.
fn stored(
    c: &mut Checker,
    x: Operand,
) -> Result<(PlaceId, Option<go_check_state::node::VarRef>), NoMemory> {
    match x.mode {
        Mode::Variable(at) => Ok((at, None)),
        _ => {
            let var = c.fresh(EMPTY, x.place, x.ty)?;
            let at = c.nodes.place(PlaceNode::Local(var))?;
            Ok((at, Some(var)))
        }
    }
}

fn element(
    c: &mut Checker,
    place: Place,
    x: Operand,
    i: Operand,
    n: u32,
    of: TypeId,
) -> Result<Operand, NoMemory> {
    let i = index(c, i, Some(n as i128), FaultCode::BadIndex)?;
    if i.is_unknown() {
        return c.unknown(place);
    }
    let (array, held) = stored(c, x)?;
    let at = c.nodes.place(PlaceNode::Elem {
        array_type: x.ty,
        place: array,
        index: i.node,
    })?;
    let read = Node::Read { ty: of, place: at };
    match held {
        None => c.operand(Mode::Variable(at), place, of, read),
        Some(var) => {
            let body = c.nodes.expr(place, read)?;
            let node = c.nodes.let_one(place, var, x.node, body)?;
            c.typed(place, of, node)
        }
    }
}

fn pointed_element(
    c: &mut Checker,
    place: Place,
    x: Operand,
    i: Operand,
    target: TypeId,
    n: u32,
    of: TypeId,
) -> Result<Operand, NoMemory> {
    let i = index(c, i, Some(n as i128), FaultCode::BadIndex)?;
    if i.is_unknown() {
        return c.unknown(place);
    }
    let array = c.nodes.place(PlaceNode::Deref(x.node))?;
    let elem = PlaceNode::Elem {
        array_type: target,
        place: array,
        index: i.node,
    };
    c.variable(place, of, elem)
}

fn slice_element(
    c: &mut Checker,
    place: Place,
    x: Operand,
    i: Operand,
    of: TypeId,
) -> Result<Operand, NoMemory> {
    let i = index(c, i, None, FaultCode::BadIndex)?;
    if i.is_unknown() {
        return c.unknown(place);
    }
    let elem = PlaceNode::SliceElem {
        slice_type: x.ty,
        operand: x.node,
        index: i.node,
    };
    c.variable(place, of, elem)
}

fn entry(
    c: &mut Checker,
    place: Place,
    x: Operand,
    i: Operand,
    key: TypeId,
    of: TypeId,
) -> Result<Operand, NoMemory> {
    let i = assignment(c, i, key)?;
    if i.is_unknown() {
        return c.unknown(place);
    }
    let node = Node::MapGet {
        map_type: x.ty,
        with_ok: false,
        operand: x.node,
        key: i.node,
    };
    c.operand(Mode::MapEntry(x.node, i.node), place, of, node)
}

/// What a slice expression is of: what it gives, and the greatest constant bound and one.
fn sliced(c: &mut Checker, x: Operand) -> Result<Option<(TypeId, Option<i128>, bool)>, NoMemory> {
    if c.is_string(x.ty) {
        let limit = match x.constant() {
            Some(id) => c.text_of(id).map(|text| text.as_bytes().len() as i128 + 1),
            None => None,
        };
        let t = if c.is_untyped(x.ty) { STR } else { x.ty };
        return Ok(Some((t, limit, true)));
    }
    match c.shape(x.ty) {
        Shape::Slice(_) => Ok(Some((x.ty, None, false))),
        Shape::Array(n, of) => Ok(Some((c.slice_of(of)?, Some(n as i128 + 1), false))),
        Shape::Pointer(target) => match c.shape(target) {
            Shape::Array(n, of) => Ok(Some((c.slice_of(of)?, Some(n as i128 + 1), false))),
            _ => Ok(None),
        },
        _ => Ok(None),
    }
}

// A bound that may be missing; the least that its constant may be comes and goes.
fn bound(
    c: &mut Checker,
    x: Option<Operand>,
    limit: Option<i128>,
    least: &mut Option<i128>,
) -> Result<Option<Operand>, NoMemory> {
    let Some(x) = x else { return Ok(None) };
    let i = index(c, x, limit, FaultCode::BadIndex)?;
    if let Some(id) = i.constant() {
        if let Some(n) = c.number_of(id) {
            if let Some(m) = *least {
                if n < m {
                    return Ok(Some(c.fail(FaultCode::BadIndex, x.place)?));
                }
            }
            *least = Some(n);
        }
    }
    Ok(Some(i))
}

fn is_unknown(x: Option<Operand>) -> bool {
    match x {
        Some(x) => x.is_unknown(),
        None => false,
    }
}

// Whether a bound isn't typed.
fn are_unknown(low: Option<Operand>, high: Option<Operand>, max: Option<Operand>) -> bool {
    is_unknown(low) || is_unknown(high) || is_unknown(max)
}

fn node_of(x: Option<Operand>) -> Option<NodeId> {
    match x {
        Some(x) => Some(x.node),
        None => None,
    }
}

// A bound as a value.
fn bound_value(c: &mut Checker, x: Option<Operand>) -> Result<Option<Operand>, NoMemory> {
    match x {
        Some(x) => Ok(Some(single_value(c, x)?)),
        None => Ok(None),
    }
}

// Whether a bound is `nil`: F73.
fn is_nil_bound(c: &mut Checker, x: Option<Operand>) -> Result<bool, NoMemory> {
    match x {
        Some(x) if x.is_nil() => {
            c.fault(FaultCode::UntypedNil, x.place)?;
            Ok(true)
        }
        _ => Ok(false),
    }
}

/// `x[low:high:max]`: F73 of `nil`, F64 of a type without it, F67 of an array that isn't addressable.
pub fn slice_row(
    c: &mut Checker,
    place: Place,
    x: Operand,
    low: Option<Operand>,
    high: Option<Operand>,
    max: Option<Operand>,
) -> Result<Operand, NoMemory> {
    if x.is_unknown() || are_unknown(low, high, max) {
        return c.unknown(place);
    }
    let x = single_value(c, x)?;
    let low = bound_value(c, low)?;
    let high = bound_value(c, high)?;
    let max = bound_value(c, max)?;
    if x.is_unknown() || are_unknown(low, high, max) {
        return c.unknown(place);
    }
    if is_nil_bound(c, Some(x))?
        || is_nil_bound(c, low)?
        || is_nil_bound(c, high)?
        || is_nil_bound(c, max)?
    {
        return c.unknown(place);
    }
    let Some((t, limit, is_text)) = sliced(c, x)? else {
        return c.fail(FaultCode::NotIndexable, place);
    };
    if is_text && max.is_some() {
        return c.fail(FaultCode::NotIndexable, place);
    }
    let mut least = None;
    let low = bound(c, low, limit, &mut least)?;
    let high = bound(c, high, limit, &mut least)?;
    let max = bound(c, max, limit, &mut least)?;
    if are_unknown(low, high, max) {
        return c.unknown(place);
    }
    let Some((from, operand)) = slice_operand(c, x)? else {
        return c.fail(FaultCode::NotAddressable, x.place);
    };
    c.value(
        place,
        t,
        Node::SliceOf {
            from,
            ty: t,
            operand,
            low: node_of(low),
            high: node_of(high),
            limit: node_of(max),
        },
    )
}

// What is sliced: an array by its pointer.
fn slice_operand(c: &mut Checker, x: Operand) -> Result<Option<(TypeId, NodeId)>, NoMemory> {
    if let Shape::Array(_, _) = c.shape(x.ty) {
        let Mode::Variable(at) = x.mode else {
            return Ok(None);
        };
        let ty = c.pointer_to(x.ty)?;
        let node = c.nodes.expr(x.place, Node::Address { ty, place: at })?;
        return Ok(Some((ty, node)));
    }
    let x = default_value(c, x)?;
    Ok(Some((x.ty, x.node)))
}

/// `x.(T)`: F68 on no interface, or to a type without its methods.
pub fn assertion(
    c: &mut Checker,
    place: Place,
    x: Operand,
    t: TypeId,
) -> Result<Operand, NoMemory> {
    if x.is_unknown() || !c.has(t) {
        return c.unknown(place);
    }
    let x = single_value(c, x)?;
    if x.is_unknown() {
        return c.unknown(place);
    }
    if !c.is_interface(x.ty) {
        return c.fail(FaultCode::ImpossibleAssertion, x.place);
    }
    if !c.is_interface(t) && !c.assignable(t, x.ty) {
        return c.fail(FaultCode::ImpossibleAssertion, x.place);
    }
    let node = Node::Assert {
        ty: t,
        with_ok: false,
        operand: x.node,
    };
    c.operand(Mode::CommaOk, place, t, node)
}

/// `<-x`: F54 of no channel, F97 against the direction.
pub fn receive(c: &mut Checker, place: Place, x: Operand) -> Result<Operand, NoMemory> {
    c.has_call = true;
    let x = single_value(c, x)?;
    if x.is_unknown() {
        return c.unknown(place);
    }
    match c.shape(x.ty) {
        Shape::Chan(Dir::Send, _) => c.fail(FaultCode::BadCommunication, place),
        Shape::Chan(_, of) => {
            let node = Node::Receive {
                channel: x.ty,
                with_ok: false,
                operand: x.node,
            };
            c.operand(Mode::CommaOk, place, of, node)
        }
        Shape::Unknown => c.unknown(place),
        _ => c.fail(FaultCode::BadOperator, place),
    }
}

/// The same operand with its second result.
pub fn with_ok(c: &mut Checker, x: Operand) -> Result<Option<NodeId>, NoMemory> {
    let node = match c.nodes.get(x.node) {
        Node::MapGet {
            map_type,
            operand,
            key,
            ..
        } => Node::MapGet {
            map_type,
            with_ok: true,
            operand,
            key,
        },
        Node::Assert { ty, operand, .. } => Node::Assert {
            ty,
            with_ok: true,
            operand,
        },
        Node::Receive {
            channel,
            operand,
            ..
        } => Node::Receive {
            channel,
            with_ok: true,
            operand,
        },
        _ => return Ok(None),
    };
    Ok(Some(c.nodes.expr(x.place, node)?))
}
