//! Selectors, indirections and addresses. Go, "Selectors", "Method values", "Address operators".

use crate::names::no_member;
use gj_base::{NoMemory, Place};
use go_check_operand::assignment::{default_value, single_value};
use go_check_state::node::{Node, NodeId, PlaceId, PlaceNode, VarRef};
use go_check_state::selector::Found;
use go_check_state::{Checker, EMPTY, FaultCode, Mode, NONE, NameId, Operand, Shape};
use go_type::steps::Step;
use go_type::types::TypeId;

/// Where a walk along fields is.
#[derive(Clone, Copy, Debug)]
enum At {
    Storage(PlaceId),
    Value(NodeId),
}

/// What a walk came to.
#[derive(Clone, Copy, Debug)]
struct Walked {
    at: At,
    ty: TypeId,
    /// The fresh variable that holds the operand, where no place did.
    held: Option<VarRef>,
    addressable: bool,
    /// The pointer that the last step followed.
    pointer: Option<NodeId>,
}

fn start(x: Operand) -> Walked {
    let (at, addressable) = match x.mode {
        Mode::Variable(place) => (At::Storage(place), true),
        _ => (At::Value(x.node), false),
    };
    Walked {
        at,
        ty: x.ty,
        held: None,
        addressable,
        pointer: None,
    }
}

// The value at the end of a walk.
fn read(c: &mut Checker, place: Place, w: Walked) -> Result<NodeId, NoMemory> {
    match w.at {
        At::Value(node) => Ok(node),
        At::Storage(at) => c.nodes.expr(
            place,
            Node::Read {
                ty: w.ty,
                place: at,
            },
        ),
    }
}

// The storage at the end of a walk; a value goes to a fresh variable first.
fn storage(
    c: &mut Checker,
    place: Place,
    w: Walked,
) -> Result<(PlaceId, Option<VarRef>), NoMemory> {
    match w.at {
        At::Storage(at) => Ok((at, w.held)),
        At::Value(_) => {
            let var = c.fresh(EMPTY, place, w.ty)?;
            let at = c.nodes.place(PlaceNode::Local(var))?;
            Ok((at, Some(var)))
        }
    }
}

fn step(c: &mut Checker, place: Place, w: Walked, step: Step) -> Result<Walked, NoMemory> {
    match step {
        Step::Pointer => {
            let node = read(c, place, w)?;
            let of = match c.shape(w.ty) {
                Shape::Pointer(of) => of,
                _ => NONE,
            };
            let at = c.nodes.place(PlaceNode::Deref(node))?;
            Ok(Walked {
                at: At::Storage(at),
                ty: of,
                held: w.held,
                addressable: true,
                pointer: Some(node),
            })
        }
        Step::Field(number) => {
            let (inner, held) = storage(c, place, w)?;
            let ty = c.field_type(w.ty, number as usize);
            let at = c.nodes.place(PlaceNode::Field {
                struct_type: w.ty,
                number,
                place: inner,
            })?;
            Ok(Walked {
                at: At::Storage(at),
                ty,
                held,
                addressable: w.addressable,
                pointer: None,
            })
        }
    }
}

fn walk(c: &mut Checker, x: Operand, steps: &[Step]) -> Result<Walked, NoMemory> {
    let mut w = start(x);
    for s in steps {
        w = step(c, x.place, w, *s)?;
    }
    Ok(w)
}

// A node in which the fresh variable of a walk holds the operand.
fn within(c: &mut Checker, x: Operand, w: Walked, body: NodeId) -> Result<NodeId, NoMemory> {
    match w.held {
        Some(var) => c.nodes.let_one(x.place, var, x.node, body),
        None => Ok(body),
    }
}

/// `x.f`: F62 where nothing has the name, F63 where its package doesn't export it.
pub fn selector(
    c: &mut Checker,
    place: Place,
    x: Operand,
    at: Place,
    name: NameId,
) -> Result<Operand, NoMemory> {
    if x.is_type() {
        return method_expression(c, place, x, at, name);
    }
    let x = single_value(c, x)?;
    let x = if x.constant().is_some() {
        default_value(c, x)?
    } else {
        x
    };
    if x.is_unknown() {
        return c.unknown(place);
    }
    match c.lookup_field_or_method(x.ty, name)? {
        Found::Nothing if c.has_untyped_method(x.ty, Some(name)) => c.unknown(place),
        Found::Nothing => no_member(c, place, at, name, FaultCode::NoFieldOrMethod),
        Found::Hidden => no_member(c, place, at, name, FaultCode::NotExported),
        Found::Field(steps) => field(c, place, x, steps.as_slice()),
        Found::Method(steps, t) => method(c, place, x, steps.as_slice(), t, name),
    }
}

// A method expression, which the profile leaves out.
fn method_expression(
    c: &mut Checker,
    place: Place,
    x: Operand,
    at: Place,
    name: NameId,
) -> Result<Operand, NoMemory> {
    if !c.need(x.ty)? {
        return c.unknown(place);
    }
    match c.lookup_field_or_method(x.ty, name)? {
        Found::Method(_, _) => c.fail(FaultCode::NotInProfile, place),
        Found::Hidden => no_member(c, place, at, name, FaultCode::NotExported),
        _ => no_member(c, place, at, name, FaultCode::NoFieldOrMethod),
    }
}

fn field(c: &mut Checker, place: Place, x: Operand, steps: &[Step]) -> Result<Operand, NoMemory> {
    let w = walk(c, x, steps)?;
    if !c.has(w.ty) {
        return c.unknown(place);
    }
    if let (At::Storage(at), true) = (w.at, ends_at_gate(c, x, steps)) {
        return c.plain(Mode::Gate(at), place, w.ty);
    }
    if let (At::Storage(at), true, None) = (w.at, w.addressable, w.held) {
        let node = Node::Read {
            ty: w.ty,
            place: at,
        };
        return c.operand(Mode::Variable(at), place, w.ty, node);
    }
    let body = read(c, place, w)?;
    let node = within(c, x, w, body)?;
    Ok(Operand {
        mode: Mode::Value,
        ty: w.ty,
        node,
        place,
    })
}

// Whether the last step goes to a gate field.
fn ends_at_gate(c: &Checker, x: Operand, steps: &[Step]) -> bool {
    match steps.split_last() {
        Some((Step::Field(number), before)) => c.is_gate(c.walk(x.ty, before), *number as usize),
        _ => false,
    }
}

fn method(
    c: &mut Checker,
    place: Place,
    x: Operand,
    steps: &[Step],
    t: TypeId,
    name: NameId,
) -> Result<Operand, NoMemory> {
    let w = walk(c, x, steps)?;
    if c.is_interface(t) {
        return dynamic(c, place, x, w, t, name);
    }
    let Some(entry) = c.declared_method(t, name) else {
        return c.unknown(place);
    };
    let receiver = if entry.pointer {
        match address(c, x, w)? {
            Some(node) => node,
            None => return c.fail(FaultCode::NotAddressable, x.place),
        }
    } else {
        read(c, place, w)?
    };
    let of = if entry.pointer { c.pointer_to(t)? } else { t };
    let package = c.package_of(name);
    let node = Node::Bind {
        ty: entry.sig,
        of,
        name,
        package,
        receiver,
    };
    let body = c.nodes.expr(place, node)?;
    bound(c, place, x, w, entry.sig, body)
}

fn bound(
    c: &mut Checker,
    place: Place,
    x: Operand,
    w: Walked,
    sig: TypeId,
    body: NodeId,
) -> Result<Operand, NoMemory> {
    if !c.has(sig) {
        return c.unknown(place);
    }
    let node = within(c, x, w, body)?;
    Ok(Operand {
        mode: Mode::Value,
        ty: sig,
        node,
        place,
    })
}

// A method of an interface value.
fn dynamic(
    c: &mut Checker,
    place: Place,
    x: Operand,
    w: Walked,
    t: TypeId,
    name: NameId,
) -> Result<Operand, NoMemory> {
    let Some((sig, package)) = c.interface_method(t, name)? else {
        return c.unknown(place);
    };
    let receiver = read(c, place, w)?;
    let body = c.nodes.expr(
        place,
        Node::BindDynamic {
            ty: sig,
            of: t,
            name,
            package,
            receiver,
        },
    )?;
    bound(c, place, x, w, sig, body)
}

// The pointer to the end of a walk, where it is addressable.
fn address(c: &mut Checker, x: Operand, w: Walked) -> Result<Option<NodeId>, NoMemory> {
    if let Some(node) = w.pointer {
        return Ok(Some(node));
    }
    match w.at {
        At::Storage(at) if w.addressable => {
            let ty = c.pointer_to(w.ty)?;
            Ok(Some(c.nodes.expr(x.place, Node::Address { ty, place: at })?))
        }
        _ => Ok(None),
    }
}

/// `*x` of a value: F66 where it is no pointer. Go, "Address operators".
pub fn indirection(c: &mut Checker, place: Place, x: Operand) -> Result<Operand, NoMemory> {
    let x = single_value(c, x)?;
    if x.is_unknown() {
        return c.unknown(place);
    }
    match c.shape(x.ty) {
        Shape::Pointer(of) => c.variable(place, of, PlaceNode::Deref(x.node)),
        Shape::Unknown => c.unknown(place),
        _ => c.fail(FaultCode::NotAPointer, place),
    }
}

/// `&x` of an operand that is no literal: F67 where it isn't addressable.
pub fn address_of(c: &mut Checker, place: Place, x: Operand) -> Result<Operand, NoMemory> {
    if let Mode::Gate(at) = x.mode {
        let ty = c.pointer_to(x.ty)?;
        return c.operand(
            Mode::GatePointer,
            place,
            ty,
            Node::Address { ty, place: at },
        );
    }
    let x = single_value(c, x)?;
    match x.mode {
        Mode::Unknown => c.unknown(place),
        Mode::Variable(at) => {
            let ty = c.pointer_to(x.ty)?;
            c.value(place, ty, Node::Address { ty, place: at })
        }
        _ => c.fail(FaultCode::NotAddressable, x.place),
    }
}

/// `&T{}`: the pointer to a fresh variable that holds the literal.
pub fn address_of_literal(c: &mut Checker, place: Place, x: Operand) -> Result<Operand, NoMemory> {
    if x.is_unknown() {
        return c.unknown(place);
    }
    let var = c.fresh(EMPTY, place, x.ty)?;
    let at = c.nodes.place(PlaceNode::Local(var))?;
    let ty = c.pointer_to(x.ty)?;
    let body = c.nodes.expr(place, Node::Address { ty, place: at })?;
    let node = c.nodes.let_one(place, var, x.node, body)?;
    c.typed(place, ty, node)
}
