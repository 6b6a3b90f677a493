//! Core statements, and what is evaluated once and read later. Go, "Order of evaluation".

use gj_base::{NoMemory, Place};
use go_check_expr::calls::Results;
use go_check_state::node::{
    Node, NodeId, PlaceId, PlaceNode, Span, StmtId, StmtNode, Target, VarRef,
};
use go_check_state::{Checker, EMPTY, NONE, Shape};
use go_type::predeclared::int_id;
use go_type::types::{IntName, TypeId};

/// Nothing at all.
pub fn nothing(c: &mut Checker) -> Result<StmtId, NoMemory> {
    let none = c.nodes.list(&[])?;
    c.nodes.stmt(StmtNode::Seq(none))
}

/// Statements by their numbers, one after another.
pub fn sequence(c: &mut Checker, parts: &Vec<u32>) -> Result<StmtId, NoMemory> {
    let parts = c.nodes.list(parts.as_slice())?;
    c.nodes.stmt(StmtNode::Seq(parts))
}

/// Two statements.
pub fn both(c: &mut Checker, first: StmtId, second: StmtId) -> Result<StmtId, NoMemory> {
    let parts = c.nodes.list(&[first.0, second.0])?;
    c.nodes.stmt(StmtNode::Seq(parts))
}

/// The statement that stores values in left sides, both by their numbers.
pub fn store(c: &mut Checker, targets: &Vec<u32>, values: &Vec<u32>) -> Result<StmtId, NoMemory> {
    let targets = c.nodes.list(targets.as_slice())?;
    let values = c.nodes.list(values.as_slice())?;
    c.nodes.stmt(StmtNode::Store { targets, values })
}

/// The statement that stores one value.
pub fn store_one(c: &mut Checker, target: Target, value: NodeId) -> Result<StmtId, NoMemory> {
    let number = c.nodes.target(target)?;
    let targets = c.nodes.list(&[number])?;
    let values = c.nodes.list(&[value.0])?;
    c.nodes.stmt(StmtNode::Store { targets, values })
}

/// Gives a function its variables, which are receiver, parameters and results, and its body.
pub fn set_body(c: &mut Checker, func: u32, params: Span, body: StmtId) {
    if let Some(row) = c.funcs.as_mut_slice().get_mut(func as usize) {
        row.params = params;
        row.body = Some(body);
    }
}

/// The type of a variable.
pub fn var_type(c: &Checker, var: VarRef) -> TypeId {
    match c.vars.get(var.0 as usize) {
        Some(row) => row.ty,
        None => NONE,
    }
}

/// A variable as a left side.
pub fn var_target(c: &mut Checker, var: VarRef) -> Result<Target, NoMemory> {
    let ty = var_type(c, var);
    let place = c.nodes.place(PlaceNode::Local(var))?;
    Ok(Target::Place { ty, place })
}

/// A variable as a value.
pub fn read_var(c: &mut Checker, at: Place, var: VarRef) -> Result<NodeId, NoMemory> {
    let ty = var_type(c, var);
    let place = c.nodes.place(PlaceNode::Local(var))?;
    c.nodes.expr(at, Node::Read { ty, place })
}

/// The declaration of a variable.
pub fn declare(c: &mut Checker, var: VarRef) -> Result<StmtId, NoMemory> {
    c.nodes.stmt(StmtNode::Declare(var))
}

/// The declaration of a variable, and the store of its first value.
pub fn declare_with(
    c: &mut Checker,
    parts: &mut Vec<u32>,
    var: VarRef,
    value: NodeId,
) -> Result<(), NoMemory> {
    parts.push(declare(c, var)?.0)?;
    let target = var_target(c, var)?;
    parts.push(store_one(c, target, value)?.0)?;
    Ok(())
}

/// Stores the values of expressions in variables.
pub fn store_vars(c: &mut Checker, vars: Span, values: Span) -> Result<StmtId, NoMemory> {
    let mut targets: Vec<u32> = Vec::new(c.alloc);
    for number in 0..vars.len {
        let var = VarRef(c.nodes.item(vars, number));
        let target = var_target(c, var)?;
        targets.push(c.nodes.target(target)?)?;
    }
    let targets = c.nodes.list(targets.as_slice())?;
    c.nodes.stmt(StmtNode::Store { targets, values })
}

/// Fresh variables with the values of expressions.
pub fn declare_all(
    c: &mut Checker,
    parts: &mut Vec<u32>,
    vars: Span,
    values: Span,
) -> Result<(), NoMemory> {
    for number in 0..vars.len {
        let var = VarRef(c.nodes.item(vars, number));
        parts.push(declare(c, var)?.0)?;
    }
    parts.push(store_vars(c, vars, values)?.0)?;
    Ok(())
}

/// The fresh variables of several results.
pub fn declare_results(
    c: &mut Checker,
    parts: &mut Vec<u32>,
    results: Results,
) -> Result<(), NoMemory> {
    let values = c.nodes.list(&[results.value.0])?;
    declare_all(c, parts, results.vars, values)
}

/// The type of the one value that a node gives.
pub fn node_type(c: &mut Checker, id: NodeId) -> Result<TypeId, NoMemory> {
    let mut id = id;
    for _ in 0..u64::MAX {
        match c.nodes.get(id) {
            Node::Let { body, .. } => id = body,
            node => return form_type(c, node),
        }
    }
    Ok(NONE)
}

fn form_type(c: &mut Checker, node: Node) -> Result<TypeId, NoMemory> {
    Ok(match node {
        Node::Const { ty, .. }
        | Node::Zero { ty }
        | Node::Read { ty, .. }
        | Node::Address { ty, .. }
        | Node::Unary { ty, .. }
        | Node::Binary { ty, .. }
        | Node::Concat { ty, .. }
        | Node::Equal { ty, .. }
        | Node::Less { ty, .. }
        | Node::AndThen { ty, .. }
        | Node::OrElse { ty, .. }
        | Node::Not { ty, .. }
        | Node::Convert { ty, .. }
        | Node::SliceOf { ty, .. }
        | Node::Build { ty, .. }
        | Node::BuildMap { ty, .. } => ty,
        Node::Closure { ty, .. }
        | Node::Bind { ty, .. }
        | Node::BindDynamic { ty, .. }
        | Node::Append { ty, .. }
        | Node::MakeSlice { ty, .. }
        | Node::MakeMap { ty, .. }
        | Node::MakeChan { ty, .. }
        | Node::Wrap { ty, .. }
        | Node::Assert { ty, .. }
        | Node::Basic { ty, .. }
        | Node::Recover { ty } => ty,
        Node::ByteAt { .. } => int_id(IntName::Uint8),
        Node::Len { .. } | Node::Cap { .. } | Node::CopyElems { .. } | Node::GateAdd { .. } => {
            int_id(IntName::Int)
        }
        Node::Call { sig, .. } => c.result_type(sig, 0),
        Node::MapGet { map_type, .. } => match c.shape(map_type) {
            Shape::Map(_, of) => of,
            _ => NONE,
        },
        Node::Receive { channel, .. } => match c.shape(channel) {
            Shape::Chan(_, of) => of,
            _ => NONE,
        },
        Node::New { ty } => c.pointer_to(ty)?,
        Node::GateMake { .. } => c.pointer_to(int_id(IntName::Int))?,
        _ => NONE,
    })
}

// Whether a value is the same whenever it is evaluated. Where nothing runs between, a variable is too.
fn is_steady(c: &Checker, id: NodeId, quiet: bool) -> bool {
    match c.nodes.get(id) {
        Node::Const { .. } | Node::Zero { .. } => true,
        Node::Read { place, .. } if quiet => match c.nodes.places.get(place.0 as usize) {
            Some(PlaceNode::Local(_)) => true,
            _ => false,
        },
        _ => false,
    }
}

/// A value that is evaluated now, and read from a fresh variable later.
pub fn hold(
    c: &mut Checker,
    parts: &mut Vec<u32>,
    id: NodeId,
    quiet: bool,
) -> Result<NodeId, NoMemory> {
    if is_steady(c, id, quiet) {
        return Ok(id);
    }
    let at = c.nodes.place_of(id);
    let ty = node_type(c, id)?;
    let var = c.fresh(EMPTY, at, ty)?;
    declare_with(c, parts, var, id)?;
    read_var(c, at, var)
}

/// A core place whose operands are evaluated now.
pub fn hold_place(
    c: &mut Checker,
    parts: &mut Vec<u32>,
    place: PlaceId,
    quiet: bool,
) -> Result<PlaceId, NoMemory> {
    let mut outer: Vec<PlaceNode> = Vec::new(c.alloc);
    let mut at = place;
    for _ in 0..u64::MAX {
        match c.nodes.places.get(at.0 as usize).copied() {
            Some(
                PlaceNode::Field {
                    struct_type,
                    number,
                    place,
                },
            ) => {
                outer.push(PlaceNode::Field {
                    struct_type,
                    number,
                    place,
                })?;
                at = place;
            }
            Some(
                PlaceNode::Elem {
                    array_type,
                    place,
                    index,
                },
            ) => {
                outer.push(PlaceNode::Elem {
                    array_type,
                    place,
                    index,
                })?;
                at = place;
            }
            _ => break,
        }
    }
    let mut held = hold_base(c, parts, at, quiet)?;
    for node in outer.iter().rev() {
        held = hold_outer(c, parts, *node, held, quiet)?;
    }
    Ok(held)
}

// The innermost part of a place.
fn hold_base(
    c: &mut Checker,
    parts: &mut Vec<u32>,
    at: PlaceId,
    quiet: bool,
) -> Result<PlaceId, NoMemory> {
    match c.nodes.places.get(at.0 as usize).copied() {
        Some(PlaceNode::Deref(e)) => {
            let e = hold(c, parts, e, quiet)?;
            c.nodes.place(PlaceNode::Deref(e))
        }
        Some(
            PlaceNode::SliceElem {
                slice_type,
                operand,
                index,
            },
        ) => {
            let operand = hold(c, parts, operand, quiet)?;
            let index = hold(c, parts, index, quiet)?;
            c.nodes.place(PlaceNode::SliceElem {
                slice_type,
                operand,
                index,
            })
        }
        _ => Ok(at),
    }
}

// A field or an element of a place that is held.
fn hold_outer(
    c: &mut Checker,
    parts: &mut Vec<u32>,
    node: PlaceNode,
    inside: PlaceId,
    quiet: bool,
) -> Result<PlaceId, NoMemory> {
    match node {
        PlaceNode::Elem {
            array_type,
            index,
            ..
        } => {
            let index = hold(c, parts, index, quiet)?;
            c.nodes.place(PlaceNode::Elem {
                array_type,
                place: inside,
                index,
            })
        }
        PlaceNode::Field {
            struct_type,
            number,
            ..
        } => c.nodes.place(PlaceNode::Field {
            struct_type,
            number,
            place: inside,
        }),
        _ => Ok(inside),
    }
}

/// A left side whose operands are evaluated now.
pub fn hold_target(
    c: &mut Checker,
    parts: &mut Vec<u32>,
    target: Target,
    quiet: bool,
) -> Result<Target, NoMemory> {
    match target {
        Target::Blank => Ok(Target::Blank),
        Target::Place { ty, place } => {
            let place = hold_place(c, parts, place, quiet)?;
            Ok(Target::Place { ty, place })
        }
        Target::Entry {
            map_type,
            operand,
            key,
        } => {
            let operand = hold(c, parts, operand, quiet)?;
            let key = hold(c, parts, key, quiet)?;
            Ok(Target::Entry {
                map_type,
                operand,
                key,
            })
        }
    }
}
