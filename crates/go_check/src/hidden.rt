//! The type of run-time panics, a string with the methods `Error` and `RuntimeError` (own). Go,
//! "Run-time panics".

use crate::packages::methods::add_method;
use gj_base::{NoMemory, Place};
use go_check_state::node::{Node, PlaceNode, Span, StmtId, StmtNode, VarRef};
use go_check_state::{Checker, EMPTY, FuncRow, NO_OBJECT};
use go_type::predeclared::STR;
use go_type::types::TypeId;

/// The place of what has none in the text.
pub const NOWHERE: Place = Place { file: 0, offset: 0 };

/// Declares the type, whose methods get their functions.
pub fn hidden(c: &mut Checker) -> Result<TypeId, NoMemory> {
    let name = c.names.intern(b"runtimeError")?;
    let t = c.declare_named(name, u32::MAX, None)?;
    c.set_named(t, STR);
    text_method(c, t)?;
    mark_method(c, t)?;
    Ok(t)
}

fn sig(c: &mut Checker, gives_text: bool) -> Result<TypeId, NoMemory> {
    let mut results = Vec::new(c.alloc);
    if gives_text {
        results.push(STR)?;
    }
    c.func_of(Vec::new(c.alloc), results, false)
}

fn function(
    c: &mut Checker,
    t: TypeId,
    sig: TypeId,
    params: Span,
    body: StmtId,
) -> Result<u32, NoMemory> {
    let func = c.add_func(FuncRow {
        name: EMPTY,
        package: 0,
        sig,
        place: NOWHERE,
        parent: None,
        receiver: Some(t),
        is_literal: false,
        scope: NO_OBJECT,
        params,
        body: Some(body),
    })?;
    Ok(func.0)
}

// `Error` gives the text.
fn text_method(c: &mut Checker, t: TypeId) -> Result<(), NoMemory> {
    let receiver = c.fresh(EMPTY, NOWHERE, t)?;
    let result = c.fresh(EMPTY, NOWHERE, STR)?;
    let place = c.nodes.place(PlaceNode::Local(receiver))?;
    let operand = c.nodes.expr(NOWHERE, Node::Read { ty: t, place })?;
    let text = c.nodes.expr(
        NOWHERE,
        Node::Convert {
            from: t,
            ty: STR,
            operand,
        },
    )?;
    let values = c.nodes.list(&[text.0])?;
    let body = c.nodes.stmt(StmtNode::Return(values))?;
    let params = c.nodes.list(&[receiver.0, result.0])?;
    let sig = sig(c, true)?;
    let func = function(c, t, sig, params, body)?;
    let name = c.names.intern(b"Error")?;
    add_method(c, t, name, false, sig, func, NOWHERE)
}

// `RuntimeError` does nothing.
fn mark_method(c: &mut Checker, t: TypeId) -> Result<(), NoMemory> {
    let receiver: VarRef = c.fresh(EMPTY, NOWHERE, t)?;
    let none = c.nodes.list(&[])?;
    let body = c.nodes.stmt(StmtNode::Seq(none))?;
    let params = c.nodes.list(&[receiver.0])?;
    let sig = sig(c, false)?;
    let func = function(c, t, sig, params, body)?;
    let name = c.names.intern(b"RuntimeError")?;
    add_method(c, t, name, false, sig, func, NOWHERE)
}
