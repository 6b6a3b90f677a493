//! Initialisers that give several values. Go, "Variable declarations".

use gj_base::{NoMemory, Place};
use go_check_state::node::{Callee, Node, NodeId, Span};
use go_check_state::{Checker, EMPTY, FuncRow, NO_OBJECT, Operand};
use go_check_stmt::sides::{Sides, go_as_they_are, return_sides};
use go_type::types::TypeId;

/// The one expression that gives all values: the call itself, or where they are to be converted, a call of
/// a function that is made for it.
pub fn several_values(
    c: &mut Checker,
    place: Place,
    sides: &Sides,
    values: &Vec<Operand>,
) -> Result<Option<NodeId>, NoMemory> {
    let Some(results) = sides.results else {
        return Ok(None);
    };
    if go_as_they_are(sides, values) {
        return Ok(Some(results.value));
    }
    let mut types: Vec<TypeId> = Vec::new(c.alloc);
    for x in values.iter() {
        types.push(x.ty)?;
    }
    let sig = c.func_of(Vec::new(c.alloc), types, false)?;
    let package = c.package;
    let mut vars: Vec<u32> = Vec::new(c.alloc);
    for x in values.iter() {
        vars.push(c.fresh(EMPTY, place, x.ty)?.0)?;
    }
    let params = c.nodes.list(vars.as_slice())?;
    let body = return_sides(c, sides, values)?;
    let func = c.add_func(FuncRow {
        name: EMPTY,
        package,
        sig,
        place,
        parent: None,
        receiver: None,
        is_literal: false,
        scope: NO_OBJECT,
        params,
        body: Some(body),
    })?;
    let operands = Span { start: 0, len: 0 };
    let callee = Callee::Function(func);
    Ok(Some(
        c.nodes.expr(
            place,
            Node::Call {
                sig,
                callee,
                operands,
            },
        )?,
    ))
}
