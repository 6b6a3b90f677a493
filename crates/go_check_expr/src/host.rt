//! The compiler's own functions, which the embedded packages call (own).
//!
//! A gate cell is reached by the address of a gate field alone, and stands only as the cell of a gate's
//! operation: F71 at any other call.

use crate::builtins::{any, done};
use gj_base::{NoMemory, Place};
use go_check_operand::assignment::assignment;
use go_check_state::node::{Node, StmtNode};
use go_check_state::{Builtin, Checker, FaultCode, Mode, Operand};
use go_type::predeclared::{STR, int_id};
use go_type::types::IntName;

/// A call of one of the compiler's own functions.
pub fn host(
    c: &mut Checker,
    place: Place,
    b: Builtin,
    x: Option<Operand>,
    y: Option<Operand>,
) -> Result<Operand, NoMemory> {
    match (b, x) {
        (Builtin::HostYield, _) => done(c, place, StmtNode::Yield),
        (Builtin::HostWrite, Some(x)) => write(c, place, x),
        (Builtin::HostFatal, Some(x)) => {
            let x = assignment(c, x, STR)?;
            statement(c, place, x, StmtNode::Fatal(x.node))
        }
        (Builtin::HostExit, Some(x)) => {
            let x = assignment(c, x, int_id(IntName::Int))?;
            statement(c, place, x, StmtNode::Exit(x.node))
        }
        (Builtin::HostBasic, Some(x)) => basic(c, place, x),
        (Builtin::HostGateMake, Some(x)) => gate_make(c, place, x),
        (Builtin::HostGateTake, Some(x)) => {
            let x = cell(c, place, x)?;
            statement(c, place, x, StmtNode::GateTake(x.node))
        }
        (Builtin::HostGateAwait, Some(x)) => {
            let x = cell(c, place, x)?;
            statement(c, place, x, StmtNode::GateAwait(x.node))
        }
        (Builtin::HostGateAdd, Some(x)) => gate_add(c, place, x, y),
        _ => c.unknown(place),
    }
}

// A statement with an operand.
fn statement(
    c: &mut Checker,
    place: Place,
    x: Operand,
    node: StmtNode,
) -> Result<Operand, NoMemory> {
    if x.is_unknown() {
        return c.unknown(place);
    }
    done(c, place, node)
}

// What a package writes is printed without a newline.
fn write(c: &mut Checker, place: Place, x: Operand) -> Result<Operand, NoMemory> {
    let x = assignment(c, x, STR)?;
    let operands = c.nodes.list(&[x.node.0])?;
    let print = StmtNode::Print {
        operands,
        ends_line: false,
    };
    statement(c, place, x, print)
}

fn basic(c: &mut Checker, place: Place, x: Operand) -> Result<Operand, NoMemory> {
    let ty = any(c)?;
    let x = assignment(c, x, ty)?;
    if x.is_unknown() {
        return c.unknown(place);
    }
    let operand = x.node;
    c.value(place, ty, Node::Basic { ty, operand })
}

// The cell behind a gate field.
fn gate_make(c: &mut Checker, place: Place, x: Operand) -> Result<Operand, NoMemory> {
    match x.mode {
        Mode::GatePointer => {
            let ty = c.pointer_to(int_id(IntName::Int))?;
            let pointer = x.node;
            c.operand(Mode::GateCell, place, ty, Node::GateMake { pointer })
        }
        Mode::Unknown => c.unknown(place),
        _ => c.fail(FaultCode::NotInProfile, place),
    }
}

// The operand of a gate's operation.
fn cell(c: &mut Checker, place: Place, x: Operand) -> Result<Operand, NoMemory> {
    match x.mode {
        Mode::GateCell => Ok(x),
        Mode::Unknown => c.unknown(place),
        _ => c.fail(FaultCode::NotInProfile, place),
    }
}

fn gate_add(
    c: &mut Checker,
    place: Place,
    x: Operand,
    y: Option<Operand>,
) -> Result<Operand, NoMemory> {
    let int = int_id(IntName::Int);
    let x = cell(c, place, x)?;
    let y = match y {
        Some(y) => assignment(c, y, int)?,
        None => c.unknown(place)?,
    };
    if x.is_unknown() || y.is_unknown() {
        return c.unknown(place);
    }
    let node = Node::GateAdd {
        cell: x.node,
        number: y.node,
    };
    c.value(place, int, node)
}
