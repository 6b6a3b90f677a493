//! Sends and selects. Go, "Send statements", "Select statements".

use crate::assign::{left_side, new_variable, no_name};
use crate::hold::{both, nothing, store};
use crate::labels::last_label;
use crate::sides::{Left, assigned, exprs, miscounted, targets_of};
use gj_base::{NoMemory, Place};
use go_check_expr::calls::are_typed;
use go_check_expr::expr::expr;
use go_check_operand::assignment::{assignment, single_value};
use go_check_state::node::{Node, PlaceNode, StmtId, StmtNode, VarRef};
use go_check_state::{BLANK, Checker, EMPTY, FaultCode, Mark, NONE, NameId, Operand, Shape};
use go_syntax::tree::{Comm, Expr, ExprForm, Prefix, Stmt, StmtForm};
use go_type::predeclared::{BOOL, untyped_id};
use go_type::types::{Basis, Dir, TypeId};

/// `x <- y`: F97 to something that is no channel, or against its direction.
pub fn send(
    c: &mut Checker,
    place: Place,
    left: &Vec<Expr>,
    right: &Expr,
) -> Result<StmtId, NoMemory> {
    let xs = exprs(c, left)?;
    let y = expr(c, right)?;
    let typed = are_typed(&xs) && !y.is_unknown();
    let x = match xs.first().copied() {
        Some(x) if xs.len() == 1 => x,
        _ => return miscounted(c, place, typed),
    };
    if !typed {
        return nothing(c);
    }
    let x = single_value(c, x)?;
    if x.is_unknown() {
        return nothing(c);
    }
    match c.shape(x.ty) {
        Shape::Chan(Dir::Both, of) | Shape::Chan(Dir::Send, of) => {
            let y = assignment(c, y, of)?;
            c.nodes.stmt(StmtNode::Send {
                channel: x.ty,
                operand: x.node,
                value: y.node,
            })
        }
        Shape::Unknown => nothing(c),
        _ => {
            c.fault(FaultCode::BadCommunication, place)?;
            nothing(c)
        }
    }
}

/// Whether an expression is a receive, parentheses aside.
pub fn is_receive(e: &Expr) -> bool {
    match &*e.form {
        ExprForm::Paren(x) => is_receive(x),
        ExprForm::Unary(Prefix::Receive, _) => true,
        _ => false,
    }
}

/// A select so far.
#[derive(Drop)]
pub struct Select {
    label: u32,
    cases: Vec<u32>,
    default: Option<StmtId>,
    start: Mark,
    /// The place of one with too many clauses, and that of its last label.
    too_many: Option<(Place, Place)>,
}

/// `select {`.
pub fn begin_select(
    c: &mut Checker,
    place: Place,
    label: u32,
    comms: &Vec<Comm>,
) -> Result<Select, NoMemory> {
    Ok(Select {
        label,
        cases: Vec::new(c.alloc),
        default: None,
        start: c.mark(),
        too_many: too_many(c, place, comms)?,
    })
}

// The place of a select with more clauses than may be, and of its last label.
fn too_many(
    c: &mut Checker,
    place: Place,
    comms: &Vec<Comm>,
) -> Result<Option<(Place, Place)>, NoMemory> {
    if comms.len() <= 1000 {
        return Ok(None);
    }
    let mut last = place;
    for comm in comms {
        last = last_label(c, &comm.body, last)?;
    }
    Ok(Some((place, last)))
}

/// A clause's communication, and what is done first once it has taken place.
#[derive(Clone, Copy, Debug)]
pub struct CommRow {
    communication: StmtId,
    first: StmtId,
}

/// A clause: F92 at a second default.
pub fn end_comm(
    c: &mut Checker,
    g: &mut Select,
    place: Place,
    comm: Option<CommRow>,
    body: StmtId,
) -> Result<(), NoMemory> {
    let Some(comm) = comm else {
        if g.default.is_some() {
            c.fault(FaultCode::DuplicateCase, place)?;
        }
        g.default = Some(body);
        return Ok(());
    };
    let body = both(c, comm.first, body)?;
    g.cases.push(comm.communication.0)?;
    g.cases.push(body.0)?;
    Ok(())
}

/// The whole select: F76 past the limit of clauses, where all its parts are typed.
pub fn end_select(c: &mut Checker, g: Select) -> Result<StmtId, NoMemory> {
    if let Some((place, last)) = g.too_many {
        c.fault_of_whole(FaultCode::TooManyParts, place, g.start, last)?;
    }
    let cases = c.nodes.list(g.cases.as_slice())?;
    c.nodes.stmt(StmtNode::SelectStep {
        label: g.label,
        cases,
        default: g.default,
    })
}

fn alone(c: &mut Checker, communication: StmtId) -> Result<CommRow, NoMemory> {
    let first = nothing(c)?;
    Ok(CommRow {
        communication,
        first,
    })
}

/// A send, a receive, or a receive whose values are assigned or declared: F97 at all else.
pub fn communication(c: &mut Checker, s: &Stmt) -> Result<CommRow, NoMemory> {
    match &*s.form {
        StmtForm::Send(left, right) => {
            let row = send(c, s.place, left, right)?;
            alone(c, row)
        }
        StmtForm::Expr(list) => match single(list) {
            Some(e) if is_receive(e) => {
                let x = expr(c, e)?;
                let row = received(c, x, &Vec::new(c.alloc))?;
                alone(c, row)
            }
            _ => refuse(c, s.place, list, list),
        },
        StmtForm::Assign(left, None, right) => match single(right) {
            Some(e) if is_receive(e) && left.len() <= 2 => assign_received(c, left, e),
            _ => refuse(c, s.place, left, right),
        },
        StmtForm::Define(left, right) => match single(right) {
            Some(e) if is_receive(e) && left.len() <= 2 => { define_received(c, s.place, left, e) }
            _ => refuse(c, s.place, right, right),
        },
        _ => {
            c.fault(FaultCode::BadCommunication, s.place)?;
            let row = nothing(c)?;
            alone(c, row)
        }
    }
}

/// The communication of a clause, where it isn't the default.
pub fn maybe_communication(c: &mut Checker, s: &Option<Stmt>) -> Result<Option<CommRow>, NoMemory> {
    match s {
        Some(s) => Ok(Some(communication(c, s)?)),
        None => Ok(None),
    }
}

fn single(list: &Vec<Expr>) -> Option<&Expr> {
    if list.len() == 1 { list.first() } else { None }
}

// The parts are looked at before the whole is refused.
fn refuse(
    c: &mut Checker,
    place: Place,
    left: &Vec<Expr>,
    right: &Vec<Expr>,
) -> Result<CommRow, NoMemory> {
    let mut typed = true;
    for e in left {
        if !crate::assign::is_blank(e) {
            typed &= !expr(c, e)?.is_unknown();
        }
    }
    for e in right {
        typed &= !expr(c, e)?.is_unknown();
    }
    if typed {
        c.fault(FaultCode::BadCommunication, place)?;
    }
    let row = nothing(c)?;
    alone(c, row)
}

// The receive of a clause, to fresh variables.
fn received(c: &mut Checker, x: Operand, vars: &Vec<u32>) -> Result<StmtId, NoMemory> {
    let Node::Receive {
        channel,
        operand,
        ..
    } = c.nodes.get(x.node)
    else {
        return nothing(c);
    };
    let vars = c.nodes.list(vars.as_slice())?;
    c.nodes.stmt(StmtNode::Received {
        channel,
        operand,
        vars,
    })
}

// The type of what is received, or of whether it was sent.
fn received_type(x: Operand, number: usize) -> TypeId {
    if x.is_unknown() {
        NONE
    } else if number == 0 {
        x.ty
    } else {
        BOOL
    }
}

// A fresh variable, as the value that a left side gets.
fn received_value(
    c: &mut Checker,
    x: Operand,
    number: usize,
    var: VarRef,
) -> Result<Operand, NoMemory> {
    let ty = received_type(x, number);
    if !c.has(ty) {
        return c.unknown(x.place);
    }
    let place = c.nodes.place(PlaceNode::Local(var))?;
    let read = Node::Read { ty, place };
    let t = if number == 0 {
        ty
    } else {
        untyped_id(Basis::Bool)
    };
    c.value(x.place, t, read)
}

fn assign_received(c: &mut Checker, left: &Vec<Expr>, e: &Expr) -> Result<CommRow, NoMemory> {
    let x = expr(c, e)?;
    let mut vars: Vec<u32> = Vec::new(c.alloc);
    let mut lefts: Vec<Left> = Vec::new(c.alloc);
    let mut values: Vec<u32> = Vec::new(c.alloc);
    for number in 0..left.len() {
        if let Some(l) = left.get(number) {
            let side = left_side(c, l)?;
            let var = c.fresh(EMPTY, l.place, received_type(x, number))?;
            vars.push(var.0)?;
            let value = received_value(c, x, number, var)?;
            if side.blank || c.has(side.ty) {
                let value = assigned(c, value, side)?;
                values.push(value.node.0)?;
                lefts.push(side)?;
            }
        }
    }
    let communication = received(c, x, &vars)?;
    let targets = targets_of(c, &lefts)?;
    let first = store(c, &targets, &values)?;
    Ok(CommRow {
        communication,
        first,
    })
}

// F83 without a new name.
fn define_received(
    c: &mut Checker,
    place: Place,
    left: &Vec<Expr>,
    e: &Expr,
) -> Result<CommRow, NoMemory> {
    let x = expr(c, e)?;
    let mut fresh = false;
    let mut vars: Vec<u32> = Vec::new(c.alloc);
    for number in 0..left.len() {
        if let Some(l) = left.get(number) {
            let t = received_type(x, number);
            let name = left_name(c, l)?;
            let var = if name == BLANK || name == EMPTY {
                c.fresh(EMPTY, l.place, t)?
            } else {
                fresh = true;
                new_variable(c, name, l.place, t)?
            };
            vars.push(var.0)?;
        }
    }
    if !fresh && !x.is_unknown() {
        c.fault(FaultCode::BadDefine, place)?;
    }
    let row = received(c, x, &vars)?;
    alone(c, row)
}

// F83 at a left side that is no name.
fn left_name(c: &mut Checker, e: &Expr) -> Result<NameId, NoMemory> {
    match &*e.form {
        ExprForm::Name(text) => c.names.intern(text.as_bytes()),
        _ => {
            no_name(c, e)?;
            Ok(EMPTY)
        }
    }
}
