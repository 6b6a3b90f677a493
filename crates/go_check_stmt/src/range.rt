//! `for` with a range clause. Go, "For statements".

use crate::assign::{is_blank, left_side, new_variable, no_name, variable_side};
use crate::hold::{
    both, declare, declare_with, nothing, read_var, sequence, store, store_one, store_vars,
};
use crate::sides::{Left, assigned, targets_of};
use gj_base::{NoMemory, Place};
use go_check_expr::expr::expr;
use go_check_operand::assignment::default_value;
use go_check_state::node::{Node, NodeId, PlaceNode, StmtId, StmtNode, VarRef};
use go_check_state::{BLANK, Checker, EMPTY, FaultCode, NONE, Operand, Shape};
use go_const::Const;
use go_syntax::tree::{Expr, ExprForm};
use go_type::predeclared::{BOOL, int_id};
use go_type::types::{Dir, IntName, TypeId};

/// What a range gives: the types of both values, and how many there may be.
#[derive(Clone, Copy, Debug)]
struct Gives {
    key: TypeId,
    value: TypeId,
    most: usize,
}

/// A range clause: what is ranged over, the variables that a turn sets, and the statements that stand
/// before the loop and at the beginning of each turn.
#[derive(Clone, Copy, Debug)]
pub struct Head {
    place: Place,
    x: Operand,
    /// How many elements an array has of which only indexes are wanted, and whether the operand is
    /// evaluated all the same.
    count: Option<u32>,
    evaluates: bool,
    key: Option<VarRef>,
    value: Option<VarRef>,
    before: StmtId,
    turn: StmtId,
}

// F94 over another type, F97 against the direction of a channel.
fn what_it_gives(c: &mut Checker, place: Place, x: Operand) -> Result<Option<Gives>, NoMemory> {
    let int = int_id(IntName::Int);
    let most = 2;
    let rows = match c.shape(x.ty) {
        Shape::Str => Some((int, int_id(IntName::Int32))),
        Shape::Array(_, of) | Shape::Slice(of) => Some((int, of)),
        Shape::Map(key, of) => Some((key, of)),
        Shape::Pointer(target) => match c.shape(target) {
            Shape::Array(_, of) => Some((int, of)),
            _ => None,
        },
        Shape::Chan(Dir::Send, _) => {
            c.fault(FaultCode::BadCommunication, place)?;
            return Ok(None);
        }
        Shape::Chan(_, of) => {
            return Ok(Some(Gives {
                key: of,
                value: NONE,
                most: 1,
            }));
        }
        _ => None,
    };
    match rows {
        Some((key, value)) => Ok(Some(Gives { key, value, most })),
        None => {
            c.fault(FaultCode::BadRange, x.place)?;
            Ok(None)
        }
    }
}

fn given(what: Option<Gives>, number: usize) -> TypeId {
    match what {
        Some(what) if number == 0 => what.key,
        Some(what) if number == 1 => what.value,
        _ => NONE,
    }
}

// Whether there is at most one variable, a last `_` aside.
fn has_one(left: &Vec<Expr>) -> bool {
    match left.get(1) {
        Some(e) => left.len() == 2 && is_blank(e),
        None => true,
    }
}

// The length of an array or of a pointer's array.
fn constant_count(c: &Checker, x: Operand) -> Option<u32> {
    match c.shape(x.ty) {
        Shape::Array(n, _) => Some(n),
        Shape::Pointer(of) => match c.shape(of) {
            Shape::Array(n, _) => Some(n),
            _ => None,
        },
        _ => None,
    }
}

/// The clause `x, y = range z` or `x, y := range z`, in the scope of the loop.
pub fn range_head(
    c: &mut Checker,
    place: Place,
    left: &Vec<Expr>,
    defines: bool,
    over: &Expr,
) -> Result<Head, NoMemory> {
    c.has_call = false;
    let x = expr(c, over)?;
    let calls = c.has_call;
    let x = default_value(c, x)?;
    let what = if x.is_unknown() {
        None
    } else {
        what_it_gives(c, place, x)?
    };
    if let Some(what) = what {
        if left.len() > what.most {
            c.fault(FaultCode::BadRange, x.place)?;
        }
    }
    let count = if has_one(left) {
        constant_count(c, x)
    } else {
        None
    };
    let mut head = Head {
        place,
        x,
        count,
        evaluates: calls,
        key: None,
        value: None,
        before: nothing(c)?,
        turn: nothing(c)?,
    };
    if defines {
        defined(c, left, what, &mut head)?;
    } else {
        assigned_to(c, left, what, &mut head)?;
    }
    Ok(head)
}

fn set(head: &mut Head, number: usize, var: Option<VarRef>) {
    if number == 0 {
        head.key = var;
    } else {
        head.value = var;
    }
}

// New variables, which are one set for the whole loop: F83 at what is no name, F82 at a second name.
fn defined(
    c: &mut Checker,
    left: &Vec<Expr>,
    what: Option<Gives>,
    head: &mut Head,
) -> Result<(), NoMemory> {
    let mut parts: Vec<u32> = Vec::new(c.alloc);
    for number in 0..left.len() {
        if let Some(e) = left.get(number) {
            let t = given(what, number);
            if let Some(var) = define_one(c, e, t)? {
                parts.push(declare(c, var)?.0)?;
                set(head, number, Some(var));
            }
        }
    }
    head.before = sequence(c, &parts)?;
    Ok(())
}

fn define_one(c: &mut Checker, e: &Expr, t: TypeId) -> Result<Option<VarRef>, NoMemory> {
    match &*e.form {
        ExprForm::Name(text) => {
            let name = c.names.intern(text.as_bytes())?;
            if name == BLANK {
                return Ok(None);
            }
            Ok(Some(new_variable(c, name, e.place, t)?))
        }
        _ => {
            no_name(c, e)?;
            Ok(None)
        }
    }
}

// Fresh variables, whose values go to the left sides at each turn.
fn assigned_to(
    c: &mut Checker,
    left: &Vec<Expr>,
    what: Option<Gives>,
    head: &mut Head,
) -> Result<(), NoMemory> {
    let mut parts: Vec<u32> = Vec::new(c.alloc);
    let mut lefts: Vec<Left> = Vec::new(c.alloc);
    let mut values: Vec<u32> = Vec::new(c.alloc);
    for number in 0..left.len() {
        if let Some(e) = left.get(number) {
            let side = left_side(c, e)?;
            let t = given(what, number);
            if !side.blank && c.has(t) && c.has(side.ty) {
                let var = c.fresh(EMPTY, head.x.place, t)?;
                parts.push(declare(c, var)?.0)?;
                set(head, number, Some(var));
                let x = c.variable(head.x.place, t, PlaceNode::Local(var))?;
                values.push(assigned(c, x, side)?.node.0)?;
                lefts.push(side)?;
            }
        }
    }
    head.before = sequence(c, &parts)?;
    if !lefts.is_empty() {
        let targets = targets_of(c, &lefts)?;
        head.turn = store(c, &targets, &values)?;
    }
    Ok(())
}

/// The loop, once its body is known.
pub fn range_row(
    c: &mut Checker,
    head: Head,
    label: u32,
    body: StmtId,
) -> Result<StmtId, NoMemory> {
    if head.x.is_unknown() {
        return nothing(c);
    }
    let body = both(c, head.turn, body)?;
    if let Shape::Chan(_, of) = c.shape(head.x.ty) {
        return range_channel(c, head, label, of, body);
    }
    let mut parts: Vec<u32> = Vec::new(c.alloc);
    parts.push(head.before.0)?;
    let (from, operand) = ranged(c, head)?;
    if head.count.is_some() && head.evaluates {
        let operand = head.x.node;
        parts.push(c.nodes.stmt(StmtNode::Perform { operand, values: 1 })?.0)?;
    }
    let whole = c.nodes.stmt(StmtNode::RangeNext {
        label,
        from,
        operand,
        key: head.key,
        value: head.value,
        body,
    })?;
    parts.push(whole.0)?;
    sequence(c, &parts)
}

// What is ranged over: so many numbers where only the indexes of an array are wanted. An operand without
// a call and a receive is not evaluated then.
fn ranged(c: &mut Checker, head: Head) -> Result<(TypeId, NodeId), NoMemory> {
    let Some(count) = head.count else {
        return Ok((head.x.ty, head.x.node));
    };
    let int = int_id(IntName::Int);
    let value = c.add_const(Const::Int(count as i128))?;
    let node = c.nodes.expr(head.place, Node::Const { ty: int, value })?;
    Ok((int, node))
}

// A loop that receives until the channel is closed.
fn range_channel(
    c: &mut Checker,
    head: Head,
    label: u32,
    of: TypeId,
    body: StmtId,
) -> Result<StmtId, NoMemory> {
    let at = head.x.place;
    let channel = c.fresh(EMPTY, at, head.x.ty)?;
    let value = c.fresh(EMPTY, at, of)?;
    let ok = c.fresh(EMPTY, at, BOOL)?;
    let mut before: Vec<u32> = Vec::new(c.alloc);
    before.push(head.before.0)?;
    declare_with(c, &mut before, channel, head.x.node)?;
    before.push(declare(c, value)?.0)?;
    before.push(declare(c, ok)?.0)?;
    let mut turn: Vec<u32> = Vec::new(c.alloc);
    turn.push(receive_both(c, head, channel, value, ok)?.0)?;
    turn.push(leave_unless(c, at, label, ok)?.0)?;
    if let Some(key) = head.key {
        let target = variable_side(c, key, of)?.target;
        let read = read_var(c, at, value)?;
        turn.push(store_one(c, target, read)?.0)?;
    }
    turn.push(body.0)?;
    let body = sequence(c, &turn)?;
    let whole = c.nodes.stmt(StmtNode::Loop {
        label,
        condition: None,
        body,
        post: None,
    })?;
    before.push(whole.0)?;
    sequence(c, &before)
}

// `value, ok = <-channel`
fn receive_both(
    c: &mut Checker,
    head: Head,
    channel: VarRef,
    value: VarRef,
    ok: VarRef,
) -> Result<StmtId, NoMemory> {
    let operand = read_var(c, head.x.place, channel)?;
    let node = Node::Receive {
        channel: head.x.ty,
        with_ok: true,
        operand,
    };
    let node = c.nodes.expr(head.place, node)?;
    let vars = c.nodes.list(&[value.0, ok.0])?;
    let values = c.nodes.list(&[node.0])?;
    store_vars(c, vars, values)
}

// `if !ok { break }`
fn leave_unless(c: &mut Checker, at: Place, label: u32, ok: VarRef) -> Result<StmtId, NoMemory> {
    let operand = read_var(c, at, ok)?;
    let condition = c.nodes.expr(at, Node::Not { ty: BOOL, operand })?;
    let when_true = c.nodes.stmt(StmtNode::Break(label))?;
    c.nodes.stmt(StmtNode::If {
        condition,
        when_true,
        when_false: None,
    })
}
