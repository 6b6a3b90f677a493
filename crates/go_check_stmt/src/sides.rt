//! The values of right sides, and the left sides that they go to. Go, "Assignments".

use crate::hold::{declare_results, hold_target, nothing, sequence, store};
use gj_base::{NoMemory, Place};
use go_check_expr::calls::{Results, are_typed, results_of};
use go_check_expr::expr::expr;
use go_check_operand::assignment::{assignment, default_value};
use go_check_primary::index_row::with_ok;
use go_check_state::node::{Node, PlaceNode, StmtId, StmtNode, Target};
use go_check_state::{Checker, EMPTY, FaultCode, Mode, Operand, Shape};
use go_syntax::tree::Expr;
use go_type::predeclared::{BOOL, untyped_id};
use go_type::types::{Basis, TypeId};

/// Values, one for each left side. Where one expression gives several, they are reads of fresh variables.
#[derive(Drop)]
pub struct Sides {
    pub values: Vec<Operand>,
    pub results: Option<Results>,
}

/// A left side with its type; a value of any type goes to one without.
#[derive(Clone, Copy, Debug)]
pub struct Left {
    pub target: Target,
    pub ty: TypeId,
    pub blank: bool,
}

/// Expressions, in order.
pub fn exprs(c: &mut Checker, list: &Vec<Expr>) -> Result<Vec<Operand>, NoMemory> {
    let mut out = Vec::new(c.alloc);
    for e in list {
        out.push(expr(c, e)?)?;
    }
    Ok(out)
}

/// Several expressions where one is due: F84, where they are typed.
pub fn several(c: &mut Checker, place: Place, list: &Vec<Expr>) -> Result<StmtId, NoMemory> {
    let values = exprs(c, list)?;
    miscounted(c, place, are_typed(&values))
}

/// Left and right sides whose counts differ: F84, where they are typed.
pub fn miscounted(c: &mut Checker, place: Place, typed: bool) -> Result<StmtId, NoMemory> {
    if typed {
        c.fault(FaultCode::CountMismatch, place)?;
    }
    nothing(c)
}

/// The values of right sides, as many as are wanted: the results of one call, or a value with its second
/// result. None where the counts differ.
pub fn one_each(
    c: &mut Checker,
    values: Vec<Operand>,
    count: usize,
) -> Result<Option<Sides>, NoMemory> {
    let Some(x) = values.first().copied() else {
        return Ok(None);
    };
    if values.len() != 1 {
        return plain_sides(values, count);
    }
    if let Mode::NoValue = x.mode {
        return plain_sides(values, count);
    }
    if let Shape::Tuple(several) = c.level(x.ty) {
        if several != count {
            return Ok(None);
        }
        let (values, results) = results_of(c, x, several)?;
        return Ok(Some(Sides {
            values,
            results: Some(results),
        }));
    }
    if x.is_unknown() && count > 1 {
        return unknowns(c, x.place, count);
    }
    if count == 2 {
        return pair(c, x);
    }
    plain_sides(values, count)
}

fn plain_sides(values: Vec<Operand>, count: usize) -> Result<Option<Sides>, NoMemory> {
    if values.len() != count {
        return Ok(None);
    }
    Ok(Some(Sides {
        values,
        results: None,
    }))
}

fn unknowns(c: &mut Checker, place: Place, count: usize) -> Result<Option<Sides>, NoMemory> {
    let mut values = Vec::new(c.alloc);
    for _ in 0..count {
        values.push(c.unknown(place)?)?;
    }
    Ok(Some(Sides {
        values,
        results: None,
    }))
}

// A value and whether it is there.
fn pair(c: &mut Checker, x: Operand) -> Result<Option<Sides>, NoMemory> {
    let is_pair = match x.mode {
        Mode::CommaOk | Mode::MapEntry(_, _) => true,
        _ => false,
    };
    if !is_pair {
        return Ok(None);
    }
    let Some(value) = with_ok(c, x)? else {
        return Ok(None);
    };
    let first = c.fresh(EMPTY, x.place, x.ty)?;
    let second = c.fresh(EMPTY, x.place, BOOL)?;
    let vars = c.nodes.list(&[first.0, second.0])?;
    let mut values = Vec::new(c.alloc);
    let at = c.nodes.place(PlaceNode::Local(first))?;
    values.push(c.value(
        x.place,
        x.ty,
        Node::Read {
            ty: x.ty,
            place: at,
        },
    )?)?;
    let at = c.nodes.place(PlaceNode::Local(second))?;
    let read = Node::Read {
        ty: BOOL,
        place: at,
    };
    values.push(c.value(x.place, untyped_id(Basis::Bool), read)?)?;
    Ok(Some(Sides {
        values,
        results: Some(Results { vars, value }),
    }))
}

// Whether a value is there takes the type of its left side.
fn is_ok(c: &Checker, x: Operand) -> bool {
    match (c.level(x.ty), c.nodes.get(x.node)) {
        (Shape::Untyped(Basis::Bool), Node::Read { .. }) => true,
        _ => false,
    }
}

/// A value as one of a type.
pub fn as_type(c: &mut Checker, x: Operand, t: TypeId) -> Result<Operand, NoMemory> {
    if is_ok(c, x) {
        if let Shape::Bool = c.shape(t) {
            if t.0 != BOOL.0 {
                let node = Node::Convert {
                    from: BOOL,
                    ty: t,
                    operand: x.node,
                };
                return c.value(x.place, t, node);
            }
        }
    }
    assignment(c, x, t)
}

/// One value to a left side; to `_` goes any typed value.
pub fn assigned(c: &mut Checker, x: Operand, left: Left) -> Result<Operand, NoMemory> {
    if left.blank && !c.has(left.ty) {
        default_value(c, x)
    } else {
        as_type(c, x, left.ty)
    }
}

/// Whether the values of an expression go to their left sides as they are.
pub fn go_as_they_are(sides: &Sides, values: &Vec<Operand>) -> bool {
    if sides.values.len() != values.len() {
        return false;
    }
    for number in 0..values.len() {
        match (sides.values.get(number), values.get(number)) {
            (Some(x), Some(y)) if x.node == y.node => {}
            _ => return false,
        }
    }
    true
}

/// The values as their left sides want them, each where it is known.
pub fn converted(
    c: &mut Checker,
    sides: &Sides,
    lefts: &Vec<Left>,
) -> Result<Vec<Operand>, NoMemory> {
    let mut out: Vec<Operand> = Vec::new(c.alloc);
    for number in 0..sides.values.len() {
        if let (Some(x), Some(left)) = (
            sides.values.get(number).copied(),
            lefts.get(number).copied(),
        ) {
            let x = if left.blank || c.has(left.ty) {
                assigned(c, x, left)?
            } else {
                c.unknown(x.place)?
            };
            out.push(x)?;
        }
    }
    Ok(out)
}

/// Stores values, as their left sides want them, after the statements that stand before.
pub fn store_sides(
    c: &mut Checker,
    before: Vec<u32>,
    sides: &Sides,
    lefts: &Vec<Left>,
    values: &Vec<Operand>,
) -> Result<StmtId, NoMemory> {
    let mut parts = before;
    match sides.results {
        Some(results) if go_as_they_are(sides, values) => {
            let targets = targets_of(c, lefts)?;
            let mut one: Vec<u32> = Vec::new(c.alloc);
            one.push(results.value.0)?;
            parts.push(store(c, &targets, &one)?.0)?;
        }
        Some(results) => {
            let mut held: Vec<Left> = Vec::new(c.alloc);
            for left in lefts.iter() {
                let target = hold_target(c, &mut parts, left.target, false)?;
                held.push(Left { target, ..*left })?;
            }
            declare_results(c, &mut parts, results)?;
            store_values(c, &mut parts, &held, values)?;
        }
        None => store_values(c, &mut parts, lefts, values)?,
    }
    sequence(c, &parts)
}

fn store_values(
    c: &mut Checker,
    parts: &mut Vec<u32>,
    lefts: &Vec<Left>,
    values: &Vec<Operand>,
) -> Result<(), NoMemory> {
    let targets = targets_of(c, lefts)?;
    let nodes = nodes_of(c, values)?;
    parts.push(store(c, &targets, &nodes)?.0)?;
    Ok(())
}

/// Left sides by their numbers.
pub fn targets_of(c: &mut Checker, lefts: &Vec<Left>) -> Result<Vec<u32>, NoMemory> {
    let mut targets: Vec<u32> = Vec::new(c.alloc);
    for left in lefts.iter() {
        targets.push(c.nodes.target(left.target)?)?;
    }
    Ok(targets)
}

/// The nodes of operands by their numbers.
pub fn nodes_of(c: &Checker, values: &Vec<Operand>) -> Result<Vec<u32>, NoMemory> {
    let mut nodes: Vec<u32> = Vec::new(c.alloc);
    for x in values.iter() {
        nodes.push(x.node.0)?;
    }
    Ok(nodes)
}

/// The statement that returns values, as the results want them.
pub fn return_sides(
    c: &mut Checker,
    sides: &Sides,
    values: &Vec<Operand>,
) -> Result<StmtId, NoMemory> {
    let mut parts: Vec<u32> = Vec::new(c.alloc);
    let nodes = match sides.results {
        Some(results) if go_as_they_are(sides, values) => c.nodes.list(&[results.value.0])?,
        Some(results) => {
            declare_results(c, &mut parts, results)?;
            let nodes = nodes_of(c, values)?;
            c.nodes.list(nodes.as_slice())?
        }
        None => {
            let nodes = nodes_of(c, values)?;
            c.nodes.list(nodes.as_slice())?
        }
    };
    parts.push(c.nodes.stmt(StmtNode::Return(nodes))?.0)?;
    sequence(c, &parts)
}
