//! Assignments and short variable declarations. Go, "Assignments", "IncDec statements", "Short variable
//! declarations".

use crate::hold::{declare, hold, hold_place, nothing, sequence, store_one};
use crate::sides::{
    Left, Sides, assigned, converted, exprs, miscounted, one_each, several, store_sides,
};
use gj_base::{NoMemory, Op, Place, Text};
use go_check_expr::calls::are_typed;
use go_check_expr::expr::expr;
use go_check_operand::assignment::{default_value, single_value};
use go_check_operand::binary::binary;
use go_check_state::node::{Node, PlaceNode, StmtId, Target, VarRef};
use go_check_state::{BLANK, Checker, EMPTY, Entity, FaultCode, Mode, NONE, NameId, Operand};
use go_const::Const;
use go_syntax::tree::{Expr, ExprForm};
use go_type::predeclared::untyped_id;
use go_type::types::{Basis, TypeId};

/// `_`: any value goes there.
pub const NOWHERE: Left = Left {
    target: Target::Blank,
    ty: NONE,
    blank: true,
};

/// What no value can go to.
pub const NOT_THERE: Left = Left {
    target: Target::Blank,
    ty: NONE,
    blank: false,
};

/// Whether an expression is `_`.
pub fn is_blank(e: &Expr) -> bool {
    match &*e.form {
        ExprForm::Name(text) => text.as_bytes() == b"_".as_slice(),
        ExprForm::Paren(x) => is_blank(x),
        _ => false,
    }
}

// An expression without the parentheses around it.
fn bare(e: &Expr) -> &Expr {
    match &*e.form {
        ExprForm::Paren(x) => bare(x),
        _ => e,
    }
}

/// A left side. An occurrence that is a whole left side is no use.
pub fn left_side(c: &mut Checker, e: &Expr) -> Result<Left, NoMemory> {
    if is_blank(e) {
        return Ok(NOWHERE);
    }
    let x = not_used(c, bare(e))?;
    target(c, x)
}

// An expression whose value isn't read: a variable that is all of it isn't used.
fn not_used(c: &mut Checker, e: &Expr) -> Result<Operand, NoMemory> {
    let object = whole_name(c, e)?;
    let used = match object {
        Some(id) => match c.object(id) {
            Some(object) => object.used,
            None => false,
        },
        None => false,
    };
    let x = expr(c, e)?;
    if let Some(id) = object {
        if (id as usize) < c.objects.len() {
            c.objects[id as usize].used = used;
        }
    }
    Ok(x)
}

// An operand that is read and assigned: F52 of `_`.
fn read_side(c: &mut Checker, e: &Expr) -> Result<Operand, NoMemory> {
    let x = expr(c, e)?;
    if is_blank(e) {
        return single_value(c, x);
    }
    Ok(x)
}

// Whether a left side is typed.
fn is_typed(c: &Checker, left: Left) -> bool {
    left.blank || c.has(left.ty)
}

// The local variable that an expression is a whole name of, parentheses aside.
fn whole_name(c: &mut Checker, e: &Expr) -> Result<Option<u32>, NoMemory> {
    match &*e.form {
        ExprForm::Paren(x) => whole_name(c, x),
        ExprForm::Name(text) => local_name(c, text),
        _ => Ok(None),
    }
}

fn local_name(c: &mut Checker, text: &Text) -> Result<Option<u32>, NoMemory> {
    let id = c.names.intern(text.as_bytes())?;
    let Some(found) = c.lookup(id) else {
        return Ok(None);
    };
    Ok(match c.object(found) {
        Some(object) => match object.entity {
            Entity::Local(_, _) => Some(found),
            _ => None,
        },
        None => None,
    })
}

// What an operand is as a left side: F85 where it can't be assigned.
fn target(c: &mut Checker, x: Operand) -> Result<Left, NoMemory> {
    match x.mode {
        Mode::Unknown => Ok(NOT_THERE),
        Mode::Variable(place) => Ok(Left {
            target: Target::Place { ty: x.ty, place },
            ty: x.ty,
            blank: false,
        }),
        Mode::MapEntry(operand, key) => {
            let map_type = match c.nodes.get(x.node) {
                Node::MapGet { map_type, .. } => map_type,
                _ => NONE,
            };
            Ok(Left {
                target: Target::Entry {
                    map_type,
                    operand,
                    key,
                },
                ty: x.ty,
                blank: false,
            })
        }
        _ => {
            c.fault(FaultCode::CannotAssign, x.place)?;
            Ok(NOT_THERE)
        }
    }
}

/// `x, y = z, w`: F84 where the counts differ and all are typed.
pub fn assign(
    c: &mut Checker,
    place: Place,
    left: &Vec<Expr>,
    right: &Vec<Expr>,
) -> Result<StmtId, NoMemory> {
    let mut lefts: Vec<Left> = Vec::new(c.alloc);
    let mut typed = true;
    for e in left {
        let side = left_side(c, e)?;
        typed &= is_typed(c, side);
        lefts.push(side)?;
    }
    let values = exprs(c, right)?;
    typed &= are_typed(&values);
    let Some(sides) = one_each(c, values, left.len())? else {
        return miscounted(c, place, typed);
    };
    let values = converted(c, &sides, &lefts)?;
    store_sides(c, Vec::new(c.alloc), &sides, &lefts, &values)
}

// The expression of a list of one.
fn only(list: &Vec<Expr>) -> Option<&Expr> {
    if list.len() == 1 { list.first() } else { None }
}

/// `x op= y`: F84 where there are several, and all are typed. Go, "Assignments".
pub fn assign_op(
    c: &mut Checker,
    place: Place,
    left: &Vec<Expr>,
    op: Op,
    right: &Vec<Expr>,
) -> Result<StmtId, NoMemory> {
    if let (Some(e), Some(r)) = (only(left), only(right)) {
        let x = read_side(c, e)?;
        let y = expr(c, r)?;
        return update(c, x, bare(e).place, op, y);
    }
    let mut typed = true;
    for e in left {
        if !is_blank(e) {
            let x = expr(c, bare(e))?;
            let side = target(c, x)?;
            typed &= is_typed(c, side);
        }
    }
    let values = exprs(c, right)?;
    typed &= are_typed(&values);
    miscounted(c, place, typed)
}

// Whether nothing runs when an operand is evaluated.
fn is_quiet(y: Operand) -> bool {
    y.constant().is_some()
}

// A left side whose operands are evaluated once, as an operand that reads it.
fn held(
    c: &mut Checker,
    parts: &mut Vec<u32>,
    x: Operand,
    quiet: bool,
) -> Result<Operand, NoMemory> {
    match x.mode {
        Mode::Variable(place) => {
            let place = hold_place(c, parts, place, quiet)?;
            let node = Node::Read { ty: x.ty, place };
            c.operand(Mode::Variable(place), x.place, x.ty, node)
        }
        Mode::MapEntry(operand, key) => {
            let operand = hold(c, parts, operand, quiet)?;
            let key = hold(c, parts, key, quiet)?;
            let map_type = match c.nodes.get(x.node) {
                Node::MapGet { map_type, .. } => map_type,
                _ => NONE,
            };
            let node = Node::MapGet {
                map_type,
                with_ok: false,
                operand,
                key,
            };
            c.operand(Mode::MapEntry(operand, key), x.place, x.ty, node)
        }
        _ => Ok(x),
    }
}

// The value of the operator goes back to the left side, which stands at a place.
fn update(
    c: &mut Checker,
    x: Operand,
    place: Place,
    op: Op,
    y: Operand,
) -> Result<StmtId, NoMemory> {
    let left = target(c, Operand { place, ..x })?;
    if !is_typed(c, left) {
        return nothing(c);
    }
    let mut parts: Vec<u32> = Vec::new(c.alloc);
    let x = held(c, &mut parts, x, is_quiet(y))?;
    let z = binary(c, x.place, op, x, y)?;
    if z.is_unknown() {
        return nothing(c);
    }
    let left = target(c, x)?;
    if !c.has(left.ty) {
        return nothing(c);
    }
    let z = assigned(c, z, left)?;
    parts.push(store_one(c, left.target, z.node)?.0)?;
    sequence(c, &parts)
}

/// `x++` or `x--`. Go, "IncDec statements".
pub fn inc_dec(
    c: &mut Checker,
    place: Place,
    list: &Vec<Expr>,
    up: bool,
) -> Result<StmtId, NoMemory> {
    let Some(e) = only(list) else {
        return several(c, place, list);
    };
    let x = read_side(c, e)?;
    let one = c.add_const(Const::Int(1))?;
    let y = c.constant_operand(x.place, untyped_id(Basis::Int), one)?;
    update(c, x, bare(e).place, if up { Op::Add } else { Op::Sub }, y)
}

/// A left side of `:=`: a name, with the object of the innermost block that has it. What is no name has none.
#[derive(Clone, Copy, Debug)]
struct LeftName {
    name: NameId,
    place: Place,
    old: Option<u32>,
}

impl LeftName {
    // Whether it declares no name, since it is `_` or none.
    fn is_nowhere(self) -> bool {
        self.name == BLANK || self.name == EMPTY
    }
}

/// The sides of `:=`.
#[derive(Drop)]
struct Defined {
    names: Vec<LeftName>,
    values: Vec<Operand>,
    /// Whether all are typed, and whether something is told of the names.
    typed: bool,
    told: bool,
    /// Whether there is a new name, or what is none.
    new: bool,
}

/// What is no name on the left of `:=`: F83, where it is typed.
pub fn no_name(c: &mut Checker, e: &Expr) -> Result<(), NoMemory> {
    let x = not_used(c, e)?;
    if !x.is_unknown() {
        c.fault(FaultCode::BadDefine, e.place)?;
    }
    Ok(())
}

// F83 at a left side that is no name, F82 at a name that was there.
fn left_names(c: &mut Checker, left: &Vec<Expr>) -> Result<Vec<LeftName>, NoMemory> {
    let mut out: Vec<LeftName> = Vec::new(c.alloc);
    for e in left {
        let name = match &*e.form {
            ExprForm::Name(text) => c.names.intern(text.as_bytes())?,
            _ => {
                no_name(c, e)?;
                EMPTY
            }
        };
        let mut l = LeftName {
            name,
            place: e.place,
            old: None,
        };
        if !l.is_nowhere() {
            if out.iter().any(|other| other.name == name) {
                c.fault_of(FaultCode::Redeclared, e.place, name)?;
            }
            l.old = c.innermost(name);
        }
        out.push(l)?;
    }
    Ok(out)
}

// Whether a left side is typed: one that isn't new is a variable whose type is known.
fn is_typed_name(c: &Checker, l: LeftName) -> bool {
    let Some(id) = l.old else {
        return l.name != EMPTY;
    };
    match c.object(id) {
        Some(object) => match object.entity {
            Entity::Local(_, t) => c.has(t),
            _ => false,
        },
        None => false,
    }
}

fn both_sides(c: &mut Checker, left: &Vec<Expr>, right: &Vec<Expr>) -> Result<Defined, NoMemory> {
    let faults = c.faults.len();
    let names = left_names(c, left)?;
    let told = c.faults.len() != faults;
    let mut typed = true;
    let mut new = false;
    for l in names.iter() {
        typed &= is_typed_name(c, *l);
        new |= l.old.is_none() && l.name != BLANK;
    }
    let values = exprs(c, right)?;
    typed &= are_typed(&values);
    Ok(Defined {
        names,
        values,
        typed,
        told,
        new,
    })
}

/// `x, y := z, w`: F83 without a new name, F84 where the counts differ, where all are typed.
pub fn define(
    c: &mut Checker,
    place: Place,
    left: &Vec<Expr>,
    right: &Vec<Expr>,
) -> Result<StmtId, NoMemory> {
    let d = both_sides(c, left, right)?;
    if d.typed && !d.new {
        c.fault(FaultCode::BadDefine, place)?;
    }
    let counts = d.typed && d.new && !d.told;
    let sides = match one_each(c, d.values, left.len())? {
        Some(sides) => sides,
        None => {
            miscounted(c, place, counts)?;
            Sides {
                values: Vec::new(c.alloc),
                results: None,
            }
        }
    };
    let mut parts: Vec<u32> = Vec::new(c.alloc);
    let mut lefts: Vec<Left> = Vec::new(c.alloc);
    let mut values: Vec<Operand> = Vec::new(c.alloc);
    for number in 0..d.names.len() {
        if let Some(l) = d.names.get(number).copied() {
            let x = match sides.values.get(number).copied() {
                Some(x) => x,
                None => c.unknown(l.place)?,
            };
            define_one(c, l, x, &mut parts, &mut lefts, &mut values)?;
        }
    }
    store_sides(c, parts, &sides, &lefts, &values)
}

/// `x, y := z, w` where it may not stand: F83, where all are typed.
pub fn undeclared(
    c: &mut Checker,
    place: Place,
    left: &Vec<Expr>,
    right: &Vec<Expr>,
) -> Result<(), NoMemory> {
    let d = both_sides(c, left, right)?;
    if d.typed && !d.told {
        c.fault(FaultCode::BadDefine, place)?;
    }
    Ok(())
}

// A name of the left with its value.
fn define_one(
    c: &mut Checker,
    l: LeftName,
    x: Operand,
    parts: &mut Vec<u32>,
    lefts: &mut Vec<Left>,
    values: &mut Vec<Operand>,
) -> Result<(), NoMemory> {
    let left = match l.old {
        Some(id) => old_variable(c, l, id)?,
        None => NOWHERE,
    };
    let x = if left.blank {
        default_value(c, x)?
    } else {
        assigned(c, x, left)?
    };
    values.push(x)?;
    if l.old.is_some() || l.is_nowhere() {
        lefts.push(left)?;
        return Ok(());
    }
    let var = new_variable(c, l.name, l.place, x.ty)?;
    parts.push(declare(c, var)?.0)?;
    lefts.push(variable_side(c, var, x.ty)?)?;
    Ok(())
}

/// A local variable as a left side.
pub fn variable_side(c: &mut Checker, var: VarRef, ty: TypeId) -> Result<Left, NoMemory> {
    let place = c.nodes.place(PlaceNode::Local(var))?;
    Ok(Left {
        target: Target::Place { ty, place },
        ty,
        blank: false,
    })
}

/// A new variable of the innermost block, which must be used.
pub fn new_variable(
    c: &mut Checker,
    name: NameId,
    place: Place,
    t: TypeId,
) -> Result<VarRef, NoMemory> {
    let var = c.fresh(name, place, t)?;
    c.declare(name, place, Entity::Local(var.0, t), true)?;
    Ok(var)
}

// A name that is assigned: F85 where it is no variable.
fn old_variable(c: &mut Checker, l: LeftName, id: u32) -> Result<Left, NoMemory> {
    let Some(object) = c.object(id) else {
        return Ok(NOT_THERE);
    };
    match object.entity {
        Entity::Local(var, t) if c.has(t) => {
            c.capture(var)?;
            variable_side(c, VarRef(var), t)
        }
        Entity::Local(_, _) => Ok(NOT_THERE),
        _ => {
            c.fault(FaultCode::CannotAssign, l.place)?;
            Ok(NOT_THERE)
        }
    }
}
