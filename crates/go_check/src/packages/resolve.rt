//! Types, values and signatures of declarations, in whatever order they need one another.
//!
//! An attempt types one declaration. Where it needs one that isn't typed yet, what it added is taken
//! back, and that one is tried first. A declaration that waits for itself is stuck; the faults of its last
//! attempt stay.

use crate::packages::methods::method;
use crate::packages::several::several_values;
use crate::packages::unit::{Unit, UnitForm, UnitName, Units};
use gj_base::NoMemory;
use go_check_expr::expr::expr;
use go_check_expr::{signature, type_expr};
use go_check_operand::assignment::default_value;
use go_check_state::state::Colour;
use go_check_state::{Checker, Entity, FaultCode, INIT, MAIN, NO_OBJECT, NONE, Operand, Shape};
use go_check_stmt::constants::is_spec_typed;
use go_check_stmt::local::const_entity;
use go_check_stmt::sides::{Sides, as_type, one_each};
use go_syntax::tree::{Expr, Sig, TypeSpec, ValueSpec};
use go_type::types::TypeId;

/// Enters the package and the file of a declaration.
pub fn enter(c: &mut Checker, package: u32, file: u32) {
    c.package = package;
    c.file = file;
    c.head = NO_OBJECT;
    c.current = None;
}

fn colour(c: &Checker, unit: u32) -> Colour {
    c.units.get(unit as usize).copied().unwrap_or(Colour::Stuck)
}

fn paint(c: &mut Checker, unit: u32, colour: Colour) {
    if (unit as usize) < c.units.len() {
        c.units[unit as usize] = colour;
    }
}

/// Types a declaration, and all that it needs first.
pub fn resolve(c: &mut Checker, u: &mut Units<'_>, unit: u32) -> Result<(), NoMemory> {
    let mut stack: Vec<u32> = Vec::new(c.alloc);
    stack.push(unit)?;
    for _ in 0..u64::MAX {
        let Some(top) = stack.last().copied() else {
            return Ok(());
        };
        match colour(c, top) {
            Colour::Done | Colour::Stuck => {
                stack.pop();
            }
            Colour::White | Colour::Grey => visit(c, u, &mut stack, top)?,
        }
    }
    Ok(())
}

// An attempt; what blocks it goes onto the stack.
fn visit(
    c: &mut Checker,
    u: &mut Units<'_>,
    stack: &mut Vec<u32>,
    unit: u32,
) -> Result<(), NoMemory> {
    paint(c, unit, Colour::Grey);
    let faults = c.faults.len();
    if attempt(c, u, unit)? {
        paint(c, unit, Colour::Done);
        return spoil(c, u, unit, faults);
    }
    let mut pushed = false;
    for number in 0..c.blockers.len() {
        if let Some(other) = c.blockers.get(number).copied() {
            u.edges.push((unit, other))?;
            if colour(c, other) == Colour::White {
                stack.push(other)?;
                pushed = true;
            }
        }
    }
    if pushed {
        c.faults.truncate(faults);
    } else {
        paint(c, unit, Colour::Stuck);
    }
    Ok(())
}

// A function whose declaration has a fault has none as a whole.
fn spoil(c: &mut Checker, u: &Units<'_>, unit: u32, faults: usize) -> Result<(), NoMemory> {
    match u.rows.get(unit as usize).copied() {
        Some(row) if c.faults.len() != faults => match row.form {
            UnitForm::Func(_) | UnitForm::Method(_, _, _) => c.spoil(row.func),
            _ => Ok(()),
        },
        _ => Ok(()),
    }
}

// Whether a declaration could be typed. What an attempt added that came too early is taken back, but for
// its faults.
fn attempt(c: &mut Checker, u: &mut Units<'_>, unit: u32) -> Result<bool, NoMemory> {
    let Some(row) = u.rows.get(unit as usize).copied() else {
        return Ok(true);
    };
    enter(c, row.package, row.file);
    let funcs = c.funcs.len();
    let embedded = c.embedded.len();
    c.blockers.clear();
    try_unit(c, u, row)?;
    if c.blockers.is_empty() {
        return Ok(true);
    }
    c.funcs.truncate(funcs);
    c.embedded.truncate(embedded);
    Ok(false)
}

fn try_unit(c: &mut Checker, u: &Units<'_>, row: Unit<'_>) -> Result<(), NoMemory> {
    let Some(name) = u.names.get(row.start).copied() else {
        return Ok(());
    };
    match row.form {
        UnitForm::Type(spec) => try_type(c, name, spec),
        UnitForm::Const(t, value, iota) => {
            let entity = match value {
                Some(e) => const_entity(c, t, e, iota)?,
                None => Entity::Unknown,
            };
            settle(c, name, entity);
            Ok(())
        }
        UnitForm::Var(Some(t), _) => try_typed_var(c, u, row, t),
        UnitForm::Var(None, value) => try_var(c, u, row, value),
        UnitForm::Miscounted(from, iota) => try_miscounted(c, name, from, iota),
        UnitForm::Func(sig) => try_func(c, name, row.func, sig),
        UnitForm::Method(list, at, sig) => method(c, row.func, list, at, sig),
    }
}

// Says what a name stands for, once nothing blocks.
fn settle(c: &mut Checker, name: UnitName, entity: Entity) {
    if !c.blockers.is_empty() {
        return;
    }
    if let Some(object) = name.object {
        c.settle(object, entity);
    }
}

// Go, "Type declarations".
fn try_type(c: &mut Checker, name: UnitName, spec: &TypeSpec) -> Result<(), NoMemory> {
    let t = type_expr(c, &spec.ty, !spec.alias)?;
    if spec.alias {
        let entity = if c.has(t) {
            Entity::TypeName(t)
        } else {
            Entity::Unknown
        };
        settle(c, name, entity);
        return Ok(());
    }
    if !c.blockers.is_empty() {
        return Ok(());
    }
    if !c.has(t) {
        settle(c, name, Entity::Unknown);
        return Ok(());
    }
    let named = match name.object {
        Some(object) => match c.object(object) {
            Some(object) => match object.entity {
                Entity::TypeName(t) => t,
                _ => NONE,
            },
            None => NONE,
        },
        None => TypeId(name.global as u64),
    };
    c.set_named(named, t);
    Ok(())
}

// F84 of names and values in another number, where all are typed. What the names stand for isn't known.
fn try_miscounted(
    c: &mut Checker,
    name: UnitName,
    from: Option<&ValueSpec>,
    iota: Option<usize>,
) -> Result<(), NoMemory> {
    let typed = match from {
        Some(from) => is_spec_typed(c, from, iota)?,
        None => true,
    };
    if typed {
        c.fault(FaultCode::CountMismatch, name.place)?;
    }
    Ok(())
}

// What the types of a signature stand for has to be known.
fn need_types(c: &mut Checker, sig: TypeId) -> Result<(), NoMemory> {
    let Shape::Func(params, results, _) = c.shape(sig) else {
        return Ok(());
    };
    for number in 0..params {
        let t = c.param(sig, number);
        c.need(t)?;
    }
    for number in 0..results {
        let t = c.result_type(sig, number);
        c.need(t)?;
    }
    Ok(())
}

// F99: `main` of the root, and `init`, have no parameters and results. Go, "Program execution".
fn tell_start(c: &mut Checker, name: UnitName, sig: TypeId) -> Result<(), NoMemory> {
    if name.name != INIT && (name.name != MAIN || c.package != 0) {
        return Ok(());
    }
    match c.shape(sig) {
        Shape::Func(params, results, _) if params > 0 || results > 0 => {
            c.fault(FaultCode::BadMainOrInit, name.place)
        }
        _ => Ok(()),
    }
}

fn try_func(c: &mut Checker, name: UnitName, func: u32, sig: &Sig) -> Result<(), NoMemory> {
    let t = signature(c, sig)?;
    need_types(c, t)?;
    if !c.blockers.is_empty() {
        return Ok(());
    }
    tell_start(c, name, t)?;
    if (func as usize) < c.funcs.len() {
        c.funcs[func as usize].sig = t;
    }
    settle(c, name, Entity::Func(func, t));
    Ok(())
}

fn set_global(c: &mut Checker, name: UnitName, t: TypeId) {
    if !c.blockers.is_empty() {
        return;
    }
    if (name.global as usize) < c.globals.len() {
        c.globals[name.global as usize].ty = t;
    }
    settle(c, name, Entity::Global(name.global, t));
}

// A variable with a type: its value is looked at once all is typed.
fn try_typed_var(c: &mut Checker, u: &Units<'_>, row: Unit<'_>, t: &Expr) -> Result<(), NoMemory> {
    let t = type_expr(c, t, true)?;
    for number in row.start..row.start.saturating_add(row.len) {
        if let Some(name) = u.names.get(number).copied() {
            set_global(c, name, t);
        }
    }
    Ok(())
}

// A variable, or several, with the type of the value. Go, "Variable declarations".
fn try_var(
    c: &mut Checker,
    u: &Units<'_>,
    row: Unit<'_>,
    value: Option<&Expr>,
) -> Result<(), NoMemory> {
    let Some(e) = value else { return Ok(()) };
    let x = expr(c, e)?;
    let sides = initial_values(c, u, row, x)?;
    let mut values: Vec<Operand> = Vec::new(c.alloc);
    for number in 0..row.len {
        if let Some(name) = u.names.get(row.start.saturating_add(number)).copied() {
            let x = match sides.values.get(number).copied() {
                Some(x) => default_value(c, x)?,
                None => c.unknown(name.place)?,
            };
            set_global(c, name, x.ty);
            values.push(x)?;
        }
    }
    set_initialiser(c, u, row, &sides, &values)
}

// The values of an initialiser, one for each name: F84 where the counts differ.
fn initial_values(
    c: &mut Checker,
    u: &Units<'_>,
    row: Unit<'_>,
    x: Operand,
) -> Result<Sides, NoMemory> {
    let mut one: Vec<Operand> = Vec::new(c.alloc);
    one.push(x)?;
    match one_each(c, one, row.len)? {
        Some(sides) => Ok(sides),
        None => {
            if let Some(name) = u.names.get(row.start).copied() {
                c.fault(FaultCode::CountMismatch, name.place)?;
            }
            Ok(Sides {
                values: Vec::new(c.alloc),
                results: None,
            })
        }
    }
}

/// The value of a variable with a type.
pub fn initialise(
    c: &mut Checker,
    u: &Units<'_>,
    row: Unit<'_>,
    value: &Expr,
) -> Result<(), NoMemory> {
    let x = expr(c, value)?;
    let sides = initial_values(c, u, row, x)?;
    let mut values: Vec<Operand> = Vec::new(c.alloc);
    for number in 0..sides.values.len() {
        if let (Some(x), Some(name)) = (
            sides.values.get(number).copied(),
            u.names.get(row.start.saturating_add(number)).copied(),
        ) {
            if let Some(global) = c.globals.get(name.global as usize).copied() {
                values.push(as_type(c, x, global.ty)?)?;
            }
        }
    }
    set_initialiser(c, u, row, &sides, &values)
}

// The first of the names alone has the initialiser, which gives a value for each.
fn set_initialiser(
    c: &mut Checker,
    u: &Units<'_>,
    row: Unit<'_>,
    sides: &Sides,
    values: &Vec<Operand>,
) -> Result<(), NoMemory> {
    let Some(name) = u.names.get(row.start).copied() else {
        return Ok(());
    };
    if !c.blockers.is_empty() {
        return Ok(());
    }
    let node = match values.first().copied() {
        Some(x) if values.len() == 1 && sides.results.is_none() => Some(x.node),
        Some(_) => several_values(c, name.place, sides, values)?,
        None => None,
    };
    if let Some(row) = c.globals.as_mut_slice().get_mut(name.global as usize) {
        row.initialiser = node;
    }
    Ok(())
}
