//! Names where something is wanted. Go, "Declarations and scope", "Qualified identifiers".

use gj_base::{NoMemory, Place, Text};
use go_check_state::node::{ConstId, FuncRef, Node, PlaceNode, VarRef};
use go_check_state::state::Colour;
use go_check_state::{BLANK, Checker, Entity, FaultCode, INIT, Mode, NONE, NameId, Operand};
use go_type::predeclared::untyped_id;
use go_type::types::Basis;

/// What a name is here: F50 where it has no declaration. `_` is no value, and no type.
pub fn name(c: &mut Checker, place: Place, text: &Text) -> Result<Operand, NoMemory> {
    let id = c.names.intern(text.as_bytes())?;
    if id == BLANK {
        return c.plain(Mode::NoValue, place, NONE);
    }
    let Some(found) = c.lookup(id) else {
        c.fault_of(FaultCode::Undefined, place, id)?;
        return c.unknown(place);
    };
    c.mark_used(found);
    object(c, place, found)
}

/// What an object is as an operand.
pub fn object(c: &mut Checker, place: Place, id: u32) -> Result<Operand, NoMemory> {
    let Some(object) = c.object(id) else {
        return c.unknown(place);
    };
    if let Some(unit) = object.unit {
        if !is_done(c, unit) {
            return undone(c, place, unit, object.entity);
        }
    }
    entity(c, place, object.entity)
}

fn is_done(c: &Checker, unit: u32) -> bool {
    match c.units.get(unit as usize) {
        Some(Colour::Done) => true,
        _ => false,
    }
}

fn is_stuck(c: &Checker, unit: u32) -> bool {
    match c.units.get(unit as usize) {
        Some(Colour::Stuck) => true,
        _ => false,
    }
}

// A name of the package whose declaration isn't typed yet: of a named type that may come to stand for
// something the name alone will do.
fn undone(c: &mut Checker, place: Place, unit: u32, entity: Entity) -> Result<Operand, NoMemory> {
    if let Entity::TypeName(t) = entity {
        if c.has(t) && !is_stuck(c, unit) {
            return c.plain(Mode::TypeName, place, t);
        }
    }
    c.block_on(unit)?;
    c.unknown(place)
}

/// What something declared is as an operand. Go, "Operands".
pub fn entity(c: &mut Checker, place: Place, entity: Entity) -> Result<Operand, NoMemory> {
    match entity {
        Entity::Unknown => c.unknown(place),
        Entity::Local(var, t) => {
            if !c.has(t) {
                return c.unknown(place);
            }
            c.capture(var)?;
            c.variable(place, t, PlaceNode::Local(VarRef(var)))
        }
        Entity::Global(number, t) => {
            if !c.has(t) {
                return c.unknown(place);
            }
            c.variable(place, t, PlaceNode::Global(number))
        }
        Entity::Constant(value, t) => constant(c, place, value, t),
        Entity::TypeName(t) => {
            if !c.has(t) {
                return c.unknown(place);
            }
            c.plain(Mode::TypeName, place, t)
        }
        Entity::Func(func, t) => {
            if !c.has(t) {
                return c.unknown(place);
            }
            let node = Node::Closure {
                ty: t,
                func: FuncRef(func),
            };
            c.value(place, t, node)
        }
        Entity::Builtin(builtin) => c.plain(Mode::Builtin(builtin), place, NONE),
        Entity::Nil => c.plain(Mode::Nil, place, go_type::predeclared::NIL),
        Entity::Package(package) => c.plain(Mode::Package(package), place, NONE),
        Entity::Iota => iota(c, place),
        Entity::Init => c.fail(FaultCode::BadMainOrInit, place),
        Entity::Missing => c.fail(FaultCode::NotInProfile, place),
    }
}

fn constant(
    c: &mut Checker,
    place: Place,
    value: ConstId,
    t: go_type::types::TypeId,
) -> Result<Operand, NoMemory> {
    if !c.has(t) {
        return c.unknown(place);
    }
    c.constant_operand(place, t, value)
}

// Go, "Iota".
fn iota(c: &mut Checker, place: Place) -> Result<Operand, NoMemory> {
    match c.iota {
        Some(value) => c.constant_operand(place, untyped_id(Basis::Int), value),
        None => {
            let name = c.names.intern(b"iota")?;
            c.fault_of(FaultCode::Undefined, place, name)?;
            c.unknown(place)
        }
    }
}

/// A name of another package: F62 where it has none, F63 where it isn't exported.
pub fn member(
    c: &mut Checker,
    place: Place,
    package: u32,
    at: Place,
    text: &Text,
) -> Result<Operand, NoMemory> {
    let id = c.names.intern(text.as_bytes())?;
    let found = match c.member(package, id) {
        Some(found) if id != INIT => found,
        _ => return no_member(c, place, at, id, FaultCode::NoFieldOrMethod),
    };
    if !c.is_exported(id) {
        return no_member(c, place, at, id, FaultCode::NotExported);
    }
    object(c, place, found)
}

/// An operand that isn't typed, with a fault at a name.
pub fn no_member(
    c: &mut Checker,
    place: Place,
    at: Place,
    name: NameId,
    code: FaultCode,
) -> Result<Operand, NoMemory> {
    c.fault_of(code, at, name)?;
    c.unknown(place)
}
