//! Declarations in bodies. Go, "Constant declarations", "Type declarations", "Variable declarations".

use crate::assign::{NOWHERE, new_variable, variable_side};
use crate::constants::{constant_value, is_spec_typed};
use crate::hold::{declare, nothing, sequence};
use crate::sides::{Left, Sides, as_type, exprs, one_each, store_sides};
use gj_base::NoMemory;
use go_check_expr::calls::are_typed;
use go_check_expr::type_expr;
use go_check_operand::assignment::default_value;
use go_check_state::node::StmtId;
use go_check_state::{BLANK, Checker, Entity, FaultCode, NONE, Operand, Shape};
use go_syntax::tree::{Decl, DeclForm, Expr, Name, TypeSpec, ValueSpec};
use go_type::types::TypeId;

/// A declaration.
pub fn decl(c: &mut Checker, d: &Decl) -> Result<StmtId, NoMemory> {
    match &*d.form {
        DeclForm::Const(specs) => consts(c, specs),
        DeclForm::TypeDecl(specs) => {
            for spec in specs {
                type_spec(c, spec)?;
            }
            nothing(c)
        }
        DeclForm::Var(specs) => {
            let mut parts: Vec<u32> = Vec::new(c.alloc);
            for spec in specs {
                parts.push(var_spec(c, spec)?.0)?;
            }
            sequence(c, &parts)
        }
        DeclForm::Func(_, _, _, _) => nothing(c),
    }
}

/// The declaration whose type and values a constant declaration repeats: the last that has some.
pub fn repeated(specs: &Vec<ValueSpec>, number: usize) -> Option<&ValueSpec> {
    for back in (0..specs.len()).rev() {
        if back <= number {
            if let Some(spec) = specs.get(back) {
                if !spec.values.is_empty() {
                    return Some(spec);
                }
            }
        }
    }
    None
}

fn consts(c: &mut Checker, specs: &Vec<ValueSpec>) -> Result<StmtId, NoMemory> {
    for number in 0..specs.len() {
        if let Some(spec) = specs.get(number) {
            const_spec(c, spec, repeated(specs, number), number)?;
        }
    }
    nothing(c)
}

// F84 where a declaration's names and values differ in number, and all is typed.
fn counts_differ(c: &mut Checker, names: &Vec<Name>, typed: bool) -> Result<(), NoMemory> {
    match names.first() {
        Some(name) if typed => c.fault(FaultCode::CountMismatch, name.place),
        _ => Ok(()),
    }
}

// Whether a declaration has no type, or one that is known.
fn is_known(c: &Checker, t: Option<TypeId>) -> bool {
    match t {
        Some(t) => c.has(t),
        None => true,
    }
}

// F84 of a constant declaration with another number of values than of names, where all is typed.
fn consts_differ(
    c: &mut Checker,
    names: &Vec<Name>,
    from: Option<&ValueSpec>,
    iota: usize,
) -> Result<(), NoMemory> {
    let typed = match from {
        Some(from) => is_spec_typed(c, from, Some(iota))?,
        None => true,
    };
    counts_differ(c, names, typed)
}

fn const_spec(
    c: &mut Checker,
    spec: &ValueSpec,
    from: Option<&ValueSpec>,
    iota: usize,
) -> Result<(), NoMemory> {
    let each = match from {
        Some(from) => from.values.len() == spec.names.len(),
        None => spec.names.is_empty(),
    };
    if !each {
        consts_differ(c, &spec.names, from, iota)?;
    }
    let mut values: Vec<Entity> = Vec::new(c.alloc);
    for number in 0..spec.names.len() {
        let entity = match from {
            Some(from) if each => match from.values.get(number) {
                Some(e) => const_entity(c, from.ty.as_ref(), e, iota)?,
                None => Entity::Unknown,
            },
            _ => Entity::Unknown,
        };
        values.push(entity)?;
    }
    for number in 0..spec.names.len() {
        if let (Some(name), Some(entity)) = (spec.names.get(number), values.get(number).copied()) {
            let id = c.names.intern(name.text.as_bytes())?;
            c.declare(id, name.place, entity, false)?;
        }
    }
    Ok(())
}

/// What a constant's name stands for.
pub fn const_entity(
    c: &mut Checker,
    ty: Option<&Expr>,
    value: &Expr,
    iota: usize,
) -> Result<Entity, NoMemory> {
    Ok(match constant_value(c, ty, value, iota)? {
        Some((value, t)) => Entity::Constant(value, t),
        None => Entity::Unknown,
    })
}

// F74 where a type contains itself. Go, "Type declarations".
fn type_spec(c: &mut Checker, spec: &TypeSpec) -> Result<(), NoMemory> {
    let id = c.names.intern(spec.name.text.as_bytes())?;
    if spec.alias {
        let t = type_expr(c, &spec.ty, false)?;
        return c.declare(id, spec.name.place, known_type(c, t), false);
    }
    let package = c.package;
    let named = c.declare_named(id, package, None)?;
    c.declare(id, spec.name.place, Entity::TypeName(named), false)?;
    let before = c.pending.len();
    let under = type_expr(c, &spec.ty, true)?;
    if is_pending(c, named, before) {
        c.fault(FaultCode::RecursiveType, spec.name.place)?;
    }
    c.pending.truncate(before);
    c.set_named(named, under);
    if !c.is_set(named) {
        forget(c, &spec.name)?;
    }
    Ok(())
}

fn known_type(c: &Checker, t: TypeId) -> Entity {
    if c.has(t) {
        Entity::TypeName(t)
    } else {
        Entity::Unknown
    }
}

fn is_pending(c: &Checker, named: TypeId, before: usize) -> bool {
    let Shape::Named(id) = c.level(named) else {
        return false;
    };
    c.pending.iter().skip(before).any(|p| *p == id.0)
}

// A type that could not be found stands for nothing.
fn forget(c: &mut Checker, name: &Name) -> Result<(), NoMemory> {
    let id = c.names.intern(name.text.as_bytes())?;
    if let Some(found) = c.innermost(id) {
        c.settle(found, Entity::Unknown);
    }
    Ok(())
}

fn var_spec(c: &mut Checker, spec: &ValueSpec) -> Result<StmtId, NoMemory> {
    let t = match &spec.ty {
        Some(e) => Some(type_expr(c, e, true)?),
        None => None,
    };
    if spec.values.is_empty() {
        return without_values(c, spec, t.unwrap_or(NONE));
    }
    let values = exprs(c, &spec.values)?;
    let typed = are_typed(&values);
    let Some(sides) = one_each(c, values, spec.names.len())? else {
        counts_differ(c, &spec.names, typed && is_known(c, t))?;
        return without_values(c, spec, NONE);
    };
    if !typed && spec.names.len() != spec.values.len() {
        return without_values(c, spec, NONE);
    }
    with_values(c, spec, t, &sides)
}

// The names, each a fresh variable.
fn without_values(c: &mut Checker, spec: &ValueSpec, t: TypeId) -> Result<StmtId, NoMemory> {
    let mut parts: Vec<u32> = Vec::new(c.alloc);
    for name in &spec.names {
        let id = c.names.intern(name.text.as_bytes())?;
        if id != BLANK {
            let var = new_variable(c, id, name.place, t)?;
            parts.push(declare(c, var)?.0)?;
        }
    }
    sequence(c, &parts)
}

// The names with their values, which are evaluated before the names are declared.
fn with_values(
    c: &mut Checker,
    spec: &ValueSpec,
    t: Option<TypeId>,
    sides: &Sides,
) -> Result<StmtId, NoMemory> {
    let mut parts: Vec<u32> = Vec::new(c.alloc);
    let mut lefts: Vec<Left> = Vec::new(c.alloc);
    let mut values: Vec<Operand> = Vec::new(c.alloc);
    for number in 0..spec.names.len() {
        if let Some(name) = spec.names.get(number) {
            let x = match sides.values.get(number).copied() {
                Some(x) => x,
                None => c.unknown(name.place)?,
            };
            let x = match t {
                Some(t) => as_type(c, x, t)?,
                None => default_value(c, x)?,
            };
            values.push(x)?;
            lefts.push(var_name(c, name, t.unwrap_or(x.ty), &mut parts)?)?;
        }
    }
    store_sides(c, parts, sides, &lefts, &values)
}

// A name as a left side, once it is declared.
fn var_name(
    c: &mut Checker,
    name: &Name,
    ty: TypeId,
    parts: &mut Vec<u32>,
) -> Result<Left, NoMemory> {
    let id = c.names.intern(name.text.as_bytes())?;
    if id == BLANK {
        return Ok(NOWHERE);
    }
    let var = new_variable(c, id, name.place, ty)?;
    parts.push(declare(c, var)?.0)?;
    variable_side(c, var, ty)
}
