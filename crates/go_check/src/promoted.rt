//! Wrappers of promoted methods, and the rows of all methods. Go, "Struct types", "Method sets".

use crate::hidden::NOWHERE;
use crate::lower::whole::MethodSpec;
use crate::members::{OwnMethods, members, own_methods};
use gj_base::NoMemory;
use go_check_expr::calls::call;
use go_check_primary::selectors::selector;
use go_check_state::node::{PlaceNode, Span, StmtId, VarRef};
use go_check_state::state::MethodEntry;
use go_check_state::{Checker, EMPTY, FuncRow, NO_OBJECT, NONE, NameId, Operand, Shape};
use go_check_stmt::hold::set_body;
use go_check_stmt::sides::{one_each, return_sides};
use go_check_stmt::start::performed;
use go_type::types::{GoType, NamedId, TypeId};

/// The rows of all methods: those that are declared, and those that are promoted.
pub fn method_rows(c: &mut Checker) -> Result<Vec<MethodSpec>, NoMemory> {
    let mut rows: Vec<MethodSpec> = Vec::new(c.alloc);
    for number in 0..c.methods.len() {
        if let Some(entry) = c.methods.get(number).copied() {
            declared_rows(c, &mut rows, entry)?;
        }
    }
    let own = own_methods(c)?;
    for number in 0..c.types.len() {
        promoted_rows(c, &own, &mut rows, TypeId(number))?;
    }
    Ok(rows)
}

// A method has a row with its receiver's type, and one on the value one with the pointer's too.
fn declared_rows(
    c: &mut Checker,
    rows: &mut Vec<MethodSpec>,
    entry: MethodEntry,
) -> Result<(), NoMemory> {
    if entry.named >= c.types.name_len() {
        return Ok(());
    }
    let t = c.types.add(GoType::Named(NamedId(entry.named)))?;
    let pointer = c.pointer_to(t)?;
    let package = home_of(c, NamedId(entry.named), entry.name)?;
    let row = MethodSpec {
        ty: pointer,
        name: entry.name,
        package,
        func: entry.func,
    };
    rows.push(row)?;
    if !entry.pointer {
        rows.push(MethodSpec { ty: t, ..row })?;
    }
    Ok(())
}

/// The package by which a name of a named type's package is told apart.
pub fn home_of(c: &mut Checker, id: NamedId, name: NameId) -> Result<NameId, NoMemory> {
    if c.is_exported(name) || id.0 >= c.types.name_len() {
        return Ok(EMPTY);
    }
    let home = c.types.named(id).package.clone()?;
    c.names.intern(home.as_bytes())
}

// Whether a type may have promoted methods: a struct with an embedded field.
fn may_promote(c: &Checker, t: TypeId) -> bool {
    let Shape::Struct(count) = c.shape(t) else {
        return false;
    };
    for number in 0..count {
        if let Some(row) = c.field(t, number) {
            if row.embedded {
                return true;
            }
        }
    }
    false
}

// A row for each method that embedding promotes. Those of the type itself have theirs.
fn promoted_rows(
    c: &mut Checker,
    own: &OwnMethods,
    rows: &mut Vec<MethodSpec>,
    t: TypeId,
) -> Result<(), NoMemory> {
    if !may_promote(c, t) {
        return Ok(());
    }
    let pointer = c.pointer_to(t)?;
    if !c.has(pointer) || !c.has(t) {
        return Ok(());
    }
    let members = members(c, own, t)?;
    for member in members.iter() {
        if let Some((name, package, sig)) = member.promoted() {
            let func = wrapper(c, pointer, name, package, sig)?;
            let row = MethodSpec {
                ty: pointer,
                name,
                package,
                func,
            };
            rows.push(row)?;
            if member.of_value {
                rows.push(MethodSpec { ty: t, ..row })?;
            }
        }
    }
    Ok(())
}

// Enters the package that a name belongs to.
fn enter(c: &mut Checker, package: NameId) {
    for number in 0..c.paths.len() {
        if c.paths.get(number).copied() == Some(package) && number <= u32::MAX as usize {
            c.package = number as u32;
        }
    }
}

// The variables of a wrapper: receiver, parameters and results.
fn header(c: &mut Checker, pointer: TypeId, sig: TypeId) -> Result<Vec<u32>, NoMemory> {
    let mut vars: Vec<u32> = Vec::new(c.alloc);
    vars.push(c.fresh(EMPTY, NOWHERE, pointer)?.0)?;
    if let Shape::Func(params, results, _) = c.shape(sig) {
        for number in 0..params {
            let t = c.param(sig, number);
            vars.push(c.fresh(EMPTY, NOWHERE, t)?.0)?;
        }
        for number in 0..results {
            let t = c.result_type(sig, number);
            vars.push(c.fresh(EMPTY, NOWHERE, t)?.0)?;
        }
    }
    Ok(vars)
}

fn variable(c: &mut Checker, vars: &Vec<u32>, number: usize) -> Result<Operand, NoMemory> {
    let Some(var) = vars.get(number).copied() else {
        return c.unknown(NOWHERE);
    };
    let ty = match c.vars.get(var as usize) {
        Some(row) => row.ty,
        None => NONE,
    };
    c.variable(NOWHERE, ty, PlaceNode::Local(VarRef(var)))
}

// A function on the pointer that calls the promoted method.
fn wrapper(
    c: &mut Checker,
    pointer: TypeId,
    name: NameId,
    package: NameId,
    sig: TypeId,
) -> Result<u32, NoMemory> {
    if !c.is_exported(name) {
        enter(c, package);
    }
    let func = c.add_func(FuncRow {
        name: EMPTY,
        package: c.package,
        sig,
        place: NOWHERE,
        parent: None,
        receiver: Some(pointer),
        is_literal: false,
        scope: NO_OBJECT,
        params: Span { start: 0, len: 0 },
        body: None,
    })?;
    c.current = Some(func.0);
    let vars = header(c, pointer, sig)?;
    let body = passed_on(c, &vars, name, sig)?;
    c.current = None;
    let params = c.nodes.list(vars.as_slice())?;
    set_body(c, func.0, params, body);
    Ok(func.0)
}

// The body of a wrapper: the method with the parameters, whose results are the wrapper's.
fn passed_on(
    c: &mut Checker,
    vars: &Vec<u32>,
    name: NameId,
    sig: TypeId,
) -> Result<StmtId, NoMemory> {
    let (params, results, variadic) = match c.shape(sig) {
        Shape::Func(params, results, variadic) => (params, results, variadic),
        _ => (0, 0, false),
    };
    let receiver = variable(c, vars, 0)?;
    let method = selector(c, NOWHERE, receiver, NOWHERE, name)?;
    let mut args: Vec<Operand> = Vec::new(c.alloc);
    for number in 0..params {
        args.push(variable(c, vars, number.saturating_add(1))?)?;
    }
    let x = call(c, NOWHERE, method, args, variadic)?;
    if results == 0 {
        return performed(c, x);
    }
    let mut one: Vec<Operand> = Vec::new(c.alloc);
    one.push(x)?;
    match one_each(c, one, results)? {
        Some(sides) => return_sides(c, &sides, &sides.values),
        None => performed(c, x),
    }
}
