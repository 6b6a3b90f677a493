//! Method declarations. Go, "Method declarations".

use gj_base::{NoMemory, Place};
use go_check_expr::signature;
use go_check_state::below::ids_below;
use go_check_state::state::MethodEntry;
use go_check_state::{BLANK, Checker, FaultCode, NameId, Shape};
use go_syntax::tree::{Expr, ExprForm, Name, Params, Prefix, Sig};
use go_type::types::{NamedId, TypeId};

// The name of a receiver's type, without parentheses and a `*`, and whether there was one.
fn base(e: &Expr, star: bool) -> Option<(&Expr, bool)> {
    match &*e.form {
        ExprForm::Paren(x) => base(x, star),
        ExprForm::Unary(Prefix::Star, x) if !star => base(x, true),
        ExprForm::Name(_) => Some((e, star)),
        _ => None,
    }
}

/// The receiver's type, the named type, and whether there is a `*`. F95 where there is none.
fn receiver(c: &mut Checker, list: &Params) -> Result<Option<(TypeId, bool, Place)>, NoMemory> {
    let Some(p) = list.items.first() else {
        c.fault(FaultCode::BadReceiver, list.place)?;
        return Ok(None);
    };
    if list.items.len() != 1 || p.variadic {
        c.fault(FaultCode::BadReceiver, list.place)?;
        return Ok(None);
    }
    let at = p.ty.place;
    let Some((name, star)) = base(&p.ty, false) else {
        let before = c.faults.len();
        let t = go_check_expr::type_expr(c, &p.ty, false)?;
        if c.has(t) && c.faults.len() == before {
            c.fault(FaultCode::BadReceiver, at)?;
        }
        return Ok(None);
    };
    let t = go_check_expr::type_expr(c, name, true)?;
    if !c.has(t) {
        return Ok(None);
    }
    if !is_own(c, t) {
        c.fault(FaultCode::BadReceiver, at)?;
        return Ok(None);
    }
    Ok(Some((t, star, at)))
}

// Whether it is a named type of the package that may have methods.
fn is_own(c: &Checker, t: TypeId) -> bool {
    let Shape::Named(id) = c.level(t) else {
        return false;
    };
    match c.shape(t) {
        Shape::Pointer(_) | Shape::Interface(_) => false,
        _ => is_here(c, id),
    }
}

fn is_here(c: &Checker, id: NamedId) -> bool {
    if id.0 == 0 || id.0 >= c.types.name_len() {
        return false;
    }
    let home = &c.types.named(id).package;
    match c.paths.get(c.package as usize) {
        Some(path) => *home == *c.names.text(*path),
        None => false,
    }
}

/// Adds a method to its type: F77 at a second one.
pub fn method(
    c: &mut Checker,
    func: u32,
    list: &Params,
    name: &Name,
    sig: &Sig,
) -> Result<(), NoMemory> {
    let found = receiver(c, list)?;
    let t = signature(c, sig)?;
    let id = c.names.intern(name.text.as_bytes())?;
    if !c.blockers.is_empty() {
        return Ok(());
    }
    if (func as usize) < c.funcs.len() {
        c.funcs[func as usize].sig = t;
    }
    let Some((named, pointer, _)) = found else {
        return Ok(());
    };
    let of = if pointer { c.pointer_to(named)? } else { named };
    if (func as usize) < c.funcs.len() {
        c.funcs[func as usize].receiver = Some(of);
    }
    if id == BLANK {
        return Ok(());
    }
    if !c.has(t) {
        return untyped(c, named, id);
    }
    if is_taken(c, named, id) {
        return c.fault_of(FaultCode::Duplicate, name.place, id);
    }
    add_method(c, named, id, pointer, t, func, name.place)
}

// What needs a method that isn't typed has no fault of its own.
fn untyped(c: &mut Checker, named: TypeId, name: NameId) -> Result<(), NoMemory> {
    if let Shape::Named(id) = c.level(named) {
        c.untyped_methods.push((id.0, name))?;
    }
    Ok(())
}

// Whether a method or a field of the type has the name.
fn is_taken(c: &Checker, named: TypeId, name: NameId) -> bool {
    if c.declared_method(named, name).is_some() {
        return true;
    }
    let Shape::Struct(count) = c.shape(named) else {
        return false;
    };
    let text = c.names.text(name);
    for number in 0..count {
        if let Some(row) = c.field(named, number) {
            if row.name == *text {
                return true;
            }
        }
    }
    false
}

/// Adds a method to a named type.
pub fn add_method(
    c: &mut Checker,
    named: TypeId,
    name: NameId,
    pointer: bool,
    sig: TypeId,
    func: u32,
    place: Place,
) -> Result<(), NoMemory> {
    let Shape::Named(id) = c.level(named) else {
        return Ok(());
    };
    c.add_method(MethodEntry {
        named: id.0,
        name,
        pointer,
        sig,
        func,
        place,
    })?;
    let text = c.names.copy(name)?;
    let Some(row) = c.sig_copy(sig)? else {
        return Ok(());
    };
    if !ids_below(&c.types, row.params.as_slice()) {
        return Ok(());
    }
    if !ids_below(&c.types, row.results.as_slice()) {
        return Ok(());
    }
    if id.0 < c.types.name_len() {
        c.types.add_method(id, text, pointer, row)?;
    }
    Ok(())
}
