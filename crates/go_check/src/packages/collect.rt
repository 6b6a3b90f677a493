//! The declarations of a file, each name in its package's scope. Go, "Declarations and scope".

use crate::packages::unit::{Unit, UnitForm, UnitName, Units};
use gj_base::{NoMemory, Place};
use go_check_state::node::Span;
use go_check_state::state::{Colour, FuncRow, GlobalRow};
use go_check_state::{BLANK, Checker, Entity, FaultCode, INIT, NO_OBJECT, NONE, NameId};
use go_check_stmt::BodyRow;
use go_check_stmt::local::repeated;
use go_syntax::tree::{Block, Decl, DeclForm, File, Name, Params, Sig, TypeSpec, ValueSpec};
use go_type::types::TypeId;

/// Collects the declarations of a file of the present package.
pub fn collect<'a>(c: &mut Checker, u: &mut Units<'a>, file: &'a File) -> Result<(), NoMemory> {
    for d in &file.decls {
        decl(c, u, d)?;
    }
    Ok(())
}

fn decl<'a>(c: &mut Checker, u: &mut Units<'a>, d: &'a Decl) -> Result<(), NoMemory> {
    match &*d.form {
        DeclForm::Const(specs) => {
            for number in 0..specs.len() {
                if let Some(spec) = specs.get(number) {
                    const_spec(c, u, spec, repeated(specs, number), number)?;
                }
            }
            Ok(())
        }
        DeclForm::TypeDecl(specs) => {
            for spec in specs {
                type_spec(c, u, spec)?;
            }
            Ok(())
        }
        DeclForm::Var(specs) => {
            for spec in specs {
                var_spec(c, u, spec)?;
            }
            Ok(())
        }
        DeclForm::Func(None, name, sig, block) => func(c, u, d.place, name, sig, block),
        DeclForm::Func(Some(receiver), name, sig, block) => {
            method(c, u, d.place, receiver, name, sig, block)
        }
    }
}

// The number of the next declaration.
fn next_unit(c: &mut Checker) -> Result<u32, NoMemory> {
    let id = c.units.len();
    if id >= u32::MAX as usize {
        return Err(NoMemory);
    }
    c.units.push(Colour::White)?;
    Ok(id as u32)
}

fn add_unit<'a>(
    c: &mut Checker,
    u: &mut Units<'a>,
    form: UnitForm<'a>,
    len: usize,
    func: u32,
) -> Result<(), NoMemory> {
    let start = u.names.len().saturating_sub(len);
    u.rows.push(Unit {
        form,
        package: c.package,
        file: c.file,
        start,
        len,
        func,
    })?;
    Ok(())
}

// Whether the package has a function `init`.
fn has_init(c: &Checker) -> bool {
    let Some(id) = c.member(c.package, INIT) else {
        return false;
    };
    match c.object(id) {
        Some(object) => match object.entity {
            Entity::Init => true,
            _ => false,
        },
        None => false,
    }
}

// Declares a name of the package: F99 at `init`.
fn add_name(
    c: &mut Checker,
    u: &mut Units<'_>,
    name: &Name,
    unit: u32,
    entity: Entity,
    global: u32,
) -> Result<NameId, NoMemory> {
    let id = c.names.intern(name.text.as_bytes())?;
    let mut object = None;
    if id == INIT {
        c.fault(FaultCode::BadMainOrInit, name.place)?;
    }
    if id != INIT || !has_init(c) {
        let before = c.member(c.package, id);
        let package = c.package;
        c.declare_in(package, id, name.place, entity, Some(unit))?;
        if before.is_none() {
            object = c.member(package, id);
        }
    }
    u.names.push(UnitName {
        name: id,
        place: name.place,
        object,
        global,
    })?;
    Ok(id)
}

fn const_spec<'a>(
    c: &mut Checker,
    u: &mut Units<'a>,
    spec: &'a ValueSpec,
    from: Option<&'a ValueSpec>,
    iota: usize,
) -> Result<(), NoMemory> {
    let count = match from {
        Some(from) => from.values.len(),
        None => 0,
    };
    if count != spec.names.len() {
        return miscounted(c, u, spec, from, Some(iota));
    }
    for number in 0..spec.names.len() {
        if let Some(name) = spec.names.get(number) {
            let unit = next_unit(c)?;
            add_name(c, u, name, unit, Entity::Unknown, 0)?;
            let form = match from {
                Some(from) => { UnitForm::Const(from.ty.as_ref(), from.values.get(number), iota) }
                None => UnitForm::Const(None, None, iota),
            };
            add_unit(c, u, form, 1, 0)?;
        }
    }
    Ok(())
}

// A declaration with another number of values than of names.
fn miscounted<'a>(
    c: &mut Checker,
    u: &mut Units<'a>,
    spec: &'a ValueSpec,
    from: Option<&'a ValueSpec>,
    iota: Option<usize>,
) -> Result<(), NoMemory> {
    let unit = next_unit(c)?;
    for name in &spec.names {
        add_name(c, u, name, unit, Entity::Unknown, 0)?;
    }
    add_unit(c, u, UnitForm::Miscounted(from, iota), spec.names.len(), 0)
}

fn type_spec<'a>(c: &mut Checker, u: &mut Units<'a>, spec: &'a TypeSpec) -> Result<(), NoMemory> {
    let unit = next_unit(c)?;
    let entity = if spec.alias {
        Entity::Unknown
    } else {
        let id = c.names.intern(spec.name.text.as_bytes())?;
        let package = c.package;
        Entity::TypeName(c.declare_named(id, package, Some(unit))?)
    };
    add_name(c, u, &spec.name, unit, entity, 0)?;
    if let (Entity::TypeName(t), Some(last)) = (entity, u.names.last().copied()) {
        if last.object.is_none() {
            // A second or blank name has no object to keep the type.
            let len = u.names.len();
            if len > 0 {
                u.names[len - 1].global = small(t);
            }
        }
    }
    add_unit(c, u, UnitForm::Type(spec), 1, 0)
}

// The number of a type, which is small in any program that fits its limits.
fn small(t: TypeId) -> u32 {
    if t.0 <= u32::MAX as u64 {
        t.0 as u32
    } else {
        u32::MAX
    }
}

fn add_global(
    c: &mut Checker,
    name: NameId,
    place: Place,
    first: Option<u32>,
) -> Result<u32, NoMemory> {
    let id = c.globals.len();
    if id >= u32::MAX as usize {
        return Err(NoMemory);
    }
    let package = c.package;
    c.globals.push(GlobalRow {
        name,
        package,
        ty: NONE,
        place,
        initialiser: None,
        first: first.unwrap_or(id as u32),
    })?;
    Ok(id as u32)
}

fn var_spec<'a>(c: &mut Checker, u: &mut Units<'a>, spec: &'a ValueSpec) -> Result<(), NoMemory> {
    let several = spec.values.len() == 1 && spec.names.len() > 1;
    if !spec.values.is_empty() && !several && spec.values.len() != spec.names.len() {
        return miscounted(c, u, spec, Some(spec), None);
    }
    if several {
        let unit = next_unit(c)?;
        let mut first: Option<u32> = None;
        for name in &spec.names {
            let id = c.names.intern(name.text.as_bytes())?;
            let global = add_global(c, id, name.place, first)?;
            first = Some(first.unwrap_or(global));
            add_name(c, u, name, unit, Entity::Unknown, global)?;
        }
        let form = UnitForm::Var(spec.ty.as_ref(), spec.values.first());
        return add_unit(c, u, form, spec.names.len(), 0);
    }
    for number in 0..spec.names.len() {
        if let Some(name) = spec.names.get(number) {
            let unit = next_unit(c)?;
            let id = c.names.intern(name.text.as_bytes())?;
            let global = add_global(c, id, name.place, None)?;
            add_name(c, u, name, unit, Entity::Unknown, global)?;
            let form = UnitForm::Var(spec.ty.as_ref(), spec.values.get(number));
            add_unit(c, u, form, 1, 0)?;
        }
    }
    Ok(())
}

fn add_body<'a>(
    c: &mut Checker,
    u: &mut Units<'a>,
    name: NameId,
    place: Place,
    receiver: Option<&'a Params>,
    sig: &'a Sig,
    block: &'a Block,
) -> Result<u32, NoMemory> {
    let package = c.package;
    let func = c.add_func(FuncRow {
        name,
        package,
        sig: NONE,
        place,
        parent: None,
        receiver: None,
        is_literal: false,
        scope: NO_OBJECT,
        params: Span { start: 0, len: 0 },
        body: None,
    })?;
    u.bodies.push(BodyRow {
        func: func.0,
        receiver,
        sig,
        block,
    })?;
    Ok(func.0)
}

// A function; nothing refers to one named `init`. Go, "Package initialization".
fn func<'a>(
    c: &mut Checker,
    u: &mut Units<'a>,
    place: Place,
    name: &'a Name,
    sig: &'a Sig,
    block: &'a Block,
) -> Result<(), NoMemory> {
    let id = c.names.intern(name.text.as_bytes())?;
    let func = add_body(c, u, id, place, None, sig, block)?;
    let unit = next_unit(c)?;
    let faults = c.faults.len();
    if id == INIT && c.member(c.package, INIT).is_none() {
        let package = c.package;
        c.declare_in(package, INIT, name.place, Entity::Init, None)?;
    }
    if id == INIT || id == BLANK {
        u.names.push(UnitName {
            name: id,
            place: name.place,
            object: None,
            global: 0,
        })?;
    } else {
        add_name(c, u, name, unit, Entity::Unknown, 0)?;
    }
    if c.faults.len() != faults {
        c.spoil(func)?;
    }
    add_unit(c, u, UnitForm::Func(sig), 1, func)
}

fn method<'a>(
    c: &mut Checker,
    u: &mut Units<'a>,
    place: Place,
    receiver: &'a Params,
    name: &'a Name,
    sig: &'a Sig,
    block: &'a Block,
) -> Result<(), NoMemory> {
    let id = c.names.intern(name.text.as_bytes())?;
    let func = add_body(c, u, id, place, Some(receiver), sig, block)?;
    next_unit(c)?;
    u.names.push(UnitName {
        name: id,
        place: name.place,
        object: None,
        global: 0,
    })?;
    add_unit(c, u, UnitForm::Method(receiver, name, sig), 1, func)
}
