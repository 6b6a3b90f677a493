//! Fields of structs. Go, "Struct types".

use crate::type_row::small_type;
use gj_base::{NoMemory, Place, Text};
use go_check_state::{BLANK, Checker, FaultCode, NONE, NameId, Shape};
use go_syntax::tree::{Expr, ExprForm, Name};
use go_type::types::{FieldRow, TypeId};

/// How many fields or methods a type may have.
pub const MOST_PARTS: usize = 1000;

/// The fields of a struct type so far, and whether all are typed.
#[derive(Drop)]
pub struct StructRows {
    rows: Vec<FieldRow>,
    known: bool,
}

/// No fields.
pub fn struct_rows(c: &Checker) -> StructRows {
    StructRows {
        rows: Vec::new(c.alloc),
        known: true,
    }
}

/// An embedded field: its place, whether it has a `*`, and the type that its name denotes.
#[derive(Clone, Copy, Debug)]
pub struct Embedded {
    pub place: Place,
    pub star: bool,
    pub ty: TypeId,
}

// F77 where a field has the name; answers whether it has none. Past the limit of parts nothing is looked for.
fn is_new(
    c: &mut Checker,
    rows: &Vec<FieldRow>,
    place: Place,
    name: NameId,
) -> Result<bool, NoMemory> {
    if name == BLANK || rows.len() > MOST_PARTS {
        return Ok(true);
    }
    let text = c.names.text(name);
    if rows.iter().any(|row| row.name == *text) {
        c.fault_of(FaultCode::Duplicate, place, name)?;
        return Ok(false);
    }
    Ok(true)
}

fn push_row(
    c: &mut Checker,
    rows: &mut Vec<FieldRow>,
    name: NameId,
    ty: TypeId,
    embedded: bool,
    tag: &Option<Text>,
) -> Result<(), NoMemory> {
    let package = c.package_of(name);
    let tag = match tag {
        Some(text) => text.clone()?,
        None => Text::new(c.alloc),
    };
    rows.push(FieldRow {
        name: c.names.copy(name)?,
        package: c.names.copy(package)?,
        ty,
        embedded,
        tag,
    })?;
    Ok(())
}

// One more field: F77 where one has the name.
fn add_field(
    c: &mut Checker,
    out: &mut StructRows,
    name: &Name,
    ty: TypeId,
    tag: &Option<Text>,
) -> Result<(), NoMemory> {
    let id = c.names.intern(name.text.as_bytes())?;
    let fresh = is_new(c, &out.rows, name.place, id)?;
    push_row(c, &mut out.rows, id, ty, false, tag)?;
    out.known &= fresh && c.has(ty);
    Ok(())
}

/// Fields with one type, in order.
pub fn named_fields(
    c: &mut Checker,
    names: &Vec<Name>,
    t: TypeId,
    tag: &Option<Text>,
    out: &mut StructRows,
) -> Result<(), NoMemory> {
    for name in names {
        add_field(c, out, name, t, tag)?;
    }
    Ok(())
}

/// One more embedded field: F51 where its type may not be embedded.
pub fn add_embedded(
    c: &mut Checker,
    out: &mut StructRows,
    embedded: Embedded,
    name: Option<(Place, &Text)>,
    tag: &Option<Text>,
) -> Result<(), NoMemory> {
    let Some((at, text)) = name else {
        out.known = false;
        return Ok(());
    };
    let id = c.names.intern(text.as_bytes())?;
    let fresh = is_new(c, &out.rows, at, id)?;
    let allowed = is_embeddable(c, embedded)?;
    let ty = if embedded.star {
        c.pointer_to(embedded.ty)?
    } else {
        embedded.ty
    };
    push_row(c, &mut out.rows, id, ty, true, tag)?;
    out.known &= fresh && allowed && c.has(ty);
    Ok(())
}

fn is_embeddable(c: &mut Checker, embedded: Embedded) -> Result<bool, NoMemory> {
    if embedded.star || !c.is_set(embedded.ty) {
        c.embedded
            .push((embedded.ty, embedded.place, embedded.star))?;
        return Ok(true);
    }
    if let Shape::Pointer(_) = c.shape(embedded.ty) {
        c.fault(FaultCode::NotAType, embedded.place)?;
        return Ok(false);
    }
    Ok(true)
}

/// The struct type of fields. Go, "Struct types".
pub fn struct_type(c: &mut Checker, place: Place, out: StructRows) -> Result<TypeId, NoMemory> {
    if !out.known {
        return Ok(NONE);
    }
    if out.rows.len() > MOST_PARTS {
        c.fault(FaultCode::TooManyParts, place)?;
        return Ok(NONE);
    }
    let t = c.struct_of(out.rows)?;
    small_type(c, place, t)
}

/// The last name of `T` or `p.T`, with its place.
pub fn last_name(e: &Expr) -> Option<(Place, &Text)> {
    match &*e.form {
        ExprForm::Name(text) => Some((e.place, text)),
        ExprForm::Select(_, name) => Some((name.place, &name.text)),
        _ => None,
    }
}
