//! Imports of files. Go, "Import declarations".

use gj_base::{NoMemory, Place};
use go_check_state::state::joined;
use go_check_state::{BLANK, Checker, Entity, FaultCode, INIT, NO_OBJECT, NameId, Object};
use go_syntax::tree::Import;

/// An import, with the object that stands for its package in the file.
#[derive(Clone, Copy, Debug)]
pub struct ImportRow {
    pub place: Place,
    pub path: NameId,
    pub name: NameId,
    pub package: u32,
    pub object: u32,
}

// The place of an import's name, or of its path where it has none.
fn name_place(import: &Import) -> Place {
    match &import.name {
        Some(name) => name.place,
        None => import.path_place,
    }
}

/// Declares an import in its file's scope: F98, F99 and F82.
pub fn import(
    c: &mut Checker,
    rows: &mut Vec<ImportRow>,
    file: u32,
    import: &Import,
    found: Option<(u32, NameId)>,
) -> Result<(), NoMemory> {
    let path = c.names.intern(import.path.as_bytes())?;
    let given = match &import.name {
        Some(name) => Some(c.names.intern(name.text.as_bytes())?),
        None => None,
    };
    let dot = c.names.intern(b".")?;
    if given == Some(BLANK) || given == Some(dot) {
        return c.fault(FaultCode::BadImport, import.place);
    }
    let Some((package, own)) = found else {
        return Ok(());
    };
    let name = given.unwrap_or(own);
    let place = name_place(import);
    if name == INIT {
        return c.fault(FaultCode::BadMainOrInit, place);
    }
    let object = declare(c, file, package, name, place)?;
    rows.push(ImportRow {
        place: import.place,
        path,
        name,
        package,
        object,
    })?;
    Ok(())
}

// The object that stands for a package in a file.
//
// A name that stands for something else too is not told as unused.
fn declare(
    c: &mut Checker,
    file: u32,
    package: u32,
    name: NameId,
    place: Place,
) -> Result<u32, NoMemory> {
    let key = joined(file, name.0);
    let first = c.imports.get(&key).is_none();
    let taken = !first || c.member(c.package, name).is_some();
    if taken {
        c.fault_of(FaultCode::Redeclared, place, name)?;
    }
    let object = c.add_object(Object {
        name,
        place,
        entity: Entity::Package(package),
        unit: None,
        outer: NO_OBJECT,
        used: taken,
        must_use: false,
    })?;
    if first {
        c.imports.insert(key, object)?;
    }
    Ok(object)
}

/// F81 at each import that nothing uses.
pub fn tell_unused(c: &mut Checker, rows: &Vec<ImportRow>) -> Result<(), NoMemory> {
    for row in rows.iter() {
        let used = match c.object(row.object) {
            Some(object) => object.used,
            None => true,
        };
        if !used {
            c.fault_of(FaultCode::UnusedImport, row.place, row.path)?;
        }
    }
    Ok(())
}
