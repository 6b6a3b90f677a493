//! The types stage.

use crate::packages::bodies::{embedded_pointers, functions, initialisers};
use crate::packages::collect::collect;
use crate::packages::cycles::tell_cycles;
use crate::packages::imports::{ImportRow, import, tell_unused};
use crate::packages::order::{Imports, find_imports};
use crate::packages::resolve::{enter, resolve};
use crate::packages::unit::{UnitForm, Units};
use gj_base::{NoMemory, Text};
use go_check_state::state::{Colour, FaultRow};
use go_check_state::{Checker, Entity};
use go_check_stmt::bodies;
use go_syntax::tree::File;

/// A package: its path and its name.
#[derive(Clone, Copy)]
pub struct PackageRow<'a> {
    pub path: &'a Text,
    pub name: &'a Text,
}

/// A file of a package, by the package's number and its own. The files of a package stand together.
#[derive(Clone, Copy)]
pub struct FileRow<'a> {
    pub package: u32,
    pub number: u32,
    pub tree: &'a File,
}

/// Checks all packages, those that others import first. The checker then holds their core and faults.
/// Answers which package imports which.
pub fn check(
    c: &mut Checker,
    packages: &[PackageRow<'_>],
    files: &[FileRow<'_>],
) -> Result<Vec<(u32, u32)>, NoMemory> {
    let i = find_imports(c, packages, files)?;
    let mut starts: Vec<usize> = Vec::new(c.alloc);
    let mut at = 0usize;
    for file in files {
        for _ in starts.len()..(file.package as usize).saturating_add(1) {
            starts.push(at)?;
        }
        at = at.saturating_add(1);
    }
    for number in i.order.iter() {
        let start = starts.get(*number as usize).copied().unwrap_or(at);
        let end = end_of(files, *number, start);
        let own = files.get(start..end).unwrap_or(&[]);
        package(c, packages, &i, *number, own)?;
    }
    c.tell_wholes()?;
    c.tell_unused()?;
    Ok(i.edges)
}

// Where the files of a package end that begin at a place.
fn end_of(files: &[FileRow<'_>], number: u32, start: usize) -> usize {
    let mut end = start;
    for file in files.iter().skip(start) {
        if file.package != number {
            break;
        }
        end = end.saturating_add(1);
    }
    end
}

// One package, whose imports are done.
fn package(
    c: &mut Checker,
    packages: &[PackageRow<'_>],
    i: &Imports,
    number: u32,
    files: &[FileRow<'_>],
) -> Result<(), NoMemory> {
    let mut u = Units {
        rows: Vec::new(c.alloc),
        names: Vec::new(c.alloc),
        bodies: Vec::new(c.alloc),
        edges: Vec::new(c.alloc),
    };
    c.units.clear();
    for file in files {
        enter(c, number, file.number);
        collect(c, &mut u, file.tree)?;
    }
    let rows = import_all(c, packages, i, number, files)?;
    resolve_all(c, &mut u)?;
    tell_cycles(c, &u)?;
    embedded_pointers(c)?;
    initialisers(c, &u)?;
    let list = functions(c, &u)?;
    bodies(c, list)?;
    embedded_pointers(c)?;
    tell_unused(c, &rows)?;
    finish(c, &u)
}

// The imports of a package's files.
fn import_all(
    c: &mut Checker,
    packages: &[PackageRow<'_>],
    i: &Imports,
    number: u32,
    files: &[FileRow<'_>],
) -> Result<Vec<ImportRow>, NoMemory> {
    let mut rows: Vec<ImportRow> = Vec::new(c.alloc);
    for file in files {
        enter(c, number, file.number);
        for row in &file.tree.imports {
            let found = match i.find(c, row.path.as_bytes())? {
                Some(to) => Some((to, name_of(c, packages, to)?)),
                None => None,
            };
            import(c, &mut rows, file.number, row, found)?;
        }
    }
    Ok(rows)
}

// The name of a package; that of the compiler's own functions is `host`.
fn name_of(
    c: &mut Checker,
    packages: &[PackageRow<'_>],
    number: u32,
) -> Result<go_check_state::NameId, NoMemory> {
    match packages.get(number as usize) {
        Some(row) => c.names.intern(row.name.as_bytes()),
        None => c.names.intern(b"host"),
    }
}

// Types first, then methods, then all else.
fn resolve_all(c: &mut Checker, u: &mut Units<'_>) -> Result<(), NoMemory> {
    for turn in 0..3u32 {
        for number in 0..u.rows.len() {
            if let Some(row) = u.rows.get(number).copied() {
                if turn_of(row.form) == turn && number <= u32::MAX as usize {
                    resolve(c, u, number as u32)?;
                }
            }
        }
    }
    Ok(())
}

fn turn_of(form: UnitForm<'_>) -> u32 {
    match form {
        UnitForm::Type(_) => 0,
        UnitForm::Method(_, _, _) => 1,
        _ => 2,
    }
}

// The objects of a package that is done need no declaration any more.
fn finish(c: &mut Checker, u: &Units<'_>) -> Result<(), NoMemory> {
    for name in u.names.iter() {
        if let Some(id) = name.object {
            if (id as usize) < c.objects.len() {
                let typed = match c.objects[id as usize].unit {
                    Some(unit) => c.units.get(unit as usize).copied() == Some(Colour::Done),
                    None => true,
                };
                if !typed {
                    c.objects[id as usize].entity = Entity::Unknown;
                }
                c.objects[id as usize].unit = None;
            }
        }
    }
    for unit in c.named_units.iter_mut() {
        *unit = None;
    }
    Ok(())
}

// A fault is less by package, the root's path being `main`, by file, by offset and by number.
fn is_less(c: &Checker, packages: &Vec<u32>, a: FaultRow, b: FaultRow) -> bool {
    if a.place.file != b.place.file {
        let x = packages.get(a.place.file as usize).copied().unwrap_or(0);
        let y = packages.get(b.place.file as usize).copied().unwrap_or(0);
        if x != y {
            return path_of(c, x) < path_of(c, y);
        }
        return a.place.file < b.place.file;
    }
    a.place.offset < b.place.offset
        || a.place.offset == b.place.offset && a.code.number() < b.code.number()
}

fn path_of(c: &Checker, package: u32) -> &[u8] {
    if package == 0 {
        return b"main";
    }
    match c.paths.get(package as usize) {
        Some(path) => c.names.text(*path).as_bytes(),
        None => b"",
    }
}

/// The least fault: by package, file name, offset and number.
pub fn least(c: &Checker, files: &[FileRow<'_>]) -> Result<Option<FaultRow>, NoMemory> {
    let mut packages: Vec<u32> = Vec::new(c.alloc);
    for file in files {
        for _ in packages.len()..(file.number as usize).saturating_add(1) {
            packages.push(file.package)?;
        }
    }
    let mut best: Option<FaultRow> = None;
    for row in c.faults.iter() {
        let better = match best {
            None => true,
            Some(least) => is_less(c, &packages, *row, least),
        };
        if better {
            best = Some(*row);
        }
    }
    Ok(best)
}
