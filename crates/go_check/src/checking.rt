//! From packages to the core program.

use crate::hidden::hidden;
use crate::limits::{tell_made, tell_written};
use crate::lower::whole::{Beside, MethodSpec, program};
use crate::packages::stage::{FileRow, PackageRow, least};
use crate::promoted::method_rows;
use gj_base::{Fault, NoMemory, Refusal};
use go_check_state::state::FaultRow;
use go_check_state::{Checker, Entity, MAIN};
use go_core::program::Program;
use go_load::Packages;
use std::alloc::Global;

/// The core program of packages, the root first; or their least fault of the types stage.
pub fn check(alloc: Global, packages: &Packages) -> Result<Program, Refusal> {
    let mut c = Checker::new(alloc)?;
    match checked(&mut c, packages) {
        Ok(beside) => Ok(program(c, &beside)?),
        Err(refusal) => Err(refusal),
    }
}

// Checks packages; what their core program has beside the tables.
fn checked(c: &mut Checker, packages: &Packages) -> Result<Beside, Refusal> {
    let mut rows: Vec<PackageRow<'_>> = Vec::new(c.alloc);
    let mut files: Vec<FileRow<'_>> = Vec::new(c.alloc);
    gather(packages, &mut rows, &mut files)?;
    c.predeclare_all()?;
    let hidden = hidden(c)?;
    let imports = crate::packages::stage::check(c, rows.as_slice(), files.as_slice())?;
    tell_least(c, files.as_slice())?;
    Ok(Beside {
        methods: methods_of(c)?,
        main: main_of(c),
        hidden,
        imports,
        packages: packages.packages.len(),
    })
}

// The least fault of what is written, if there is one.
fn tell_least(c: &mut Checker, files: &[FileRow<'_>]) -> Result<(), Refusal> {
    tell_written(c)?;
    match least(c, files)? {
        Some(row) => Err(refusal(c, row)?),
        None => Ok(()),
    }
}

// The rows of all methods, those that are made among them.
fn methods_of(c: &mut Checker) -> Result<Vec<MethodSpec>, Refusal> {
    let methods = method_rows(c)?;
    tell_made(c)?;
    match c.faults.first().copied() {
        Some(row) => Err(refusal(c, row)?),
        None => Ok(methods),
    }
}

// The packages and their files, by number.
fn gather<'a>(
    packages: &'a Packages,
    rows: &mut Vec<PackageRow<'a>>,
    files: &mut Vec<FileRow<'a>>,
) -> Result<(), NoMemory> {
    let mut package = 0u32;
    for number in 0..packages.packages.len() {
        if let (Some(path), Some(row)) = (
            packages.packages.path(number),
            packages.packages.get(number),
        ) {
            rows.push(PackageRow {
                path,
                name: &row.name,
            })?;
            for tree in &row.files {
                files.push(FileRow {
                    package,
                    number: tree.package.place.file,
                    tree,
                })?;
            }
        }
        package = package.saturating_add(1);
    }
    Ok(())
}

// A fault with the name that is told of it.
fn refusal(c: &Checker, row: FaultRow) -> Result<Refusal, NoMemory> {
    let text = c.names.copy(row.name)?;
    Ok(Refusal::Fault(Fault {
        place: row.place,
        code: row.code.number(),
        text,
    }))
}

// The number of the root's function `main`.
fn main_of(c: &Checker) -> u32 {
    let Some(id) = c.member(0, MAIN) else {
        return 0;
    };
    match c.object(id) {
        Some(object) => match object.entity {
            Entity::Func(func, _) => func,
            _ => 0,
        },
        None => 0,
    }
}
