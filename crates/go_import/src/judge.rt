//! From what was read to packages, or to the least fault.

use crate::fault::{Flaw, least_flaw, rank_of};
use crate::program::{FileForm, Program};
use crate::rank::rank;
use gj_base::{Fault, NoMemory, Place, Text};
use go_load::{LoadRefusal, Package, Packages, Paths};
use go_syntax::tree::File;
use std::alloc::Global;

/// The packages of what was read, or the least fault.
pub fn judge(mut p: Program) -> Result<Packages, LoadRefusal> {
    if p.is_too_large() {
        let fault = fault_at(0, 0, 46, Text::new(p.alloc));
        return Err(LoadRefusal::Fault(fault, p.sources));
    }
    rank(&mut p);
    match find_fault(&p) {
        Ok(Some(fault)) => Err(LoadRefusal::Fault(fault, p.sources)),
        Ok(None) => packages_of(p),
        Err(NoMemory) => Err(LoadRefusal::NoMemory),
    }
}

fn fault_at(file: u32, offset: u32, code: u16, text: Text) -> Fault {
    Fault {
        place: Place { file, offset },
        code,
        text,
    }
}

// The least fault of the first stage that has one.
fn find_fault(p: &Program) -> Result<Option<Fault>, NoMemory> {
    if let Some(fault) = least_of(p, true) {
        return copy_of(p, fault);
    }
    if let Some(fault) = least_of(p, false) {
        return copy_of(p, fault);
    }
    match least_flaw(p)? {
        Some(flaw) => Ok(Some(fault_of(p, flaw)?)),
        None => Ok(None),
    }
}

// The number of the lexical fault, or the syntax fault, of the first file that has one.
fn least_of(p: &Program, is_lexical: bool) -> Option<usize> {
    let mut least: Option<(usize, usize)> = None;
    for row in &p.files {
        let found = match row.form {
            FileForm::Unlexed(fault) if is_lexical => Some(fault),
            FileForm::Unparsed(fault) if !is_lexical => Some(fault),
            _ => None,
        };
        if let Some(fault) = found {
            let rank = rank_of(p, row.package);
            least = match least {
                Some((other, first)) if other <= rank => Some((other, first)),
                _ => Some((rank, fault)),
            };
        }
    }
    match least {
        Some((_, fault)) => Some(fault),
        None => None,
    }
}

fn copy_of(p: &Program, fault: usize) -> Result<Option<Fault>, NoMemory> {
    match p.faults.get(fault) {
        Some(fault) => Ok(Some(fault_at(
            fault.place.file,
            fault.place.offset,
            fault.code,
            fault.text.clone()?,
        ))),
        None => Ok(None),
    }
}

fn fault_of(p: &Program, flaw: Flaw) -> Result<Fault, NoMemory> {
    let text = if flaw.code == 40 {
        p.path_text(flaw.path)?
    } else {
        Text::new(p.alloc)
    };
    let file = if flaw.file > u32::MAX as usize {
        u32::MAX
    } else {
        flaw.file as u32
    };
    Ok(fault_at(file, flaw.offset, flaw.code, text))
}

// The packages of a program without a fault.
fn packages_of(mut p: Program) -> Result<Packages, LoadRefusal> {
    match paths_of(&mut p) {
        Ok(packages) => Ok(Packages {
            files: p.sources,
            packages,
        }),
        Err(NoMemory) => Err(LoadRefusal::NoMemory),
    }
}

// Each package with its trees, which leave the program.
fn paths_of(p: &mut Program) -> Result<Paths, NoMemory> {
    p.trees.as_mut_slice().reverse();
    let root = package_of(p, 0)?;
    let mut paths = Paths::of_root(p.alloc, root)?;
    for number in 1..p.packages.len() {
        add_package(p, &mut paths, number)?;
    }
    Ok(paths)
}

fn add_package(p: &mut Program, paths: &mut Paths, number: usize) -> Result<(), NoMemory> {
    let Some(row) = p.packages.get(number).copied() else {
        return Ok(());
    };
    let path = p.path_text(row.path)?;
    let package = package_of(p, number)?;
    paths.insert(path, package)
}

// The package with this number; its trees are the last ones.
fn package_of(p: &mut Program, number: usize) -> Result<Package, NoMemory> {
    let name = match p.trees.last() {
        Some(tree) => tree.package.text.clone()?,
        None => Text::new(p.alloc),
    };
    let count = match p.packages.get(number) {
        Some(row) => row.count,
        None => 0,
    };
    let files = last_trees(p.alloc, &mut p.trees, count)?;
    Ok(Package { name, files })
}

fn last_trees(alloc: Global, trees: &mut Vec<File>, count: usize) -> Result<Vec<File>, NoMemory> {
    let mut files = Vec::new(alloc);
    for _ in 0..count {
        if let Some(tree) = trees.pop() {
            files.push(tree)?;
        }
    }
    Ok(files)
}
