//! Reading a program, import by import.

ghost use Rattle.go_import.specs.Left.{Leaves};

use crate::embedded::embedded_text;
use crate::folder::{joined, read_folder};
use crate::judge::judge;
use crate::path::{HOST, is_import_path};
use crate::program::{FileForm, ImportRow, Program, Target, copied};
use crate::reading::{Read, add_file};
use gj_base::{Files, NoMemory, Text};
use go_load::{LoadRefusal, Packages};
use std::alloc::Global;

/// More files than are ever read: those of a program at its limit, one past it, and the embedded ones.
const MOST_FILES: usize = 65600;

/// The packages of the program whose root is in the folder `root`, with those that imports lead to, the
/// embedded ones or else folders under `src`; or why there are none.
///
/// Go specification, "Packages" and "Import declarations"; docs/FAULTS.md has the faults. A fault is the
/// least of the first of the stages lexical, syntax and load that has one, by import path (the root's is
/// `main`), file name, offset and code. A file with a lexical or syntax fault has no imports. A file that
/// is missing when it is read counts as not listed. A failed read ends the call at once. Nothing more is
/// read once the files are too large.
pub fn load_program<F: Files>(
    alloc: Global,
    files: &mut F,
    root: &str,
    src: &str,
) -> Result<Packages, LoadRefusal>
    ensures { Leaves result (F.state files.old) (F.state files.new) }
{
    let mut p = Program::new(alloc);
    match read_program(&mut p, files, root, src) {
        Ok(()) => judge(p),
        Err(refusal) => Err(refusal),
    }
}

fn read_program<F: Files>(
    p: &mut Program,
    files: &mut F,
    root: &str,
    src: &str,
) -> Result<(), LoadRefusal>
    ensures { Leaves result (F.state files.old) (F.state files.new) }
{
    let path = Text::new(p.alloc);
    read_folder(p, files, root, 0, &path)?;
    if p.files.len() == 0 && !p.is_too_large() {
        return Err(LoadRefusal::ReadFault);
    }
    p.add_path(path)?;
    p.add_package(0, 0, false)?;
    p.set_target(0, Target::Package(0));
    for file in 0..MOST_FILES {
        if p.is_too_large() || file >= p.files.len() {
            return Ok(());
        }
        follow_file(p, files, src, file)?;
    }
    Ok(())
}

// Reads what the imports of the file with this number lead to.
fn follow_file<F: Files>(
    p: &mut Program,
    files: &mut F,
    src: &str,
    file: usize,
) -> Result<(), LoadRefusal>
    ensures { Leaves result (F.state files.old) (F.state files.new) }
{
    for import in 0..import_count(p, file) {
        if p.is_too_large() {
            return Ok(());
        }
        if let Some((path, offset)) = import_at(p, file, import)? {
            let path = path_number(p, files, src, path)?;
            p.add_import(ImportRow {
                package: package_of(p, file),
                file,
                path,
                offset,
            })?;
        }
    }
    Ok(())
}

fn package_of(p: &Program, file: usize) -> usize {
    match p.files.get(file) {
        Some(row) => row.package,
        None => 0,
    }
}

fn tree_of(p: &Program, file: usize) -> Option<usize> {
    match p.files.get(file) {
        Some(row) => match row.form {
            FileForm::Parsed { tree, .. } => Some(tree),
            _ => None,
        },
        None => None,
    }
}

fn import_count(p: &Program, file: usize) -> usize {
    let Some(tree) = tree_of(p, file) else {
        return 0;
    };
    match p.trees.get(tree) {
        Some(tree) => tree.imports.len(),
        None => 0,
    }
}

// The path of an import of a file, and its offset.
fn import_at(p: &Program, file: usize, import: usize) -> Result<Option<(Text, u32)>, NoMemory> {
    let Some(tree) = tree_of(p, file) else {
        return Ok(None);
    };
    let Some(tree) = p.trees.get(tree) else {
        return Ok(None);
    };
    match tree.imports.get(import) {
        Some(import) => Ok(Some((import.path.clone()?, import.place.offset))),
        None => Ok(None),
    }
}

// The number of a path, which is read where it is new.
fn path_number<F: Files>(
    p: &mut Program,
    files: &mut F,
    src: &str,
    path: Text,
) -> Result<usize, LoadRefusal>
    ensures { Leaves result (F.state files.old) (F.state files.new) }
{
    if let Some(number) = p.numbers.get(&path) {
        return Ok(*number);
    }
    let number = p.add_path(copied(&path)?)?;
    let target = read_path(p, files, src, number, &path)?;
    p.set_target(number, target);
    p.number_path(path, number)?;
    Ok(number)
}

// Reads what a new path leads to.
fn read_path<F: Files>(
    p: &mut Program,
    files: &mut F,
    src: &str,
    number: usize,
    path: &Text,
) -> Result<Target, LoadRefusal>
    ensures { Leaves result (F.state files.old) (F.state files.new) }
{
    if path.as_bytes() == HOST {
        return Ok(Target::Host);
    }
    if let Some(text) = embedded_text(path.as_bytes()) {
        return Ok(add_embedded(p, number, path, text)?);
    }
    if !is_import_path(path.as_bytes()) {
        return Ok(Target::Missing);
    }
    match joined(p.alloc, src, path.as_bytes())? {
        Some(folder) => read_package(p, files, folder.as_str(), number, path),
        None => Ok(Target::Missing),
    }
}

fn read_package<F: Files>(
    p: &mut Program,
    files: &mut F,
    folder: &str,
    number: usize,
    path: &Text,
) -> Result<Target, LoadRefusal>
    ensures { Leaves result (F.state files.old) (F.state files.new) }
{
    let first = p.files.len();
    let package = p.packages.len();
    read_folder(p, files, folder, package, path)?;
    if p.files.len() == first {
        return Ok(Target::Missing);
    }
    Ok(Target::Package(p.add_package(number, first, false)?))
}

// Adds an embedded package: one file, named by its path and `.go`.
fn add_embedded(
    p: &mut Program,
    number: usize,
    path: &Text,
    text: &str,
) -> Result<Target, NoMemory> {
    let first = p.files.len();
    let package = p.packages.len();
    let mut name = path.clone()?;
    name.push_bytes(b".go")?;
    let read = Read {
        name,
        bytes: Text::from_slice(p.alloc, text.as_bytes())?,
        is_long: false,
    };
    add_file(p, package, path.clone()?, read, true)?;
    Ok(Target::Package(p.add_package(number, first, true)?))
}
