//! The files of a folder.

ghost use Rattle.go_import.specs.Left.{Leaves};

use crate::program::{FILE_LIMIT, Program, copied};
use crate::reading::{Read, add_file};
use gj_base::{FileError, Files, NoMemory, Text};
use go_load::LoadRefusal;
use std::alloc::Global;
use std::collections::BTreeSet;

/// Reads the `.go` files of a folder as files of the package with this number and path, until they are
/// too large for a program. There may be none.
pub fn read_folder<F: Files>(
    p: &mut Program,
    files: &mut F,
    folder: &str,
    package: usize,
    path: &Text,
) -> Result<(), LoadRefusal>
    ensures { Leaves result (F.state files.old) (F.state files.new) }
{
    let mut names = go_names(p.alloc, files, folder)?;
    while let Some(name) = names.pop_first() {
        if let Some(read) = read_file(p.alloc, files, folder, name)? {
            p.count_file(read.bytes.as_bytes().len() as u64);
            add_file(p, package, copied(path)?, read, false)?;
            if p.is_too_large() {
                return Ok(());
            }
        }
    }
    Ok(())
}

// The names of the `.go` files of a folder, in byte order. A folder that isn't there has none.
fn go_names<F: Files>(
    alloc: Global,
    files: &mut F,
    folder: &str,
) -> Result<BTreeSet<Text>, LoadRefusal>
    ensures { Leaves result (F.state files.old) (F.state files.new) }
{
    match files.list(alloc, folder) {
        Ok(names) => Ok(sorted_go_names(alloc, names)?),
        Err(FileError::Missing) => Ok(BTreeSet::new(alloc)),
        Err(FileError::TooLong) => Ok(BTreeSet::new(alloc)),
        Err(FileError::Failed) => Err(LoadRefusal::ReadFault),
        Err(FileError::NoMemory) => Err(LoadRefusal::NoMemory),
    }
}

fn sorted_go_names(alloc: Global, mut names: Vec<Text>) -> Result<BTreeSet<Text>, NoMemory> {
    let mut found = BTreeSet::new(alloc);
    while let Some(name) = names.pop() {
        if is_go_name(name.as_bytes()) {
            found.insert(name)?;
        }
    }
    Ok(found)
}

// Whether a file of this name is a `.go` file: the name ends in `.go` and not in `_test.go`.
fn is_go_name(name: &[u8]) -> bool {
    name.ends_with(b".go") && !name.ends_with(b"_test.go")
}

// The file with this name in a folder; None where it is missing.
fn read_file<F: Files>(
    alloc: Global,
    files: &mut F,
    folder: &str,
    name: Text,
) -> Result<Option<Read>, LoadRefusal>
    ensures { Leaves result (F.state files.old) (F.state files.new) }
{
    let Some(path) = joined(alloc, folder, name.as_bytes())? else {
        return Ok(None);
    };
    match files.read(alloc, path.as_str(), FILE_LIMIT) {
        Ok(bytes) => Ok(Some(Read {
            name,
            bytes: Text::from_vec(bytes),
            is_long: false,
        })),
        Err(FileError::TooLong) => Ok(Some(Read {
            name,
            bytes: Text::new(alloc),
            is_long: true,
        })),
        Err(FileError::Missing) => Ok(None),
        Err(FileError::Failed) => Err(LoadRefusal::ReadFault),
        Err(FileError::NoMemory) => Err(LoadRefusal::NoMemory),
    }
}

/// The path of a name in a folder; None where the name isn't UTF-8.
pub fn joined(alloc: Global, folder: &str, name: &[u8]) -> Result<Option<String>, NoMemory> {
    let Ok(name) = str::from_utf8(name) else {
        return Ok(None);
    };
    let mut path = String::from_str(alloc, folder)?;
    path.push('/')?;
    path.push_str(name)?;
    Ok(Some(path))
}
