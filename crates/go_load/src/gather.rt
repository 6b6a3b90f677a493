//! Reading the root's files.

ghost use Rattle.std.specs.Prelude.{◌≡◌, ◌||◌, nat_lt, All, IfOk, IfSome, IsSome, IsUtf8, string_bytes};
ghost use Rattle.gj_base.specs.Tree.{IsName, bytes_at, path_in};
ghost use Rattle.go_load.specs.GoFiles.{AreGoFiles};
ghost use Rattle.go_load.specs.Root.{program_limit, count_limit};
ghost use Rattle.go_load.specs.Gather.{GathersFile, GathersAll, short_entry, long_entry};

use crate::packages::LoadRefusal;
use crate::sources::{FileEntry, Sources};
use gj_base::{FileError, Files, NoMemory, Text};
use std::alloc::Global;
use std::collections::BTreeSet;

/// The most bytes of a file.
const FILE_LIMIT: u64 = 4194304;

/// The most bytes of a program, files past their limit aside.
const PROGRAM_LIMIT: u64 = 16777216;

/// The most files of a program.
const COUNT_LIMIT: usize = 65536;

/// The files that were read, and whether they are too large for a program.
#[derive(Debug, Drop)]
pub struct Gathered {
    pub sources: Sources,
    pub too_large: bool,
}

/// Reads the files with these names in the root, until they are too large for a program.
pub fn gather<F: Files>(
    alloc: Global,
    root: &str,
    mut names: BTreeSet<Text>,
    files: &mut F,
) -> Result<Gathered, LoadRefusal>
    requires named { All IsName names.keys }
    requires root { IfSome (F.state files.old).tree (λ tree. AreGoFiles tree root.now names.keys) }
    ensures { GathersAll result root.now (F.state files.old) (F.state files.new) }
{
    let mut sources = Sources::new(alloc);
    let mut size = 0u64;
    while let Some(name) = names.pop_first() {
        if let Some(entry) = read_file(alloc, root, name, files)? {
            size += entry.bytes.as_bytes().len() as u64;
            sources.push(entry)?;
            if is_past(size, sources.len()) {
                return Ok(Gathered {
                    sources,
                    too_large: true,
                });
            }
        }
    }
    Ok(Gathered {
        sources,
        too_large: false,
    })
}

/// Whether so many bytes or so many files are too many for a program.
fn is_past(size: u64, count: usize) -> bool
    ensures { result ≡ (nat_lt program_limit size || nat_lt count_limit count) }
{
    size > PROGRAM_LIMIT || count > COUNT_LIMIT
}

/// The file with this name in the root; None where it is missing.
fn read_file<F: Files>(
    alloc: Global,
    root: &str,
    name: Text,
    files: &mut F,
) -> Result<Option<FileEntry>, LoadRefusal>
    requires text { IsUtf8 name }
    requires there { IfSome (F.state files.old).tree (λ tree. IsSome (bytes_at tree (path_in root.now name))) }
    ensures { GathersFile result root.now name (F.state files.old) (F.state files.new) }
{
    let path = path_in(alloc, root, &name)?;
    match files.read(alloc, path.as_str(), FILE_LIMIT) {
        Ok(bytes) => Ok(Some(entry_of(alloc, name, bytes))),
        Err(FileError::TooLong) => Ok(Some(long_entry(alloc, name))),
        Err(FileError::Missing) => Ok(None),
        Err(FileError::Failed) => Err(LoadRefusal::ReadFault),
        Err(FileError::NoMemory) => Err(LoadRefusal::NoMemory),
    }
}

/// The entry of a file of the root with these bytes.
fn entry_of(alloc: Global, name: Text, bytes: Vec<u8>) -> FileEntry
    ensures { result ≡ short_entry name bytes.items }
{
    FileEntry {
        path: Text::new(alloc),
        name,
        bytes: Text::from_vec(bytes),
        embedded: false,
        too_long: false,
    }
}

/// The entry of a file of the root that is past the limit.
fn long_entry(alloc: Global, name: Text) -> FileEntry
    ensures { result ≡ long_entry name }
{
    FileEntry {
        path: Text::new(alloc),
        name,
        bytes: Text::new(alloc),
        embedded: false,
        too_long: true,
    }
}

/// The path of a file in a folder.
fn path_in(alloc: Global, folder: &str, name: &Text) -> Result<String, NoMemory>
    requires { IsUtf8 name.now }
    ensures { IfOk result (λ path. string_bytes path ≡ path_in folder.now name.now) }
{
    let Ok(name) = str::from_utf8(name.as_bytes()) else {
        unreachable!()
    };
    let mut path = String::from_str(alloc, folder)?;
    path.push('/')?;
    path.push_str(name)?;
    Ok(path)
}
