//! The names of the root's `.go` files.

ghost use Rattle.std.specs.Prelude.{◌≡◌, IfOk, All};
ghost use Rattle.gj_base.specs.Tree.{IsName};
ghost use Rattle.go_load.specs.GoFiles.{is_go_name};
ghost use Rattle.go_load.specs.Names.{SortsGoNames, ListsFolder, ListsRoot};

use crate::packages::LoadRefusal;
use gj_base::{FileError, Files, NoMemory, Text};
use std::alloc::Global;
use std::collections::BTreeSet;

/// The names of the `.go` files in a folder, in byte order.
pub fn list_root<F: Files>(
    alloc: Global,
    root: &str,
    files: &mut F,
) -> Result<BTreeSet<Text>, LoadRefusal>
    ensures { ListsRoot result root.now (F.state files.old) (F.state files.new) }
{
    let names = list_folder(alloc, root, files)?;
    Ok(sorted_go_names(alloc, names)?)
}

/// The names of the files in a folder.
fn list_folder<F: Files>(
    alloc: Global,
    folder: &str,
    files: &mut F,
) -> Result<Vec<Text>, LoadRefusal>
    ensures { ListsFolder result folder.now (F.state files.old) (F.state files.new) }
{
    match files.list(alloc, folder) {
        Ok(names) => Ok(names),
        Err(FileError::Missing) => Err(LoadRefusal::ReadFault),
        Err(FileError::TooLong) => unreachable!(),
        Err(FileError::Failed) => Err(LoadRefusal::ReadFault),
        Err(FileError::NoMemory) => Err(LoadRefusal::NoMemory),
    }
}

/// The `.go` names among these, in byte order.
fn sorted_go_names(alloc: Global, mut names: Vec<Text>) -> Result<BTreeSet<Text>, NoMemory>
    ensures { IfOk result (λ found. SortsGoNames names.items found.keys) }
{
    let mut found = BTreeSet::new(alloc);
    while let Some(name) = names.pop() {
        if is_go_name(name.as_bytes()) {
            found.insert(name)?;
        }
    }
    Ok(found)
}

/// Whether a file of this name is a `.go` file: the name ends in `.go` and not in `_test.go`.
fn is_go_name(name: &[u8]) -> bool
    ensures { result ≡ is_go_name name.now }
{
    name.ends_with(b".go") && !name.ends_with(b"_test.go")
}
