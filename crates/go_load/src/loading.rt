//! The packages of a program.

ghost use Rattle.go_load.specs.Load.{Loads};

use crate::gather::gather;
use crate::judge::judge;
use crate::names::list_root;
use crate::packages::{LoadRefusal, Packages};
use gj_base::Files;
use std::alloc::Global;

/// The packages of the program whose root is in this folder, or why there are none.
///
/// Go specification, "Packages" and "Import declarations"; docs/FAULTS.md has the faults. For now
/// the root alone is read: an import is a fault, and `src`, the folder of other packages, is without
/// effect. A file that is missing when it is read counts as not listed. A failed read ends the call
/// at once. Nothing more is read once the files are too large.
pub fn load<F: Files>(
    alloc: Global,
    files: &mut F,
    root: &str,
    src: &str,
) -> Result<Packages, LoadRefusal>
    ensures { Loads result root.now (F.state files.old) (F.state files.new) }
{
    let _ = src;
    let names = list_root(alloc, root, files)?;
    judge(alloc, gather(alloc, root, names, files)?)
}
