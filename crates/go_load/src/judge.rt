//! From files that were read to packages.

ghost use Rattle.std.specs.Prelude.{◌≡◌, [], ◌∷◌, IfOk, All, codes, map, option_map};
ghost use Rattle.go_syntax.specs.View.{file_view};
ghost use Rattle.go_load.specs.Root.{IsOfRoot, is_too_large};
ghost use Rattle.go_load.specs.Readings.{tree_of, trees_of};
ghost use Rattle.go_load.specs.ReadingView.{reading_view};
ghost use Rattle.go_load.specs.Packages.{paths_view};
ghost use Rattle.go_load.specs.Judged.{Judges};

use crate::faults::{fault_of, find_fault, flaw_in};
use crate::gather::Gathered;
use crate::packages::{LoadRefusal, Package, Packages, Paths};
use crate::reading::{Reading, read_all};
use crate::sources::Sources;
use gj_base::{NoMemory, Text};
use go_syntax::tree::File;
use std::alloc::Global;

/// The packages of files that were read, or their fault.
pub fn judge(alloc: Global, gathered: Gathered) -> Result<Packages, LoadRefusal>
    requires own { All IsOfRoot gathered.sources }
    requires large { gathered.too_large ≡ is_too_large gathered.sources }
    ensures { Judges result gathered.sources }
{
    let sources = gathered.sources;
    if sources.len() == 0 {
        return Err(LoadRefusal::ReadFault);
    }
    if gathered.too_large {
        return Err(LoadRefusal::Fault(fault_of(alloc, flaw_in(0, 0, 46)), sources));
    }
    let readings = read_all(alloc, &sources)?;
    match find_fault(alloc, readings.as_slice())? {
        Some(fault) => Err(LoadRefusal::Fault(fault, sources)),
        None => Ok(packages_of(alloc, sources, readings)?),
    }
}

/// The root's package, of files without a fault.
fn packages_of(
    alloc: Global,
    sources: Sources,
    readings: Vec<Reading>,
) -> Result<Packages, NoMemory>
    ensures files { IfOk result (λ p. p.files ≡ sources) }
    ensures root { IfOk result (λ p. paths_view p.packages ≡ ([], record { name = codes "main"; files = trees_of (map reading_view readings.items) }) ∷ []) }
{
    let root = Package {
        name: Text::from_slice(alloc, b"main")?,
        files: trees_of(alloc, readings)?,
    };
    Ok(Packages {
        files: sources,
        packages: Paths::of_root(alloc, root)?,
    })
}

/// The trees of the files, in order.
fn trees_of(alloc: Global, mut readings: Vec<Reading>) -> Result<Vec<File>, NoMemory>
    ensures { IfOk result (λ trees. map file_view trees.items ≡ trees_of (map reading_view readings.items)) }
{
    let mut trees = Vec::new(alloc);
    while let Some(reading) = readings.pop() {
        if let Some(file) = tree_of(reading) {
            trees.push(file)?;
        }
    }
    trees.as_mut_slice().reverse();
    Ok(trees)
}

/// The tree of a file, where it has one.
fn tree_of(reading: Reading) -> Option<File>
    ensures { option_map file_view result ≡ tree_of (reading_view reading) }
{
    match reading {
        Reading::Long => None,
        Reading::Unlexed(_) => None,
        Reading::Unparsed(_) => None,
        Reading::Parsed(_, _, file) => Some(file),
    }
}
