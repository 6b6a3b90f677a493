//! Packages, and why a load gave none.

ghost use Rattle.std.specs.Prelude.{◌≡◌, [], ◌∷◌, IfOk, option_map, slice_get};
ghost use Rattle.go_load.specs.Packages.{package_view, paths_view};

use crate::sources::Sources;
use gj_base::{Fault, NoMemory, Text};
use go_syntax::tree::File;
use indexmap::IndexMap;
use std::alloc::Global;

/// A package: its name, and the trees of its files in the order of their names.
#[derive(Drop)]
pub struct Package {
    pub name: Text,
    pub files: Vec<File>,
}

/// Packages by their import paths, in the order of reading. The root comes first, under the empty path.
#[derive(Drop)]
pub struct Paths {
    packages: IndexMap<Text, Package>,
}

impl Paths {
    /// The root alone.
    pub fn of_root(alloc: Global, root: Package) -> Result<Paths, NoMemory>
        ensures { IfOk result (λ paths. paths_view paths ≡ ([], package_view root) ∷ []) }
    {
        let mut packages = IndexMap::new(alloc);
        packages.insert(Text::new(alloc), root)?;
        Ok(Paths { packages })
    }

    /// Adds a package under its import path.
    pub fn insert(&mut self, path: Text, package: Package) -> Result<(), NoMemory> {
        self.packages.insert(path, package)?;
        Ok(())
    }

    /// How many packages there are, the root among them.
    pub fn len(&self) -> usize {
        self.packages.len()
    }

    /// The import path of the package at an index, if there are so many.
    pub fn path(&self, index: usize) -> Option<&Text> {
        match self.packages.get_index(index) {
            Some((path, _)) => Some(path),
            None => None,
        }
    }

    /// The package at an index, if there are so many.
    pub fn get(&self, index: usize) -> Option<&Package>
        ensures { option_map (λ p. package_view p.now) result ≡ option_map (λ e. e.1) (slice_get (paths_view self.now) index) }
    {
        match self.packages.get_index(index) {
            Some((_, package)) => Some(package),
            None => None,
        }
    }
}

/// The packages of a program, and its files by number.
#[derive(Drop)]
pub struct Packages {
    pub files: Sources,
    pub packages: Paths,
}

impl Packages {
    /// The files alone: the trees are let go.
    pub fn into_files(self) -> Sources
        ensures { result ≡ self.files }
    {
        self.files
    }
}

/// Why a load gave no packages.
#[derive(Debug, Drop)]
pub enum LoadRefusal {
    /// The files break a rule here. These are all files that were read, by number.
    Fault(Fault, Sources),
    /// A read failed, or the root has no `.go` file.
    ReadFault,
    NoMemory,
}

impl From<NoMemory> for LoadRefusal {
    ghost use Rattle.std.specs.Prelude.{◌≡◌};
    ghost use Rattle.go_load.specs.declared.packages.LoadRefusal.TheVariants as refusal;

    ghost from_gives = { λ _ r. r ≡ refusal.NoMemory };

    fn from(_e: NoMemory) -> LoadRefusal {
        LoadRefusal::NoMemory
    }
}
