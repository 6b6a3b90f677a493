//! What is read of a program: its files, trees, packages and imports, each in a table.

use gj_base::{Fault, NoMemory, Text};
use go_load::Sources;
use go_syntax::tree::File;
use std::alloc::Global;
use std::collections::BTreeMap;

/// What a file is by itself.
#[derive(Clone, Copy)]
pub enum FileForm {
    /// Past the limit.
    Long,
    /// A text without tokens; the number of its fault.
    Unlexed(usize),
    /// Tokens without a tree; the number of their fault.
    Unparsed(usize),
    /// A tree, by its number, with the offsets of the first token and of the build constraint.
    Parsed {
        tree: usize,
        start: u32,
        constraint: Option<u32>,
    },
}

/// A file: the number of its package, and what it is.
#[derive(Clone, Copy)]
pub struct FileRow {
    pub package: usize,
    pub form: FileForm,
}

/// A package: the number of its path, that of its first file, how many files it has, and where it stands
/// among all packages in the byte order of their paths.
#[derive(Clone, Copy)]
pub struct PackageRow {
    pub path: usize,
    pub first: usize,
    pub count: usize,
    pub embedded: bool,
    pub rank: usize,
}

/// What an import path leads to.
#[derive(Clone, Copy)]
pub enum Target {
    Package(usize),
    /// The compiler's own functions.
    Host,
    Missing,
}

/// A path that was met, and what it leads to.
#[derive(Drop)]
pub struct PathRow {
    pub path: Text,
    pub target: Target,
}

/// An import: the numbers of its package, its file and its path, and its offset in the file.
#[derive(Clone, Copy)]
pub struct ImportRow {
    pub package: usize,
    pub file: usize,
    pub path: usize,
    pub offset: u32,
}

/// What is read of a program. Each list but the trees and faults goes by the numbers of what it holds.
///
/// The root is the package 0, and its path is the path 0, which no import has.
#[derive(Drop)]
pub struct Program {
    pub alloc: Global,
    pub sources: Sources,
    pub files: Vec<FileRow>,
    pub trees: Vec<File>,
    pub faults: Vec<Fault>,
    pub packages: Vec<PackageRow>,
    pub paths: Vec<PathRow>,
    pub imports: Vec<ImportRow>,
    /// The number of each path that an import has.
    pub numbers: BTreeMap<Text, usize>,
    /// The bytes of the files, and how many there are, as far as they count for the limits.
    pub size: u64,
    pub count: u64,
}

/// The most bytes of a file.
pub const FILE_LIMIT: u64 = 4194304;

/// The most bytes of a program, embedded files and files past their limit aside.
const PROGRAM_LIMIT: u64 = 16777216;

/// The most files of a program, embedded ones aside.
const COUNT_LIMIT: u64 = 65536;

/// A copy of a text.
pub fn copied(text: &Text) -> Result<Text, NoMemory> {
    Ok(text.clone()?)
}

impl Program {
    /// Nothing is read yet.
    pub fn new(alloc: Global) -> Program {
        Program {
            alloc,
            sources: Sources::new(alloc),
            files: Vec::new(alloc),
            trees: Vec::new(alloc),
            faults: Vec::new(alloc),
            packages: Vec::new(alloc),
            paths: Vec::new(alloc),
            imports: Vec::new(alloc),
            numbers: BTreeMap::new(alloc),
            size: 0,
            count: 0,
        }
    }

    /// Whether the files are too large for a program.
    pub fn is_too_large(&self) -> bool {
        self.size > PROGRAM_LIMIT || self.count > COUNT_LIMIT
    }

    /// Counts a file of so many bytes.
    pub fn count_file(&mut self, size: u64) {
        self.size = self.size.saturating_add(size);
        self.count = self.count.saturating_add(1);
    }

    /// Adds a package of the files from this number on; answers its number.
    pub fn add_package(
        &mut self,
        path: usize,
        first: usize,
        embedded: bool,
    ) -> Result<usize, NoMemory> {
        let number = self.packages.len();
        self.packages.push(PackageRow {
            path,
            first,
            count: self.files.len().saturating_sub(first),
            embedded,
            rank: 0,
        })?;
        Ok(number)
    }

    /// Adds a path that leads nowhere yet; answers its number.
    pub fn add_path(&mut self, path: Text) -> Result<usize, NoMemory> {
        let number = self.paths.len();
        self.paths.push(PathRow {
            path,
            target: Target::Missing,
        })?;
        Ok(number)
    }

    /// Adds an import.
    pub fn add_import(&mut self, row: ImportRow) -> Result<(), NoMemory> {
        self.imports.push(row)?;
        Ok(())
    }

    /// Keeps the number of a path.
    pub fn number_path(&mut self, path: Text, number: usize) -> Result<(), NoMemory> {
        self.numbers.insert(path, number)?;
        Ok(())
    }

    /// What the path with this number leads to.
    pub fn target(&self, path: usize) -> Target {
        match self.paths.get(path) {
            Some(row) => row.target,
            None => Target::Missing,
        }
    }

    /// Lets the path with this number lead there.
    pub fn set_target(&mut self, path: usize, target: Target) {
        if let Some(row) = self.paths.get_mut(path) {
            row.target = target;
        }
    }

    /// Whether the package with this number is embedded.
    pub fn is_embedded(&self, package: usize) -> bool {
        match self.packages.get(package) {
            Some(row) => row.embedded,
            None => false,
        }
    }

    /// A copy of the text of the path with this number.
    pub fn path_text(&self, path: usize) -> Result<Text, NoMemory> {
        match self.paths.get(path) {
            Some(row) => Ok(row.path.clone()?),
            None => Ok(Text::new(self.alloc)),
        }
    }
}
