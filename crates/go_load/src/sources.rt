//! The source files of a program, by number.

ghost use Rattle.std.specs.Prelude.{◌≡◌, ◌∷◌, ◌++◌, ◌<◌, [], length, slice_index_or, OnOk, OnErr};

use gj_base::{NoMemory, Text};
use std::alloc::Global;
use std::marker::Model;

/// A source file: the path of its package, its name in the folder, and its bytes.
///
/// The root's path is empty. A file past the limit of 4194304 bytes is `too_long` and has no bytes
/// here; `embedded` says that the text comes with the compiler.
#[derive(Debug, Drop)]
pub struct FileEntry {
    pub path: Text,
    pub name: Text,
    pub bytes: Text,
    pub embedded: bool,
    pub too_long: bool,
}

/// Source files, each at its number.
#[derive(Debug, Drop)]
pub struct Sources {
    entries: Vec<FileEntry>,
}

impl Model for Sources {
    ghost use Rattle.std.specs.Prelude.{List};
    ghost use Rattle.go_load.specs.declared.sources.FileEntry.{FileEntry};

    ghost Value = { List FileEntry };

    ghost view = { λ s. s.entries.items };
}

impl Sources {
    /// No files.
    pub fn new(alloc: Global) -> Sources
        ensures { result ≡ [] }
    {
        Sources {
            entries: Vec::new(alloc),
        }
    }

    /// Adds a file, with the next number. A refusal leaves the files as they were.
    pub fn push(&mut self, entry: FileEntry) -> Result<(), NoMemory>
        ensures value { OnOk result (self.new ≡ self.old ++ entry ∷ []) }
        ensures same { OnErr result (self.new ≡ self.old) }
    {
        self.entries.push(entry)?;
        Ok(())
    }

    /// How many files there are.
    pub fn len(&self) -> usize
        ensures { result ≡ length self.now }
    {
        self.entries.len()
    }

    /// The files by number.
    pub fn as_slice(&self) -> &[FileEntry]
        ensures { result.now ≡ self.now }
    {
        self.entries.as_slice()
    }
}
