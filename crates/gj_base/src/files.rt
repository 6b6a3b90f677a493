//! Files, as the compiler sees them: a tree from path to bytes.

ghost use Rattle.gj_base.specs.Files.{FilesState, Lists, Reads, Stores};

use crate::text::Text;
use std::alloc::Global;
use thiserror::Error;

/// Why `list` or `read` gave nothing.
#[derive(Clone, Copy, Debug, PartialEq, Eq, Error)]
pub enum FileError {
    /// There is nothing at the path.
    #[error("Missing")]
    Missing,
    /// The file is longer than the limit.
    #[error("TooLong")]
    TooLong,
    /// The outside failed; the count of reading faults rose.
    #[error("Failed")]
    Failed,
    #[error("NoMemory")]
    NoMemory,
}

/// Why `store` did not store.
#[derive(Clone, Copy, Debug, PartialEq, Eq, Error)]
pub enum StoreError {
    /// The outside failed; the count of storing faults rose.
    #[error("Failed")]
    Failed,
    #[error("NoMemory")]
    NoMemory,
}

/// A tree of files, each with a path and bytes, and two counts of failures that never fall.
///
/// `state` is that tree, where the implementation tells it, with both counts. Paths are texts whose
/// parts are joined by `/`.
pub trait Files {
    ghost state: { Self → FilesState };

    /// The names of the files directly under a folder, each once, in any order.
    ///
    /// `Missing` where no path lies under the folder; never `TooLong`.
    fn list(&mut self, alloc: Global, path: &str) -> Result<Vec<Text>, FileError>
        ensures { Lists result path.now (state self.old) (state self.new) };

    /// All bytes of the file at a path, where they are at most `limit`.
    fn read(&mut self, alloc: Global, path: &str, limit: u64) -> Result<Vec<u8>, FileError>
        ensures { Reads result path.now limit (state self.old) (state self.new) };

    /// Makes these the bytes at a path. After `Failed` it may hold a prefix of them.
    fn store(&mut self, path: &str, bytes: &[u8]) -> Result<(), StoreError>
        ensures { Stores result path.now bytes.now (state self.old) (state self.new) };
}
