//! Places in source files.

/// Where something stands: a file by its number, and an offset in bytes from the file's start.
///
/// Files are numbered in the order of reading: the root's by name, then those of each newly met
/// import path in order of first mention. Places are ordered by file, then offset.
#[derive(Clone, Copy, Debug, PartialEq, Eq, PartialOrd, Ord, Hash)]
pub struct Place {
    pub file: u32,
    pub offset: u32,
}
