//! The files that a case is called on, and what is left of them.

use crate::case::{Case, lines_of, number_of, string_of, words_of};
use crate::differs::{Failed, differs, same};
use gj_base::{NoMemory, Text, TreeFiles};
use std::alloc::Global;

const TREE: &[u8] = b"tree/";

const STARTS: &[u8] = b"starts/";

/// The files of a case at the start. The file `cut`, if there is one, has its first `length` bytes only.
pub fn files_of(
    alloc: Global,
    case: &Case,
    cut: &[u8],
    length: usize,
) -> Result<TreeFiles, NoMemory> {
    let mut files = TreeFiles::new(alloc);
    for part in &case.parts {
        if let Some(path) = part.path.as_bytes().strip_prefix(TREE) {
            let bytes = part.bytes.as_bytes();
            let bytes = if path == cut && length < bytes.len() {
                &bytes[..length]
            } else {
                bytes
            };
            files.put(string_of(alloc, path)?.as_str(), bytes)?;
        }
    }
    grow(alloc, case, &mut files)?;
    Ok(files)
}

// Adds line comments at the end of files, so that they have the sizes that the case names.
fn grow(alloc: Global, case: &Case, files: &mut TreeFiles) -> Result<(), NoMemory> {
    for line in &lines_of(alloc, case.bytes_or_none(b"grow"))? {
        let words = words_of(alloc, line.as_bytes())?;
        if let [path, size] = words.as_slice() {
            let path = string_of(alloc, path.as_bytes())?;
            let size = number_of(size.as_bytes()).unwrap_or(0);
            let bytes = match files.bytes(path.as_str()) {
                Some(bytes) => grown(alloc, bytes, size)?,
                None => Text::new(alloc),
            };
            files.put(path.as_str(), bytes.as_bytes())?;
        }
    }
    Ok(())
}

// The bytes with a line comment at their end, so many in all.
fn grown(alloc: Global, bytes: &[u8], size: u64) -> Result<Text, NoMemory> {
    let mut text = Text::from_slice(alloc, bytes)?;
    text.push_bytes(b"//")?;
    let more = size.saturating_sub(bytes.len() as u64).saturating_sub(3);
    for _ in 0..more {
        text.push(b'x')?;
    }
    text.push(b'\n')?;
    Ok(text)
}

/// Compares the files that are left with those that the case wants.
pub fn same_files(alloc: Global, case: &Case, files: &TreeFiles) -> Result<(), Failed> {
    let stored = lines_of(alloc, case.bytes_or_none(b"stored"))?;
    for path in &stored {
        if at(alloc, files, path.as_bytes())?.is_none() {
            return Err(differs(alloc, path.as_bytes(), b" is not stored"));
        }
    }
    for path in &lines_of(alloc, case.bytes_or_none(b"not-stored"))? {
        same_as_before(alloc, case, files, path.as_bytes())?;
    }
    if !stored
        .as_slice()
        .contains(&Text::from_slice(alloc, b"out.js")?)
    {
        same_as_before(alloc, case, files, b"out.js")?;
    }
    same_parts(alloc, case, files, stored.as_slice())
}

fn at<'a>(alloc: Global, files: &'a TreeFiles, path: &[u8]) -> Result<Option<&'a [u8]>, NoMemory> {
    let path = string_of(alloc, path)?;
    Ok(files.bytes(path.as_str()))
}

// The path holds what it held before, if anything.
fn same_as_before(
    alloc: Global,
    case: &Case,
    files: &TreeFiles,
    path: &[u8],
) -> Result<(), Failed> {
    let mut before = Text::from_slice(alloc, TREE)?;
    before.push_bytes(path)?;
    match (case.bytes(before.as_bytes()), at(alloc, files, path)?) {
        (Some(before), Some(found)) => same(alloc, path, before, found),
        (None, None) => Ok(()),
        (None, Some(_)) => Err(differs(alloc, path, b" is stored")),
        (Some(_), None) => Err(differs(alloc, path, b" is gone")),
    }
}

// Each file of the start is as before, but for those that are stored; these begin as the case says.
fn same_parts(
    alloc: Global,
    case: &Case,
    files: &TreeFiles,
    stored: &[Text],
) -> Result<(), Failed> {
    let grows = case.bytes(b"grow").is_some() || case.bytes(b"cuts").is_some();
    for part in &case.parts {
        let path = part.path.as_bytes();
        if let Some(path) = path.strip_prefix(STARTS) {
            begins(alloc, files, path, part.bytes.as_bytes())?;
        }
        if let Some(path) = path.strip_prefix(TREE) {
            let path = Text::from_slice(alloc, path)?;
            if !grows && !stored.contains(&path) {
                same_as_before(alloc, case, files, path.as_bytes())?;
            }
        }
    }
    Ok(())
}

fn begins(alloc: Global, files: &TreeFiles, path: &[u8], start: &[u8]) -> Result<(), Failed> {
    match at(alloc, files, path)? {
        Some(found) if found.starts_with(start) => Ok(()),
        Some(found) => same(alloc, path, start, found),
        None => Err(differs(alloc, path, b" is not stored")),
    }
}
