//! Several cases in one text.

use crate::case::{Case, Part};
use gj_base::{NoMemory, Text};
use std::alloc::Global;

const CASE: &[u8] = b"=== ";

const FILE: &[u8] = b"--- ";

const CUT_FILE: &[u8] = b"--> ";

/// What a line of the text belongs to.
#[derive(Clone, Copy, Debug, PartialEq, Eq)]
enum Place {
    Note,
    /// A file whose lines end in newlines.
    File,
    /// The first line of a file whose last line has no newline.
    FirstCut,
    /// A further line of such a file.
    Cut,
}

/// Adds the cases of a text: `=== NAME` begins a case, `--- FILE` within it one of its files, and
/// `--> FILE` one whose last line has no newline.
pub fn add_rows(
    alloc: Global,
    topic: &[u8],
    text: &[u8],
    cases: &mut Vec<Case>,
) -> Result<(), NoMemory> {
    let mut line = Text::new(alloc);
    let mut place = Place::Note;
    for byte in text {
        if *byte == b'\n' {
            place = add_line(alloc, topic, line.as_bytes(), place, cases)?;
            line = Text::new(alloc);
        } else {
            line.push(*byte)?;
        }
    }
    Ok(())
}

// Adds a line without its newline; what the next one belongs to.
fn add_line(
    alloc: Global,
    topic: &[u8],
    line: &[u8],
    place: Place,
    cases: &mut Vec<Case>,
) -> Result<Place, NoMemory> {
    if line.starts_with(CASE) {
        begin_case(alloc, topic, after_mark(line), cases)?;
        return Ok(Place::Note);
    }
    let Some(case) = cases.last_mut() else {
        return Ok(Place::Note);
    };
    if line.starts_with(FILE) {
        begin_file(alloc, after_mark(line), case)?;
        return Ok(Place::File);
    }
    if line.starts_with(CUT_FILE) {
        begin_file(alloc, after_mark(line), case)?;
        return Ok(Place::FirstCut);
    }
    add_to_last(case, line, place)
}

// What stands after a mark of four bytes.
fn after_mark(line: &[u8]) -> &[u8] {
    if line.len() < 4 {
        return b"";
    }
    &line[4..]
}

fn begin_case(
    alloc: Global,
    topic: &[u8],
    name: &[u8],
    cases: &mut Vec<Case>,
) -> Result<(), NoMemory> {
    let mut whole = Text::from_slice(alloc, topic)?;
    whole.push_bytes(b"/")?;
    whole.push_bytes(name)?;
    cases.push(Case {
        name: whole,
        parts: Vec::new(alloc),
    })?;
    Ok(())
}

fn begin_file(alloc: Global, path: &[u8], case: &mut Case) -> Result<(), NoMemory> {
    case.parts.push(Part {
        path: Text::from_slice(alloc, path)?,
        bytes: Text::new(alloc),
    })?;
    Ok(())
}

// Adds a line to the last file; what the next one belongs to.
fn add_to_last(case: &mut Case, line: &[u8], place: Place) -> Result<Place, NoMemory> {
    let Some(part) = case.parts.last_mut() else {
        return Ok(Place::Note);
    };
    match place {
        Place::Note => Ok(Place::Note),
        Place::File => {
            part.bytes.push_bytes(line)?;
            part.bytes.push(b'\n')?;
            Ok(Place::File)
        }
        Place::FirstCut => {
            part.bytes.push_bytes(line)?;
            Ok(Place::Cut)
        }
        Place::Cut => {
            part.bytes.push(b'\n')?;
            part.bytes.push_bytes(line)?;
            Ok(Place::Cut)
        }
    }
}
