//! Each file by itself: its tokens, and its tree.

use crate::program::{FILE_LIMIT, FileForm, FileRow, Program};
use gj_base::{Fault, NoMemory, Place, Refusal, Text};
use go_lexer::lex;
use go_load::FileEntry;
use go_parser::parse;
use go_syntax::Tokens;

/// A file's name and bytes; no bytes where it is past the limit.
#[derive(Drop)]
pub struct Read {
    pub name: Text,
    pub bytes: Text,
    pub is_long: bool,
}

/// Adds a file, with the next number, to the package with this number and path.
pub fn add_file(
    p: &mut Program,
    package: usize,
    path: Text,
    read: Read,
    embedded: bool,
) -> Result<(), NoMemory> {
    let form = if read.is_long {
        FileForm::Long
    } else {
        form_of(p, read.bytes.as_bytes())?
    };
    p.sources.push(FileEntry {
        path,
        name: read.name,
        bytes: read.bytes,
        embedded,
        too_long: read.is_long,
    })?;
    p.files.push(FileRow { package, form })?;
    Ok(())
}

// What the next file is, with these bytes.
fn form_of(p: &mut Program, bytes: &[u8]) -> Result<FileForm, NoMemory> {
    let number = p.files.len();
    if bytes.len() as u64 > FILE_LIMIT || number > u32::MAX as usize {
        return Ok(FileForm::Long);
    }
    let number = number as u32;
    match lex(p.alloc, bytes, number) {
        Ok(tokens) => form_of_tokens(p, number, &tokens),
        Err(Refusal::Fault(fault)) => {
            let at = add_fault(p, number, fault)?;
            Ok(FileForm::Unlexed(at))
        }
        Err(Refusal::NoMemory) => Err(NoMemory),
    }
}

// What comes of the tokens of the file with this number.
fn form_of_tokens(p: &mut Program, number: u32, tokens: &Tokens) -> Result<FileForm, NoMemory> {
    match parse(p.alloc, tokens) {
        Ok(file) => {
            let tree = p.trees.len();
            p.trees.push(file)?;
            Ok(parsed(tree, tokens))
        }
        Err(Refusal::Fault(fault)) => {
            let at = add_fault(p, number, fault)?;
            Ok(FileForm::Unparsed(at))
        }
        Err(Refusal::NoMemory) => Err(NoMemory),
    }
}

fn parsed(tree: usize, tokens: &Tokens) -> FileForm {
    let constraint = match tokens.constraint() {
        Some(place) => Some(place.offset),
        None => None,
    };
    FileForm::Parsed {
        tree,
        start: first_offset(tokens),
        constraint,
    }
}

fn first_offset(tokens: &Tokens) -> u32 {
    if tokens.len() == 0 {
        return 0;
    }
    tokens.place(0).offset
}

// Adds a fault of the file with this number; answers the fault's number.
fn add_fault(p: &mut Program, number: u32, fault: Fault) -> Result<usize, NoMemory> {
    let at = p.faults.len();
    p.faults.push(Fault {
        place: Place {
            file: number,
            offset: fault.place.offset,
        },
        code: fault.code,
        text: fault.text,
    })?;
    Ok(at)
}
