//! Each file by itself.

ghost use Rattle.std.specs.Prelude.{◌≡◌, ◌≤◌, ◌<◌, IfOk, All, length, map, option_map};
ghost use Rattle.go_load.specs.Root.{file_limit, count_limit};
ghost use Rattle.go_load.specs.Readings.{AreReadings, ComesOf, IsReading};
ghost use Rattle.go_load.specs.ReadingView.{reading_view};

use crate::sources::{FileEntry, Sources};
use gj_base::{Fault, NoMemory, Place, Refusal};
use go_lexer::lex;
use go_parser::parse;
use go_syntax::Tokens;
use go_syntax::tree::File;
use std::alloc::Global;

/// What a file is by itself.
#[derive(Drop)]
pub enum Reading {
    /// Past the limit.
    Long,
    /// A text without tokens, with its lexical fault.
    Unlexed(Fault),
    /// Tokens without a tree, with their syntax fault.
    Unparsed(Fault),
    /// A tree, with the offsets of the first token and of the build constraint.
    Parsed(u32, Option<u32>, File),
}

/// What each file is.
pub fn read_all(alloc: Global, sources: &Sources) -> Result<Vec<Reading>, NoMemory>
    requires short { All (λ e. length e.bytes ≤ file_limit) sources.now }
    requires count { length sources.now ≤ count_limit }
    ensures { IfOk result (λ rs. AreReadings 0 sources.now (map reading_view rs.items)) }
{
    let mut readings = Vec::new(alloc);
    let entries = sources.as_slice();
    for i in 0..entries.len() {
        readings.push(read(alloc, i as u32, &entries[i])?)?;
    }
    Ok(readings)
}

/// What the file with this number is.
fn read(alloc: Global, number: u32, entry: &FileEntry) -> Result<Reading, NoMemory>
    requires { length entry.now.bytes ≤ file_limit }
    ensures { IfOk result (λ r. IsReading number entry.now (reading_view r)) }
{
    if entry.too_long {
        return Ok(Reading::Long);
    }
    match lex(alloc, entry.bytes.as_bytes(), number) {
        Ok(tokens) => tree_of(alloc, number, &tokens),
        Err(Refusal::Fault(fault)) => Ok(Reading::Unlexed(fault)),
        Err(Refusal::NoMemory) => Err(NoMemory),
    }
}

/// What comes of the tokens of the file with this number.
fn tree_of(alloc: Global, number: u32, tokens: &Tokens) -> Result<Reading, NoMemory>
    requires { 0 < length tokens.now.tokens }
    ensures { IfOk result (λ r. ComesOf number tokens.now (reading_view r)) }
{
    match parse(alloc, tokens) {
        Ok(file) => Ok(Reading::Parsed(
            tokens.place(0).offset,
            offset_of(tokens.constraint()),
            file,
        )),
        Err(Refusal::Fault(fault)) => Ok(Reading::Unparsed(moved(number, fault))),
        Err(Refusal::NoMemory) => Err(NoMemory),
    }
}

/// The offset of a place, if there is one.
fn offset_of(place: Option<Place>) -> Option<u32>
    ensures { result ≡ option_map (λ p. p.offset) place }
{
    match place {
        Some(place) => Some(place.offset),
        None => None,
    }
}

/// The fault in the file with this number.
fn moved(number: u32, fault: Fault) -> Fault
    ensures { result ≡ record { place = record { file = number; offset = fault.place.offset }; code = fault.code; text = fault.text } }
{
    Fault {
        place: Place {
            file: number,
            offset: fault.place.offset,
        },
        code: fault.code,
        text: fault.text,
    }
}
