//! A call of the program over files in memory.

use gj_base::{NoMemory, Text, TreeFiles, VecSink};
use gj_cases::case::{Case, lines_of, number_of, string_of, words_of};
use gj_cases::differs::Failed;
use gj_command::outcome::status_of;
use gj_command::top::gopherjs;
use std::alloc::Global;

/// What a call printed, and the status that it ended with.
#[derive(Drop)]
pub struct Called {
    pub out: VecSink,
    pub err: VecSink,
    pub status: u8,
}

/// The words of a case.
pub fn words(alloc: Global, case: &Case) -> Result<Vec<Text>, NoMemory> {
    match case.bytes(b"args") {
        Some(bytes) => lines_of(alloc, bytes),
        None => lines_of(alloc, b"run\napp\n"),
    }
}

/// Calls the program.
pub fn call(
    alloc: Global,
    case: &Case,
    words: &[Text],
    files: &mut TreeFiles,
) -> Result<Called, Failed> {
    let mut strings = Vec::new(alloc);
    for word in words {
        strings.push(string_of(alloc, word.as_bytes())?)?;
    }
    let mut out = VecSink::new(alloc);
    let mut err = VecSink::new(alloc);
    plan(alloc, case, files, &mut out, &mut err)?;
    let outcome = gopherjs(alloc, strings.as_slice(), files, &mut out, &mut err);
    Ok(Called {
        out,
        err,
        status: status_of(&outcome),
    })
}

// Lets the calls fail that the case names.
fn plan(
    alloc: Global,
    case: &Case,
    files: &mut TreeFiles,
    out: &mut VecSink,
    err: &mut VecSink,
) -> Result<(), NoMemory> {
    for line in &lines_of(alloc, case.bytes_or_none(b"fails"))? {
        let words = words_of(alloc, line.as_bytes())?;
        if let [what, call, after] = words.as_slice() {
            let call = number_of(call.as_bytes()).unwrap_or(0);
            let after = number_of(after.as_bytes()).unwrap_or(0);
            match what.as_bytes() {
                b"files" => files.fail(call, after)?,
                b"out" => out.fail(call, after)?,
                _ => err.fail(call, after)?,
            }
        }
    }
    Ok(())
}
