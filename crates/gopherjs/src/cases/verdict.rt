//! Whether a case holds.

use crate::cases::call::{call, words};
use crate::cases::script::{built_runs, stored_runs};
use gj_base::{Text, TreeFiles};
use gj_cases::case::{Case, lines_of};
use gj_cases::differs::{Failed, differs, same};
use gj_cases::tree::{files_of, same_files};
use std::alloc::Global;

/// The status of a call whose words ask for nothing.
const USAGE: u8 = 64;

/// The call of a case does what the case says.
pub fn check(alloc: Global, case: &Case) -> Result<(), Failed> {
    match case.lines(alloc, b"cuts")? {
        Some(paths) => check_cuts(alloc, case, paths.as_slice()),
        None => {
            let mut files = files_of(alloc, case, b"", 0)?;
            before(alloc, case, &mut files)?;
            check_call(alloc, case, files)
        }
    }
}

// The same for each beginning of a file, but for the whole one and the one that lacks only its last byte.
fn check_cuts(alloc: Global, case: &Case, paths: &[Text]) -> Result<(), Failed> {
    for path in paths {
        let mut whole = Text::from_slice(alloc, b"tree/")?;
        whole.push_bytes(path.as_bytes())?;
        let length = case.bytes_or_none(whole.as_bytes()).len();
        for cut in 0..length.saturating_sub(1) {
            let files = files_of(alloc, case, path.as_bytes(), cut)?;
            check_call(alloc, case, files)?;
        }
    }
    Ok(())
}

// The call that is made first.
fn before(alloc: Global, case: &Case, files: &mut TreeFiles) -> Result<(), Failed> {
    let Some(words) = case.lines(alloc, b"before")? else {
        return Ok(());
    };
    let called = call(alloc, case, words.as_slice(), files)?;
    if called.status != 0 {
        return Err(differs(alloc, b"the call before", b" has another status than 0"));
    }
    Ok(())
}

fn check_call(alloc: Global, case: &Case, mut files: TreeFiles) -> Result<(), Failed> {
    let words = words(alloc, case)?;
    let called = call(alloc, case, words.as_slice(), &mut files)?;
    same(
        alloc,
        b"stdout",
        case.bytes_or_none(b"stdout"),
        called.out.bytes(),
    )?;
    same(
        alloc,
        b"stderr",
        case.bytes_or_none(b"stderr"),
        called.err.bytes(),
    )?;
    let status = case.number(b"status").unwrap_or(0);
    if called.status as u64 != status {
        return Err(differs(alloc, b"status", b" differs"));
    }
    same_files(alloc, case, &files)?;
    if called.status == 0 {
        stored_runs(alloc, case, &files)?;
    }
    if called.status == USAGE {
        return Ok(());
    }
    built_runs(alloc, case, words.as_slice(), &called)
}
