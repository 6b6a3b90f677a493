//! What stored scripts do.

use crate::cases::call::{Called, call};
use gj_base::{NoMemory, SeedChoices, Text, TreeFiles, VecSink};
use gj_cases::case::{Case, lines_of, string_of};
use gj_cases::differs::{Failed, differs, same};
use gj_cases::tree::files_of;
use js_read::read;
use js_run::RunEnd;
use js_tree::Script;
use std::alloc::Global;

const SEED: u64 = 1;

const STEPS: u64 = 1000000000;

/// More bytes than a script has.
const MOST_BYTES: usize = 1073741824;

/// The script that a case of `build` stored is read back, and prints what the case says.
pub fn stored_runs(alloc: Global, case: &Case, files: &TreeFiles) -> Result<(), Failed> {
    let stored = lines_of(alloc, case.bytes_or_none(b"stored"))?;
    let Some(path) = stored.first() else {
        return Ok(());
    };
    let path = string_of(alloc, path.as_bytes())?;
    let Some(text) = files.bytes(path.as_str()) else {
        return Ok(());
    };
    enough_parts(alloc, case, text)?;
    let script = read_back(alloc, text)?;
    match case.bytes(b"prints") {
        Some(prints) => ends_as(alloc, &script, prints, 0, b""),
        None => Ok(()),
    }
}

/// The program of a case of `run` is also built, and the script that is stored does what the case says.
pub fn built_runs(alloc: Global, case: &Case, words: &[Text], run: &Called) -> Result<(), Failed> {
    let Some(others) = words_of_run(words) else {
        return Ok(());
    };
    let mut build = Vec::new(alloc);
    build.push(Text::from_slice(alloc, b"build")?)?;
    for word in others {
        build.push(word.clone()?)?;
    }
    let mut files = files_of(alloc, case, b"", 0)?;
    let called = call(alloc, case, build.as_slice(), &mut files)?;
    if called.status != 0 {
        return same(
            alloc,
            b"stderr of build",
            run.err.bytes(),
            called.err.bytes(),
        );
    }
    match files.bytes("out.js") {
        Some(text) => {
            let script = read_back(alloc, text)?;
            ends_as(alloc, &script, run.out.bytes(), run.status, run.err.bytes())
        }
        None => Err(differs(alloc, b"out.js", b" is not stored by build")),
    }
}

// The words after `run`, of a run that has neither a seed nor a budget.
fn words_of_run(words: &[Text]) -> Option<&[Text]> {
    let [command, others @ ..] = words else {
        return None;
    };
    if command.as_bytes() != b"run".as_slice() {
        return None;
    }
    for word in others {
        if word.as_bytes().starts_with(b"--seed") || word.as_bytes().starts_with(b"--steps") {
            return None;
        }
    }
    Some(others)
}

fn read_back(alloc: Global, text: &[u8]) -> Result<Script, Failed> {
    if text.len() > MOST_BYTES {
        return Err(differs(alloc, b"the script", b" is too long"));
    }
    match read(alloc, text) {
        Ok(script) => Ok(script),
        Err(_) => Err(differs(alloc, b"the script", b" is not read back")),
    }
}

// The script prints this, and ends with this status and this text.
fn ends_as(
    alloc: Global,
    script: &Script,
    prints: &[u8],
    status: u8,
    text: &[u8],
) -> Result<(), Failed> {
    let mut choices = SeedChoices::new(SEED);
    let mut out = VecSink::new(alloc);
    match js_run::run(alloc, script, &mut choices, &mut out, STEPS) {
        Ok(RunEnd::Ended(ended, words)) => {
            same(alloc, b"output of the script", prints, out.bytes())?;
            same(alloc, b"text of the script", text, words.as_bytes())?;
            same(alloc, b"status of the script", &[status], &[ended])
        }
        Ok(RunEnd::Stopped) => Err(differs(alloc, b"the script", b" goes on")),
        Ok(RunEnd::Stuck(_)) => Err(differs(alloc, b"the script", b" is stuck")),
        Err(_) => Err(Failed::NoMemory),
    }
}

// Some item `$m` has as many `case` parts as the case wants.
fn enough_parts(alloc: Global, case: &Case, text: &[u8]) -> Result<(), Failed> {
    let Some(wanted) = case.number(b"case-parts") else {
        return Ok(());
    };
    if most_parts(alloc, text)? < wanted {
        return Err(differs(alloc, b"the script", b" has too few parts in each item $m"));
    }
    Ok(())
}

fn most_parts(alloc: Global, text: &[u8]) -> Result<u64, NoMemory> {
    let mut most = 0u64;
    let mut parts = 0u64;
    let mut is_machine = false;
    for line in &lines_of(alloc, text)? {
        let line = line.as_bytes();
        if line.starts_with(b"function ") {
            is_machine = line.starts_with(b"function $m");
            parts = 0;
        }
        if is_machine && line.trim_ascii_start().starts_with(b"case ") {
            parts = parts.saturating_add(1);
            most = most.max(parts);
        }
    }
    Ok(most)
}
