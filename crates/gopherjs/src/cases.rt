//! The command `cases`: each case of the folder that it is called in goes through the top call, and what
//! differs from what the case says is printed.

mod call;
mod script;
mod verdict;

use crate::cases::verdict::check;
use gj_base::Sink;
use gj_cases::case::Case;
use gj_cases::differs::{Failed, differs, same};
use gj_cases::folder::cases_here;
use gj_command::outcome::Outcome;
use gj_command::refusal::{out_of_memory, read_failed, written};
use std::alloc::Global;
use std::io::ErrorKind;
use std::{io, rt};

/// The status where a case differs.
const DIFFERS: u8 = 1;

/// Runs the cases of this folder. The last line says how many differ.
pub fn run_cases<R: rt::Files + AllocGlobal + Clone + Drop, O: Sink, E: Sink>(
    rt: &R,
    alloc: Global,
    out: &mut O,
    err: &mut E,
) -> Outcome {
    match cases_here(rt, alloc) {
        Ok(cases) => run_all(alloc, cases, out, err),
        Err(error) if error.kind() == ErrorKind::OutOfMemory => out_of_memory(err),
        Err(_) => read_failed(err),
    }
}

fn run_all<O: Sink, E: Sink>(
    alloc: Global,
    mut cases: Vec<Case>,
    out: &mut O,
    err: &mut E,
) -> Outcome {
    cases
        .as_mut_slice()
        .sort_unstable_by(|a, b| a.name.cmp(&b.name));
    match lines(alloc, cases.as_slice()) {
        Ok((text, differ)) => match written(out.write(text.as_str().as_bytes()), err) {
            Outcome::Done if differ > 0 => Outcome::Ended(DIFFERS),
            outcome => outcome,
        },
        Err(_) => out_of_memory(err),
    }
}

// A line for each case that differs, the last line, and how many differ.
fn lines(alloc: Global, cases: &[Case]) -> io::Result<(String, u32)> {
    let mut text = String::new(alloc);
    let mut differ = 0u32;
    for case in cases {
        if let Some(line) = line_of(alloc, case)? {
            text.push_str(line.as_str())?;
            differ = differ.saturating_add(1);
        }
    }
    if cases.is_empty() {
        text.push_str("there is no case\n")?;
    } else if differ == 0 {
        text.push_str("no case differs\n")?;
    } else {
        let last = format!(in alloc; "{differ} of {} cases differ\n", cases.len())?;
        text.push_str(last.as_str())?;
    }
    Ok((text, differ))
}

// The line of a case that doesn't hold.
fn line_of(alloc: Global, case: &Case) -> io::Result<Option<String>> {
    let words = match holds(alloc, case) {
        Ok(()) => return Ok(None),
        Err(Failed::Differs(text)) => String::from_utf8_lossy(alloc, text.as_bytes())?,
        Err(Failed::NoMemory) => String::from_str(alloc, "out of memory")?,
    };
    let name = String::from_utf8_lossy(alloc, case.name.as_bytes())?;
    Ok(Some(format!(in alloc; "{}: {}\n", name.as_str(), words.as_str())?))
}

// The case holds, or differs in the words of its file `differs`.
fn holds(alloc: Global, case: &Case) -> Result<(), Failed> {
    let Some(words) = case.bytes(b"differs") else {
        return check(alloc, case);
    };
    match check(alloc, case) {
        Ok(()) => Err(differs(alloc, b"the case", b" holds")),
        Err(Failed::Differs(text)) => same(alloc, b"the difference", words, text.as_bytes()),
        Err(failed) => Err(failed),
    }
}
