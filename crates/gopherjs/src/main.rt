//! The program: it hands the words and the real outside to the top call of `gj_command`, or runs the
//! cases of a folder through that call.
#![tactic(auto)]

mod cases;

use crate::cases::run_cases;
use gj_command::outcome::{Outcome, status_of};
use gj_command::top::gopherjs;
use gj_outside::disk::DiskFiles;
use gj_outside::stream::StdSink;
use std::env::Env;
use std::io::ErrorKind;
use std::process::ExitCode;
use std::{env, io};

fn main(rt: HostRuntime) -> ExitCode {
    let mut files = DiskFiles::new(&rt);
    let mut out = StdSink::new(rt.stdout());
    let mut err = StdSink::new(rt.stderr());
    let outcome = match arguments(&rt) {
        Ok(words) => {
            if asks_for_cases(words.as_slice()) {
                run_cases(&rt, rt.alloc(), &mut out, &mut err)
            } else {
                gopherjs(rt.alloc(), words.as_slice(), &mut files, &mut out, &mut err)
            }
        }
        Err(error) if error.kind() == ErrorKind::OutOfMemory => Outcome::NoMemory,
        // A word that is no text asks for nothing that there is.
        Err(_) => gopherjs(rt.alloc(), &[], &mut files, &mut out, &mut err),
    };
    ExitCode::from(status_of(&outcome))
}

/// The words after the program's name.
fn arguments<R: Env + AllocGlobal>(rt: &R) -> io::Result<Vec<String>> {
    let mut words = env::args(rt)?;
    let _ = words.next();
    Ok(words.collect(rt.alloc())?)
}

/// Whether the one word is `cases`.
fn asks_for_cases(words: &[String]) -> bool {
    match words {
        [word] => word.as_str() == "cases",
        _ => false,
    }
}
