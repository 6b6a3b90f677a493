//! Plays a package by the Go meaning: `go_player run [--seed N] [--steps N] [--src DIR] DIR`.
//!
//! It prints what the program prints, and ends as the program does. The front of `build` gives the
//! program; the translation has no part in it.
#![tactic(auto)]

mod player;

use crate::player::play;
use gj_command::outcome::{Outcome, status_of};
use gj_outside::disk::DiskFiles;
use gj_outside::stream::StdSink;
use std::env::Env;
use std::process::ExitCode;
use std::{env, io};

fn main(rt: HostRuntime) -> ExitCode {
    let mut files = DiskFiles::new(&rt);
    let mut out = StdSink::new(rt.stdout());
    let mut err = StdSink::new(rt.stderr());
    let outcome = match arguments(&rt) {
        Ok(words) => play(rt.alloc(), words.as_slice(), &mut files, &mut out, &mut err),
        Err(_) => Outcome::Usage,
    };
    ExitCode::from(status_of(&outcome))
}

/// The words after the program's name.
fn arguments<R: Env + AllocGlobal>(rt: &R) -> io::Result<Vec<String>> {
    let mut words = env::args(rt)?;
    let _ = words.next();
    Ok(words.collect(rt.alloc())?)
}
