//! The command `blocking`: the functions that may wait.

ghost use Rattle.std.specs.Prelude.{◌≡◌, ◌≢◌, List, ℕ};
ghost use Rattle.gj_command.specs.Headline.{Leaves};
ghost use Rattle.gj_command.specs.Told.{Told};
ghost use Rattle.gj_command.specs.declared.outcome.Outcome.TheVariants.{Usage};

use crate::outcome::Outcome;
use crate::refusal::{refuse, written};
use gj_base::{Files, Sink, SinkError, Text};
use gj_compile::blocking_names;
use std::alloc::Global;

/// Prints the names of the functions of a program that may wait, sorted by bytes, one a line.
pub fn blocking<F: Files, O: Sink, E: Sink>(
    alloc: Global,
    folder: &str,
    src: &str,
    files: &mut F,
    out: &mut O,
    err: &mut E,
) -> Outcome
    ensures { (line : List ℕ) × Leaves result (F.state files.old) (F.state files.new) × (result ≢ Usage) × Told line (E.state err.old) (E.state err.new) }
{
    match blocking_names(alloc, folder, src, files) {
        Ok(mut names) => {
            names.as_mut_slice().sort_unstable();
            written(print_lines(names.as_slice(), out), err)
        }
        Err(refused) => refuse(alloc, refused, err),
    }
}

fn print_lines<O: Sink>(lines: &[Text], out: &mut O) -> Result<(), SinkError> {
    for line in lines {
        out.write(line.as_bytes())?;
        out.write(b"\n")?;
    }
    Ok(())
}
