//! The command `exec`: a script that is read and run.

ghost use Rattle.std.specs.Prelude.{◌≡◌, ◌≢◌, ◌≤◌, List, ℕ, length};
ghost use Rattle.gj_words.specs.Words.{most_steps};
ghost use Rattle.gj_command.specs.Headline.{Leaves};
ghost use Rattle.gj_command.specs.Commands.{IsUnread};
ghost use Rattle.gj_command.specs.Told.{Told};
ghost use Rattle.gj_command.specs.declared.outcome.Outcome.TheVariants.{Usage};

use crate::outcome::Outcome;
use crate::refusal::{out_of_memory, read_failed};
use crate::report::{TOO_LONG, tell, tell_bad_script, tell_stuck};
use crate::run::run_script;
use gj_base::{FileError, Files, Sink};
use gj_words::Budget;
use js_read::{ReadRefusal, read};
use js_tree::Script;
use std::alloc::Global;

/// The most bytes of a script.
const SCRIPT_LIMIT: u64 = 1073741824;

/// Reads a script, and runs it.
pub fn exec<F: Files, O: Sink, E: Sink>(
    alloc: Global,
    file: &str,
    budget: Budget,
    files: &mut F,
    out: &mut O,
    err: &mut E,
) -> Outcome
    requires { budget.steps ≤ most_steps }
    ensures { (line : List ℕ) × Leaves result (F.state files.old) (F.state files.new) × (result ≢ Usage) × Told line (E.state err.old) (E.state err.new) }
{
    match files.read(alloc, file, SCRIPT_LIMIT) {
        Ok(bytes) => exec_bytes(alloc, bytes.as_slice(), budget, out, err),
        Err(error) => unread(error, err),
    }
}

/// Tells why a script wasn't read.
fn unread<E: Sink>(error: FileError, err: &mut E) -> Outcome
    ensures { (line : List ℕ) × IsUnread error result × (result ≢ Usage) × Told line (E.state err.old) (E.state err.new) }
{
    match error {
        FileError::Missing => read_failed(err),
        FileError::Failed => read_failed(err),
        FileError::TooLong => {
            tell(err, &[TOO_LONG]);
            Outcome::TooLong
        }
        FileError::NoMemory => out_of_memory(err),
    }
}

/// Runs the script that these bytes are.
fn exec_bytes<O: Sink, E: Sink>(
    alloc: Global,
    bytes: &[u8],
    budget: Budget,
    out: &mut O,
    err: &mut E,
) -> Outcome
    requires size { length bytes.now ≤ 1073741824 }
    requires steps { budget.steps ≤ most_steps }
    ensures { (line : List ℕ) × (result ≢ Usage) × Told line (E.state err.old) (E.state err.new) }
{
    match read(alloc, bytes) {
        Ok(script) => exec_script(alloc, &script, budget, out, err),
        Err(ReadRefusal::Syntax(at)) => {
            tell_bad_script(at, err);
            Outcome::BadScript(at)
        }
        Err(ReadRefusal::NoMemory) => out_of_memory(err),
    }
}

/// Runs a script that was read.
fn exec_script<O: Sink, E: Sink>(
    alloc: Global,
    script: &Script,
    budget: Budget,
    out: &mut O,
    err: &mut E,
) -> Outcome
    requires { budget.steps ≤ most_steps }
    ensures { (line : List ℕ) × (result ≢ Usage) × Told line (E.state err.old) (E.state err.new) }
{
    match run_script(alloc, script, budget, out, err) {
        Ok(outcome) => outcome,
        Err(at) => {
            tell_stuck(at, err);
            Outcome::Stuck(at)
        }
    }
}
