//! The top call: all that the program does.

ghost use Rattle.std.specs.Prelude.{◌≡◌, ◌≢◌, List, ℕ, Some, map, string_bytes};
ghost use Rattle.gj_words.specs.Words.{IsWithinLimits};
ghost use Rattle.gj_command.specs.Settings.{settings_of, build};
ghost use Rattle.gj_command.specs.Told.{Told};
ghost use Rattle.gj_command.specs.Headline.{Answers, Headline, IsComplete, CountsStay, Leaves, TellsUsage, TreeStays};
ghost use Rattle.gj_command.specs.declared.outcome.Outcome.TheVariants.{Usage};

use crate::blocking::blocking;
use crate::build::{OUT_FILE, SOURCE_FOLDER, build};
use crate::exec::exec;
use crate::generated::generated;
use crate::outcome::Outcome;
use crate::refusal::{out_of_memory, written};
use crate::report::{USAGE, VERSION, tell};
use crate::run::run;
use crate::words::folder_of;
use gj_base::{Files, Sink};
use gj_words::{NoSettings, Settings, read_words};
use go_grammar::laws::derives_one_file;
use std::alloc::Global;

/// Does what the words ask for: the arguments without the program's name.
///
/// What a user is told goes to `err`; a failed write there changes no outcome.
pub fn gopherjs<F: Files, O: Sink, E: Sink>(
    alloc: Global,
    words: &[String],
    files: &mut F,
    out: &mut O,
    err: &mut E,
) -> Outcome
    // What comes of it, and the line that is told.
    ensures answer { (line : List ℕ) × Answers result line (settings_of (map (λ w. string_bytes w) words.now)) (map (λ w. string_bytes w) words.now) (F.state files.old) (F.state files.new)
        × Told line (E.state err.old) (E.state err.new) }

    // What a stored script does, and when there is one.
    ensures headline { Headline result (settings_of (map (λ w. string_bytes w) words.now)) (F.state files.old) (F.state files.new) }
    ensures complete { IsComplete result (settings_of (map (λ w. string_bytes w) words.now)) (F.state files.old) (F.state files.new) }

    // What stays.
    ensures counts { CountsStay result (F.state files.old) (F.state files.new) }
    ensures same { TreeStays result (F.state files.old) (F.state files.new) }
    ensures out { (folder : List ℕ) → settings_of (map (λ w. string_bytes w) words.now) ≡ Some (build folder) → O.state out.new ≡ O.state out.old }
{
    derives_one_file();
    match folder_of(words) {
        Some(folder) => build(alloc, folder, OUT_FILE, SOURCE_FOLDER, false, files, err),
        None => other_words(alloc, words, files, out, err),
    }
}

/// Does what words ask for that are not `build` and a folder.
fn other_words<F: Files, O: Sink, E: Sink>(
    alloc: Global,
    words: &[String],
    files: &mut F,
    out: &mut O,
    err: &mut E,
) -> Outcome
    ensures { (line : List ℕ) × Leaves result (F.state files.old) (F.state files.new) × TellsUsage result line (map (λ w. string_bytes w) words.now) × Told line (E.state err.old) (E.state err.new) }
{
    match read_words(alloc, words) {
        Ok(settings) => perform(alloc, settings, files, out, err),
        Err(NoSettings::Usage) => {
            tell(err, &[USAGE]);
            Outcome::Usage
        }
        Err(NoSettings::NoMemory) => out_of_memory(err),
    }
}

/// Performs a command.
fn perform<F: Files, O: Sink, E: Sink>(
    alloc: Global,
    settings: Settings<'_>,
    files: &mut F,
    out: &mut O,
    err: &mut E,
) -> Outcome
    requires { IsWithinLimits settings }
    ensures { (line : List ℕ) × Leaves result (F.state files.old) (F.state files.new) × (result ≢ Usage) × Told line (E.state err.old) (E.state err.new) }
{
    match settings {
        Settings::Build {
            folder,
            out: out_file,
            src,
            is_small,
        } => build(alloc, folder, out_file, src, is_small, files, err),
        Settings::Run {
            folder,
            src,
            budget,
        } => run(alloc, folder, src, budget, files, out, err),
        Settings::Exec { file, budget } => exec(alloc, file, budget, files, out, err),
        Settings::Blocking { folder, src } => blocking(alloc, folder, src, files, out, err),
        Settings::Gen { size } => generated(alloc, size, out, err),
        Settings::Version => version(out, err),
    }
}

fn version<O: Sink, E: Sink>(out: &mut O, err: &mut E) -> Outcome
    ensures { (line : List ℕ) × (result ≢ Usage) × Told line (E.state err.old) (E.state err.new) }
{
    written(out.write(VERSION), err)
}
