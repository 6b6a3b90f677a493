//! The command `run`: from a folder to what its program prints.

ghost use Rattle.std.specs.Prelude.{◌≡◌, ◌≢◌, ◌≤◌, List, ℕ};
ghost use Rattle.gj_words.specs.Words.{most_steps};
ghost use Rattle.gj_command.specs.Headline.{Leaves};
ghost use Rattle.gj_command.specs.Commands.{RunTells};
ghost use Rattle.gj_command.specs.Told.{Told};
ghost use Rattle.gj_command.specs.declared.outcome.Outcome.TheVariants.{Usage};

use crate::outcome::Outcome;
use crate::refusal::{internal, out_of_memory, refuse, write_failed};
use crate::report::{tell, tell_stopped};
use gj_base::{Files, SeedChoices, Sink};
use gj_compile::compile;
use gj_words::Budget;
use js_run::{RunEnd, RunRefusal};
use js_tree::Script;
use std::alloc::Global;

/// Compiles the package in a folder, and runs its script.
///
/// What the program prints goes to `out` as it comes, the text that it ends with to `err`.
pub fn run<F: Files, O: Sink, E: Sink>(
    alloc: Global,
    folder: &str,
    src: &str,
    budget: Budget,
    files: &mut F,
    out: &mut O,
    err: &mut E,
) -> Outcome
    requires { budget.steps ≤ most_steps }
    ensures { (line : List ℕ) × Leaves result (F.state files.old) (F.state files.new) × (result ≢ Usage) × Told line (E.state err.old) (E.state err.new) }
{
    match compile(alloc, folder, src, files) {
        Ok(script) => run_compiled(alloc, &script, budget, out, err),
        Err(refused) => refuse(alloc, refused, err),
    }
}

/// Runs a script of ours, which has a meaning.
fn run_compiled<O: Sink, E: Sink>(
    alloc: Global,
    script: &Script,
    budget: Budget,
    out: &mut O,
    err: &mut E,
) -> Outcome
    requires { budget.steps ≤ most_steps }
    ensures { (line : List ℕ) × (result ≢ Usage) × Told line (E.state err.old) (E.state err.new) }
{
    match run_script(alloc, script, budget, out, err) {
        Ok(outcome) => outcome,
        Err(_) => internal(err),
    }
}

/// Runs a script. Where it is stuck, at the byte of the `Err`, nothing is told.
pub fn run_script<O: Sink, E: Sink>(
    alloc: Global,
    script: &Script,
    budget: Budget,
    out: &mut O,
    err: &mut E,
) -> Result<Outcome, u32>
    requires { budget.steps ≤ most_steps }
    ensures { RunTells result (E.state err.old) (E.state err.new) }
{
    let mut choices = SeedChoices::new(budget.seed);
    match js_run::run(alloc, script, &mut choices, out, budget.steps) {
        Ok(RunEnd::Ended(status, text)) => {
            tell(err, &[text.as_bytes()]);
            Ok(Outcome::Ended(status))
        }
        Ok(RunEnd::Stopped) => {
            tell_stopped(budget.steps, err);
            Ok(Outcome::Stopped(budget.steps))
        }
        Ok(RunEnd::Stuck(at)) => Err(at),
        Err(RunRefusal::WriteFault) => Ok(write_failed(err)),
        Err(RunRefusal::NoMemory) => Ok(out_of_memory(err)),
    }
}
