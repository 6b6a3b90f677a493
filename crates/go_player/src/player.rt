//! From a folder to the end of its program's run.

use bumpalo::Bump;
use gj_base::{Files, Refusal, Sink};
use gj_command::outcome::Outcome;
use gj_command::refusal::{internal, out_of_memory, refuse, written};
use gj_command::report::{tell, tell_stopped};
use gj_compile::{Checked, Refused, check_folder};
use gj_words::{Budget, NoSettings, Settings, read_words};
use go_core::program::Program;
use go_init::init_order;
use go_schedule::{Halt, Played};
use go_state::state::state::End;
use go_stmt::gone_program;
use go_values::operators::did::Context;
use itoa::Buffer;
use std::alloc::Global;

const USAGE: &[u8] = b"usage: go_player run [--seed N] [--steps N] [--src DIR] DIR\n";

/// Plays the package that the words name. What it prints goes to `out` at its end, the units of its
/// run and the text that it ends with to `err`.
pub fn play<F: Files, O: Sink, E: Sink>(
    alloc: Global,
    words: &[String],
    files: &mut F,
    out: &mut O,
    err: &mut E,
) -> Outcome {
    match read_words(alloc, words) {
        Ok(
            Settings::Run {
                folder,
                src,
                budget,
            },
        ) => play_folder(alloc, folder, src, budget, files, out, err),
        Err(NoSettings::NoMemory) => out_of_memory(err),
        _ => {
            tell(err, &[USAGE]);
            Outcome::Usage
        }
    }
}

fn play_folder<F: Files, O: Sink, E: Sink>(
    alloc: Global,
    folder: &str,
    src: &str,
    budget: Budget,
    files: &mut F,
    out: &mut O,
    err: &mut E,
) -> Outcome {
    match check_folder(alloc, folder, src, files) {
        Ok(checked) => play_checked(alloc, checked, budget, out, err),
        Err(refused) => refuse(alloc, refused, err),
    }
}

fn play_checked<O: Sink, E: Sink>(
    alloc: Global,
    checked: Checked,
    budget: Budget,
    out: &mut O,
    err: &mut E,
) -> Outcome {
    let Checked {
        program,
        files,
        is_plain: _,
    } = checked;
    let played = play_program(alloc, &program, budget, out, err);
    gone_program(program);
    match played {
        Ok(outcome) => outcome,
        Err(Refusal::Fault(fault)) => refuse(alloc, Refused::Beyond(fault, files), err),
        Err(Refusal::NoMemory) => out_of_memory(err),
    }
}

// A fault where variables of the package need themselves.
fn play_program<O: Sink, E: Sink>(
    alloc: Global,
    program: &Program,
    budget: Budget,
    out: &mut O,
    err: &mut E,
) -> Result<Outcome, Refusal> {
    let order = init_order(alloc, program)?;
    let arena = Bump::new(alloc);
    let c = Context {
        alloc,
        arena: &arena,
        table: &program.types,
    };
    let run = go_schedule::play(&c, program, &order, budget.seed, budget.steps)?;
    match run {
        Some(run) => Ok(tell_run(&run, budget, out, err)),
        None => Ok(internal(err)),
    }
}

// What a run has printed, and how it ended.
fn tell_run<O: Sink, E: Sink>(run: &Played, budget: Budget, out: &mut O, err: &mut E) -> Outcome {
    let printed = written(out.write(run.state.printed.as_slice()), err);
    match printed {
        Outcome::Done => {}
        _ => return printed,
    }
    tell_units(run.state.units, err);
    match run.halt {
        Halt::Ended => tell_end(run.state.end, err),
        Halt::Stopped => {
            tell_stopped(budget.steps, err);
            Outcome::Stopped(budget.steps)
        }
        Halt::Stuck => internal(err),
    }
}

fn tell_units<E: Sink>(units: u64, err: &mut E) {
    let mut digits = Buffer::new();
    let units = digits.format(units).as_bytes();
    tell(err, &[units, b" units\n"]);
}

// The last line: the text of a panic or of a fatal error.
fn tell_end<E: Sink>(end: End, err: &mut E) -> Outcome {
    match end {
        End::Exit(status) => Outcome::Ended((status % 256) as u8),
        End::Panicked(text) => {
            tell(err, &[b"panic: ", text, b"\n"]);
            Outcome::Ended(2)
        }
        End::Fatal(text) => {
            tell(err, &[b"fatal error: ", text, b"\n"]);
            Outcome::Ended(2)
        }
        End::Going => internal(err),
    }
}
