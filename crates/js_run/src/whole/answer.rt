//! How a run ends, and why it has no end.

ghost use Rattle.std.specs.Prelude.{◌≡◌, ℕ, List, IfOk};
ghost use Rattle.gj_base.specs.Sink.{SinkState};
ghost use Rattle.js_tree.specs.Script.{ScriptTree};
ghost use Rattle.js_steps.specs.Stack.{end_of};
ghost use Rattle.js_steps.specs.declared.frames.state.State.{State};
ghost use Rattle.js_run.specs.Points.{Stage, Stopped, nothing_left};
ghost use Rattle.js_run.specs.Runs.{RunsAs, end_in};

use crate::walks::Stop;
use gj_base::{NoMemory, Text};
use js_steps::frames::frame::End;
use std::alloc::Global;
use thiserror::Error;

/// How a run ended.
#[derive(Drop)]
pub enum RunEnd {
    /// With a status and a text; a run that returned has status 0 and no text.
    Ended(u8, Text),
    /// No tick was left.
    Stopped,
    /// The operation at this offset has no meaning.
    Stuck(u32),
}

/// Why a run has no end.
#[derive(Clone, Copy, Debug, PartialEq, Eq, Error)]
pub enum RunRefusal {
    /// The sink failed.
    #[error("WriteFault")]
    WriteFault,
    /// An allocation was refused.
    #[error("NoMemory")]
    NoMemory,
}

impl From<NoMemory> for RunRefusal {
    ghost use Rattle.std.specs.Prelude.{◌≡◌};
    ghost use Rattle.js_run.specs.declared.whole.answer.RunRefusal.TheVariants as refusal;

    ghost from_gives = { λ _ r. r ≡ refusal.NoMemory };

    fn from(_e: NoMemory) -> RunRefusal {
        RunRefusal::NoMemory
    }
}

// How a run that is over ended.
fn over_as<'a>(alloc: Global, end: End<'a>) -> Result<RunEnd, NoMemory>
    ensures value { IfOk result (λ e. end_in e ≡ end_of end.entry) }
{
    match end {
        End::Going => Ok(RunEnd::Stopped),
        End::Ended(status, text) => {
            let text = Text::from_slice(alloc, text)?;
            Ok(RunEnd::Ended(status, text))
        }
        End::Stuck(at) => Ok(RunEnd::Stuck(at)),
    }
}

// What a run that was stopped answers.
fn stopped<'a>(alloc: Global, stop: Stop<'a>) -> Result<RunEnd, RunRefusal>
    ensures runs { (script : ScriptTree) (budget : ℕ) (taken taken' : List ℕ) (sink sink' : SinkState) (s : State) → Stopped script budget taken taken' sink sink' s stop.entry → RunsAs script budget result taken taken' sink sink' }
{
    match stop {
        Stop::WriteFault => Err(RunRefusal::WriteFault),
        Stop::NoMemory => Err(RunRefusal::NoMemory),
        Stop::Over(end) => {
            let told = over_as(alloc, end)?;
            Ok(told)
        }
    }
}

/// What a run answers: one that returned has ended with 0 and no text.
pub fn ended<'a>(alloc: Global, outcome: Result<(), Stop<'a>>) -> Result<RunEnd, RunRefusal>
    ensures runs { (script : ScriptTree) (budget : ℕ) (taken taken' : List ℕ) (sink sink' : SinkState) (s : State) → Stage script budget taken taken' sink sink' s outcome.entry (λ _. nothing_left) → RunsAs script budget result taken taken' sink sink' }
{
    match outcome {
        Ok(()) => Ok(RunEnd::Ended(0, Text::new(alloc))),
        Err(stop) => stopped(alloc, stop),
    }
}
