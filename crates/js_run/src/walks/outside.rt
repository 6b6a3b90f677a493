//! What is done outside: `$write` and `$pick` after their arguments. Own.

ghost use Rattle.std.specs.Prelude.{◌≡◌, ◌≤◌, ◌<◌, ◌+◌, ◌^◌, ℕ, pos, List, Some, length};
ghost use Rattle.gj_base.specs.Sink.{SinkState};
ghost use Rattle.js_tree.specs.Evaluate.{Setting};
ghost use Rattle.js_tree.specs.Value.{whole, gives};
ghost use Rattle.js_steps.specs.Moment.{Moment, called_here};
ghost use Rattle.js_steps.specs.Stack.{task_does};
ghost use Rattle.js_steps.specs.declared.frames.frame.Frame.{Frame};
ghost use Rattle.js_steps.specs.declared.frames.frame.Task.TheVariants as task;
ghost use Rattle.js_steps.specs.declared.frames.state.Env.{Env};
ghost use Rattle.js_run.specs.Stops.{next_of};
ghost use Rattle.js_run.specs.Walks.{Walks};

use crate::walks::stop::Stop;
use gj_base::{Choices, Sink};
use js_steps::frames::frame::{End, Flow, Halt, Task, Use};
use js_steps::frames::state::{State, tick};
use js_value::heap::Value;
use js_value::value::number::Number;

/// `$write(s)` after its arguments: prints the text after a tick.
pub fn written<'a, O: Sink>(
    state: &mut State<'_, 'a>,
    out: &mut O,
    at: u32,
    usage: Use,
    text: &'a [u8],
) -> Result<Task<'a>, Stop<'a>>
    ensures keeps { (env : Env) (stack : List Frame) (taken : List ℕ) → Walks env stack state.old taken taken (O.state out.old) (O.state out.new) stack state.new result (λ st. task_does st (task.Write at usage text.entry)) }
{
    tick(state)?;
    out.write(text)?;
    match usage {
        Use::Dropped => Ok(Task::Follow(Flow::Onward)),
        Use::Needed => Err(Stop::Over(End::Stuck(at))),
    }
}

// What a statement drops, or a value.
fn chosen<'a>(usage: Use, n: u32) -> Task<'a>
    ensures value { (at : ℕ) (st : Setting) (m : Moment) → task_does st result m ≡ called_here at usage m (gives (Some (whole (pos n))) m.world) }
{
    match usage {
        Use::Dropped => Task::Follow(Flow::Onward),
        Use::Needed => Task::Give(Value::Whole(Number { n: n as i64 })),
    }
}

/// `$pick(k)` after its arguments: takes the next number after a tick, and gives it modulo k.
pub fn picked<'a, C: Choices>(
    state: &mut State<'_, 'a>,
    choices: &mut C,
    at: u32,
    usage: Use,
    k: u32,
) -> Result<Task<'a>, Stop<'a>>
    requires room { length (C.taken choices.old) < 2 ^ 63 }
    ensures keeps { (env : Env) (stack : List Frame) (sink : SinkState) → Walks env stack state.old (C.taken choices.old) (C.taken choices.new) sink sink stack state.new result (λ st. task_does st (task.Pick at usage k)) }
    ensures one { length (C.taken choices.new) ≤ length (C.taken choices.old) + 1 }
{
    if k < 2 {
        return Err(Stop::Over(End::Stuck(at)));
    }
    tick(state)?;
    let n = choices.pick(k);
    Ok(chosen(usage, n))
}

/// A step that reaches nothing outside.
pub fn next<'a>(step: Result<Task<'a>, Halt<'a>>) -> Result<Task<'a>, Stop<'a>>
    ensures value { result ≡ next_of step.entry }
{
    match step {
        Ok(task) => Ok(task),
        Err(halt) => Err(Stop::from(halt)),
    }
}
