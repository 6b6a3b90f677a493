//! One step of a run, by what is to be done next.

ghost use Rattle.std.specs.Prelude.{◌≤◌, ◌<◌, ◌+◌, ◌^◌, length};
ghost use Rattle.js_tree.specs.Value.{gives, throws};
ghost use Rattle.js_value.specs.HeapSeen.{value_of};
ghost use Rattle.js_steps.specs.Moment.{value, flow};
ghost use Rattle.js_steps.specs.Stack.{flow_of, task_does};
ghost use Rattle.js_steps.specs.Stands.{Steps, StepsIn};
ghost use Rattle.js_run.specs.Walks.{Walks};

use crate::walks::{Stop, next, picked, written};
use gj_base::{Choices, Sink};
use js_steps::flow::back::unwind;
use js_steps::flow::order::{otherwise, through};
use js_steps::frames::frame::{Flow, Frame, Halt, Task};
use js_steps::frames::state::{Env, State};
use js_steps::steps::at_once::statements_at_once;
use js_steps::steps::evaluate::evaluate;
use js_steps::steps::execute::execute;
use js_steps::steps::follow::follow;
use js_steps::steps::give::give;
use js_value::heap::Value;

// What the innermost frame does with a value.
fn give_top<'p, 'a>(
    env: &Env<'p, 'a>,
    state: &mut State<'p, 'a>,
    stack: &mut Vec<Frame<'p, 'a>>,
    v: Value<'a>,
) -> Result<Task<'a>, Halt<'a>>
    ensures keeps { StepsIn env.now stack.old.items state.old stack.new.items state.new result (λ _. gives (value (value_of v.entry))) }
{
    match stack.pop() {
        Some(frame) => give(env, state, stack, frame, v),
        None => Ok(Task::Give(v)),
    }
}

// What it does with a statement that was completed.
fn follow_top<'p, 'a>(
    state: &mut State<'p, 'a>,
    stack: &mut Vec<Frame<'p, 'a>>,
    completion: Flow<'a>,
) -> Result<Task<'a>, Halt<'a>>
    ensures keeps { Steps stack.old.items state.old stack.new.items state.new result (λ _. gives (flow (flow_of completion.entry))) }
{
    match stack.pop() {
        Some(frame) => follow(state, frame, completion),
        None => Ok(Task::Follow(completion)),
    }
}

// What it does with a throw.
fn unwind_top<'p, 'a>(
    state: &mut State<'p, 'a>,
    stack: &mut Vec<Frame<'p, 'a>>,
    at: u32,
    v: Value<'a>,
) -> Result<Task<'a>, Halt<'a>>
    ensures keeps { Steps stack.old.items state.old stack.new.items state.new result (λ _. throws at (value_of v.entry)) }
{
    match stack.pop() {
        Some(frame) => unwind(state, stack, frame, at, v),
        None => Ok(Task::Throw(at, v)),
    }
}

/// One step.
pub fn advance<'p, 'a, C: Choices, O: Sink>(
    env: &Env<'p, 'a>,
    choices: &mut C,
    out: &mut O,
    state: &mut State<'p, 'a>,
    stack: &mut Vec<Frame<'p, 'a>>,
    task: Task<'a>,
) -> Result<Task<'a>, Stop<'a>>
    requires room { length (C.taken choices.old) < 2 ^ 63 }
    ensures keeps { Walks env.now stack.old.items state.old (C.taken choices.old) (C.taken choices.new) (O.state out.old) (O.state out.new) stack.new.items state.new result (λ st. task_does st task.entry) }
    ensures room { length (C.taken choices.new) ≤ length (C.taken choices.old) + 1 }
{
    match task {
        Task::Evaluate(i) => next(evaluate(env, state, stack, i)),
        Task::Execute(i) => next(execute(env, state, stack, i)),
        Task::Statements(i) => next(statements_at_once(env, state, stack, i)),
        Task::Else(i) => next(otherwise(env, state, stack, i)),
        Task::Through(i) => next(through(state, stack, i)),
        Task::Give(v) => next(give_top(env, state, stack, v)),
        Task::Follow(completion) => next(follow_top(state, stack, completion)),
        Task::Throw(at, v) => next(unwind_top(state, stack, at, v)),
        Task::Write(at, usage, text) => written(state, out, at, usage, text),
        Task::Pick(at, usage, k) => picked(state, choices, at, usage, k),
    }
}
