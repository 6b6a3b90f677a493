//! Steps one after the other, until nothing is left on the stack.

ghost use Rattle.std.specs.Prelude.{◌≡◌, ◌≤◌, ◌<◌, ◌+◌, ◌^◌, [], length, OnOk, IfOk};
ghost use Rattle.js_steps.specs.Stack.{task_does};
ghost use Rattle.js_run.specs.Walks.{Walks};
ghost use Rattle.js_run.specs.Ends.{is_answer, IsAnswer};

use crate::turns::step::advance;
use crate::walks::Stop;
use gj_base::{Choices, Sink};
use js_steps::frames::frame::{Frame, Task};
use js_steps::frames::state::{Env, State};

// Whether a task is what came of all that was left to be done.
fn is_answer(task: Task) -> bool
    ensures value { result ≡ is_answer task.entry }
{
    match task {
        Task::Give(_) => true,
        Task::Follow(_) => true,
        Task::Throw(_, _) => true,
        _ => false,
    }
}

/// Does the whole of a task, and of what is on the stack: a value, how a statement was completed,
/// or a throw. It gives up with NoMemory where so many steps are not enough.
pub fn finish<'p, 'a, C: Choices, O: Sink>(
    env: &Env<'p, 'a>,
    choices: &mut C,
    out: &mut O,
    state: &mut State<'p, 'a>,
    stack: &mut Vec<Frame<'p, 'a>>,
    steps: &mut u64,
    first: Task<'a>,
) -> Result<Task<'a>, Stop<'a>>
    requires room { length (C.taken choices.old) + steps.old < 2 ^ 63 }
    ensures keeps { Walks env.now stack.old.items state.old (C.taken choices.old) (C.taken choices.new) (O.state out.old) (O.state out.new) stack.new.items state.new result (λ st. task_does st first.entry) }
    ensures room { length (C.taken choices.new) + steps.new ≤ length (C.taken choices.old) + steps.old }
    ensures answer { IfOk result (λ t. IsAnswer t) }
    ensures empty { OnOk result (stack.new.items ≡ []) }
{
    let mut task = first;
    'turns: while *steps > 0 {
        if stack.is_empty() && is_answer(task) {
            return Ok(task);
        }
        *steps -= 1;
        task = advance(env, choices, out, state, stack, task)?;
    }
    Err(Stop::NoMemory)
}
