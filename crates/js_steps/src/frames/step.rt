//! How a step goes on.

ghost use Rattle.std.specs.Prelude.{◌≡◌, [], List, Ok, Err, option_map, if◌then◌else◌};
ghost use Rattle.js_value.specs.HeapSeen.{value_of};
ghost use Rattle.js_simple.specs.Simple.{mark_at};
ghost use Rattle.js_steps.specs.Moment.{given_here, chosen};
ghost use Rattle.js_steps.specs.Stack.{IsNoCall, frame_does, task_does};
ghost use Rattle.js_steps.specs.Stands.{Steps};
ghost use Rattle.js_steps.specs.declared.frames.frame.End.TheVariants as end;
ghost use Rattle.js_steps.specs.declared.frames.frame.Flow.TheVariants as flow;
ghost use Rattle.js_steps.specs.declared.frames.frame.Frame.{Frame};
ghost use Rattle.js_steps.specs.declared.frames.frame.Halt.TheVariants as halt;
ghost use Rattle.js_steps.specs.declared.frames.frame.Task.TheVariants as task;
ghost use Rattle.js_steps.specs.declared.frames.state.State.{State};

use crate::frames::frame::{End, Flow, Frame, Halt, Task};
use crate::frames::state::State;
use js_simple::operate::{self, truth_of};
use js_value::heap::Value;

/// Puts a frame on the stack, and goes on with what it waits for.
pub fn wait<'p, 'a>(
    stack: &mut Vec<Frame<'p, 'a>>,
    frame: Frame<'p, 'a>,
    next: Task<'a>,
) -> Result<Task<'a>, Halt<'a>>
    requires no_call { IsNoCall frame }
    ensures keeps { (s : State) → Steps stack.old.items s stack.new.items s result (λ st m. frame_does st frame.entry [] (task_does st next.entry m)) }
{
    stack.push(frame)?;
    Ok(next)
}

/// Goes on with a value, where there is one.
pub fn given<'a>(at: u32, value: Option<Value<'a>>) -> Result<Task<'a>, Halt<'a>>
    ensures keeps { (stack : List Frame) (s : State) → Steps stack s stack s result (λ _. given_here at (option_map value_of value.entry)) }
{
    let v = operate::given(at, value)?;
    Ok(Task::Give(v))
}

/// Goes on after an operation, where it has a meaning.
pub fn done<'a>(at: u32, done: bool) -> Result<Task<'a>, Halt<'a>>
    ensures value { result ≡ (if done then Ok (task.Follow flow.Onward) else Err (halt.Over (end.Stuck at))) }
{
    if done {
        return Ok(Task::Follow(Flow::Onward));
    }
    Err(Halt::Over(End::Stuck(at)))
}

/// One of two ways to go on.
pub fn chosen<'a>(
    at: u32,
    test: Value<'a>,
    left: Task<'a>,
    right: Task<'a>,
) -> Result<Task<'a>, Halt<'a>>
    ensures keeps { (stack : List Frame) (s : State) → Steps stack s stack s result (λ st. chosen at (value_of test.entry) (task_does st left.entry) (task_does st right.entry)) }
{
    let truth = truth_of(at, test)?;
    if truth {
        return Ok(left);
    }
    Ok(right)
}

/// Whether a part of the code of the call stands for expressions without a call.
pub fn is_simple(state: &State, i: u32) -> bool
    ensures value { result ≡ mark_at state.now.body.now.marks i }
{
    state.body.marks.is_simple(i)
}
