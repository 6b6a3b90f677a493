//! Goes on when a value was found: ECMA-262 5.1, 11 and 12.

ghost use Rattle.std.specs.Prelude.{◌≡◌, ◌++◌, [], ◌∷◌, List, Some, slice_get};
ghost use Rattle.js_tree.specs.Value.{gives};
ghost use Rattle.js_code.specs.Held.{part_of};
ghost use Rattle.js_value.specs.HeapSeen.{value_of};
ghost use Rattle.js_steps.specs.Moment.{value};
ghost use Rattle.js_steps.specs.PartWaits.{first_does, second_does, third_does, callee_does};
ghost use Rattle.js_steps.specs.Stands.{Steps, StepsIn};
ghost use Rattle.js_steps.specs.declared.frames.frame.Frame.{Frame};

use crate::calls::{arguments, called, with_callee};
use crate::flow::back::leave;
use crate::frames::frame::{Frame, Halt, Task, Use};
use crate::frames::state::{Env, State};
use crate::operands::operands::{with_first, with_second, with_third};
use crate::steps::evaluate::elements;
use js_code::code::Part;
use js_value::heap::Value;

// A part that waits for its first expression has the value.
fn give_first<'p, 'a>(
    env: &Env<'p, 'a>,
    state: &mut State<'p, 'a>,
    stack: &mut Vec<Frame<'p, 'a>>,
    i: u32,
    v: Value<'a>,
) -> Result<Task<'a>, Halt<'a>>
    ensures keeps { Steps stack.old.items state.old stack.new.items state.new result (λ st m. first_does st (slice_get m.trees i) (value_of v.entry) m) }
{
    match state.body.code.get(i) {
        Some(part) => with_first(env, state, stack, i, part, v),
        None => Ok(Task::Give(v)),
    }
}

fn give_second<'p, 'a>(
    env: &Env<'p, 'a>,
    state: &mut State<'p, 'a>,
    stack: &mut Vec<Frame<'p, 'a>>,
    i: u32,
    u: Value<'a>,
    v: Value<'a>,
) -> Result<Task<'a>, Halt<'a>>
    ensures keeps { Steps stack.old.items state.old stack.new.items state.new result (λ st m. second_does st (slice_get m.trees i) (value_of u.entry) (value_of v.entry) m) }
{
    match state.body.code.get(i) {
        Some(part) => with_second(env, state, stack, i, part, u, v),
        None => Ok(Task::Give(v)),
    }
}

fn give_third<'p, 'a>(
    env: &Env<'p, 'a>,
    state: &mut State<'p, 'a>,
    i: u32,
    u: Value<'a>,
    v: Value<'a>,
    x: Value<'a>,
) -> Result<Task<'a>, Halt<'a>>
    ensures keeps { (stack : List Frame) → Steps stack state.old stack state.new result (λ st m. third_does (slice_get m.trees i) (value_of u.entry) (value_of v.entry) (value_of x.entry) m) }
{
    match state.body.code.get(i) {
        Some(part) => with_third(env, state, part, u, v, x),
        None => Ok(Task::Give(x)),
    }
}

fn callee_part<'p, 'a>(
    env: &Env<'p, 'a>,
    state: &mut State<'p, 'a>,
    stack: &mut Vec<Frame<'p, 'a>>,
    i: u32,
    usage: Use,
    v: Value<'a>,
    part: Part<'a>,
) -> Result<Task<'a>, Halt<'a>>
    requires held { slice_get state.old.body.now.code i ≡ Some (part_of part) }
    ensures keeps { StepsIn env.now stack.old.items state.old stack.new.items state.new result (λ st m. callee_does st usage (slice_get m.trees i) (value_of v.entry) m) }
{
    match part {
        Part::Call {
            at,
            arguments: list,
            ..
        } => with_callee(env, state, stack, at, usage, v, list),
        _ => Ok(Task::Give(v)),
    }
}

// A call that waits for what is called has it.
fn give_callee<'p, 'a>(
    env: &Env<'p, 'a>,
    state: &mut State<'p, 'a>,
    stack: &mut Vec<Frame<'p, 'a>>,
    i: u32,
    usage: Use,
    v: Value<'a>,
) -> Result<Task<'a>, Halt<'a>>
    ensures keeps { StepsIn env.now stack.old.items state.old stack.new.items state.new result (λ st m. callee_does st usage (slice_get m.trees i) (value_of v.entry) m) }
{
    match state.body.code.get(i) {
        Some(part) => callee_part(env, state, stack, i, usage, v, part),
        None => Ok(Task::Give(v)),
    }
}

/// A value was found.
pub fn give<'p, 'a>(
    env: &Env<'p, 'a>,
    state: &mut State<'p, 'a>,
    stack: &mut Vec<Frame<'p, 'a>>,
    frame: Frame<'p, 'a>,
    v: Value<'a>,
) -> Result<Task<'a>, Halt<'a>>
    ensures keeps { StepsIn env.now (stack.old.items ++ frame.entry ∷ []) state.old stack.new.items state.new result (λ _. gives (value (value_of v.entry))) }
{
    match frame {
        Frame::First(i) => give_first(env, state, stack, i, v),
        Frame::Second(i, u) => give_second(env, state, stack, i, u, v),
        Frame::Third(i, u, w) => give_third(env, state, i, u, w, v),
        Frame::Callee(i, usage) => give_callee(env, state, stack, i, usage, v),
        Frame::Argument(at, usage, callee, mut values, rest) => {
            values.push(v)?;
            arguments(env, state, stack, at, usage, callee, values, rest)
        }
        Frame::Item(mut values, rest) => {
            values.push(v)?;
            elements(state, stack, values, rest)
        }
        Frame::Rest(_) => Ok(Task::Give(v)),
        Frame::Turn(_) => Ok(Task::Give(v)),
        Frame::Through(_) => Ok(Task::Give(v)),
        Frame::Switch(_) => Ok(Task::Give(v)),
        Frame::Catch(_) => Ok(Task::Give(v)),
        Frame::Caught(before) => {
            state.caught = before;
            Ok(Task::Give(v))
        }
        Frame::Leave(at, usage, caller) => {
            leave(state, caller)?;
            called(at, usage, None)
        }
    }
}
