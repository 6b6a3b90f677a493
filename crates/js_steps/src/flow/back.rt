//! Goes back to where a part waits: ECMA-262 5.1, 10.4, 12.14 and 13.2.1.

ghost use Rattle.std.specs.Prelude.{◌++◌, [], ◌∷◌, OnOk};
ghost use Rattle.js_tree.specs.Value.{throws};
ghost use Rattle.js_value.specs.HeapSeen.{value_of};
ghost use Rattle.js_steps.specs.Stack.{handled};
ghost use Rattle.js_steps.specs.Stands.{Steps};
ghost use Rattle.js_steps.specs.Back.{IsBack};

use crate::frames::frame::{Caller, Frame, Halt, Task};
use crate::frames::state::{State, leave_slots};
use crate::frames::step::wait;
use gj_base::NoMemory;
use js_value::heap::Value;
use std::mem::replace;

/// The caller goes on.
pub fn leave<'p, 'a>(state: &mut State<'p, 'a>, caller: Caller<'p, 'a>) -> Result<(), NoMemory>
    ensures value { OnOk result (IsBack caller.entry state.old state.new) }
{
    let Caller {
        body,
        locals,
        caught,
    } = caller;
    state.body = body;
    let slots = replace(&mut state.locals, locals);
    state.caught = caught;
    leave_slots(&mut state.spare, slots)
}

// The block after `catch` gets what was thrown: 12.14.
fn handle<'p, 'a>(
    state: &mut State<'p, 'a>,
    stack: &mut Vec<Frame<'p, 'a>>,
    handler: u32,
    v: Value<'a>,
) -> Result<Task<'a>, Halt<'a>>
    ensures keeps { Steps stack.old.items state.old stack.new.items state.new result (λ st m. handled st handler (value_of v.entry) m) }
{
    let before = replace(&mut state.caught, Some(v));
    wait(stack, Frame::Caught(before), Task::Statements(handler))
}

/// A value was thrown by the statement at an offset.
pub fn unwind<'p, 'a>(
    state: &mut State<'p, 'a>,
    stack: &mut Vec<Frame<'p, 'a>>,
    frame: Frame<'p, 'a>,
    at: u32,
    v: Value<'a>,
) -> Result<Task<'a>, Halt<'a>>
    ensures keeps { Steps (stack.old.items ++ frame.entry ∷ []) state.old stack.new.items state.new result (λ _. throws at (value_of v.entry)) }
{
    match frame {
        Frame::First(_) => Ok(Task::Throw(at, v)),
        Frame::Second(_, _) => Ok(Task::Throw(at, v)),
        Frame::Third(_, _, _) => Ok(Task::Throw(at, v)),
        Frame::Callee(_, _) => Ok(Task::Throw(at, v)),
        Frame::Argument(_, _, _, _, _) => Ok(Task::Throw(at, v)),
        Frame::Item(_, _) => Ok(Task::Throw(at, v)),
        Frame::Rest(_) => Ok(Task::Throw(at, v)),
        Frame::Turn(_) => Ok(Task::Throw(at, v)),
        Frame::Through(_) => Ok(Task::Throw(at, v)),
        Frame::Switch(_) => Ok(Task::Throw(at, v)),
        Frame::Catch(handler) => handle(state, stack, handler, v),
        Frame::Caught(before) => {
            state.caught = before;
            Ok(Task::Throw(at, v))
        }
        Frame::Leave(_, _, caller) => {
            leave(state, caller)?;
            Ok(Task::Throw(at, v))
        }
    }
}
