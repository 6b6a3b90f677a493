//! Begins a statement: ECMA-262 5.1, 12.

ghost use Rattle.std.specs.Prelude.{◌≡◌, Some, slice_get};
ghost use Rattle.js_code.specs.Held.{part_of};
ghost use Rattle.js_code.specs.Parts as list;
ghost use Rattle.js_code.specs.Parts.{stmt_at};
ghost use Rattle.js_steps.specs.Moment.{stmt_does};
ghost use Rattle.js_steps.specs.Stands.{StepsIn};

use crate::calls::call;
use crate::frames::frame::{Flow, Frame, Halt, Task, Use};
use crate::frames::state::{Env, State};
use crate::frames::step::wait;
use crate::operands::operands::first;
use crate::operands::turn::{label, turn};
use js_code::code::Part;

// An expression as a statement, by its part.
fn perform_part<'p, 'a>(
    env: &Env<'p, 'a>,
    state: &mut State<'p, 'a>,
    stack: &mut Vec<Frame<'p, 'a>>,
    i: u32,
    at: u32,
    e: u32,
    part: Part<'a>,
) -> Result<Task<'a>, Halt<'a>>
    requires held { slice_get state.old.body.now.code i ≡ Some (list.perform at e) }
    requires performed { slice_get state.old.body.now.code e ≡ Some (part_of part) }
    ensures keeps { StepsIn env.now stack.old.items state.old stack.new.items state.new result (λ st m. stmt_does st (stmt_at m.trees i) m) }
{
    match part {
        Part::Call {
            at,
            callee,
            arguments,
        } => call(env, state, stack, e, at, Use::Dropped, callee, arguments),
        _ => first(env, state, stack, i, Part::Perform { at, e }, e),
    }
}

// An expression as a statement, which may be a call that gives no value: 12.4.
fn perform<'p, 'a>(
    env: &Env<'p, 'a>,
    state: &mut State<'p, 'a>,
    stack: &mut Vec<Frame<'p, 'a>>,
    i: u32,
    at: u32,
    e: u32,
) -> Result<Task<'a>, Halt<'a>>
    requires held { slice_get state.old.body.now.code i ≡ Some (list.perform at e) }
    ensures keeps { StepsIn env.now stack.old.items state.old stack.new.items state.new result (λ st m. stmt_does st (stmt_at m.trees i) m) }
{
    match state.body.code.get(e) {
        Some(part) => perform_part(env, state, stack, i, at, e, part),
        None => first(env, state, stack, i, Part::Perform { at, e }, e),
    }
}

// Begins a statement by its part.
fn begin<'p, 'a>(
    env: &Env<'p, 'a>,
    state: &mut State<'p, 'a>,
    stack: &mut Vec<Frame<'p, 'a>>,
    i: u32,
    part: Part<'a>,
) -> Result<Task<'a>, Halt<'a>>
    requires held { slice_get state.old.body.now.code i ≡ Some (part_of part) }
    ensures keeps { StepsIn env.now stack.old.items state.old stack.new.items state.new result (λ st m. stmt_does st (stmt_at m.trees i) m) }
{
    match part {
        Part::Declare { e, .. } => first(env, state, stack, i, part, e),
        Part::DeclareNowhere { e, .. } => first(env, state, stack, i, part, e),
        Part::AssignLocal { e, .. } => first(env, state, stack, i, part, e),
        Part::AssignGlobal { e, .. } => first(env, state, stack, i, part, e),
        Part::AssignNowhere { e, .. } => first(env, state, stack, i, part, e),
        Part::Store { e, .. } => first(env, state, stack, i, part, e),
        Part::Perform { at, e } => perform(env, state, stack, i, at, e),
        Part::Push { e, .. } => first(env, state, stack, i, part, e),
        Part::Delete { e, .. } => first(env, state, stack, i, part, e),
        Part::If { test, .. } => first(env, state, stack, i, part, test),
        Part::While { test, .. } => first(env, state, stack, i, part, test),
        Part::Forever { body, .. } => turn(state, stack, i, body),
        Part::Switch { e, .. } => first(env, state, stack, i, part, e),
        Part::ReturnNothing { .. } => Ok(Task::Follow(Flow::Returns(None))),
        Part::Return { e, .. } => first(env, state, stack, i, part, e),
        Part::Throw { e, .. } => first(env, state, stack, i, part, e),
        Part::Break { label: x, .. } => Ok(Task::Follow(Flow::Breaks(label(x)))),
        Part::Continue { label: x, .. } => Ok(Task::Follow(Flow::Continues(label(x)))),
        Part::Try { body, handler, .. } => {
            wait(stack, Frame::Catch(handler), Task::Statements(body))
        }
        _ => Ok(Task::Follow(Flow::Breaks(None))),
    }
}

/// Begins the statement that a part stands for.
pub fn execute<'p, 'a>(
    env: &Env<'p, 'a>,
    state: &mut State<'p, 'a>,
    stack: &mut Vec<Frame<'p, 'a>>,
    i: u32,
) -> Result<Task<'a>, Halt<'a>>
    ensures keeps { StepsIn env.now stack.old.items state.old stack.new.items state.new result (λ st m. stmt_does st (stmt_at m.trees i) m) }
{
    match state.body.code.get(i) {
        Some(part) => begin(env, state, stack, i, part),
        None => Ok(Task::Follow(Flow::Breaks(None))),
    }
}
