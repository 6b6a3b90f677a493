//! Begins statements that stand in order: ECMA-262 5.1, 12.1, 12.5 and 12.11.

ghost use Rattle.std.specs.Prelude.{◌≡◌, Some, true, slice_get};
ghost use Rattle.js_tree.specs.Script.{no_stmts};
ghost use Rattle.js_tree.specs.Evaluate.{exec_all, exec_through, go_on};
ghost use Rattle.js_code.specs.Held.{part_of};
ghost use Rattle.js_code.specs.Parts as list;
ghost use Rattle.js_code.specs.Parts.{stmt_at, stmts_at, else_at, cases_at, trees_of};
ghost use Rattle.js_simple.specs.Simple.{IsSomeCode};
ghost use Rattle.js_steps.specs.Moment.{frame_in, flowing, stmt_does, stmts_do, else_does, with_flow};
ghost use Rattle.js_steps.specs.Stands.{Steps};

use crate::frames::frame::{Flow, Frame, Halt, Task};
use crate::frames::state::{Env, State};
use crate::frames::step::wait;
use crate::operands::operands::first;
use js_code::code::{Code, Part};

fn is_end(part: Part) -> bool
    ensures value { result ≡ true → part_of part.entry ≡ list.done }
{
    match part {
        Part::Done => true,
        _ => false,
    }
}

// Whether no statements are here; where it says no there may be none either.
fn ends_at(code: &Code, i: u32) -> bool
    ensures value { IsSomeCode code.now → result ≡ true → stmts_at (trees_of code.now) i ≡ no_stmts }
{
    match code.get(i) {
        Some(part) => is_end(part),
        None => false,
    }
}

// Begins a statement, and those after it wait, if there are any.
fn with_rest<'p, 'a>(
    state: &State<'p, 'a>,
    stack: &mut Vec<Frame<'p, 'a>>,
    first: u32,
    rest: u32,
) -> Result<Task<'a>, Halt<'a>>
    ensures keeps { Steps stack.old.items state.now stack.new.items state.now result (λ st m. with_flow (stmt_does st (stmt_at m.trees first) m) (λ x n. flowing n (go_on (exec_all st n.scope (stmts_at n.trees rest)) x (frame_in n)))) }
{
    if ends_at(&state.body.code, rest) {
        return Ok(Task::Execute(first));
    }
    wait(stack, Frame::Rest(rest), Task::Execute(first))
}

fn begin_statements<'p, 'a>(
    state: &State<'p, 'a>,
    stack: &mut Vec<Frame<'p, 'a>>,
    i: u32,
    part: Part<'a>,
) -> Result<Task<'a>, Halt<'a>>
    requires held { slice_get state.now.body.now.code i ≡ Some (part_of part) }
    ensures keeps { Steps stack.old.items state.now stack.new.items state.now result (λ st m. stmts_do st (stmts_at m.trees i) m) }
{
    match part {
        Part::Then { first, rest } => with_rest(state, stack, first, rest),
        _ => Ok(Task::Follow(Flow::Onward)),
    }
}

/// Begins statements in order: 12.1.
pub fn statements<'p, 'a>(
    state: &State<'p, 'a>,
    stack: &mut Vec<Frame<'p, 'a>>,
    i: u32,
) -> Result<Task<'a>, Halt<'a>>
    ensures keeps { Steps stack.old.items state.now stack.new.items state.now result (λ st m. stmts_do st (stmts_at m.trees i) m) }
{
    match state.body.code.get(i) {
        Some(part) => begin_statements(state, stack, i, part),
        None => Ok(Task::Follow(Flow::Onward)),
    }
}

fn begin_else<'p, 'a>(
    env: &Env<'p, 'a>,
    state: &mut State<'p, 'a>,
    stack: &mut Vec<Frame<'p, 'a>>,
    i: u32,
    part: Part<'a>,
) -> Result<Task<'a>, Halt<'a>>
    requires held { slice_get state.old.body.now.code i ≡ Some (part_of part) }
    ensures keeps { Steps stack.old.items state.old stack.new.items state.new result (λ st m. else_does st (else_at m.trees i) m) }
{
    match part {
        Part::ElseBlock { body } => Ok(Task::Statements(body)),
        Part::ElseIf { test, .. } => first(env, state, stack, i, part, test),
        _ => Ok(Task::Follow(Flow::Onward)),
    }
}

/// Begins what stands after the block of an `if` whose condition gave false: 12.5.
pub fn otherwise<'p, 'a>(
    env: &Env<'p, 'a>,
    state: &mut State<'p, 'a>,
    stack: &mut Vec<Frame<'p, 'a>>,
    i: u32,
) -> Result<Task<'a>, Halt<'a>>
    ensures keeps { Steps stack.old.items state.old stack.new.items state.new result (λ st m. else_does st (else_at m.trees i) m) }
{
    match state.body.code.get(i) {
        Some(part) => begin_else(env, state, stack, i, part),
        None => Ok(Task::Follow(Flow::Onward)),
    }
}

fn begin_cases<'p, 'a>(
    state: &State<'p, 'a>,
    stack: &mut Vec<Frame<'p, 'a>>,
    i: u32,
    part: Part<'a>,
) -> Result<Task<'a>, Halt<'a>>
    requires held { slice_get state.now.body.now.code i ≡ Some (part_of part) }
    ensures keeps { Steps stack.old.items state.now stack.new.items state.now result (λ st m. flowing m (exec_through st m.scope (cases_at m.trees i) (frame_in m))) }
{
    match part {
        Part::Case { body, rest, .. } => wait(stack, Frame::Through(rest), Task::Statements(body)),
        Part::Default { body } => Ok(Task::Statements(body)),
        _ => Ok(Task::Follow(Flow::Onward)),
    }
}

/// Begins the statements of every case from here on: 12.11.
pub fn through<'p, 'a>(
    state: &State<'p, 'a>,
    stack: &mut Vec<Frame<'p, 'a>>,
    i: u32,
) -> Result<Task<'a>, Halt<'a>>
    ensures keeps { Steps stack.old.items state.now stack.new.items state.now result (λ st m. flowing m (exec_through st m.scope (cases_at m.trees i) (frame_in m))) }
{
    match state.body.code.get(i) {
        Some(part) => begin_cases(state, stack, i, part),
        None => Ok(Task::Follow(Flow::Onward)),
    }
}
