//! Begins an expression: ECMA-262 5.1, 11.

ghost use Rattle.std.specs.Prelude.{◌≡◌, Some, slice_get};
ghost use Rattle.js_code.specs.Held.{part_of};
ghost use Rattle.js_code.specs.Parts.{expr_at, exprs_at};
ghost use Rattle.js_value.specs.HeapSeen.{values_of};
ghost use Rattle.js_steps.specs.Moment.{expr_does, elements_do};
ghost use Rattle.js_steps.specs.Stands.{Steps, StepsIn};

use crate::calls::call;
use crate::frames::frame::{Frame, Halt, Task, Use};
use crate::frames::state::{Env, State, simple};
use crate::frames::step::{is_simple, wait};
use crate::operands::operands::first;
use js_code::code::Part;
use js_simple::list::{cell_at, count};
use js_value::heap::Value;
use js_value::heap::heap::{self, Object};

/// Goes on with the elements of an array that are left: 11.1.4.
pub fn elements<'p, 'a>(
    state: &mut State<'p, 'a>,
    stack: &mut Vec<Frame<'p, 'a>>,
    values: Vec<Value<'a>>,
    list: u32,
) -> Result<Task<'a>, Halt<'a>>
    ensures keeps { Steps stack.old.items state.old stack.new.items state.new result (λ st m. elements_do st (values_of values.entry.items) (exprs_at m.trees list) m) }
{
    match cell_at(&state.body.code, list) {
        Some(cell) => wait(
            stack,
            Frame::Item(values, cell.rest),
            Task::Evaluate(cell.first),
        ),
        None => {
            let array = heap::allocate(&mut state.objects, Object::Items(values))?;
            Ok(Task::Give(array))
        }
    }
}

// Begins an expression by its part.
fn begin<'p, 'a>(
    env: &Env<'p, 'a>,
    state: &mut State<'p, 'a>,
    stack: &mut Vec<Frame<'p, 'a>>,
    i: u32,
    part: Part<'a>,
) -> Result<Task<'a>, Halt<'a>>
    requires held { slice_get state.old.body.now.code i ≡ Some (part_of part) }
    ensures keeps { StepsIn env.now stack.old.items state.old stack.new.items state.new result (λ st m. expr_does st (expr_at m.trees i) m) }
{
    match part {
        Part::Unary { e, .. } => first(env, state, stack, i, part, e),
        Part::Binary { left, .. } => first(env, state, stack, i, part, left),
        Part::And { left, .. } => first(env, state, stack, i, part, left),
        Part::Or { left, .. } => first(env, state, stack, i, part, left),
        Part::Conditional { test, .. } => first(env, state, stack, i, part, test),
        Part::Call {
            at,
            callee,
            arguments,
        } => call(env, state, stack, i, at, Use::Needed, callee, arguments),
        Part::Index { e, .. } => first(env, state, stack, i, part, e),
        Part::Length { e, .. } => first(env, state, stack, i, part, e),
        Part::Pop { e, .. } => first(env, state, stack, i, part, e),
        Part::CharCodeAt { e, .. } => first(env, state, stack, i, part, e),
        Part::Substring { e, .. } => first(env, state, stack, i, part, e),
        Part::Array { items, .. } => {
            let values = Vec::with_capacity(env.alloc, count(&state.body.code, items))?;
            elements(state, stack, values, items)
        }
        Part::Decimal { e, .. } => first(env, state, stack, i, part, e),
        Part::FromCharCode { e, .. } => first(env, state, stack, i, part, e),
        _ => {
            let v = simple(env, state, i)?;
            Ok(Task::Give(v))
        }
    }
}

/// Begins the expression that a part stands for; one without a call is evaluated at once.
pub fn evaluate<'p, 'a>(
    env: &Env<'p, 'a>,
    state: &mut State<'p, 'a>,
    stack: &mut Vec<Frame<'p, 'a>>,
    i: u32,
) -> Result<Task<'a>, Halt<'a>>
    ensures keeps { StepsIn env.now stack.old.items state.old stack.new.items state.new result (λ st m. expr_does st (expr_at m.trees i) m) }
{
    if is_simple(state, i) {
        let v = simple(env, state, i)?;
        return Ok(Task::Give(v));
    }
    match state.body.code.get(i) {
        Some(part) => begin(env, state, stack, i, part),
        None => Ok(Task::Give(Value::Nothing)),
    }
}
