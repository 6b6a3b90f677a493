//! What is called, and the arguments of calls: ECMA-262 5.1, 11.2.3 and 11.2.4.

ghost use Rattle.std.specs.Prelude.{◌≡◌, [], Some, slice_get};
ghost use Rattle.js_code.specs.Parts as part;
ghost use Rattle.js_code.specs.Parts.{expr_at, exprs_at};
ghost use Rattle.js_value.specs.HeapSeen.{value_of, values_of};
ghost use Rattle.js_steps.specs.Moment.{expr_does, with_value, arguments_do};
ghost use Rattle.js_steps.specs.Stands.{StepsIn};

use crate::calls::value::call_value;
use crate::frames::frame::{Frame, Halt, Task, Use};
use crate::frames::state::{Env, State, no_values, simple, simple_onto};
use crate::frames::step::{is_simple, wait};
use js_simple::list::cell_at;
use js_value::heap::Value;

/// Goes on with the arguments of a call that are left.
pub fn arguments<'p, 'a>(
    env: &Env<'p, 'a>,
    state: &mut State<'p, 'a>,
    stack: &mut Vec<Frame<'p, 'a>>,
    at: u32,
    usage: Use,
    callee: Value<'a>,
    mut values: Vec<Value<'a>>,
    list: u32,
) -> Result<Task<'a>, Halt<'a>>
    ensures keeps { StepsIn env.now stack.old.items state.old stack.new.items state.new result (λ st m. arguments_do st at usage (value_of callee.entry) (values_of values.entry.items) (exprs_at m.trees list) m) }
{
    if is_simple(state, list) {
        simple_onto(env, state, &mut values, list)?;
        return call_value(env, state, stack, at, usage, callee, values);
    }
    match cell_at(&state.body.code, list) {
        Some(cell) => wait(
            stack,
            Frame::Argument(at, usage, callee, values, cell.rest),
            Task::Evaluate(cell.first),
        ),
        None => call_value(env, state, stack, at, usage, callee, values),
    }
}

/// A call with what is called.
pub fn with_callee<'p, 'a>(
    env: &Env<'p, 'a>,
    state: &mut State<'p, 'a>,
    stack: &mut Vec<Frame<'p, 'a>>,
    at: u32,
    usage: Use,
    callee: Value<'a>,
    list: u32,
) -> Result<Task<'a>, Halt<'a>>
    ensures keeps { StepsIn env.now stack.old.items state.old stack.new.items state.new result (λ st m. arguments_do st at usage (value_of callee.entry) [] (exprs_at m.trees list) m) }
{
    let values = no_values(env.alloc, &mut state.spare);
    arguments(env, state, stack, at, usage, callee, values, list)
}

/// A call, by its part.
pub fn call<'p, 'a>(
    env: &Env<'p, 'a>,
    state: &mut State<'p, 'a>,
    stack: &mut Vec<Frame<'p, 'a>>,
    i: u32,
    at: u32,
    usage: Use,
    callee: u32,
    list: u32,
) -> Result<Task<'a>, Halt<'a>>
    requires held { slice_get state.old.body.now.code i ≡ Some (part.call at callee list) }
    ensures keeps { StepsIn env.now stack.old.items state.old stack.new.items state.new result (λ st m. with_value (expr_does st (expr_at m.trees callee) m) (λ v m. arguments_do st at usage v [] (exprs_at m.trees list) m)) }
{
    if is_simple(state, callee) {
        let v = simple(env, state, callee)?;
        return with_callee(env, state, stack, at, usage, v, list);
    }
    wait(stack, Frame::Callee(i, usage), Task::Evaluate(callee))
}
