//! Calls of values: ECMA-262 5.1, 11.2.3.

ghost use Rattle.std.specs.Prelude.{List, option_map};
ghost use Rattle.js_tree.specs.Value.{gives};
ghost use Rattle.js_tree.specs.Evaluate as part;
ghost use Rattle.js_code.specs.Places.{host_of};
ghost use Rattle.js_value.specs.HeapSeen.{value_of, values_of};
ghost use Rattle.js_steps.specs.Moment.{called_here};
ghost use Rattle.js_steps.specs.Stands.{Steps, StepsIn};
ghost use Rattle.js_steps.specs.declared.frames.frame.Frame.{Frame};
ghost use Rattle.js_steps.specs.declared.frames.state.State.{State};

use crate::bodies::find_body;
use crate::calls::function::call_function;
use crate::calls::host::call_host;
use crate::frames::frame::{End, Flow, Frame, Halt, Task, Use};
use crate::frames::state::{Env, State, leave_values};
use gj_base::Text;
use js_code::slots::place::{Host, host_named};
use js_value::heap::Value;

/// Goes on with what a call gave.
pub fn called<'a>(at: u32, usage: Use, value: Option<Value<'a>>) -> Result<Task<'a>, Halt<'a>>
    ensures keeps { (stack : List Frame) (s : State) → Steps stack s stack s result (λ _ m. called_here at usage m (gives (option_map value_of value.entry) m.world)) }
{
    match usage {
        Use::Dropped => Ok(Task::Follow(Flow::Onward)),
        Use::Needed => match value {
            Some(v) => Ok(Task::Give(v)),
            None => Err(Halt::Over(End::Stuck(at))),
        },
    }
}

// A call of a function of the host, whose arguments are left to the next calls.
fn call_outside<'a>(
    state: &mut State<'_, 'a>,
    at: u32,
    usage: Use,
    host: Host,
    values: Vec<Value<'a>>,
) -> Result<Task<'a>, Halt<'a>>
    ensures keeps { (stack : List Frame) → Steps stack state.old stack state.new result (λ st m. called_here at usage m (part.call_host st at (host_of host) (values_of values.entry.items) m.world)) }
{
    let task = call_host(state, at, usage, host, values.as_slice())?;
    leave_values(&mut state.spare, values)?;
    Ok(task)
}

// Calls a function by its name.
fn call_named<'p, 'a>(
    env: &Env<'p, 'a>,
    state: &mut State<'p, 'a>,
    stack: &mut Vec<Frame<'p, 'a>>,
    at: u32,
    usage: Use,
    n: u32,
    x: &Text,
    values: Vec<Value<'a>>,
) -> Result<Task<'a>, Halt<'a>>
    ensures keeps { StepsIn env.now stack.old.items state.old stack.new.items state.new result (λ st m. called_here at usage m (part.call_named st at (part.host_named x.now) x.now (values_of values.entry.items) m.world)) }
{
    if let Some(body) = find_body(env.functions, n, x) {
        return call_function(env, state, stack, at, usage, body, values);
    }
    match host_named(x) {
        Some(host) => call_outside(state, at, usage, host, values),
        None => Err(Halt::Over(End::Stuck(at))),
    }
}

/// Calls a value.
pub fn call_value<'p, 'a>(
    env: &Env<'p, 'a>,
    state: &mut State<'p, 'a>,
    stack: &mut Vec<Frame<'p, 'a>>,
    at: u32,
    usage: Use,
    callee: Value<'a>,
    values: Vec<Value<'a>>,
) -> Result<Task<'a>, Halt<'a>>
    ensures keeps { StepsIn env.now stack.old.items state.old stack.new.items state.new result (λ st m. called_here at usage m (part.call_value st at (value_of callee.entry) (values_of values.entry.items) m.world)) }
{
    match callee {
        Value::Function(n, x) => call_named(env, state, stack, at, usage, n, x, values),
        _ => Err(Halt::Over(End::Stuck(at))),
    }
}
