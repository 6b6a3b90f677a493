//! Calls of the functions of a script: ECMA-262 5.1, 10.5 and 13.2.1.

ghost use Rattle.std.specs.Prelude.{◌≡◌, ◌++◌, ◌-◌, Some, None, map, length, replicate, OnOk};
ghost use Rattle.std.specs.Borrow.{Bor};
ghost use Rattle.js_tree.specs.Evaluate as part;
ghost use Rattle.js_tree.specs.View.{function_view};
ghost use Rattle.js_tree.specs.declared.tree.JsFunction.{JsFunction};
ghost use Rattle.js_value.specs.HeapSeen.{values_of};
ghost use Rattle.js_simple.specs.Seen.{slots_in};
ghost use Rattle.js_steps.specs.Moment.{called_here};
ghost use Rattle.js_steps.specs.Stands.{StepsOf, StepsInto};

use crate::bodies::Body;
use crate::frames::frame::{Caller, End, Frame, Halt, Task, Use};
use crate::frames::state::{Env, State, leave_values, no_slots, tick};
use gj_base::NoMemory;
use js_simple::Slot;
use js_value::heap::Value;
use std::mem::replace;

// Values in slots.
fn fill<'a>(slots: &mut Vec<Slot<'a>>, values: &[Value<'a>]) -> Result<(), NoMemory>
    ensures value { OnOk result (slots.new.items ≡ slots.old.items ++ map Some values.now) }
{
    for v in values {
        slots.push(Some(*v))?;
    }
    Ok(())
}

// Empty slots.
fn leave_empty<'a>(slots: &mut Vec<Slot<'a>>, count: usize) -> Result<(), NoMemory>
    ensures value { OnOk result (slots.new.items ≡ slots.old.items ++ replicate count None) }
{
    for n in 0..count {
        slots.push(None)?;
    }
    Ok(())
}

// Arguments in the first slots, and the other slots empty: 10.5.
fn bind<'a>(slots: &mut Vec<Slot<'a>>, values: &[Value<'a>], count: usize) -> Result<(), NoMemory>
    ensures value { OnOk result (slots_in slots.new.items ≡ slots_in slots.old.items ++ (map Some (values_of values.now) ++ replicate (count - length values.now) None)) }
{
    fill(slots, values)?;
    leave_empty(slots, count.saturating_sub(values.len()))?;
    Ok(())
}

// Begins the body of a function, after the tick of its call.
fn enter<'p, 'a>(
    env: &Env<'p, 'a>,
    state: &mut State<'p, 'a>,
    stack: &mut Vec<Frame<'p, 'a>>,
    at: u32,
    usage: Use,
    body: &'p Body<'a>,
    values: Vec<Value<'a>>,
) -> Result<Task<'a>, Halt<'a>>
    ensures keeps { (f : Bor JsFunction) → length values.entry.items ≡ length (function_view f.now).params → StepsInto f body.now stack.old.items state.old stack.new.items state.new result (λ st m. called_here at usage m (st.enter (function_view f.now) (values_of values.entry.items) m.world)) }
{
    let mut slots = no_slots(env.alloc, &mut state.spare);
    bind(&mut slots, values.as_slice(), body.slots)?;
    leave_values(&mut state.spare, values)?;
    let locals = replace(&mut state.locals, slots);
    let caller = Caller {
        body: state.body,
        locals,
        caught: state.caught,
    };
    state.body = body;
    state.caught = None;
    stack.push(Frame::Leave(at, usage, caller))?;
    Ok(Task::Statements(body.whole))
}

/// A call of a function by its code, with as many arguments as it has parameters.
pub fn call_function<'p, 'a>(
    env: &Env<'p, 'a>,
    state: &mut State<'p, 'a>,
    stack: &mut Vec<Frame<'p, 'a>>,
    at: u32,
    usage: Use,
    body: &'p Body<'a>,
    values: Vec<Value<'a>>,
) -> Result<Task<'a>, Halt<'a>>
    ensures keeps { (f : Bor JsFunction) → StepsOf f body.now stack.old.items state.old stack.new.items state.new result (λ st m. called_here at usage m (part.call_function st at (Some (function_view f.now)) (values_of values.entry.items) m.world)) }
{
    if values.len() != body.params {
        return Err(Halt::Over(End::Stuck(at)));
    }
    tick(state)?;
    enter(env, state, stack, at, usage, body, values)
}
