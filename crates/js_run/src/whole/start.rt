//! The first values of top-level variables, and the start function: ECMA-262 5.1, 14.

ghost use Rattle.std.specs.Prelude.{◌≡◌, ◌≤◌, ◌<◌, ◌+◌, ◌^◌, [], ◌∷◌, ℕ, List, length};
ghost use Rattle.gj_base.specs.Sink.{SinkState};
ghost use Rattle.js_tree.specs.Script.{Name, Expr, Item, global_item, ScriptTree};
ghost use Rattle.js_tree.specs.Value as run;
ghost use Rattle.js_value.specs.HeapSeen.{value_of};
ghost use Rattle.js_steps.specs.Bodies.{IsProgram, IsValueBody};
ghost use Rattle.js_run.specs.Firsts.{IsFirst, AreFirsts};
ghost use Rattle.js_run.specs.Points as point;
ghost use Rattle.js_run.specs.Points.{Rest, PrintsOn, Reached, Stage, IsOutside, items_left, value_then, call_left, nothing_left};

use crate::turns::finish;
use crate::walks::Stop;
use crate::whole::prepare::First;
use gj_base::{Choices, Sink};
use js_steps::bodies::Body;
use js_steps::calls::call_value;
use js_steps::frames::frame::{End, Task, Use};
use js_steps::frames::state::{Env, State};
use js_steps::operands::sets::set_global as set_slot;
use js_value::heap::Value;

// Goes on outside functions, where nothing was caught.
fn outside<'p, 'a>(state: &mut State<'p, 'a>, body: &'p Body<'a>)
    ensures same { IsOutside state.old state.new body.entry }
{
    state.body = body;
    state.locals.clear();
    state.caught = None;
}

// What an expression came to.
fn value_in<'a>(done: Task<'a>) -> Result<Value<'a>, Stop<'a>>
    ensures value { result ≡ point.value_in done.entry }
{
    match done {
        Task::Give(v) => Ok(v),
        Task::Throw(at, _) => Err(Stop::Over(End::Stuck(at))),
        _ => Err(Stop::NoMemory),
    }
}

// What a call came to.
fn return_in<'a>(done: Task<'a>) -> Result<(), Stop<'a>>
    ensures value { result ≡ point.return_in done.entry }
{
    match done {
        Task::Throw(from, _) => Err(Stop::Over(End::Stuck(from))),
        _ => Ok(()),
    }
}

/// The value of an expression outside functions.
pub fn first_value<'p, 'a, C: Choices, O: Sink>(
    env: &Env<'p, 'a>,
    choices: &mut C,
    out: &mut O,
    state: &mut State<'p, 'a>,
    steps: &mut u64,
    body: &'p Body<'a>,
) -> Result<Value<'a>, Stop<'a>>
    requires room { length (C.taken choices.old) + steps.old < 2 ^ 63 }
    ensures room { length (C.taken choices.new) + steps.new ≤ length (C.taken choices.old) + steps.old }
    ensures goes { (script : ScriptTree) (budget : ℕ) (taken : List ℕ) (sink : SinkState) (e : Expr) (more : run.Value → Rest) → IsProgram script env.now.functions.now → IsValueBody script body.now e → ((v : run.Value) → PrintsOn script budget (more v)) → Reached script budget taken (C.taken choices.old) sink (O.state out.old) state.old (value_then e more) → Stage script budget taken (C.taken choices.new) sink (O.state out.new) state.new result (λ v. more (value_of v)) }
{
    outside(state, body);
    let mut stack = Vec::new(env.alloc);
    let first = Task::Evaluate(body.whole);
    let done = finish(env, choices, out, state, &mut stack, steps, first)?;
    value_in(done)
}

/// Sets a top-level variable to its first value.
pub fn set_global<'p, 'a, C: Choices, O: Sink>(
    env: &Env<'p, 'a>,
    choices: &mut C,
    out: &mut O,
    state: &mut State<'p, 'a>,
    steps: &mut u64,
    first: &'p First<'a>,
) -> Result<(), Stop<'a>>
    requires room { length (C.taken choices.old) + steps.old < 2 ^ 63 }
    ensures room { length (C.taken choices.new) + steps.new ≤ length (C.taken choices.old) + steps.old }
    ensures goes { (script : ScriptTree) (budget : ℕ) (taken : List ℕ) (sink : SinkState) (at : ℕ) (x : Name) (e : Expr) (rest : List Item) → IsProgram script env.now.functions.now → IsFirst script first.now x e → Reached script budget taken (C.taken choices.old) sink (O.state out.old) state.old (items_left (global_item at x e ∷ rest)) → Stage script budget taken (C.taken choices.new) sink (O.state out.new) state.new result (λ _. items_left rest) }
{
    let v = first_value(env, choices, out, state, steps, &first.body)?;
    set_slot(state, first.slot, v);
    Ok(())
}

/// Sets the top-level variables in order.
pub fn set_globals<'p, 'a, C: Choices, O: Sink>(
    env: &Env<'p, 'a>,
    choices: &mut C,
    out: &mut O,
    state: &mut State<'p, 'a>,
    steps: &mut u64,
    firsts: &'p [First<'a>],
) -> Result<(), Stop<'a>>
    requires room { length (C.taken choices.old) + steps.old < 2 ^ 63 }
    ensures room { length (C.taken choices.new) + steps.new ≤ length (C.taken choices.old) + steps.old }
    ensures goes { (script : ScriptTree) (budget : ℕ) (taken : List ℕ) (sink : SinkState) (items : List Item) → IsProgram script env.now.functions.now → AreFirsts script items firsts.now → Reached script budget taken (C.taken choices.old) sink (O.state out.old) state.old (items_left items) → Stage script budget taken (C.taken choices.new) sink (O.state out.new) state.new result (λ _. items_left []) }
{
    for first in firsts {
        set_global(env, choices, out, state, steps, first)?;
    }
    Ok(())
}

/// Calls a value without arguments, outside functions, and drops what it gives.
pub fn call_start<'p, 'a, C: Choices, O: Sink>(
    env: &Env<'p, 'a>,
    choices: &mut C,
    out: &mut O,
    state: &mut State<'p, 'a>,
    steps: &mut u64,
    at: u32,
    callee: Value<'a>,
) -> Result<(), Stop<'a>>
    requires room { length (C.taken choices.old) + steps.old < 2 ^ 63 }
    ensures goes { (script : ScriptTree) (budget : ℕ) (taken : List ℕ) (sink : SinkState) → IsProgram script env.now.functions.now → Reached script budget taken (C.taken choices.old) sink (O.state out.old) state.old (call_left at (value_of callee.entry)) → Stage script budget taken (C.taken choices.new) sink (O.state out.new) state.new result (λ _. nothing_left) }
{
    let mut stack = Vec::new(env.alloc);
    let values = Vec::new(env.alloc);
    let first = call_value(env, state, &mut stack, at, Use::Dropped, callee, values)?;
    let done = finish(env, choices, out, state, &mut stack, steps, first)?;
    return_in(done)
}
