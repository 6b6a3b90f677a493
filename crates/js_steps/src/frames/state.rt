//! What changes while a script runs, and what doesn't.

ghost use Rattle.std.specs.Prelude.{◌≡◌, ◌++◌, [], Some, slice_set};
ghost use Rattle.js_tree.specs.Value.{gives, and_then};
ghost use Rattle.js_tree.specs.Evaluate.{eval, eval_all};
ghost use Rattle.js_code.specs.Parts.{expr_at, exprs_at};
ghost use Rattle.js_value.specs.HeapSeen.{value_of, values_of};
ghost use Rattle.js_simple.specs.Simple.{IsSimpleAt, AreSimpleAt};
ghost use Rattle.js_steps.specs.Stands.{Finds, OnlyObjects, Ticked};

use crate::bodies::Body;
use crate::frames::frame::{End, Halt};
use bumpalo::Bump;
use gj_base::NoMemory;
use js_code::code::DEPTH;
use js_simple::eval::{eval, eval_onto};
use js_simple::{Context, Slot};
use js_value::heap::Value;
use js_value::heap::heap::Object;
use std::alloc::Global;

/// What doesn't change: where strings are kept, and the functions of the script in order.
#[derive(Clone, Copy)]
pub struct Env<'p, 'a> {
    pub alloc: Global,
    pub arena: &'a Bump,
    pub functions: &'p [Body<'a>],
}

/// Lists that calls have left, whose memory the next calls take. They are empty.
#[derive(Drop)]
pub struct Spare<'a> {
    pub values: Vec<Vec<Value<'a>>>,
    pub slots: Vec<Vec<Slot<'a>>>,
}

/// What changes while a script runs.
#[derive(Drop)]
pub struct State<'p, 'a> {
    /// Ticks that are left.
    pub left: u64,
    /// Arrays and dictionaries by their places.
    pub objects: Vec<Object<'a>>,
    /// The slots of the top-level variables.
    pub globals: Vec<Slot<'a>>,
    /// The code of the call that runs.
    pub body: &'p Body<'a>,
    /// Its slots.
    pub locals: Vec<Slot<'a>>,
    /// What the innermost block after `catch` of that call caught.
    pub caught: Option<Value<'a>>,
    pub spare: Spare<'a>,
}

/// Takes a tick, where one is left.
pub fn tick<'a>(state: &mut State<'_, 'a>) -> Result<(), Halt<'a>>
    ensures ticks { Ticked state.old state.new result }
{
    if state.left == 0 {
        return Err(Halt::Over(End::Going));
    }
    state.left -= 1;
    Ok(())
}

// The nodes of code are nested no deeper than js_code lets them be, and each is seen once.
const NESTED: u32 = DEPTH + 1;

/// The value of an expression without a call.
pub fn simple<'a>(
    env: &Env<'_, 'a>,
    state: &mut State<'_, 'a>,
    i: u32,
) -> Result<Value<'a>, Halt<'a>>
    requires simple { IsSimpleAt state.old.body.now.code i }
    ensures value { Finds value_of state.old state.new result (λ st m. eval st m.scope m.locals (expr_at m.trees i) m.world) }
    ensures same { OnlyObjects state.old state.new }
{
    let locals = state.locals.as_slice();
    let globals = state.globals.as_slice();
    let c = Context {
        alloc: env.alloc,
        arena: env.arena,
        code: &state.body.code,
        locals,
        globals,
        caught: state.caught,
    };
    let v = eval(&c, &mut state.objects, NESTED, i)?;
    Ok(v)
}

/// The values of expressions without a call, from the left, after those that are there.
pub fn simple_onto<'a>(
    env: &Env<'_, 'a>,
    state: &mut State<'_, 'a>,
    values: &mut Vec<Value<'a>>,
    list: u32,
) -> Result<(), Halt<'a>>
    requires simple { AreSimpleAt state.old.body.now.code list }
    ensures value { Finds (λ _. values_of values.new.items) state.old state.new result (λ st m. and_then (eval_all st m.scope m.locals (exprs_at m.trees list) m.world) (λ vs w. gives (values_of values.old.items ++ vs) w)) }
    ensures same { OnlyObjects state.old state.new }
{
    let locals = state.locals.as_slice();
    let globals = state.globals.as_slice();
    let c = Context {
        alloc: env.alloc,
        arena: env.arena,
        code: &state.body.code,
        locals,
        globals,
        caught: state.caught,
    };
    eval_onto(&c, &mut state.objects, NESTED, values, list)?;
    Ok(())
}

/// No values, in a list that a call has left, where there is one.
pub fn no_values<'a>(alloc: Global, spare: &mut Spare<'a>) -> Vec<Value<'a>>
    ensures { result.items ≡ [] }
{
    match spare.values.pop() {
        Some(mut values) => {
            values.clear();
            values
        }
        None => Vec::new(alloc),
    }
}

/// No slots, in a list that a call has left, where there is one.
pub fn no_slots<'a>(alloc: Global, spare: &mut Spare<'a>) -> Vec<Slot<'a>>
    ensures { result.items ≡ [] }
{
    match spare.slots.pop() {
        Some(mut slots) => {
            slots.clear();
            slots
        }
        None => Vec::new(alloc),
    }
}

/// Leaves a list to the calls after this one.
pub fn leave_values<'a>(spare: &mut Spare<'a>, values: Vec<Value<'a>>) -> Result<(), NoMemory> {
    spare.values.push(values)?;
    Ok(())
}

/// Leaves a list to the calls after this one.
pub fn leave_slots<'a>(spare: &mut Spare<'a>, slots: Vec<Slot<'a>>) -> Result<(), NoMemory> {
    spare.slots.push(slots)?;
    Ok(())
}

/// Sets a slot, where there is one.
pub fn set_slot<'a>(slots: &mut [Slot<'a>], slot: u32, v: Value<'a>)
    ensures value { slots.new ≡ slice_set slots.old slot (Some v.entry) }
{
    let slot = slot as usize;
    if slot < slots.len() {
        slots[slot] = Some(v);
    }
}
