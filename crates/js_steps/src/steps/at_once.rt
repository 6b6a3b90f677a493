//! Statements without a call, which are done at once and put nothing on the stack: ECMA-262 5.1,
//! 8.7.2, 11.13, 12.1 and 12.2.

ghost use Rattle.std.specs.Prelude.{◌≡◌, ℕ, List, Some, IfSome, slice_get};
ghost use Rattle.js_tree.specs.Script as form;
ghost use Rattle.js_tree.specs.Script.{Name};
ghost use Rattle.js_code.specs.declared.slots.place.Place.TheVariants as place;
ghost use Rattle.js_code.specs.Held.{part_of};
ghost use Rattle.js_code.specs.Parts as list;
ghost use Rattle.js_code.specs.Parts.{expr_at, stmt_at, stmts_at};
ghost use Rattle.js_simple.specs.Simple.{IsSimpleAt};
ghost use Rattle.js_steps.specs.Moment.{stmt_does, stmts_do};
ghost use Rattle.js_steps.specs.Stands.{Steps};
ghost use Rattle.js_steps.specs.declared.frames.frame.Frame.{Frame};
ghost use Rattle.js_steps.specs.Done.{Did};

use crate::flow::order::statements;
use crate::frames::frame::{End, Frame, Halt, Task};
use crate::frames::state::{Env, State, simple};
use crate::frames::step::is_simple;
use crate::operands::sets::{set_global, set_local};
use js_code::code::{Code, Part};
use js_value::heap::heap;

// Sets a local of the call that runs, where there is no call in what it is set to; whether it did.
fn local_at_once<'a>(
    env: &Env<'_, 'a>,
    state: &mut State<'_, 'a>,
    slot: u32,
    e: u32,
) -> Result<bool, Halt<'a>>
    ensures declares { (stack : List Frame) (i at : ℕ) (x : Name) → slice_get state.old.body.now.code i ≡ Some (list.declare at x (Some slot) e) → Did stack state.old state.new result (λ st m. stmt_does st (form.declare at x (expr_at m.trees e)) m) }
    ensures assigns { (stack : List Frame) (i at : ℕ) (x : Name) → slice_get state.old.body.now.code i ≡ Some (list.assign at x (place.Local slot) e) → Did stack state.old state.new result (λ st m. stmt_does st (form.assign at x (expr_at m.trees e)) m) }
{
    if is_simple(state, e) {
        let v = simple(env, state, e)?;
        set_local(state, slot, v);
        return Ok(true);
    }
    Ok(false)
}

// The same of a top-level variable.
fn global_at_once<'a>(
    env: &Env<'_, 'a>,
    state: &mut State<'_, 'a>,
    slot: u32,
    e: u32,
) -> Result<bool, Halt<'a>>
    ensures assigns { (stack : List Frame) (i at : ℕ) (x : Name) → slice_get state.old.body.now.code i ≡ Some (list.assign at x (place.Global slot) e) → Did stack state.old state.new result (λ st m. stmt_does st (form.assign at x (expr_at m.trees e)) m) }
{
    if is_simple(state, e) {
        let v = simple(env, state, e)?;
        set_global(state, slot, v);
        return Ok(true);
    }
    Ok(false)
}

// Sets an element, by expressions without a call.
fn store<'a>(
    env: &Env<'_, 'a>,
    state: &mut State<'_, 'a>,
    at: u32,
    e: u32,
    i: u32,
    value: u32,
) -> Result<bool, Halt<'a>>
    requires first { IsSimpleAt state.old.body.now.code e }
    requires second { IsSimpleAt state.old.body.now.code i }
    requires third { IsSimpleAt state.old.body.now.code value }
    ensures value { (stack : List Frame) → Did stack state.old state.new result (λ st m. stmt_does st (form.store at (expr_at m.trees e) (expr_at m.trees i) (expr_at m.trees value)) m) }
{
    let u = simple(env, state, e)?;
    let k = simple(env, state, i)?;
    let v = simple(env, state, value)?;
    let stored = heap::store(&mut state.objects, u, k, v)?;
    if stored {
        return Ok(true);
    }
    Err(Halt::Over(End::Stuck(at)))
}

// Sets an element, where there is no call in the statement; whether it did.
fn store_at_once<'a>(
    env: &Env<'_, 'a>,
    state: &mut State<'_, 'a>,
    at: u32,
    e: u32,
    i: u32,
    value: u32,
) -> Result<bool, Halt<'a>>
    ensures value { (stack : List Frame) → Did stack state.old state.new result (λ st m. stmt_does st (form.store at (expr_at m.trees e) (expr_at m.trees i) (expr_at m.trees value)) m) }
{
    if is_simple(state, e) && is_simple(state, i) && is_simple(state, value) {
        return store(env, state, at, e, i, value);
    }
    Ok(false)
}

// Does the statement that a part stands for, where there is no call in it; whether it did.
fn part_at_once<'a>(
    env: &Env<'_, 'a>,
    state: &mut State<'_, 'a>,
    part: Part<'a>,
) -> Result<bool, Halt<'a>>
    ensures value { (stack : List Frame) (i : ℕ) → slice_get state.old.body.now.code i ≡ Some (part_of part.entry) → Did stack state.old state.new result (λ st m. stmt_does st (stmt_at m.trees i) m) }
{
    match part {
        Part::Declare { slot, e, .. } => local_at_once(env, state, slot, e),
        Part::AssignLocal { slot, e, .. } => local_at_once(env, state, slot, e),
        Part::AssignGlobal { slot, e, .. } => global_at_once(env, state, slot, e),
        Part::Store { at, e, i, value } => store_at_once(env, state, at, e, i, value),
        _ => Ok(false),
    }
}

// The same by the number of the part.
fn at_once<'a>(env: &Env<'_, 'a>, state: &mut State<'_, 'a>, i: u32) -> Result<bool, Halt<'a>>
    ensures value { (stack : List Frame) → Did stack state.old state.new result (λ st m. stmt_does st (stmt_at m.trees i) m) }
{
    match state.body.code.get(i) {
        Some(part) => part_at_once(env, state, part),
        None => Ok(false),
    }
}

// A statement, and those after it.
#[derive(Clone, Copy)]
struct Then {
    first: u32,
    rest: u32,
}

fn then_of(part: Part) -> Option<Then>
    ensures value { IfSome result (λ t. part_of part.entry ≡ list.then t.first t.rest) }
{
    match part {
        Part::Then { first, rest } => Some(Then { first, rest }),
        _ => None,
    }
}

fn then_at(code: &Code, i: u32) -> Option<Then>
    ensures value { IfSome result (λ t. slice_get code.now i ≡ Some (list.then t.first t.rest)) }
{
    match code.get(i) {
        Some(part) => then_of(part),
        None => None,
    }
}

/// Does statements in order, up to the first one with a call in it, which is begun: 12.1.
pub fn statements_at_once<'p, 'a>(
    env: &Env<'p, 'a>,
    state: &mut State<'p, 'a>,
    stack: &mut Vec<Frame<'p, 'a>>,
    i: u32,
) -> Result<Task<'a>, Halt<'a>>
    ensures keeps { Steps stack.old.items state.old stack.new.items state.new result (λ st m. stmts_do st (stmts_at m.trees i) m) }
{
    let mut list = i;
    for turn in 0..state.body.code.len() {
        match then_at(&state.body.code, list) {
            Some(then) => {
                let did = at_once(env, state, then.first)?;
                if did {
                    list = then.rest;
                } else {
                    return statements(state, stack, list);
                }
            }
            None => return statements(state, stack, list),
        }
    }
    Ok(Task::Statements(list))
}
