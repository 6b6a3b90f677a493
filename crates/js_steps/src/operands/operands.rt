//! Operations whose operands are found one after the other: ECMA-262 5.1, 11 and 12.
//!
//! An operand without a call is evaluated at once; for another one the operation waits on the
//! stack. One function for each number of operands that are there.

ghost use Rattle.std.specs.Prelude.{◌≡◌, ℕ, List, Some, pos, slice_get};
ghost use Rattle.js_tree.specs.Value as run;
ghost use Rattle.js_tree.specs.Value.{whole, gives};
ghost use Rattle.js_tree.specs.Operation.{same_value};
ghost use Rattle.js_tree.specs.Evaluate.{Setting, Scope, onward, exec_cases, exec_through};
ghost use Rattle.js_code.specs.Held.{part_of};
ghost use Rattle.js_code.specs.Parts.{expr_at, stmt_at, stmts_at, cases_at, trees_of};
ghost use Rattle.js_value.specs.HeapSeen.{value_of};
ghost use Rattle.js_steps.specs.Moment.{flow, expr_does, with_value, chosen};
ghost use Rattle.js_steps.specs.PartWaits.{first_does, second_does, third_does, turn_does};
ghost use Rattle.js_steps.specs.Stack.{loop_label};
ghost use Rattle.js_steps.specs.Operations.{IsNoOperation};
ghost use Rattle.js_steps.specs.Stands.{Steps};
ghost use Rattle.js_steps.specs.declared.frames.frame.Frame.{Frame};

use crate::frames::frame::{Flow, Frame, Halt, Task};
use crate::frames::state::{Env, State, simple};
use crate::frames::step::{chosen, done, given, is_simple, wait};
use crate::operands::cases::case_of;
use crate::operands::sets::{set_global, set_local};
use crate::operands::turn::{label, turn};
use gj_base::Text;
use js_code::code::Part;
use js_simple::operate::{binary, truth_of};
use js_value::heap::heap;
use js_value::heap::operate::{char_code, decimal_text, one_byte, part_of, unary_value};
use js_value::heap::value::{Value, same_value};
use js_value::value::number::Number;

/// A part, by the first expression in it.
pub fn first<'p, 'a>(
    env: &Env<'p, 'a>,
    state: &mut State<'p, 'a>,
    stack: &mut Vec<Frame<'p, 'a>>,
    i: u32,
    part: Part<'a>,
    e: u32,
) -> Result<Task<'a>, Halt<'a>>
    requires held { slice_get state.old.body.now.code i ≡ Some (part_of part) }
    ensures keeps { Steps stack.old.items state.old stack.new.items state.new result (λ st m. with_value (expr_does st (expr_at m.trees e) m) (λ v m. first_does st (slice_get m.trees i) v m)) }
{
    if is_simple(state, e) {
        let v = simple(env, state, e)?;
        return with_first(env, state, stack, i, part, v);
    }
    wait(stack, Frame::First(i), Task::Evaluate(e))
}

/// A part with the value of the first expression in it.
pub fn with_first<'p, 'a>(
    env: &Env<'p, 'a>,
    state: &mut State<'p, 'a>,
    stack: &mut Vec<Frame<'p, 'a>>,
    i: u32,
    part: Part<'a>,
    v: Value<'a>,
) -> Result<Task<'a>, Halt<'a>>
    requires held { slice_get state.old.body.now.code i ≡ Some (part_of part) }
    ensures keeps { Steps stack.old.items state.old stack.new.items state.new result (λ st m. first_does st (slice_get m.trees i) (value_of v.entry) m) }
{
    match part {
        Part::Unary { at, op, .. } => given(at, unary_value(op, v)),
        Part::Binary { right, .. } => second(env, state, stack, i, part, v, right),
        Part::And { at, right, .. } => chosen(
            at,
            v,
            Task::Evaluate(right),
            Task::Give(Value::Truth(false)),
        ),
        Part::Or { at, right, .. } => {
            chosen(at, v, Task::Give(Value::Truth(true)), Task::Evaluate(right))
        }
        Part::Conditional {
            at,
            left,
            right,
            ..
        } => chosen(at, v, Task::Evaluate(left), Task::Evaluate(right)),
        Part::Index { i: key, .. } => second(env, state, stack, i, part, v, key),
        Part::Length { at, .. } => given(at, heap::length_value(state.objects.as_slice(), v)),
        Part::Pop { at, .. } => given(at, heap::pop(&mut state.objects, v)),
        Part::CharCodeAt { i: key, .. } => second(env, state, stack, i, part, v, key),
        Part::Substring { from, .. } => second(env, state, stack, i, part, v, from),
        Part::Decimal { at, .. } => {
            let text = decimal_text(env.arena, v)?;
            given(at, text)
        }
        Part::FromCharCode { at, .. } => {
            let text = one_byte(env.arena, v)?;
            given(at, text)
        }
        _ => statement_with_first(env, state, stack, i, part, v),
    }
}

// A statement with the value of the first expression in it.
fn statement_with_first<'p, 'a>(
    env: &Env<'p, 'a>,
    state: &mut State<'p, 'a>,
    stack: &mut Vec<Frame<'p, 'a>>,
    i: u32,
    part: Part<'a>,
    v: Value<'a>,
) -> Result<Task<'a>, Halt<'a>>
    requires held { slice_get state.old.body.now.code i ≡ Some (part_of part) }
    ensures keeps { IsNoOperation (part_of part.entry) → Steps stack.old.items state.old stack.new.items state.new result (λ st m. first_does st (slice_get m.trees i) (value_of v.entry) m) }
{
    match part {
        Part::Declare { slot, .. } => {
            set_local(state, slot, v);
            Ok(Task::Follow(Flow::Onward))
        }
        Part::DeclareNowhere { .. } => Ok(Task::Follow(Flow::Onward)),
        Part::AssignLocal { slot, .. } => {
            set_local(state, slot, v);
            Ok(Task::Follow(Flow::Onward))
        }
        Part::AssignGlobal { slot, .. } => {
            set_global(state, slot, v);
            Ok(Task::Follow(Flow::Onward))
        }
        Part::AssignNowhere { at, .. } => done(at, false),
        Part::Store { i: key, .. } => second(env, state, stack, i, part, v, key),
        Part::Perform { .. } => Ok(Task::Follow(Flow::Onward)),
        Part::Push { value, .. } => second(env, state, stack, i, part, v, value),
        Part::Delete { key, .. } => second(env, state, stack, i, part, v, key),
        Part::If {
            at,
            body,
            other,
            ..
        } => chosen(at, v, Task::Statements(body), Task::Else(other)),
        Part::ElseIf {
            at,
            body,
            other,
            ..
        } => chosen(at, v, Task::Statements(body), Task::Else(other)),
        Part::While { at, body, .. } => turn_if(state, stack, i, at, body, v),
        Part::Switch {
            cases,
            label: x,
            ..
        } => {
            let place = case_of(state.body, cases, v);
            wait(stack, Frame::Switch(label(x)), Task::Through(place))
        }
        Part::Return { .. } => Ok(Task::Follow(Flow::Returns(Some(v)))),
        Part::Throw { at, .. } => Ok(Task::Throw(at, v)),
        _ => Ok(Task::Give(v)),
    }
}

// A turn of a loop, where its condition gave true.
fn turn_if<'p, 'a>(
    state: &mut State<'p, 'a>,
    stack: &mut Vec<Frame<'p, 'a>>,
    i: u32,
    at: u32,
    body: u32,
    test: Value<'a>,
) -> Result<Task<'a>, Halt<'a>>
    ensures keeps { Steps stack.old.items state.old stack.new.items state.new result (λ st m. chosen at (value_of test.entry) (turn_does st (stmt_at m.trees i) (loop_label (stmt_at m.trees i)) (stmts_at m.trees body)) (gives (flow onward)) m) }
{
    let truth = truth_of(at, test)?;
    if truth {
        return turn(state, stack, i, body);
    }
    Ok(Task::Follow(Flow::Onward))
}

// A part with the value of the first expression in it, by the second one.
fn second<'p, 'a>(
    env: &Env<'p, 'a>,
    state: &mut State<'p, 'a>,
    stack: &mut Vec<Frame<'p, 'a>>,
    i: u32,
    part: Part<'a>,
    u: Value<'a>,
    e: u32,
) -> Result<Task<'a>, Halt<'a>>
    requires held { slice_get state.old.body.now.code i ≡ Some (part_of part) }
    ensures keeps { Steps stack.old.items state.old stack.new.items state.new result (λ st m. with_value (expr_does st (expr_at m.trees e) m) (λ v m. second_does st (slice_get m.trees i) (value_of u.entry) v m)) }
{
    if is_simple(state, e) {
        let v = simple(env, state, e)?;
        return with_second(env, state, stack, i, part, u, v);
    }
    wait(stack, Frame::Second(i, u), Task::Evaluate(e))
}

/// A part with the values of the first two expressions in it.
pub fn with_second<'p, 'a>(
    env: &Env<'p, 'a>,
    state: &mut State<'p, 'a>,
    stack: &mut Vec<Frame<'p, 'a>>,
    i: u32,
    part: Part<'a>,
    u: Value<'a>,
    v: Value<'a>,
) -> Result<Task<'a>, Halt<'a>>
    requires held { slice_get state.old.body.now.code i ≡ Some (part_of part) }
    ensures keeps { Steps stack.old.items state.old stack.new.items state.new result (λ st m. second_does st (slice_get m.trees i) (value_of u.entry) (value_of v.entry) m) }
{
    match part {
        Part::Binary { at, op, .. } => {
            let value = binary(env.arena, state.objects.as_slice(), at, op, u, v)?;
            Ok(Task::Give(value))
        }
        Part::Index { at, .. } => given(at, heap::element(state.objects.as_slice(), u, v)),
        Part::CharCodeAt { at, .. } => given(at, char_code(u, v)),
        Part::Substring { to, .. } => third(env, state, stack, i, part, u, v, to),
        Part::Store { value, .. } => third(env, state, stack, i, part, u, v, value),
        Part::Push { at, .. } => {
            let pushed = heap::push(&mut state.objects, u, v)?;
            done(at, pushed)
        }
        Part::Delete { at, .. } => done(at, heap::remove(&mut state.objects, u, v)),
        _ => Ok(Task::Give(v)),
    }
}

// A part with the values of the first two expressions in it, by the third one.
fn third<'p, 'a>(
    env: &Env<'p, 'a>,
    state: &mut State<'p, 'a>,
    stack: &mut Vec<Frame<'p, 'a>>,
    i: u32,
    part: Part<'a>,
    u: Value<'a>,
    v: Value<'a>,
    e: u32,
) -> Result<Task<'a>, Halt<'a>>
    requires held { slice_get state.old.body.now.code i ≡ Some (part_of part) }
    ensures keeps { Steps stack.old.items state.old stack.new.items state.new result (λ st m. with_value (expr_does st (expr_at m.trees e) m) (λ x m. third_does (slice_get m.trees i) (value_of u.entry) (value_of v.entry) x m)) }
{
    if is_simple(state, e) {
        let x = simple(env, state, e)?;
        return with_third(env, state, part, u, v, x);
    }
    wait(stack, Frame::Third(i, u, v), Task::Evaluate(e))
}

/// A part with the values of all three expressions in it.
pub fn with_third<'p, 'a>(
    env: &Env<'p, 'a>,
    state: &mut State<'p, 'a>,
    part: Part<'a>,
    u: Value<'a>,
    v: Value<'a>,
    x: Value<'a>,
) -> Result<Task<'a>, Halt<'a>>
    ensures keeps { (stack : List Frame) (i : ℕ) → slice_get state.old.body.now.code i ≡ Some (part_of part.entry) → Steps stack state.old stack state.new result (λ st m. third_does (slice_get m.trees i) (value_of u.entry) (value_of v.entry) (value_of x.entry) m) }
{
    match part {
        Part::Substring { at, .. } => {
            let text = part_of(env.arena, u, v, x)?;
            given(at, text)
        }
        Part::Store { at, .. } => {
            let stored = heap::store(&mut state.objects, u, v, x)?;
            done(at, stored)
        }
        _ => Ok(Task::Give(x)),
    }
}
