//! Ticks, and what the functions of the host do. They are own.

ghost use Rattle.std.specs.Prelude.{◌≡◌, ◌≤◌, ◌++◌, [], ◌∷◌, IfOk, None};
ghost use Rattle.js_tree.specs.Value as run;
ghost use Rattle.js_tree.specs.Evaluate as part;
ghost use Rattle.js_value.specs.ValueSeen.{value_of, values_of, entries_of};
ghost use Rattle.js_eval.specs.Seen.{world_of, host_of, option_value_of, setting_of, Does};
ghost use Rattle.js_eval.specs.Flows.{picks};
ghost use Rattle.js_eval.specs.Does.{HasParts};

use crate::names::Host;
use crate::state::{CallParts, Context, End, Stop};
use crate::world::World;
use gj_base::{NoMemory, Text};
use js_tree::{ExprForm, JsExpr};
use js_value::value::entries::Entry;
use js_value::value::number::Number;
use js_value::value::value::{Str, Value};
use std::alloc::Global;

/// Takes a tick, where one is left.
pub fn tick<'a>(world: &mut World<'a>) -> Result<(), Stop<'a>>
    ensures value { Does (λ _. tt) result world.new (λ _. run.tick (world_of world.old)) }
{
    if world.left == 0 {
        return Err(Stop::Over(End::Going));
    }
    world.left -= 1;
    Ok(())
}

fn print<'a>(world: &mut World<'a>, s: &[u8]) -> Result<Option<Value<'a>>, Stop<'a>>
    ensures value { Does option_value_of result world.new (λ _. run.and_then (run.tick (world_of world.old)) (λ _ w. run.gives None (record w { printed = w.printed ++ s.now }))) }
{
    tick(world)?;
    world.printed.extend_from_slice(s)?;
    Ok(None)
}

// `$write(s)` prints a string.
fn written<'a>(
    world: &mut World<'a>,
    at: u32,
    values: &[Value<'a>],
) -> Result<Option<Value<'a>>, Stop<'a>>
    ensures value { Does option_value_of result world.new (λ _. part.written at (values_of values.now) (world_of world.old)) }
{
    match values {
        [s] => match s {
            Value::Bytes(s) => print(world, s.as_bytes()),
            _ => Err(Stop::Over(End::Stuck(at))),
        },
        _ => Err(Stop::Over(End::Stuck(at))),
    }
}

fn choice_number(choices: &[u64], place: u64) -> u64
    ensures value { result ≡ part.choice_number choices.now place }
{
    choices.get(place as usize).copied().unwrap_or(0)
}

fn pick<'a>(world: &mut World<'a>, choices: &[u64], k: u32) -> Result<Option<Value<'a>>, Stop<'a>>
    requires { 2 ≤ k }
    ensures value { Does option_value_of result world.new (λ _. picks choices.now k (world_of world.old)) }
{
    if world.left == 0 {
        return Err(Stop::Over(End::Going));
    }
    let raw = choice_number(choices, world.taken);
    world.left -= 1;
    world.taken += 1;
    Ok(Some(Value::Whole(Number {
        n: (raw % k as u64) as i64,
    })))
}

// `$pick(k)` takes the next number and gives it modulo k.
fn picked<'a>(
    world: &mut World<'a>,
    at: u32,
    choices: &[u64],
    values: &[Value<'a>],
) -> Result<Option<Value<'a>>, Stop<'a>>
    ensures value { Does option_value_of result world.new (λ _. part.picked at choices.now (values_of values.now) (world_of world.old)) }
{
    match values {
        [k] => match k {
            Value::Whole(k) if k.n >= 2 && k.n < 4294967296 => pick(world, choices, k.n as u32),
            _ => Err(Stop::Over(End::Stuck(at))),
        },
        _ => Err(Stop::Over(End::Stuck(at))),
    }
}

fn finish<'a>(
    alloc: Global,
    world: &mut World<'a>,
    code: u8,
    text: &[u8],
) -> Result<Option<Value<'a>>, Stop<'a>>
    ensures value { Does option_value_of result world.new (λ _. run.and_then (run.tick (world_of world.old)) (λ _ w. run.over (run.Ended code text.now) w)) }
{
    tick(world)?;
    let text = Text::from_slice(alloc, text)?;
    Err(Stop::Over(End::Ended(code, text)))
}

fn finished_with<'a>(
    alloc: Global,
    world: &mut World<'a>,
    at: u32,
    code: &Value<'a>,
    text: &Value<'a>,
) -> Result<Option<Value<'a>>, Stop<'a>>
    ensures value { Does option_value_of result world.new (λ _. part.finished at (value_of code.now ∷ value_of text.now ∷ []) (world_of world.old)) }
{
    match (code, text) {
        (Value::Whole(c), Value::Bytes(t)) if c.n >= 0 && c.n < 256 => {
            finish(alloc, world, c.n as u8, t.as_bytes())
        }
        _ => Err(Stop::Over(End::Stuck(at))),
    }
}

// `$end(c, t)` ends the run.
fn finished<'a>(
    alloc: Global,
    world: &mut World<'a>,
    at: u32,
    values: &[Value<'a>],
) -> Result<Option<Value<'a>>, Stop<'a>>
    ensures value { Does option_value_of result world.new (λ _. part.finished at (values_of values.now) (world_of world.old)) }
{
    match values {
        [code, text] => finished_with(alloc, world, at, code, text),
        _ => Err(Stop::Over(End::Stuck(at))),
    }
}

/// Calls a function of the host.
pub fn call_host<'a>(
    context: &Context<'a>,
    world: &mut World<'a>,
    at: u32,
    host: Host,
    values: &[Value<'a>],
) -> Result<Option<Value<'a>>, Stop<'a>>
    ensures value { Does option_value_of result world.new (λ deeper. part.call_host (setting_of context.now deeper) at (host_of host) (values_of values.now) (world_of world.old)) }
{
    match host {
        Host::Write => written(world, at, values),
        Host::Pick => picked(world, at, context.choices, values),
        Host::Finish => finished(context.alloc, world, at, values),
    }
}

/// The parameters with their values: 10.5.
pub fn bound<'a>(
    alloc: Global,
    params: &'a [Text],
    values: &[Value<'a>],
) -> Result<Vec<Entry<'a>>, NoMemory>
    ensures value { IfOk result (λ ls. entries_of ls.items ≡ part.bound params.now (values_of values.now)) }
{
    let mut locals = Vec::new(alloc);
    for (i, name) in params.iter().enumerate() {
        if i == values.len() {
            return Ok(locals);
        }
        let value = values[i].again()?;
        locals.push(Entry {
            name: Str::Literal(name),
            value,
        })?;
    }
    Ok(locals)
}

/// The callee and the arguments of a call: 11.2.3.
pub fn call_parts<'a>(e: &'a JsExpr) -> Option<CallParts<'a>>
    ensures value { HasParts e.now result }
{
    match &e.form {
        ExprForm::Call(f, es) => Some(CallParts {
            callee: f,
            arguments: es,
        }),
        ExprForm::Number(_) => None,
        ExprForm::Str(_) => None,
        ExprForm::Bool(_) => None,
        ExprForm::Null => None,
        ExprForm::Name(_) => None,
        ExprForm::Unary(_, _) => None,
        ExprForm::Binary(_, _, _) => None,
        ExprForm::And(_, _) => None,
        ExprForm::Or(_, _) => None,
        ExprForm::Conditional(_, _, _) => None,
        ExprForm::Index(_, _) => None,
        ExprForm::Length(_) => None,
        ExprForm::Pop(_) => None,
        ExprForm::CharCodeAt(_, _) => None,
        ExprForm::Substring(_, _, _) => None,
        ExprForm::Array(_) => None,
        ExprForm::Dictionary => None,
        ExprForm::Decimal(_) => None,
        ExprForm::FromCharCode(_) => None,
    }
}
