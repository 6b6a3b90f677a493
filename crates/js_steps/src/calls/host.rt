//! Calls of the host's functions, which are own.

ghost use Rattle.std.specs.Prelude.{◌≡◌, [], ◌∷◌, List, pos, option_map};
ghost use Rattle.js_tree.specs.Value.{whole};
ghost use Rattle.js_tree.specs.Evaluate as part;
ghost use Rattle.js_code.specs.Places.{host_of};
ghost use Rattle.js_value.specs.HeapSeen.{value_of, values_of};
ghost use Rattle.js_steps.specs.Moment.{called_here};
ghost use Rattle.js_steps.specs.Stands.{Steps};
ghost use Rattle.js_steps.specs.declared.frames.frame.Frame.{Frame};
ghost use Rattle.js_steps.specs.declared.frames.frame.Use.{Use};
ghost use Rattle.js_steps.specs.declared.frames.state.State.{State};
ghost use Rattle.js_steps.specs.Given.{text_in, text_value, status_in, bound_in};

use crate::frames::frame::{End, Halt, Task, Use};
use crate::frames::state::{State, tick};
use js_code::slots::place::Host;
use js_value::heap::Value;

// The bytes of a string.
fn text_of<'a>(v: Value<'a>) -> Option<&'a [u8]>
    ensures value { option_map (λ s. s.now) result ≡ text_in (value_of v.entry) }
{
    match v {
        Value::Literal(s) => Some(s.as_bytes()),
        Value::Made(s) => Some(*s.bytes),
        _ => None,
    }
}

// A status: from 0 to 255.
fn status_of(v: Value) -> Option<u8>
    ensures value { result ≡ status_in (value_of v.entry) }
{
    match v {
        Value::Whole(c) if c.n >= 0 && c.n < 256 => Some(c.n as u8),
        _ => None,
    }
}

// How many numbers `$pick` chooses among.
fn bound_of(v: Value) -> Option<u32>
    ensures value { result ≡ bound_in (value_of v.entry) }
{
    match v {
        Value::Whole(k) if k.n >= 2 && k.n < 4294967296 => Some(k.n as u32),
        _ => None,
    }
}

fn write<'a>(at: u32, usage: Use, s: Value<'a>) -> Result<Task<'a>, Halt<'a>>
    ensures keeps { (stack : List Frame) (s0 : State) → Steps stack s0 stack s0 result (λ _ m. called_here at usage m (part.written at (value_of s.entry ∷ []) m.world)) }
{
    match text_of(s) {
        Some(bytes) => Ok(Task::Write(at, usage, bytes)),
        None => Err(Halt::Over(End::Stuck(at))),
    }
}

// `$write(s)` prints a string.
fn written<'a>(at: u32, usage: Use, values: &[Value<'a>]) -> Result<Task<'a>, Halt<'a>>
    ensures keeps { (stack : List Frame) (s : State) → Steps stack s stack s result (λ _ m. called_here at usage m (part.written at (values_of values.now) m.world)) }
{
    match values {
        [s] => write(at, usage, *s),
        _ => Err(Halt::Over(End::Stuck(at))),
    }
}

fn pick<'a>(at: u32, usage: Use, k: Value<'a>) -> Result<Task<'a>, Halt<'a>>
    ensures keeps { (stack : List Frame) (s : State) → Steps stack s stack s result (λ st m. called_here at usage m (part.picked at st.choices (value_of k.entry ∷ []) m.world)) }
{
    match bound_of(k) {
        Some(k) => Ok(Task::Pick(at, usage, k)),
        None => Err(Halt::Over(End::Stuck(at))),
    }
}

// `$pick(k)` takes the next number and gives it modulo k.
fn picked<'a>(at: u32, usage: Use, values: &[Value<'a>]) -> Result<Task<'a>, Halt<'a>>
    ensures keeps { (stack : List Frame) (s : State) → Steps stack s stack s result (λ st m. called_here at usage m (part.picked at st.choices (values_of values.now) m.world)) }
{
    match values {
        [k] => pick(at, usage, *k),
        _ => Err(Halt::Over(End::Stuck(at))),
    }
}

fn end<'a>(
    state: &mut State<'_, 'a>,
    at: u32,
    code: u8,
    text: Option<&'a [u8]>,
) -> Result<Task<'a>, Halt<'a>>
    ensures keeps { (stack : List Frame) (u : Use) → Steps stack state.old stack state.new result (λ _ m. called_here at u m (part.finished at (whole (pos code) ∷ text_value text.entry ∷ []) m.world)) }
{
    match text {
        Some(text) => {
            tick(state)?;
            Err(Halt::Over(End::Ended(code, text)))
        }
        None => Err(Halt::Over(End::Stuck(at))),
    }
}

fn finish<'a>(
    state: &mut State<'_, 'a>,
    at: u32,
    code: Value<'a>,
    text: Value<'a>,
) -> Result<Task<'a>, Halt<'a>>
    ensures keeps { (stack : List Frame) (u : Use) → Steps stack state.old stack state.new result (λ _ m. called_here at u m (part.finished at (value_of code.entry ∷ value_of text.entry ∷ []) m.world)) }
{
    match status_of(code) {
        Some(status) => end(state, at, status, text_of(text)),
        None => Err(Halt::Over(End::Stuck(at))),
    }
}

// `$end(c, t)` ends the run.
fn finished<'a>(
    state: &mut State<'_, 'a>,
    at: u32,
    values: &[Value<'a>],
) -> Result<Task<'a>, Halt<'a>>
    ensures keeps { (stack : List Frame) (u : Use) → Steps stack state.old stack state.new result (λ _ m. called_here at u m (part.finished at (values_of values.now) m.world)) }
{
    match values {
        [code, text] => finish(state, at, *code, *text),
        _ => Err(Halt::Over(End::Stuck(at))),
    }
}

/// A call of a function of the host.
pub fn call_host<'a>(
    state: &mut State<'_, 'a>,
    at: u32,
    usage: Use,
    host: Host,
    values: &[Value<'a>],
) -> Result<Task<'a>, Halt<'a>>
    ensures keeps { (stack : List Frame) → Steps stack state.old stack state.new result (λ st m. called_here at usage m (part.call_host st at (host_of host) (values_of values.now) m.world)) }
{
    match host {
        Host::Write => written(at, usage, values),
        Host::Pick => picked(at, usage, values),
        Host::Finish => finished(state, at, values),
    }
}
