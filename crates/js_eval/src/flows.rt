//! How statements complete: ECMA-262 5.1, 8.9 and 12.

ghost use Rattle.std.specs.Prelude.{◌≡◌, IfOk, if◌then◌else◌, pos, true};
ghost use Rattle.js_tree.specs.Operation as defined;
ghost use Rattle.js_tree.specs.Value as run;
ghost use Rattle.js_tree.specs.Evaluate as part;
ghost use Rattle.js_value.specs.ValueSeen.{value_of};
ghost use Rattle.js_eval.specs.Seen.{flow_of};
ghost use Rattle.js_eval.specs.Flows.{leaves, turned, CompletesCall, Tries, Nests, IsNested};

use crate::operate::is_number;
use crate::state::{Context, End, Flow, Stop, Tried};
use gj_base::Text;
use js_value::value::value::Value;

/// Whether the statements after one are left out.
pub fn leaves(flow: &Flow) -> bool
    ensures value { result ≡ leaves (flow_of flow.now) }
{
    match flow {
        Flow::Onward => false,
        _ => true,
    }
}

/// Whether a jump leads to a statement with this label: 12.7, 12.8.
pub fn is_target(x: &Option<Text>, label: &Option<Text>) -> bool
    ensures value { result ≡ part.is_target x.now label.now }
{
    match x {
        None => true,
        Some(x) => match label {
            None => false,
            Some(label) => x.as_bytes() == label.as_bytes(),
        },
    }
}

/// After a turn of a loop: how the loop completes, where it makes no further turn: 12.6.
pub fn again<'a>(label: &Option<Text>, flow: Flow<'a>) -> Option<Flow<'a>>
    ensures value { (next : run.Frame → run.Outcome run.Frame part.Flow) (f : run.Frame) → part.after_turn label.now next (flow_of flow.entry) f ≡ turned result next f }
{
    match flow {
        Flow::Onward => None,
        Flow::Breaks(x) => {
            if is_target(x, label) {
                return Some(Flow::Onward);
            }
            Some(Flow::Breaks(x))
        }
        Flow::Continues(x) => {
            if is_target(x, label) {
                return None;
            }
            Some(Flow::Continues(x))
        }
        Flow::Returns(v) => Some(Flow::Returns(v)),
    }
}

/// After the statements of a `switch`: 12.11.
pub fn after_switch<'a>(label: &Option<Text>, flow: Flow<'a>) -> Flow<'a>
    ensures value { (f : run.Frame) → part.after_switch label.now (flow_of flow.entry) f ≡ run.gives (flow_of result) f }
{
    match flow {
        Flow::Breaks(x) => {
            if is_target(x, label) {
                return Flow::Onward;
            }
            Flow::Breaks(x)
        }
        other => other,
    }
}

/// Whether the statements of a case run: those of one before run, or the value is its number.
pub fn starts(runs: bool, v: &Value, n: u64) -> bool
    ensures value { result ≡ (if runs then true else defined.same_value (value_of v.now) (run.whole (pos n))) }
{
    runs || is_number(v, n)
}

/// What a body's completion gives its call: 13.2.1.
pub fn call_result<'a>(
    completion: Result<Flow<'a>, Stop<'a>>,
) -> Result<Option<Value<'a>>, Stop<'a>>
    ensures value { CompletesCall completion.entry result }
{
    match completion {
        Ok(Flow::Returns(v)) => Ok(v),
        Ok(_) => Ok(None),
        Err(stop) => Err(stop),
    }
}

/// What the block after `try` comes to, or what it threw: 12.14.
pub fn tried<'a>(completion: Result<Flow<'a>, Stop<'a>>) -> Tried<'a>
    ensures value { Tries completion.entry result }
{
    match completion {
        Ok(flow) => Tried::Done(Ok(flow)),
        Err(Stop::Throw(_, v)) => Tried::Threw(v),
        Err(Stop::Over(end)) => Tried::Done(Err(Stop::Over(end))),
        Err(Stop::TooDeep) => Tried::Done(Err(Stop::TooDeep)),
        Err(Stop::NoMemory) => Tried::Done(Err(Stop::NoMemory)),
    }
}

/// What a function's body is evaluated with: calls may nest one less deep.
pub fn nested<'a>(context: &Context<'a>) -> Result<Context<'a>, Stop<'a>>
    ensures value { Nests context.now result }
    ensures less { IfOk result (IsNested context.now) }
{
    if context.depth == 0 {
        return Err(Stop::TooDeep);
    }
    if context.fuel == 0 {
        return Err(Stop::Over(End::Going));
    }
    Ok(Context {
        alloc: context.alloc,
        script: context.script,
        choices: context.choices,
        fuel: context.fuel - 1,
        depth: context.depth - 1,
    })
}
