//! The run of a script: ECMA-262 5.1, 14 and 16.

ghost use Rattle.js_tree.specs.View.{script_view};
ghost use Rattle.js_eval.specs.Seen.{Does, option_value_of};
ghost use Rattle.js_eval.specs.Runs.{EndsAs, RunsAs, RunsSound, run_all_of, set_globals_of, call_start_of};

use crate::evaluate::{call_value, eval};
use crate::fault::static_fault;
use crate::names::{name_value, set_local};
use crate::operate::given;
use crate::state::{Context, End, Scope, Stop};
use crate::world::World;
use gj_base::{NoMemory, Text};
use js_tree::{JsItem, Script};
use js_value::value::value::Value;
use std::alloc::Global;

/// What was printed, how many numbers and ticks were taken, and how the run ended.
#[derive(Drop)]
pub struct ScriptRun {
    pub printed: Vec<u8>,
    pub taken: u64,
    pub ticks: u64,
    pub end: End,
}

/// Why there is no run.
#[derive(Clone, Copy, Debug, PartialEq, Eq)]
pub enum RunRefusal {
    /// Calls nest deeper than they may.
    TooDeep,
    NoMemory,
}

impl From<NoMemory> for RunRefusal {
    ghost use Rattle.std.specs.Prelude.{◌≡◌};
    ghost use Rattle.js_eval.specs.declared.start.RunRefusal.TheVariants as refusal;

    ghost from_gives = { λ _ r. r ≡ refusal.NoMemory };

    fn from(_e: NoMemory) -> RunRefusal {
        RunRefusal::NoMemory
    }
}

// Top-level variables are set in order.
fn set_globals<'a>(context: &Context<'a>, world: &mut World<'a>) -> Result<(), Stop<'a>>
    ensures value { Does (λ _. tt) result world.new (set_globals_of context.now world.old) }
{
    let scope = Scope {
        names: &[],
        caught: None,
    };
    for item in &context.script.items {
        if let JsItem::Global(x, e, _) = item {
            let v = eval(context, &scope, &[], world, e)?;
            set_local(&mut world.globals, x, v)?;
        }
    }
    Ok(())
}

// The start function is called.
fn call_start<'a>(
    context: &Context<'a>,
    world: &mut World<'a>,
) -> Result<Option<Value<'a>>, Stop<'a>>
    ensures value { Does option_value_of result world.new (call_start_of context.now world.old) }
{
    let scope = Scope {
        names: &[],
        caught: None,
    };
    let at = context.script.start_at;
    let f = name_value(context, &scope, &[], world, &context.script.start)?;
    let f = given(at, f)?;
    call_value(context, world, at, &f, Vec::new(context.alloc))
}

fn run_all<'a>(context: &Context<'a>, world: &mut World<'a>) -> Result<Option<Value<'a>>, Stop<'a>>
    ensures value { Does option_value_of result world.new (run_all_of context.now world.old) }
{
    set_globals(context, world)?;
    call_start(context, world)
}

// How a run ended: one that returned with 0 and no text; a throw that is not caught has no meaning.
fn end_of<'a>(
    alloc: Global,
    outcome: Result<Option<Value<'a>>, Stop<'a>>,
) -> Result<End, RunRefusal>
    ensures value { EndsAs outcome.entry result }
{
    match outcome {
        Ok(_) => Ok(End::Ended(0, Text::new(alloc))),
        Err(Stop::Throw(at, _)) => Ok(End::Stuck(at)),
        Err(Stop::Over(end)) => Ok(end),
        Err(Stop::TooDeep) => Err(RunRefusal::TooDeep),
        Err(Stop::NoMemory) => Err(RunRefusal::NoMemory),
    }
}

// The run of a script that breaks no rule.
fn run_sound<'a>(
    alloc: Global,
    script: &'a Script,
    choices: &'a [u64],
    ticks: u64,
    depth: u32,
) -> Result<ScriptRun, RunRefusal>
    ensures runs { RunsSound (script_view script.now) choices.now ticks depth result }
{
    let context = Context {
        alloc,
        script,
        choices,
        fuel: ticks,
        depth,
    };
    let mut world = World {
        left: ticks,
        printed: Vec::new(alloc),
        taken: 0,
        objects: Vec::new(alloc),
        globals: Vec::new(alloc),
    };
    let outcome = run_all(&context, &mut world);
    let end = end_of(alloc, outcome)?;
    Ok(ScriptRun {
        printed: world.printed,
        taken: world.taken,
        ticks: ticks.saturating_sub(world.left),
        end,
    })
}

/// The run of a script with a list of numbers that zeros follow, and so many ticks, where calls
/// may nest so deep.
///
/// Rules are tested first, then the top-level variables are set in order, then the start function
/// is called. After `TooDeep`, calls nest deeper than `depth`; they never nest deeper than `ticks`.
pub fn run(
    alloc: Global,
    script: &Script,
    choices: &[u64],
    ticks: u64,
    depth: u32,
) -> Result<ScriptRun, RunRefusal>
    ensures runs { RunsAs (script_view script.now) choices.now ticks depth result }
{
    match static_fault(alloc, script)? {
        Some(at) => Ok(ScriptRun {
            printed: Vec::new(alloc),
            taken: 0,
            ticks: 0,
            end: End::Stuck(at),
        }),
        None => run_sound(alloc, script, choices, ticks, depth),
    }
}
