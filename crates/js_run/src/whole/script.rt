//! The run of a script: ECMA-262 5.1, 14 and 16.

ghost use Rattle.std.specs.Prelude.{◌≡◌, ◌≤◌, ◌<◌, ◌+◌, ◌^◌, ℕ, List, None, length, replicate, IfOk};
ghost use Rattle.gj_base.specs.Sink.{SinkState};
ghost use Rattle.js_tree.specs.Script.{name, ScriptTree};
ghost use Rattle.js_tree.specs.Static as rule;
ghost use Rattle.js_tree.specs.View.{expr_view, script_view};
ghost use Rattle.js_steps.specs.Bodies.{IsProgram, IsValueBody};
ghost use Rattle.js_run.specs.Firsts.{AreFirsts, IsPrepared, IsFirstState};
ghost use Rattle.js_run.specs.Points.{Reached, Stage, items_left, nothing_left};
ghost use Rattle.js_run.specs.Runs.{RunsAs};

use crate::walks::Stop;
use crate::whole::answer::{RunEnd, RunRefusal, ended};
use crate::whole::prepare::{First, Prepared, prepare};
use crate::whole::start::{call_start, first_value, set_globals};
use bumpalo::Bump;
use gj_base::{Choices, NoMemory, Sink, Text};
use js_eval::fault::static_fault;
use js_simple::Slot;
use js_steps::bodies::Body;
use js_steps::frames::state::{Env, Spare, State};
use js_tree::{ExprForm, JsExpr, Script};
use std::alloc::Global;

// The most steps of a run. At one in a billionth of a second that is a hundred years and more.
const STEPS: u64 = 4611686018427387904;

// Slots that hold nothing yet.
fn no_globals<'a>(alloc: Global, count: usize) -> Result<Vec<Slot<'a>>, NoMemory>
    ensures value { IfOk result (λ slots. slots.items ≡ replicate count None) }
{
    let mut slots = Vec::new(alloc);
    for n in 0..count {
        slots.push(None)?;
    }
    Ok(slots)
}

// What a run begins with.
fn first_state<'p, 'a>(
    alloc: Global,
    count: usize,
    body: &'p Body<'a>,
    budget: u64,
) -> Result<State<'p, 'a>, NoMemory>
    ensures value { IfOk result (λ s. IsFirstState count body.entry budget s) }
{
    let globals = no_globals(alloc, count)?;
    Ok(State {
        left: budget,
        objects: Vec::new(alloc),
        globals,
        body,
        locals: Vec::new(alloc),
        caught: None,
        spare: Spare {
            values: Vec::new(alloc),
            slots: Vec::new(alloc),
        },
    })
}

// The name that is called in the end, as an expression.
fn start_name(alloc: Global, script: &Script) -> Result<JsExpr, NoMemory>
    ensures value { IfOk result (λ e. expr_view e ≡ name (script_view script.now).start_at (script_view script.now).start) }
{
    let x = Text::from_slice(alloc, script.start.as_bytes())?;
    Ok(JsExpr {
        form: ExprForm::Name(x),
        at: script.start_at,
    })
}

// Sets the top-level variables, and calls the start function.
fn run_all<'p, 'a, C: Choices, O: Sink>(
    env: &Env<'p, 'a>,
    choices: &mut C,
    out: &mut O,
    state: &mut State<'p, 'a>,
    firsts: &'p [First<'a>],
    start: &'p Body<'a>,
    at: u32,
) -> Result<(), Stop<'a>>
    requires room { length (C.taken choices.old) < 2 ^ 62 }
    ensures goes { (script : ScriptTree) (budget : ℕ) (taken : List ℕ) (sink : SinkState) → IsProgram script env.now.functions.now → AreFirsts script script.items firsts.now → IsValueBody script start.now (name script.start_at script.start) → at ≡ script.start_at → Reached script budget taken (C.taken choices.old) sink (O.state out.old) state.old (items_left script.items) → Stage script budget taken (C.taken choices.new) sink (O.state out.new) state.new result (λ _. nothing_left) }
{
    let mut steps = STEPS;
    set_globals(env, choices, out, state, &mut steps, firsts)?;
    let callee = first_value(env, choices, out, state, &mut steps, start)?;
    call_start(env, choices, out, state, &mut steps, at, callee)
}

// The run of a script as code.
fn run_prepared<'a, C: Choices, O: Sink>(
    alloc: Global,
    arena: &'a Bump,
    prepared: &Prepared<'a>,
    at: u32,
    choices: &mut C,
    out: &mut O,
    budget: u64,
) -> Result<RunEnd, RunRefusal>
    requires room { length (C.taken choices.old) < 2 ^ 62 }
    ensures runs { (script : ScriptTree) → rule.static_fault script ≡ None → IsPrepared script prepared.now (name script.start_at script.start) → at ≡ script.start_at → RunsAs script budget result (C.taken choices.old) (C.taken choices.new) (O.state out.old) (O.state out.new) }
{
    let env = Env {
        alloc,
        arena,
        functions: prepared.functions.as_slice(),
    };
    let mut state = first_state(alloc, prepared.globals, &prepared.start, budget)?;
    let firsts = prepared.firsts.as_slice();
    let outcome = run_all(&env, choices, out, &mut state, firsts, &prepared.start, at);
    ended(alloc, outcome)
}

// The run of a script that breaks no rule, with the name that is called in the end.
fn run_named<C: Choices, O: Sink>(
    alloc: Global,
    arena: &Bump,
    script: &Script,
    start: &JsExpr,
    choices: &mut C,
    out: &mut O,
    budget: u64,
) -> Result<RunEnd, RunRefusal>
    requires room { length (C.taken choices.old) < 2 ^ 62 }
    requires sound { rule.static_fault (script_view script.now) ≡ None }
    requires named { expr_view start.now ≡ name (script_view script.now).start_at (script_view script.now).start }
    ensures runs { RunsAs (script_view script.now) budget result (C.taken choices.old) (C.taken choices.new) (O.state out.old) (O.state out.new) }
{
    let prepared = prepare(alloc, script.items.as_slice(), start)?;
    let at = script.start_at;
    run_prepared(alloc, arena, &prepared, at, choices, out, budget)
}

// The run of a script that breaks no rule.
fn run_sound<C: Choices, O: Sink>(
    alloc: Global,
    script: &Script,
    choices: &mut C,
    out: &mut O,
    budget: u64,
) -> Result<RunEnd, RunRefusal>
    requires room { length (C.taken choices.old) < 2 ^ 62 }
    requires sound { rule.static_fault (script_view script.now) ≡ None }
    ensures runs { RunsAs (script_view script.now) budget result (C.taken choices.old) (C.taken choices.new) (O.state out.old) (O.state out.new) }
{
    let arena = Bump::new(alloc);
    let start = start_name(alloc, script)?;
    run_named(alloc, &arena, script, &start, choices, out, budget)
}

/// Runs a script with so many ticks.
///
/// What it prints goes to `out`, and `$pick` takes numbers from `choices`. Rules are tested first,
/// then the top-level variables are set in order, then the start function is called. A run that
/// returned has ended with status 0 and no text. After `WriteFault` and `NoMemory` a prefix of
/// what the run prints was written, and no more is.
pub fn run<C: Choices, O: Sink>(
    alloc: Global,
    script: &Script,
    choices: &mut C,
    out: &mut O,
    budget: u64,
) -> Result<RunEnd, RunRefusal>
    requires budget { budget ≤ 10 ^ 12 }
    requires room { length (C.taken choices.old) < 2 ^ 62 }
    ensures runs { RunsAs (script_view script.now) budget result (C.taken choices.old) (C.taken choices.new) (O.state out.old) (O.state out.new) }
{
    match static_fault(alloc, script)? {
        Some(at) => Ok(RunEnd::Stuck(at)),
        None => run_sound(alloc, script, choices, out, budget),
    }
}
