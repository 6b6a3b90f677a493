//! Operations that are reached.
//!
//! The Go Programming Language Specification (as of Go 1.17), "Select statements". Own: of several
//! ready ways the choice is the next number, modulo how many they are; one takes no number.

ghost use Rattle.std.specs.Prelude.{◌≡◌, ◌<◌, ◌+◌, ℕ, [], List, IfOk, OnOk, length, map, get_or, slice_get};
ghost use Rattle.go_type.specs.Tree.{Ty};
ghost use Rattle.go_core.specs.Communicate as defined;
ghost use Rattle.go_core.specs.CoreTree.{CoreProgram};
ghost use Rattle.go_core.specs.Goroutine as core;
ghost use Rattle.go_core.specs.Control.{with_first};
ghost use Rattle.go_core.specs.CoreView.{stmts_view};
ghost use Rattle.go_core.specs.Opened.{all_opened};
ghost use Rattle.go_partners.specs.Moves.{Moves};
ghost use Rattle.go_state.specs.declared.state.state.State.{State};
ghost use Rattle.go_state.specs.declared.state.state.Waiting.TheVariants as waiting;
ghost use Rattle.go_state.specs.StateSeen.{frame_of, move_of, offer_of};
ghost use Rattle.go_partners.specs.Chosen.{IsChosen, default_of};
ghost use Rattle.go_partners.specs.Talks.{Talks};

use crate::exchanges::take::take_offer;
use crate::partners::ready::ready_ways;
use gj_base::NoMemory;
use go_core::statement::CoreStmts;
use go_state::state::frame::{Frame, Todo};
use go_state::state::state::{Move, Offer, State, Waiting};
use go_state::tasks::task::Task;
use go_values::operators::did::{Context, Stop};
use go_values::operators::places::sum;

/// What a goroutine waits for after a step, if anything, and the units of the step.
#[derive(Drop)]
pub struct Talked<'p, 'a> {
    pub waiting: Waiting<'p, 'a>,
    pub units: u64,
}

/// It goes on.
pub fn able<'p, 'a>(units: u64) -> Talked<'p, 'a>
    ensures value { result ≡ record { waiting = waiting.Able; units = units } }
{
    Talked {
        waiting: Waiting::Able,
        units,
    }
}

/// The ways of an operation: those of its clauses, what is done where none is ready, and what the
/// step counts besides.
#[derive(Drop)]
pub struct Ways<'p, 'a> {
    pub offers: Vec<Offer<'p, 'a>>,
    pub default: Option<&'p CoreStmts>,
    pub units: u64,
}

// Statements come before what remains.
fn run<'p, 'a>(f: &mut Frame<'p, 'a>, body: &'p CoreStmts) -> Result<(), NoMemory>
    ensures value { OnOk result ((ts : List Ty) → frame_of ts f.new ≡ with_first (all_opened (stmts_view ts body.now)) (frame_of ts f.old)) }
{
    f.tasks.push(Todo::Text(Task::Run(body, 0)))?;
    Ok(())
}

// None is ready: the default is taken, or the goroutine waits.
fn none_ready<'p, 'a>(ways: Ways<'p, 'a>, f: &mut Frame<'p, 'a>) -> Result<Talked<'p, 'a>, Stop>
    ensures value { (p : CoreProgram) (ts : List Ty) (s : State) (g : ℕ) (free : core.Move) (choices : List ℕ) → let w = ways.entry in Talks p ts g result f.old f.new s s (λ x below t. defined.reached p g free choices (default_of ts w.default) w.units (map (offer_of ts) w.offers.items) [] x below t) }
{
    let units = sum(1, ways.units)?;
    match ways.default {
        Some(body) => {
            run(f, body)?;
            Ok(able(units))
        }
        None => Ok(Talked {
            waiting: Waiting::AtChannels(ways.offers),
            units,
        }),
    }
}

// The number that is next, or zero where there are no more.
fn next_number(choices: &[u64], taken: u64) -> u64
    ensures value { result ≡ get_or choices.now taken 0 }
{
    if taken < choices.len() as u64 {
        choices[taken as usize]
    } else {
        0
    }
}

// The way that is taken of those that are ready, and what is counted and taken for that.
fn choose<'p, 'a>(
    state: &mut State<'p, 'a>,
    choices: &[u64],
    ready: &[u64],
    units: u64,
) -> Result<u64, NoMemory>
    requires some { 0 < length ready.now }
    ensures value { IfOk result (λ way. IsChosen way ready.now choices.now units state.old state.new) }
    ensures same { state.new.goroutines ≡ state.old.goroutines }
{
    let all = sum(state.units, units)?;
    state.units = all;
    if ready.len() == 1 {
        return Ok(ready[0]);
    }
    let number = next_number(choices, state.taken);
    let taken = sum(state.taken, 1)?;
    state.taken = taken;
    Ok(ready[(number % ready.len() as u64) as usize])
}

// A way that is ready.
fn way_taken<'p, 'a>(
    c: &Context<'a>,
    state: &mut State<'p, 'a>,
    g: usize,
    free: Move,
    way: u64,
    offers: &[Offer<'p, 'a>],
    f: &mut Frame<'p, 'a>,
) -> Result<u64, Stop>
    ensures value { (p : CoreProgram) (ts : List Ty) → Moves p ts g result f.old f.new state.old state.new (λ x below s. defined.way_taken p g (move_of free) way (map (offer_of ts) offers.now) x below s) }
    ensures same { length state.new.goroutines.items ≡ length state.old.goroutines.items }
    ensures own { slice_get state.new.goroutines.items g ≡ slice_get state.old.goroutines.items g }
{
    if way >= offers.len() as u64 {
        return Err(Stop::NoStep);
    }
    take_offer(c, state, g, free, offers[way as usize], f)
}

// One of those that are ready is taken.
fn some_ready<'p, 'a>(
    c: &Context<'a>,
    state: &mut State<'p, 'a>,
    g: usize,
    free: Move,
    choices: &[u64],
    ready: &[u64],
    ways: &Ways<'p, 'a>,
    f: &mut Frame<'p, 'a>,
) -> Result<Talked<'p, 'a>, Stop>
    requires some { 0 < length ready.now }
    ensures value { (p : CoreProgram) (ts : List Ty) → let w = ways.now in Talks p ts g result f.old f.new state.old state.new (λ x below s. defined.reached p g (move_of free) choices.now (default_of ts w.default) w.units (map (offer_of ts) w.offers.items) ready.now x below s) }
    ensures same { length state.new.goroutines.items ≡ length state.old.goroutines.items }
    ensures own { slice_get state.new.goroutines.items g ≡ slice_get state.old.goroutines.items g }
{
    let way = choose(state, choices, ready, ways.units)?;
    let units = way_taken(c, state, g, free, way, ways.offers.as_slice(), f)?;
    Ok(able(units))
}

/// An operation is reached.
pub fn reach<'p, 'a>(
    c: &Context<'a>,
    state: &mut State<'p, 'a>,
    g: usize,
    free: Move,
    choices: &[u64],
    ways: Ways<'p, 'a>,
    f: &mut Frame<'p, 'a>,
) -> Result<Talked<'p, 'a>, Stop>
    ensures value { (p : CoreProgram) (ts : List Ty) → let w = ways.entry in Talks p ts g result f.old f.new state.old state.new (λ x below s. defined.reach p g (move_of free) choices.now (default_of ts w.default) w.units (map (offer_of ts) w.offers.items) x below s) }
    ensures same { length state.new.goroutines.items ≡ length state.old.goroutines.items }
    ensures own { slice_get state.new.goroutines.items g ≡ slice_get state.old.goroutines.items g }
{
    let ready = ready_ways(c.alloc, state, g, ways.offers.as_slice())?;
    if ready.is_empty() {
        return none_ready(ways, f);
    }
    some_ready(c, state, g, free, choices, ready.as_slice(), &ways, f)
}
