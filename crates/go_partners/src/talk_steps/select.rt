//! Sends, receives and selects that are reached.
//!
//! The Go Programming Language Specification (as of Go 1.17), "Send statements", "Receive operator",
//! "Select statements".

ghost use Rattle.std.specs.Prelude.{◌≡◌, ℕ, [], ◌∷◌, List, None, IfOk, length, slice_get};
ghost use Rattle.go_type.specs.Levels.{tree_of};
ghost use Rattle.go_type.specs.Tree.{Ty};
ghost use Rattle.go_type.specs.Table.{places, names};
ghost use Rattle.go_core.specs.Communicate as defined;
ghost use Rattle.go_core.specs.CoreTree.{CoreProgram};
ghost use Rattle.go_core.specs.CoreView.{stmts_view};
ghost use Rattle.go_core.specs.Goroutine as core;
ghost use Rattle.go_core.specs.Opened.{cases_of};
ghost use Rattle.go_state.specs.TasksSeen.{cases_view};
ghost use Rattle.go_state.specs.StateSeen.{move_of};
ghost use Rattle.go_partners.specs.Chosen.{default_of};
ghost use Rattle.go_partners.specs.Talks.{Talks};

use crate::partners::partners::named_channel;
use crate::selects::offers::{offers_from, receive_offer, send_offer};
use crate::selects::reach::{Talked, Ways, reach};
use gj_base::NoMemory;
use go_core::statement::CoreStmts;
use go_state::frame_steps::operands::{operand, operand_pair, operands};
use go_state::frame_steps::parts::Select;
use go_state::state::frame::Frame;
use go_state::state::state::{Move, Offer, State};
use go_type::types::TypeId;
use go_values::operators::did::{Context, Stop};

// The one way of an operation that is no select.
fn one_way<'p, 'a>(c: &Context<'a>, offer: Offer<'p, 'a>) -> Result<Ways<'p, 'a>, NoMemory>
    ensures value { IfOk result (λ w. w.offers.items ≡ offer.entry ∷ []) }
    ensures alone { IfOk result (λ w. (w.default ≡ None) × (w.units ≡ 0)) }
{
    let mut offers = Vec::new(c.alloc);
    offers.push(offer)?;
    Ok(Ways {
        offers,
        default: None,
        units: 0,
    })
}

/// A send of an operand to a channel of the type.
pub fn send_step<'p, 'a>(
    c: &Context<'a>,
    state: &mut State<'p, 'a>,
    g: usize,
    free: Move,
    choices: &[u64],
    t: TypeId,
    f: &mut Frame<'p, 'a>,
) -> Result<Talked<'p, 'a>, Stop>
    ensures value { (p : CoreProgram) → p.names ≡ names c.now.table.now → let ts = places c.now.table.now in Talks p ts g result f.old f.new state.old state.new (λ x below s. defined.send_step p g (move_of free) choices.now (tree_of ts t) x below s) }
    ensures same { length state.new.goroutines.items ≡ length state.old.goroutines.items }
    ensures own { slice_get state.new.goroutines.items g ≡ slice_get state.old.goroutines.items g }
{
    let xs = operand_pair(f)?;
    match named_channel(xs.left) {
        Some(name) => {
            let offer = send_offer(c, t, name, xs.right, None)?;
            let ways = one_way(c, offer)?;
            reach(c, state, g, free, choices, ways, f)
        }
        None => Err(Stop::NoStep),
    }
}

// How many values a receive gives.
fn one_or_two(ok: bool) -> u64
    ensures value { (p : CoreProgram) (g : ℕ) (free : core.Move) → result ≡ defined.one_or_two p g free ok }
{
    if ok { 2 } else { 1 }
}

/// A receive from a channel of the type, also of whether it was sent where that is asked.
pub fn receive_step<'p, 'a>(
    c: &Context<'a>,
    state: &mut State<'p, 'a>,
    g: usize,
    free: Move,
    choices: &[u64],
    t: TypeId,
    ok: bool,
    f: &mut Frame<'p, 'a>,
) -> Result<Talked<'p, 'a>, Stop>
    ensures value { (p : CoreProgram) → p.names ≡ names c.now.table.now → let ts = places c.now.table.now in Talks p ts g result f.old f.new state.old state.new (λ x below s. defined.receive_step p g (move_of free) choices.now (tree_of ts t) ok x below s) }
    ensures same { length state.new.goroutines.items ≡ length state.old.goroutines.items }
    ensures own { slice_get state.new.goroutines.items g ≡ slice_get state.old.goroutines.items g }
{
    let x = operand(f)?;
    match named_channel(x) {
        Some(name) => {
            let offer = receive_offer(c, t, name, one_or_two(ok), None)?;
            let ways = one_way(c, offer)?;
            reach(c, state, g, free, choices, ways, f)
        }
        None => Err(Stop::NoStep),
    }
}

// What is done where nothing is ready.
fn default_in(has_default: bool, body: &CoreStmts) -> Option<&CoreStmts>
    ensures value { (ts : List Ty) (p : CoreProgram) (g : ℕ) (free : core.Move) → default_of ts result ≡ defined.default_tasks p g free has_default (stmts_view ts body.now) }
{
    if has_default { Some(body) } else { None }
}

/// A select, which counts its clauses.
pub fn select_step<'p, 'a>(
    c: &Context<'a>,
    state: &mut State<'p, 'a>,
    g: usize,
    free: Move,
    choices: &[u64],
    what: Select<'p>,
    f: &mut Frame<'p, 'a>,
) -> Result<Talked<'p, 'a>, Stop>
    ensures value { (p : CoreProgram) → p.names ≡ names c.now.table.now → let ts = places c.now.table.now in let w = what.entry in Talks p ts g result f.old f.new state.old state.new (λ x below s. defined.select_step p g (move_of free) choices.now (cases_of (cases_view ts w.cases.now)) w.count w.has_default (stmts_view ts w.default.now) x below s) }
    ensures same { length state.new.goroutines.items ≡ length state.old.goroutines.items }
    ensures own { slice_get state.new.goroutines.items g ≡ slice_get state.old.goroutines.items g }
{
    let vs = operands(f, what.count)?;
    let offers = offers_from(c, what.cases, vs.as_slice())?;
    let ways = Ways {
        offers,
        default: default_in(what.has_default, what.default),
        units: what.cases.items.len() as u64,
    };
    reach(c, state, g, free, choices, ways, f)
}
