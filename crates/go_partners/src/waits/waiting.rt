//! Goroutines that wait.
//!
//! The Go Programming Language Specification (as of Go 1.17), "Channel types". A goroutine proceeds
//! as soon as it is ready, with any ready way, and takes no number (own).

ghost use Rattle.std.specs.Prelude.{◌≡◌, ◌<◌, List, Some, length, slice_get, vec_len};
ghost use Rattle.go_type.specs.Tree.{Ty};
ghost use Rattle.go_core.specs.Communicate as defined;
ghost use Rattle.go_core.specs.CoreTree.{CoreProgram};
ghost use Rattle.go_core.specs.Goroutine as core;
ghost use Rattle.go_partners.specs.Moves.{waiting_in};
ghost use Rattle.go_state.specs.StateSeen.{move_of, offer_of, state_of, waiting_of};
ghost use Rattle.go_partners.specs.Talks.{Talks};
ghost use Rattle.go_partners.specs.Wanted.{IsWanted};

use crate::exchanges::take::take_offer;
use crate::partners::ready::offer_ready;
use crate::selects::reach::{Talked, able};
use crate::waits::gates::{await_again, take_again};
use go_state::state::frame::Frame;
use go_state::state::state::{Move, Offer, State, Waiting};
use go_values::operators::did::{Context, Stop};

/// What a goroutine waits for.
#[derive(Clone, Copy)]
pub enum Wanted<'p, 'a> {
    /// An operation on a channel.
    Way(Offer<'p, 'a>),
    /// To take a gate.
    Take(u64),
    /// A gate at 0.
    Await(u64),
    Nothing,
}

// What the goroutine waits for; of several ways the one that the move says.
fn sought<'p, 'a>(waiting: &Waiting<'p, 'a>, way: u64) -> Wanted<'p, 'a>
    ensures value { (ts : List Ty) → IsWanted ts result way (waiting_of ts waiting.now) }
{
    match waiting {
        Waiting::AtChannels(offers) => {
            if way < offers.len() as u64 {
                Wanted::Way(offers[way as usize])
            } else {
                Wanted::Nothing
            }
        }
        Waiting::AtTake(base) => Wanted::Take(*base),
        Waiting::AtAwait(base) => Wanted::Await(*base),
        Waiting::Able => Wanted::Nothing,
    }
}

// A way is taken, where it is ready.
fn take_ready<'p, 'a>(
    c: &Context<'a>,
    state: &mut State<'p, 'a>,
    g: usize,
    free: Move,
    offer: Offer<'p, 'a>,
    f: &mut Frame<'p, 'a>,
) -> Result<Talked<'p, 'a>, Stop>
    ensures value { (p : CoreProgram) (ts : List Ty) (offers : List core.Offer) → Talks p ts g result f.old f.new state.old state.new (λ x below s. defined.way_if_ready p g (move_of free) (Some (offer_of ts offer.entry)) offers x below s) }
    ensures same { length state.new.goroutines.items ≡ length state.old.goroutines.items }
    ensures own { slice_get state.new.goroutines.items g ≡ slice_get state.old.goroutines.items g }
{
    if offer_ready(state, g, offer) {
        let units = take_offer(c, state, g, free, offer, f)?;
        return Ok(able(units));
    }
    Err(Stop::NoStep)
}

/// A waiting goroutine goes on, where it is ready.
pub fn waiting_step<'p, 'a>(
    c: &Context<'a>,
    state: &mut State<'p, 'a>,
    g: usize,
    free: Move,
    f: &mut Frame<'p, 'a>,
) -> Result<Talked<'p, 'a>, Stop>
    requires goroutine { g < vec_len state.old.goroutines }
    ensures value { (p : CoreProgram) (ts : List Ty) → Talks p ts g result f.old f.new state.old state.new (λ x below s. defined.waiting_step p g (move_of free) (waiting_in (slice_get (state_of ts state.old).goroutines g)) x below s) }
    ensures same { length state.new.goroutines.items ≡ length state.old.goroutines.items }
    ensures own { slice_get state.new.goroutines.items g ≡ slice_get state.old.goroutines.items g }
{
    match sought(&state.goroutines[g].waiting, free.way) {
        Wanted::Way(offer) => take_ready(c, state, g, free, offer, f),
        Wanted::Take(base) => take_again(state, g, base, f),
        Wanted::Await(base) => await_again(state, g, base, f),
        Wanted::Nothing => Err(Stop::NoStep),
    }
}
