//! The partner of an operation, which goes on in the same step.
//!
//! The Go Programming Language Specification (as of Go 1.17), "Channel types": on a channel without
//! a buffer "communication succeeds only when both a sender and receiver are ready".

ghost use Rattle.std.specs.Prelude.{◌≡◌, ◌≢◌, ◌∷◌, ℕ, List, OnOk, length, slice_get, true};
ghost use Rattle.go_type.specs.Tree.{Ty};
ghost use Rattle.go_core.specs.Communicate as defined;
ghost use Rattle.go_core.specs.CoreTree.{CoreProgram};
ghost use Rattle.go_core.specs.Goroutine as core;
ghost use Rattle.go_values.specs.OperatorsSeen as seen;
ghost use Rattle.go_values.specs.ValuesSeen.{value_of};
ghost use Rattle.go_state.specs.StateSeen.{after_of, frame_of, goroutine_of, move_of, stacked, state_of};
ghost use Rattle.go_partners.specs.Wakes.{GoesOn, GoesOnBeside, Receives, Wakes};

use crate::exchanges::done::{done, received_values};
use crate::partners::partners::{partner_offer, same_name};
use gj_base::NoMemory;
use go_state::state::frame::Frame;
use go_state::state::state::{Clause, Goroutine, Move, Offer, State, Waiting};
use go_values::operators::did::{Context, Stop, Values};
use go_values::values::scalar::Scalar;

// It goes on with this frame on top.
fn go_on<'p, 'a>(goroutine: &mut Goroutine<'p, 'a>, top: Frame<'p, 'a>) -> Result<(), NoMemory>
    ensures value { OnOk result ((ts : List Ty) → goroutine_of ts goroutine.new ≡ record { frames = frame_of ts top.entry ∷ stacked (frame_of ts) goroutine.old.frames.items; waiting = core.able }) }
{
    goroutine.frames.push(top)?;
    goroutine.waiting = Waiting::Able;
    Ok(())
}

// A goroutine that waits goes on with these values.
fn wake<'p, 'a>(
    goroutine: &mut Goroutine<'p, 'a>,
    given: Values<'a>,
    after: Option<Clause<'p>>,
) -> Result<(), Stop>
    ensures value { (ts : List Ty) → Wakes ts result goroutine.old goroutine.new (seen.values_of ts given.entry) (after_of ts after.entry) }
{
    match goroutine.frames.pop() {
        Some(top) => {
            let mut top = top;
            done(&mut top, given, after)?;
            go_on(goroutine, top)?;
            Ok(())
        }
        None => Err(Stop::NoStep),
    }
}

// The goroutine of this place does.
fn resume<'p, 'a>(
    state: &mut State<'p, 'a>,
    partner: u64,
    given: Values<'a>,
    after: Option<Clause<'p>>,
) -> Result<(), Stop>
    ensures value { (ts : List Ty) → GoesOn ts result state.new (defined.resumed (seen.values_of ts given.entry) (after_of ts after.entry) partner (state_of ts state.old)) }
    ensures same { length state.new.goroutines.items ≡ length state.old.goroutines.items }
    ensures others { (i : ℕ) → i ≢ partner → slice_get state.new.goroutines.items i ≡ slice_get state.old.goroutines.items i }
{
    if partner >= state.goroutines.len() as u64 {
        return Err(Stop::NoStep);
    }
    wake(&mut state.goroutines[partner as usize], given, after)
}

// The partner receives what is sent.
fn partner_receives<'p, 'a>(
    c: &Context<'a>,
    state: &mut State<'p, 'a>,
    partner: u64,
    values: u64,
    x: &'a [Scalar<'a>],
    after: Option<Clause<'p>>,
) -> Result<(), Stop>
    ensures value { (ts : List Ty) → GoesOn ts result state.new (defined.resumed (defined.received values (value_of ts x.now) true) (after_of ts after.entry) partner (state_of ts state.old)) }
    ensures same { length state.new.goroutines.items ≡ length state.old.goroutines.items }
    ensures others { (i : ℕ) → i ≢ partner → slice_get state.new.goroutines.items i ≡ slice_get state.old.goroutines.items i }
{
    let given = received_values(c, values, x, true)?;
    resume(state, partner, given, after)
}

/// The partner receives what is sent to a channel, where it waits for that.
pub fn to_partner<'p, 'a>(
    c: &Context<'a>,
    state: &mut State<'p, 'a>,
    g: usize,
    free: Move,
    name: u64,
    x: &'a [Scalar<'a>],
) -> Result<(), Stop>
    ensures value { (ts : List Ty) (p : CoreProgram) → GoesOnBeside ts g result state.old state.new (λ s t. defined.to_partner p g (move_of free) name (value_of ts x.now) (defined.partner_offer g (move_of free) s) t) }
    ensures same { length state.new.goroutines.items ≡ length state.old.goroutines.items }
    ensures own { slice_get state.new.goroutines.items g ≡ slice_get state.old.goroutines.items g }
{
    match partner_offer(state, g, free) {
        Some(offer) => match offer {
            Offer::Receiving {
                channel,
                zero: _,
                units: _,
                values,
                after,
            } => {
                if same_name(channel, name) {
                    return partner_receives(c, state, free.partner, values, x, after);
                }
                Err(Stop::NoStep)
            }
            Offer::Sending {
                channel: _,
                value: _,
                units: _,
                after: _,
            } => Err(Stop::NoStep),
        },
        None => Err(Stop::NoStep),
    }
}

/// What the partner sends to a channel, where it waits for that; it goes on.
pub fn from_partner<'p, 'a>(
    state: &mut State<'p, 'a>,
    g: usize,
    free: Move,
    name: u64,
) -> Result<&'a [Scalar<'a>], Stop>
    ensures value { (ts : List Ty) (p : CoreProgram) → Receives ts g result state.old state.new (λ n after f below u s. defined.from_partner p g (move_of free) name n after (defined.partner_offer g (move_of free) s) f below u s) }
    ensures same { length state.new.goroutines.items ≡ length state.old.goroutines.items }
    ensures own { slice_get state.new.goroutines.items g ≡ slice_get state.old.goroutines.items g }
{
    match partner_offer(state, g, free) {
        Some(offer) => match offer {
            Offer::Sending {
                channel,
                value,
                units: _,
                after,
            } => {
                if same_name(channel, name) {
                    resume(state, free.partner, Values::Nothing, after)?;
                    return Ok(value);
                }
                Err(Stop::NoStep)
            }
            Offer::Receiving {
                channel: _,
                zero: _,
                units: _,
                values: _,
                after: _,
            } => Err(Stop::NoStep),
        },
        None => Err(Stop::NoStep),
    }
}
