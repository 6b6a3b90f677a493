//! Sends and receives that are ready.
//!
//! The Go Programming Language Specification (as of Go 1.17), "Send statements", "Receive operator".

ghost use Rattle.std.specs.Prelude.{◌≡◌, ◌+◌, ◌<◌, ℕ, [], ◌∷◌, List, IfOk, OnOk, Some, length, slice_get, vec_len};
ghost use Rattle.go_type.specs.Tree.{Ty};
ghost use Rattle.go_core.specs.Communicate as defined;
ghost use Rattle.go_core.specs.CoreTree.{CoreProgram};
ghost use Rattle.go_core.specs.Goroutine as core;
ghost use Rattle.go_core.specs.Memory as cell;
ghost use Rattle.go_values.specs.OperatorsSeen as seen;
ghost use Rattle.go_values.specs.ValuesSeen.{channel_of, memory_of, value_of};
ghost use Rattle.go_state.specs.StateSeen.{after_of, frame_of, move_of, offer_of};
ghost use Rattle.go_partners.specs.Meets.{SendMeets};
ghost use Rattle.go_partners.specs.Moves.{Moves};

use crate::exchanges::done::{done, received_values};
use crate::exchanges::partner::{from_partner, to_partner};
use gj_base::NoMemory;
use go_state::state::frame::Frame;
use go_state::state::state::{Clause, Move, Offer, State};
use go_values::operators::did::{Context, Stop, Values};
use go_values::operators::places::sum;
use go_values::values::memory::{Channel, Memory};
use go_values::values::run_panic::RunPanic;
use go_values::values::scalar::Scalar;

// The operation is done: what the step counts.
fn finish<'p, 'a>(
    f: &mut Frame<'p, 'a>,
    given: Values<'a>,
    after: Option<Clause<'p>>,
    units: u64,
) -> Result<u64, NoMemory>
    ensures value { IfOk result (λ n. n ≡ 1 + units) }
    ensures frame { OnOk result ((ts : List Ty) → frame_of ts f.new ≡ defined.done_with (seen.values_of ts given.entry) (after_of ts after.entry) (frame_of ts f.old)) }
{
    done(f, given, after)?;
    sum(1, units)
}

/// What is sent, what it takes of units, and what comes after it.
#[derive(Clone, Copy)]
pub struct Sending<'p, 'a> {
    pub name: u64,
    pub value: &'a [Scalar<'a>],
    pub units: u64,
    pub after: Option<Clause<'p>>,
}

/// What a value finds that is sent to a channel.
#[derive(Clone, Copy)]
pub enum Meets {
    /// The channel is closed.
    Closed,
    /// Room in the buffer.
    Room,
    /// A channel without a buffer, where a partner may wait.
    Partner,
    Nothing,
}

fn send_meets(channel: &Channel) -> Meets
    ensures value { (ts : List Ty) → SendMeets result (channel_of ts channel.now) }
{
    if channel.closed {
        return Meets::Closed;
    }
    if (channel.values.len() as u64) < channel.capacity {
        return Meets::Room;
    }
    if channel.capacity == 0 {
        return Meets::Partner;
    }
    Meets::Nothing
}

// A value comes after those that the channel holds.
fn put<'a>(m: &mut Memory<'a>, name: u64, x: &'a [Scalar<'a>]) -> Result<(), NoMemory>
    requires name { name < vec_len m.old.channels }
    ensures value { OnOk result ((ts : List Ty) (p : CoreProgram) (g : ℕ) (free : core.Move) (c : cell.Channel) → slice_get (memory_of ts m.old).channels name ≡ Some c → memory_of ts m.new ≡ cell.set_channel (memory_of ts m.old) name (defined.with_sent p g free (value_of ts x.now) c)) }
{
    m.channels[name as usize].values.push(x)?;
    Ok(())
}

// Into the buffer.
fn send_to_buffer<'p, 'a>(
    state: &mut State<'p, 'a>,
    what: Sending<'p, 'a>,
    f: &mut Frame<'p, 'a>,
) -> Result<u64, Stop>
    requires name { what.name < vec_len state.old.memory.channels }
    ensures value { (p : CoreProgram) (ts : List Ty) (g : ℕ) (free : core.Move) (c : cell.Channel) → let w = what.entry in slice_get (memory_of ts state.old.memory).channels w.name ≡ Some c → Moves p ts g result f.old f.new state.old state.new (λ x below s. Some (core.with_memory (cell.set_channel s.memory w.name (defined.with_sent p g free (value_of ts w.value.now) c)) (core.moved g (defined.done_with [] (after_of ts w.after) x ∷ below) (1 + w.units) s))) }
    ensures same { length state.new.goroutines.items ≡ length state.old.goroutines.items }
    ensures own { (i : ℕ) → slice_get state.new.goroutines.items i ≡ slice_get state.old.goroutines.items i }
{
    put(&mut state.memory, what.name, what.value)?;
    let units = finish(f, Values::Nothing, what.after, what.units)?;
    Ok(units)
}

// To a partner that waits.
fn send_to_partner<'p, 'a>(
    c: &Context<'a>,
    state: &mut State<'p, 'a>,
    g: usize,
    free: Move,
    what: Sending<'p, 'a>,
    f: &mut Frame<'p, 'a>,
) -> Result<u64, Stop>
    ensures value { (p : CoreProgram) (ts : List Ty) → let w = what.entry in Moves p ts g result f.old f.new state.old state.new (λ x below s. defined.to_partner p g (move_of free) w.name (value_of ts w.value.now) (defined.partner_offer g (move_of free) s) (core.moved g (defined.done_with [] (after_of ts w.after) x ∷ below) (1 + w.units) s)) }
    ensures same { length state.new.goroutines.items ≡ length state.old.goroutines.items }
    ensures own { slice_get state.new.goroutines.items g ≡ slice_get state.old.goroutines.items g }
{
    to_partner(c, state, g, free, what.name, what.value)?;
    let units = finish(f, Values::Nothing, what.after, what.units)?;
    Ok(units)
}

/// A send that is ready: on a closed channel it panics.
pub fn send<'p, 'a>(
    c: &Context<'a>,
    state: &mut State<'p, 'a>,
    g: usize,
    free: Move,
    what: Sending<'p, 'a>,
    f: &mut Frame<'p, 'a>,
) -> Result<u64, Stop>
    ensures value { (p : CoreProgram) (ts : List Ty) → let w = what.entry in Moves p ts g result f.old f.new state.old state.new (λ x below s. defined.offer_taken p g (move_of free) (Some (core.sending (Some w.name) (value_of ts w.value.now) w.units (after_of ts w.after))) x below s) }
    ensures same { length state.new.goroutines.items ≡ length state.old.goroutines.items }
    ensures own { slice_get state.new.goroutines.items g ≡ slice_get state.old.goroutines.items g }
{
    if what.name >= state.memory.channels.len() as u64 {
        return Err(Stop::NoStep);
    }
    match send_meets(&state.memory.channels[what.name as usize]) {
        Meets::Closed => Err(Stop::Panics {
            panic: RunPanic::SendOnClosed,
            units: 0,
        }),
        Meets::Room => send_to_buffer(state, what, f),
        Meets::Partner => send_to_partner(c, state, g, free, what, f),
        Meets::Nothing => Err(Stop::NoStep),
    }
}

/// What is received where a channel is closed, what it takes of units, how many values are wanted,
/// and what comes after it.
#[derive(Clone, Copy)]
pub struct Receiving<'p, 'a> {
    pub name: u64,
    pub zero: &'a [Scalar<'a>],
    pub units: u64,
    pub values: u64,
    pub after: Option<Clause<'p>>,
}

// What was received, and whether it was sent.
fn receive_now<'p, 'a>(
    c: &Context<'a>,
    what: Receiving<'p, 'a>,
    x: &'a [Scalar<'a>],
    ok: bool,
    f: &mut Frame<'p, 'a>,
) -> Result<u64, NoMemory>
    ensures value { IfOk result (λ n. n ≡ 1 + what.entry.units) }
    ensures frame { OnOk result ((ts : List Ty) → let w = what.entry in frame_of ts f.new ≡ defined.done_with (defined.received w.values (value_of ts x.now) ok) (after_of ts w.after) (frame_of ts f.old)) }
{
    let given = received_values(c, what.values, x, ok)?;
    finish(f, given, what.after, what.units)
}

// Of a channel that holds no value.
fn receive_empty<'p, 'a>(
    c: &Context<'a>,
    state: &mut State<'p, 'a>,
    g: usize,
    free: Move,
    what: Receiving<'p, 'a>,
    f: &mut Frame<'p, 'a>,
) -> Result<u64, Stop>
    requires name { what.name < vec_len state.old.memory.channels }
    ensures value { (p : CoreProgram) (ts : List Ty) (k : cell.Channel) → let w = what.entry in slice_get (memory_of ts state.old.memory).channels w.name ≡ Some k → Moves p ts g result f.old f.new state.old state.new (λ x below s. defined.taken_from p g (move_of free) [] w.name (value_of ts w.zero.now) w.units w.values (after_of ts w.after) k x below s) }
    ensures same { length state.new.goroutines.items ≡ length state.old.goroutines.items }
    ensures own { slice_get state.new.goroutines.items g ≡ slice_get state.old.goroutines.items g }
{
    let channel = &state.memory.channels[what.name as usize];
    if channel.closed {
        let units = receive_now(c, what, what.zero, false, f)?;
        return Ok(units);
    }
    if channel.capacity != 0 {
        return Err(Stop::NoStep);
    }
    let x = from_partner(state, g, free, what.name)?;
    let units = receive_now(c, what, x, true, f)?;
    Ok(units)
}

/// A receive that is ready: the front value; of a closed channel without values zero, and that it
/// wasn't sent.
pub fn receive<'p, 'a>(
    c: &Context<'a>,
    state: &mut State<'p, 'a>,
    g: usize,
    free: Move,
    what: Receiving<'p, 'a>,
    f: &mut Frame<'p, 'a>,
) -> Result<u64, Stop>
    ensures value { (p : CoreProgram) (ts : List Ty) → let w = what.entry in Moves p ts g result f.old f.new state.old state.new (λ x below s. defined.offer_taken p g (move_of free) (Some (core.receiving (Some w.name) (value_of ts w.zero.now) w.units w.values (after_of ts w.after))) x below s) }
    ensures same { length state.new.goroutines.items ≡ length state.old.goroutines.items }
    ensures own { slice_get state.new.goroutines.items g ≡ slice_get state.old.goroutines.items g }
{
    if what.name >= state.memory.channels.len() as u64 {
        return Err(Stop::NoStep);
    }
    if state.memory.channels[what.name as usize].values.is_empty() {
        return receive_empty(c, state, g, free, what, f);
    }
    let front = state.memory.channels[what.name as usize].values.remove(0);
    let units = receive_now(c, what, front, true, f)?;
    Ok(units)
}

/// A way that is taken.
pub fn take_offer<'p, 'a>(
    c: &Context<'a>,
    state: &mut State<'p, 'a>,
    g: usize,
    free: Move,
    offer: Offer<'p, 'a>,
    f: &mut Frame<'p, 'a>,
) -> Result<u64, Stop>
    ensures value { (p : CoreProgram) (ts : List Ty) → Moves p ts g result f.old f.new state.old state.new (λ x below s. defined.offer_taken p g (move_of free) (Some (offer_of ts offer.entry)) x below s) }
    ensures same { length state.new.goroutines.items ≡ length state.old.goroutines.items }
    ensures own { slice_get state.new.goroutines.items g ≡ slice_get state.old.goroutines.items g }
{
    match offer {
        Offer::Sending {
            channel,
            value,
            units,
            after,
        } => match channel {
            Some(name) => {
                let what = Sending {
                    name,
                    value,
                    units,
                    after,
                };
                send(c, state, g, free, what, f)
            }
            None => Err(Stop::NoStep),
        },
        Offer::Receiving {
            channel,
            zero,
            units,
            values,
            after,
        } => match channel {
            Some(name) => {
                let what = Receiving {
                    name,
                    zero,
                    units,
                    values,
                    after,
                };
                receive(c, state, g, free, what, f)
            }
            None => Err(Stop::NoStep),
        },
    }
}
