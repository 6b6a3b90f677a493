//! Channels that are closed.
//!
//! The Go Programming Language Specification (as of Go 1.17), "Close".

ghost use Rattle.std.specs.Prelude.{◌≡◌, ◌<◌, List, Some, length, slice_get, true, vec_len};
ghost use Rattle.go_type.specs.Tree.{Ty};
ghost use Rattle.go_core.specs.Communicate as defined;
ghost use Rattle.go_core.specs.CoreTree.{CoreProgram};
ghost use Rattle.go_core.specs.Goroutine as core;
ghost use Rattle.go_core.specs.Memory as cell;
ghost use Rattle.go_values.specs.ValuesSeen.{memory_of};
ghost use Rattle.go_partners.specs.Talks.{Talks};

use crate::partners::partners::{named_channel, waiting_at};
use crate::selects::reach::{Talked, able};
use go_state::frame_steps::operands::operand;
use go_state::state::frame::Frame;
use go_state::state::state::State;
use go_values::operators::did::Stop;
use go_values::operators::places::sum;
use go_values::values::memory::Memory;
use go_values::values::run_panic::RunPanic;

// No value can be sent to the channel any more.
fn shut(m: &mut Memory, name: u64)
    requires name { name < vec_len m.old.channels }
    ensures value { (ts : List Ty) (c : cell.Channel) → slice_get (memory_of ts m.old).channels name ≡ Some c → memory_of ts m.new ≡ cell.set_channel (memory_of ts m.old) name (record c { closed = true }) }
{
    m.channels[name as usize].closed = true;
}

// The channel of a name; closing it twice panics.
fn close_named<'p, 'a>(
    state: &mut State<'p, 'a>,
    g: usize,
    name: u64,
    f: &Frame<'p, 'a>,
) -> Result<Talked<'p, 'a>, Stop>
    ensures value { (p : CoreProgram) (ts : List Ty) (free : core.Move) → Talks p ts g result f.now f.now state.old state.new (λ x below s. defined.close_named p g free (Some name) x below s) }
    ensures same { length state.new.goroutines.items ≡ length state.old.goroutines.items }
    ensures own { slice_get state.new.goroutines.items g ≡ slice_get state.old.goroutines.items g }
{
    if name >= state.memory.channels.len() as u64 {
        return Err(Stop::NoStep);
    }
    if state.memory.channels[name as usize].closed {
        return Err(Stop::Panics {
            panic: RunPanic::ClosedTwice,
            units: 0,
        });
    }
    let units = sum(1, waiting_at(name, state.goroutines.as_slice()))?;
    shut(&mut state.memory, name);
    Ok(able(units))
}

// The channel that an operand names: closing a nil one panics.
fn close_channel<'p, 'a>(
    state: &mut State<'p, 'a>,
    g: usize,
    channel: Option<u64>,
    f: &Frame<'p, 'a>,
) -> Result<Talked<'p, 'a>, Stop>
    ensures value { (p : CoreProgram) (ts : List Ty) (free : core.Move) → Talks p ts g result f.now f.now state.old state.new (λ x below s. defined.close_named p g free channel x below s) }
    ensures same { length state.new.goroutines.items ≡ length state.old.goroutines.items }
    ensures own { slice_get state.new.goroutines.items g ≡ slice_get state.old.goroutines.items g }
{
    match channel {
        Some(name) => close_named(state, g, name, f),
        None => Err(Stop::Panics {
            panic: RunPanic::ClosedNil,
            units: 0,
        }),
    }
}

/// `close` of an operand.
pub fn close_step<'p, 'a>(
    state: &mut State<'p, 'a>,
    g: usize,
    f: &mut Frame<'p, 'a>,
) -> Result<Talked<'p, 'a>, Stop>
    ensures value { (p : CoreProgram) (ts : List Ty) (free : core.Move) → Talks p ts g result f.old f.new state.old state.new (λ x below s. defined.close_step p g free x below s) }
    ensures same { length state.new.goroutines.items ≡ length state.old.goroutines.items }
    ensures own { slice_get state.new.goroutines.items g ≡ slice_get state.old.goroutines.items g }
{
    let x = operand(f)?;
    match named_channel(x) {
        Some(channel) => close_channel(state, g, channel, f),
        None => Err(Stop::NoStep),
    }
}
