//! A frame that comes over those of its goroutine, and what the goroutine waits for then.
//!
//! The Go Programming Language Specification (as of Go 1.17), "Program execution", "Go statements".

ghost use Rattle.std.specs.Prelude.{◌≡◌, ◌<◌, ◌∷◌, [], List, IfOk, OnOk, vec_len};
ghost use Rattle.go_type.specs.Tree.{Ty};
ghost use Rattle.go_core.specs.Goroutine.{moved};
ghost use Rattle.go_partners.specs.Moves.{frames_below};
ghost use Rattle.go_partners.specs.Talks.{settled};
ghost use Rattle.go_state.specs.StateSeen.{frame_of, state_of, waiting_of};
ghost use Rattle.go_play.specs.Outcomes.{with_started};
ghost use Rattle.go_play.specs.Over.{IsOver};

use gj_base::NoMemory;
use go_entries::end_steps::frames::put;
use go_state::state::frame::Frame;
use go_state::state::state::{Goroutine, State, Waiting};
use go_values::operators::places::sum;
use std::alloc::Global;

/// A frame comes over those of a goroutine.
pub fn put_over<'p, 'a>(
    state: &mut State<'p, 'a>,
    g: usize,
    f: Frame<'p, 'a>,
) -> Result<(), NoMemory>
    requires goroutine { g < vec_len state.old.goroutines }
    ensures value { OnOk result ((ts : List Ty) → IsOver ts g f.entry state.old state.new) }
    ensures same { vec_len state.new.goroutines ≡ vec_len state.old.goroutines }
{
    put(&mut state.goroutines[g].frames, f)?;
    Ok(())
}

/// A goroutine waits for this, with the frames that it has, after so many units more.
pub fn wait_for<'p, 'a>(
    state: &mut State<'p, 'a>,
    g: usize,
    waiting: Waiting<'p, 'a>,
    units: u64,
) -> Result<(), NoMemory>
    requires goroutine { g < vec_len state.old.goroutines }
    ensures value { OnOk result ((ts : List Ty) → state_of ts state.new ≡ settled g (frames_below g (state_of ts state.old)) (waiting_of ts waiting.entry) units (state_of ts state.old)) }
{
    let all = sum(state.units, units)?;
    state.units = all;
    let goroutine = &mut state.goroutines[g];
    goroutine.waiting = waiting;
    Ok(())
}

/// A frame comes over those of a goroutine, which is able then, after so many units more.
pub fn put_back<'p, 'a>(
    state: &mut State<'p, 'a>,
    g: usize,
    f: Frame<'p, 'a>,
    units: u64,
) -> Result<(), NoMemory>
    requires goroutine { g < vec_len state.old.goroutines }
    ensures value { OnOk result ((ts : List Ty) → state_of ts state.new ≡ moved g (frame_of ts f.entry ∷ frames_below g (state_of ts state.old)) units (state_of ts state.old)) }
{
    put_over(state, g, f)?;
    state.count_move(g, units)?;
    Ok(())
}

fn alone<'p, 'a>(alloc: Global, f: Frame<'p, 'a>) -> Result<Vec<Frame<'p, 'a>>, NoMemory>
    ensures value { IfOk result (λ fs. fs.items ≡ f.entry ∷ []) }
{
    let mut frames = Vec::new(alloc);
    frames.push(f)?;
    Ok(frames)
}

/// One more goroutine, which has this frame.
pub fn started<'p, 'a>(
    alloc: Global,
    state: &mut State<'p, 'a>,
    f: Frame<'p, 'a>,
) -> Result<(), NoMemory>
    ensures value { OnOk result ((ts : List Ty) → state_of ts state.new ≡ with_started (frame_of ts f.entry) (state_of ts state.old)) }
{
    let frames = alone(alloc, f)?;
    state.goroutines.push(Goroutine {
        frames,
        waiting: Waiting::Able,
    })?;
    Ok(())
}
