//! The state after a step, by its answer. The running frame, which was taken off the state for the
//! step, is put back.
//!
//! The Go Programming Language Specification (as of Go 1.17), "Program execution", "Go statements",
//! "Handling panics".

ghost use Rattle.std.specs.Prelude.{◌≡◌, ◌<◌, ◌+◌, ◌∷◌, List, IfOk, OnOk, vec_len};
ghost use Rattle.go_type.specs.Levels.{tree_of};
ghost use Rattle.go_type.specs.Tree.{Ty};
ghost use Rattle.go_core.specs.Frames as framing;
ghost use Rattle.go_core.specs.Goroutine.{moved, exit};
ghost use Rattle.go_core.specs.RunPanic as raising;
ghost use Rattle.go_partners.specs.Moves.{frames_below};
ghost use Rattle.go_state.specs.StateSeen.{frame_of, state_of};
ghost use Rattle.go_values.specs.ValuesSeen.{panic_of};
ghost use Rattle.go_play.specs.Outcomes.{Halted, HasBegun, HasEntered, HasTalked, HasTold, WentOn, with_end};

use crate::outcomes::over::{put_back, put_over, started, wait_for};
use gj_base::NoMemory;
use go_entries::end_steps::frames::to_panicking;
use go_entries::entries::enter::Entered;
use go_partners::selects::reach::Talked;
use go_state::state::frame::Frame;
use go_state::state::state::{End, State};
use go_type::types::TypeId;
use go_values::operators::did::{Context, Stop};
use go_values::operators::places::sum;
use go_values::values::run_panic::{RunPanic, panic_value};

// ---- a step that doesn't go on

// It panics.
fn raise<'p, 'a>(
    c: &Context<'a>,
    hidden: TypeId,
    state: &mut State<'p, 'a>,
    g: usize,
    frame: Frame<'p, 'a>,
    cause: RunPanic,
    units: u64,
) -> Result<(), NoMemory>
    requires goroutine { g < vec_len state.old.goroutines }
    ensures value { OnOk result ((ts : List Ty) → state_of ts state.new ≡ moved g (framing.to_panicking (raising.panic_value (tree_of ts hidden) (panic_of cause)) (frame_of ts frame.entry) ∷ frames_below g (state_of ts state.old)) (1 + units) (state_of ts state.old)) }
{
    let mut f = frame;
    let x = panic_value(c.alloc, c.arena, hidden, cause)?;
    to_panicking(&mut f, x);
    let all = sum(1, units)?;
    put_back(state, g, f, all)?;
    Ok(())
}

// It panics, or there is none.
fn halt<'p, 'a>(
    c: &Context<'a>,
    hidden: TypeId,
    state: &mut State<'p, 'a>,
    g: usize,
    f: Frame<'p, 'a>,
    stop: Stop,
) -> Result<bool, NoMemory>
    requires goroutine { g < vec_len state.old.goroutines }
    ensures value { IfOk result (λ b. (ts : List Ty) → Halted (tree_of ts hidden) ts g stop b f.entry state.old state.new) }
{
    match stop {
        Stop::NoMemory => Err(NoMemory),
        Stop::NoStep => Ok(false),
        Stop::Panics {
            panic: cause,
            units,
        } => {
            raise(c, hidden, state, g, f, cause, units)?;
            Ok(true)
        }
    }
}

// ---- one that does

/// The frame goes on, after so many units beside its one; false where there is no step.
pub fn go_on<'p, 'a>(
    c: &Context<'a>,
    hidden: TypeId,
    state: &mut State<'p, 'a>,
    g: usize,
    f: Frame<'p, 'a>,
    came: Result<u64, Stop>,
) -> Result<bool, NoMemory>
    requires goroutine { g < vec_len state.old.goroutines }
    ensures value { IfOk result (λ b. (ts : List Ty) → WentOn (tree_of ts hidden) ts g came b f.entry state.old state.new) }
{
    match came {
        Ok(units) => {
            let all = sum(1, units)?;
            put_back(state, g, f, all)?;
            Ok(true)
        }
        Err(stop) => halt(c, hidden, state, g, f, stop),
    }
}

/// A new frame comes above it.
pub fn enter<'p, 'a>(
    c: &Context<'a>,
    hidden: TypeId,
    state: &mut State<'p, 'a>,
    g: usize,
    f: Frame<'p, 'a>,
    came: Result<Entered<'p, 'a>, Stop>,
) -> Result<bool, NoMemory>
    requires goroutine { g < vec_len state.old.goroutines }
    ensures value { IfOk result (λ b. (ts : List Ty) → HasEntered (tree_of ts hidden) ts g came.entry b f.entry state.old state.new) }
{
    match came {
        Ok(entered) => {
            let all = sum(1, entered.units)?;
            put_over(state, g, f)?;
            put_back(state, g, entered.frame, all)?;
            Ok(true)
        }
        Err(stop) => halt(c, hidden, state, g, f, stop),
    }
}

/// A goroutine begins with a new frame.
pub fn begin<'p, 'a>(
    c: &Context<'a>,
    hidden: TypeId,
    state: &mut State<'p, 'a>,
    g: usize,
    f: Frame<'p, 'a>,
    came: Result<Entered<'p, 'a>, Stop>,
) -> Result<bool, NoMemory>
    requires goroutine { g < vec_len state.old.goroutines }
    ensures value { IfOk result (λ b. (ts : List Ty) → HasBegun (tree_of ts hidden) ts g came.entry b f.entry state.old state.new) }
{
    match came {
        Ok(entered) => {
            let all = sum(1, entered.units)?;
            put_back(state, g, f, all)?;
            started(c.alloc, state, entered.frame)?;
            Ok(true)
        }
        Err(stop) => halt(c, hidden, state, g, f, stop),
    }
}

/// The goroutine waits for what is said, if anything.
pub fn talk<'p, 'a>(
    c: &Context<'a>,
    hidden: TypeId,
    state: &mut State<'p, 'a>,
    g: usize,
    f: Frame<'p, 'a>,
    came: Result<Talked<'p, 'a>, Stop>,
) -> Result<bool, NoMemory>
    requires goroutine { g < vec_len state.old.goroutines }
    ensures value { IfOk result (λ b. (ts : List Ty) → HasTalked (tree_of ts hidden) ts g came.entry b f.entry state.old state.new) }
{
    match came {
        Ok(talked) => {
            let units = talked.units;
            put_over(state, g, f)?;
            wait_for(state, g, talked.waiting, units)?;
            Ok(true)
        }
        Err(stop) => halt(c, hidden, state, g, f, stop),
    }
}

/// The program has asked for an end, or has met a fatal error.
pub fn tell<'p, 'a>(
    c: &Context<'a>,
    hidden: TypeId,
    state: &mut State<'p, 'a>,
    g: usize,
    f: Frame<'p, 'a>,
    came: Result<End<'a>, Stop>,
) -> Result<bool, NoMemory>
    requires goroutine { g < vec_len state.old.goroutines }
    ensures value { IfOk result (λ b. (ts : List Ty) → HasTold (tree_of ts hidden) ts g came.entry b f.entry state.old state.new) }
{
    match came {
        Ok(end) => {
            put_back(state, g, f, 1)?;
            state.end = end;
            Ok(true)
        }
        Err(stop) => halt(c, hidden, state, g, f, stop),
    }
}

/// `main` has returned: its goroutine has the frames below.
pub fn finish<'p, 'a>(state: &mut State<'p, 'a>, g: usize) -> Result<(), NoMemory>
    requires goroutine { g < vec_len state.old.goroutines }
    ensures value { OnOk result ((ts : List Ty) → state_of ts state.new ≡ with_end (exit 0) (moved g (frames_below g (state_of ts state.old)) 1 (state_of ts state.old))) }
{
    state.count_move(g, 1)?;
    state.end = End::Exit(0);
    Ok(())
}
