//! One move of a run.
//!
//! The Go Programming Language Specification (as of Go 1.17), "Program execution". Scheduling is
//! free; the deadlock's end is own.

ghost use Rattle.std.specs.Prelude.{◌≡◌, List, IfOk, OnOk};
ghost use Rattle.go_type.specs.Tree.{Ty};
ghost use Rattle.go_type.specs.Table.{places};
ghost use Rattle.go_core.specs.CoreView.{program_view};
ghost use Rattle.go_core.specs.Run as running;
ghost use Rattle.go_state.specs.StateSeen.{move_of, state_of};
ghost use Rattle.go_play.specs.Turns.{Steps};
ghost use Rattle.go_play.specs.Comes.{free_step};

use crate::dispatch::game::Game;
use crate::turns::turn::goroutine_step;
use gj_base::NoMemory;
use go_partners::partners::moves::any_moves;
use go_state::state::state::{End, State};
use go_values::operators::did::Context;
use go_values::operators::places::sum;

fn deadlock_text<'a>(c: &Context<'a>) -> Result<&'a [u8], NoMemory>
    ensures value { IfOk result (λ r. r.now ≡ running.deadlock_text) }
{
    let text: &'a [u8] = c
        .arena
        .try_alloc_slice_copy(b"all goroutines are asleep - deadlock!")?;
    Ok(text)
}

// No goroutine can move.
fn deadlock<'p, 'a>(c: &Context<'a>, state: &mut State<'p, 'a>) -> Result<(), NoMemory>
    ensures value { OnOk result ((ts : List Ty) → state_of ts state.new ≡ running.deadlocked (state_of ts state.old)) }
{
    let text = deadlock_text(c)?;
    let all = sum(state.units, 1)?;
    state.units = all;
    state.end = End::Fatal(text);
    Ok(())
}

// A run that hasn't ended goes on.
fn going_step<'s, 'p, 'a>(
    game: Game<'s, 'p, 'a>,
    state: &mut State<'p, 'a>,
) -> Result<bool, NoMemory>
    requires { game.c.now.table.now ≡ game.p.now.types }
    ensures value { IfOk result (λ b. let ts = places game.entry.p.now.types in Steps ts b state.new (free_step (program_view game.entry.p.now) game.entry.choices.now (move_of game.entry.free) (state_of ts state.old))) }
{
    if any_moves(state) {
        return goroutine_step(game, state);
    }
    deadlock(game.c, state)?;
    Ok(true)
}

/// Makes a move, where it may be made; false where it may not.
pub fn step<'s, 'p, 'a>(game: Game<'s, 'p, 'a>, state: &mut State<'p, 'a>) -> Result<bool, NoMemory>
    requires { game.c.now.table.now ≡ game.p.now.types }
    ensures value { IfOk result (λ b. let ts = places game.entry.p.now.types in Steps ts b state.new (running.step (program_view game.entry.p.now) game.entry.choices.now (move_of game.entry.free) (state_of ts state.old))) }
{
    match state.end {
        End::Going => going_step(game, state),
        End::Exit(_) => Ok(false),
        End::Panicked(_) => Ok(false),
        End::Fatal(_) => Ok(false),
    }
}
