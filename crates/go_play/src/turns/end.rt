//! How a frame ends among those of its goroutine.
//!
//! The Go Programming Language Specification (as of Go 1.17), "Defer statements", "Return
//! statements", "Handling panics".

ghost use Rattle.std.specs.Prelude.{◌≡◌, ◌<◌, [], List, IfOk, vec_len};
ghost use Rattle.go_type.specs.Tree.{Ty};
ghost use Rattle.go_type.specs.Table.{places};
ghost use Rattle.go_core.specs.CoreView.{program_view};
ghost use Rattle.go_core.specs.GoStep as steps;
ghost use Rattle.go_play.specs.Plays.{Plays};
ghost use Rattle.go_entries.specs.Leaves.{ended_as};
ghost use Rattle.go_state.specs.StateSeen.{move_of, state_of};
ghost use Rattle.go_play.specs.Ends.{EndsIn};

use crate::dispatch::game::Game;
use gj_base::NoMemory;
use go_core::program::Program;
use go_entries::end_steps::ends::end_step;
use go_state::state::frame::Frame;
use go_state::state::state::{End, State};
use go_values::operators::did::{Context, Stop};

// Nothing is left of a frame's body.
fn end_in<'p, 'a>(
    c: &Context<'a>,
    p: &'p Program,
    state: &mut State<'p, 'a>,
    g: usize,
    frame: Frame<'p, 'a>,
) -> Result<Option<End<'a>>, Stop>
    requires types { c.now.table.now ≡ p.now.types }
    requires goroutine { g < vec_len state.old.goroutines }
    ensures value { let ts = places p.now.types in EndsIn (program_view p.now) ts g result frame.entry state.old state.new }
    ensures same { vec_len state.new.goroutines ≡ vec_len state.old.goroutines }
{
    let goroutine = &mut state.goroutines[g];
    end_step(c, p, frame, &mut goroutine.frames, &mut state.memory)
}

// The run ends so, if it does.
fn tell_end<'p, 'a>(state: &mut State<'p, 'a>, told: Option<End<'a>>)
    ensures value { (ts : List Ty) → state_of ts state.new ≡ ended_as told.entry (state_of ts state.old) }
{
    match told {
        Some(end) => {
            state.end = end;
        }
        None => {}
    }
}

/// The step of a frame of whose body nothing is left; false where there is none.
pub fn ended<'s, 'p, 'a>(
    game: Game<'s, 'p, 'a>,
    state: &mut State<'p, 'a>,
    g: usize,
    frame: Frame<'p, 'a>,
) -> Result<bool, NoMemory>
    requires types { game.c.now.table.now ≡ game.p.now.types }
    requires goroutine { g < vec_len state.old.goroutines }
    ensures value { IfOk result (λ b. let ts = places game.entry.p.now.types in Plays ts g b frame.entry state.old state.new (steps.tasks_step (program_view game.entry.p.now) game.entry.choices.now (move_of game.entry.free) g [])) }
{
    match end_in(game.c, game.p, state, g, frame) {
        Ok(told) => {
            state.count_move(g, 1)?;
            tell_end(state, told);
            Ok(true)
        }
        Err(stop) => match stop {
            Stop::NoMemory => Err(NoMemory),
            Stop::NoStep => Ok(false),
            Stop::Panics { panic: _, units: _ } => unreachable!(),
        },
    }
}
