//! What a goroutine does whose turn it is.
//!
//! The Go Programming Language Specification (as of Go 1.17), "Program execution", "Go statements".
//! Scheduling is free.

ghost use Rattle.std.specs.Prelude.{◌≡◌, ◌<◌, List, IfOk, slice_get, vec_len};
ghost use Rattle.go_type.specs.Tree.{Ty};
ghost use Rattle.go_type.specs.Table.{places};
ghost use Rattle.go_core.specs.Communicate as talking;
ghost use Rattle.go_core.specs.CoreView.{program_view};
ghost use Rattle.go_core.specs.GoStep as steps;
ghost use Rattle.go_play.specs.Plays.{Plays};
ghost use Rattle.go_partners.specs.Moves.{waiting_in};
ghost use Rattle.go_state.specs.StateSeen.{move_of, state_of, waiting_of};
ghost use Rattle.go_play.specs.Turns.{IsAble, Steps};

use crate::dispatch::game::Game;
use crate::outcomes::outcome::talk;
use crate::turns::end::ended;
use crate::turns::todo::todo_step;
use gj_base::NoMemory;
use go_partners::waits::waiting::waiting_step;
use go_state::state::frame::Frame;
use go_state::state::laws::passing;
use go_state::state::next::next_todo;
use go_state::state::state::{State, Waiting};

// A goroutine that is able does the next step of its running frame, which has been taken off.
fn able_step<'s, 'p, 'a>(
    game: Game<'s, 'p, 'a>,
    state: &mut State<'p, 'a>,
    g: usize,
    frame: Frame<'p, 'a>,
) -> Result<bool, NoMemory>
    requires types { game.c.now.table.now ≡ game.p.now.types }
    requires goroutine { g < vec_len state.old.goroutines }
    ensures value { IfOk result (λ b. let ts = places game.entry.p.now.types in Plays ts g b frame.entry state.old state.new (λ x below s. steps.tasks_step (program_view game.entry.p.now) game.entry.choices.now (move_of game.entry.free) g x.tasks x below s)) }
{
    let Frame {
        func,
        mut tasks,
        mut values,
        places,
        deferred,
        results,
        mode,
        purpose,
    } = frame;
    passing();
    let next = next_todo(&mut tasks, &mut values)?;
    let f = Frame {
        func,
        tasks,
        values,
        places,
        deferred,
        results,
        mode,
        purpose,
    };
    match next {
        Some(todo) => todo_step(game, state, g, f, todo),
        None => ended(game, state, g, f),
    }
}

// A goroutine that waits goes on, where it is ready.
fn wait_step<'s, 'p, 'a>(
    game: Game<'s, 'p, 'a>,
    state: &mut State<'p, 'a>,
    g: usize,
    frame: Frame<'p, 'a>,
) -> Result<bool, NoMemory>
    requires goroutine { g < vec_len state.old.goroutines }
    ensures value { IfOk result (λ b. let ts = places game.entry.p.now.types in Plays ts g b frame.entry state.old state.new (λ x below s. talking.waiting_step (program_view game.entry.p.now) g (move_of game.entry.free) (waiting_in (slice_get (state_of ts state.old).goroutines g)) x below s)) }
{
    let mut f = frame;
    let came = waiting_step(game.c, state, g, game.free, &mut f);
    talk(game.c, game.p.hidden, state, g, f, came)
}

fn is_able(waiting: &Waiting) -> bool
    ensures value { (ts : List Ty) → IsAble result (waiting_of ts waiting.now) }
{
    match waiting {
        Waiting::Able => true,
        Waiting::AtChannels(_) => false,
        Waiting::AtTake(_) => false,
        Waiting::AtAwait(_) => false,
    }
}

// A goroutine does its next step, whose running frame has been taken off.
fn frame_step<'s, 'p, 'a>(
    game: Game<'s, 'p, 'a>,
    state: &mut State<'p, 'a>,
    g: usize,
    frame: Frame<'p, 'a>,
) -> Result<bool, NoMemory>
    requires types { game.c.now.table.now ≡ game.p.now.types }
    requires goroutine { g < vec_len state.old.goroutines }
    ensures value { IfOk result (λ b. let ts = places game.entry.p.now.types in Plays ts g b frame.entry state.old state.new (steps.by_waiting (program_view game.entry.p.now) game.entry.choices.now (move_of game.entry.free) g (waiting_in (slice_get (state_of ts state.old).goroutines g)))) }
{
    if is_able(&state.goroutines[g].waiting) {
        return able_step(game, state, g, frame);
    }
    wait_step(game, state, g, frame)
}

/// The goroutine that the move says does its next step; false where it has none.
pub fn goroutine_step<'s, 'p, 'a>(
    game: Game<'s, 'p, 'a>,
    state: &mut State<'p, 'a>,
) -> Result<bool, NoMemory>
    requires { game.c.now.table.now ≡ game.p.now.types }
    ensures value { IfOk result (λ b. let ts = places game.entry.p.now.types in let s = state_of ts state.old in Steps ts b state.new (steps.goroutine_step (program_view game.entry.p.now) game.entry.choices.now (move_of game.entry.free) game.entry.free.goroutine (slice_get s.goroutines game.entry.free.goroutine) s)) }
{
    if game.free.goroutine >= state.goroutines.len() as u64 {
        return Ok(false);
    }
    let g = game.free.goroutine as usize;
    match state.goroutines[g].frames.pop() {
        Some(f) => frame_step(game, state, g, f),
        None => Ok(false),
    }
}
