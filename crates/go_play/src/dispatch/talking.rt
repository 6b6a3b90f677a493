//! Communication. Gates are own.
//!
//! The Go Programming Language Specification (as of Go 1.17), "Send statements", "Receive operator",
//! "Select statements", "Close".

ghost use Rattle.std.specs.Prelude.{◌≡◌, ◌<◌, IfOk, vec_len};
ghost use Rattle.go_type.specs.Levels.{tree_of};
ghost use Rattle.go_type.specs.Table.{places};
ghost use Rattle.go_core.specs.CoreView.{program_view, stmts_view};
ghost use Rattle.go_core.specs.Goroutine as core;
ghost use Rattle.go_core.specs.GoStep as steps;
ghost use Rattle.go_core.specs.Opened.{cases_of};
ghost use Rattle.go_state.specs.TasksSeen.{cases_view};
ghost use Rattle.go_state.specs.StateSeen.{move_of};
ghost use Rattle.go_play.specs.Plays.{Plays};

use crate::dispatch::game::Game;
use crate::outcomes::outcome::{go_on, talk};
use gj_base::NoMemory;
use go_partners::talk_steps::close::close_step;
use go_partners::talk_steps::select::{receive_step, select_step, send_step};
use go_partners::waits::gates::{add_gate_step, await_gate_step, take_gate_step};
use go_state::frame_steps::parts::Select;
use go_state::state::frame::Frame;
use go_state::state::state::State;
use go_type::types::TypeId;

/// A send.
pub fn send_task<'s, 'p, 'a>(
    game: Game<'s, 'p, 'a>,
    state: &mut State<'p, 'a>,
    g: usize,
    frame: Frame<'p, 'a>,
    t: TypeId,
) -> Result<bool, NoMemory>
    requires types { game.c.now.table.now ≡ game.p.now.types }
    requires goroutine { g < vec_len state.old.goroutines }
    ensures value { IfOk result (λ b. let ts = places game.entry.p.now.types in Plays ts g b frame.entry state.old state.new (steps.task_step (program_view game.entry.p.now) game.entry.choices.now (move_of game.entry.free) g (core.send_to (tree_of ts t)))) }
{
    let mut f = frame;
    let came = send_step(game.c, state, g, game.free, game.choices, t, &mut f);
    talk(game.c, game.p.hidden, state, g, f, came)
}

/// A receive.
pub fn receive_task<'s, 'p, 'a>(
    game: Game<'s, 'p, 'a>,
    state: &mut State<'p, 'a>,
    g: usize,
    frame: Frame<'p, 'a>,
    t: TypeId,
    ok: bool,
) -> Result<bool, NoMemory>
    requires types { game.c.now.table.now ≡ game.p.now.types }
    requires goroutine { g < vec_len state.old.goroutines }
    ensures value { IfOk result (λ b. let ts = places game.entry.p.now.types in Plays ts g b frame.entry state.old state.new (steps.task_step (program_view game.entry.p.now) game.entry.choices.now (move_of game.entry.free) g (core.receive_from (tree_of ts t) ok))) }
{
    let mut f = frame;
    let came = receive_step(game.c, state, g, game.free, game.choices, t, ok, &mut f);
    talk(game.c, game.p.hidden, state, g, f, came)
}

/// `close`.
pub fn close_task<'s, 'p, 'a>(
    game: Game<'s, 'p, 'a>,
    state: &mut State<'p, 'a>,
    g: usize,
    frame: Frame<'p, 'a>,
) -> Result<bool, NoMemory>
    requires types { game.c.now.table.now ≡ game.p.now.types }
    requires goroutine { g < vec_len state.old.goroutines }
    ensures value { IfOk result (λ b. let ts = places game.entry.p.now.types in Plays ts g b frame.entry state.old state.new (steps.task_step (program_view game.entry.p.now) game.entry.choices.now (move_of game.entry.free) g (core.close_channel))) }
{
    let mut f = frame;
    let came = close_step(state, g, &mut f);
    talk(game.c, game.p.hidden, state, g, f, came)
}

/// A select.
pub fn select_task<'s, 'p, 'a>(
    game: Game<'s, 'p, 'a>,
    state: &mut State<'p, 'a>,
    g: usize,
    frame: Frame<'p, 'a>,
    what: Select<'p>,
) -> Result<bool, NoMemory>
    requires types { game.c.now.table.now ≡ game.p.now.types }
    requires goroutine { g < vec_len state.old.goroutines }
    ensures value { IfOk result (λ b. let ts = places game.entry.p.now.types in Plays ts g b frame.entry state.old state.new (steps.task_step (program_view game.entry.p.now) game.entry.choices.now (move_of game.entry.free) g (core.select_from what.entry.label.0 (cases_of (cases_view ts what.entry.cases.now)) what.entry.count what.entry.has_default (stmts_view ts what.entry.default.now)))) }
{
    let mut f = frame;
    let came = select_step(game.c, state, g, game.free, game.choices, what, &mut f);
    talk(game.c, game.p.hidden, state, g, f, came)
}

/// A take of a gate.
pub fn take_gate_task<'s, 'p, 'a>(
    game: Game<'s, 'p, 'a>,
    state: &mut State<'p, 'a>,
    g: usize,
    frame: Frame<'p, 'a>,
) -> Result<bool, NoMemory>
    requires types { game.c.now.table.now ≡ game.p.now.types }
    requires goroutine { g < vec_len state.old.goroutines }
    ensures value { IfOk result (λ b. let ts = places game.entry.p.now.types in Plays ts g b frame.entry state.old state.new (steps.task_step (program_view game.entry.p.now) game.entry.choices.now (move_of game.entry.free) g (core.take_gate))) }
{
    let mut f = frame;
    let came = take_gate_step(state, g, &mut f);
    talk(game.c, game.p.hidden, state, g, f, came)
}

/// An add to a gate.
pub fn add_gate_task<'s, 'p, 'a>(
    game: Game<'s, 'p, 'a>,
    state: &mut State<'p, 'a>,
    g: usize,
    frame: Frame<'p, 'a>,
) -> Result<bool, NoMemory>
    requires types { game.c.now.table.now ≡ game.p.now.types }
    requires goroutine { g < vec_len state.old.goroutines }
    ensures value { IfOk result (λ b. let ts = places game.entry.p.now.types in Plays ts g b frame.entry state.old state.new (steps.task_step (program_view game.entry.p.now) game.entry.choices.now (move_of game.entry.free) g (core.add_to_gate))) }
{
    let mut f = frame;
    let came = add_gate_step(game.c, state, g, &mut f);
    talk(game.c, game.p.hidden, state, g, f, came)
}

/// An await of a gate.
pub fn await_gate_task<'s, 'p, 'a>(
    game: Game<'s, 'p, 'a>,
    state: &mut State<'p, 'a>,
    g: usize,
    frame: Frame<'p, 'a>,
) -> Result<bool, NoMemory>
    requires types { game.c.now.table.now ≡ game.p.now.types }
    requires goroutine { g < vec_len state.old.goroutines }
    ensures value { IfOk result (λ b. let ts = places game.entry.p.now.types in Plays ts g b frame.entry state.old state.new (steps.task_step (program_view game.entry.p.now) game.entry.choices.now (move_of game.entry.free) g (core.await_gate))) }
{
    let mut f = frame;
    let came = await_gate_step(state, g, &mut f);
    talk(game.c, game.p.hidden, state, g, f, came)
}

/// A step that does nothing, after which another goroutine may move.
pub fn yield_task<'s, 'p, 'a>(
    game: Game<'s, 'p, 'a>,
    state: &mut State<'p, 'a>,
    g: usize,
    frame: Frame<'p, 'a>,
) -> Result<bool, NoMemory>
    requires goroutine { g < vec_len state.old.goroutines }
    ensures value { IfOk result (λ b. let ts = places game.entry.p.now.types in Plays ts g b frame.entry state.old state.new (steps.task_step (program_view game.entry.p.now) game.entry.choices.now (move_of game.entry.free) g core.yield_turn)) }
{
    go_on(game.c, game.p.hidden, state, g, frame, Ok(0))
}
