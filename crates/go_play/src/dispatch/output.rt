//! What a program prints, and the ends that it asks for.
//!
//! The Go Programming Language Specification (as of Go 1.17), "Bootstrapping". Ends are own.

ghost use Rattle.std.specs.Prelude.{◌≡◌, ◌<◌, IfOk, vec_len};
ghost use Rattle.go_type.specs.Table.{places};
ghost use Rattle.go_core.specs.CoreView.{program_view};
ghost use Rattle.go_core.specs.Goroutine as core;
ghost use Rattle.go_core.specs.GoStep as steps;
ghost use Rattle.go_state.specs.StateSeen.{move_of};
ghost use Rattle.go_play.specs.Plays.{Plays};

use crate::dispatch::game::Game;
use crate::outcomes::outcome::{go_on, tell};
use gj_base::NoMemory;
use go_partners::output_steps::ends::{exit_step, fatal_step};
use go_partners::output_steps::print::print_step;
use go_state::state::frame::Frame;
use go_state::state::state::State;

/// `print` and `println`.
pub fn print_task<'s, 'p, 'a>(
    game: Game<'s, 'p, 'a>,
    state: &mut State<'p, 'a>,
    g: usize,
    frame: Frame<'p, 'a>,
    n: usize,
    ends_line: bool,
) -> Result<bool, NoMemory>
    requires types { game.c.now.table.now ≡ game.p.now.types }
    requires goroutine { g < vec_len state.old.goroutines }
    ensures value { IfOk result (λ b. let ts = places game.entry.p.now.types in Plays ts g b frame.entry state.old state.new (steps.task_step (program_view game.entry.p.now) game.entry.choices.now (move_of game.entry.free) g (core.print_values n ends_line))) }
{
    let mut f = frame;
    let came = print_step(&mut state.printed, n, ends_line, &mut f);
    go_on(game.c, game.p.hidden, state, g, f, came)
}

/// The program asks for an end.
pub fn exit_task<'s, 'p, 'a>(
    game: Game<'s, 'p, 'a>,
    state: &mut State<'p, 'a>,
    g: usize,
    frame: Frame<'p, 'a>,
) -> Result<bool, NoMemory>
    requires types { game.c.now.table.now ≡ game.p.now.types }
    requires goroutine { g < vec_len state.old.goroutines }
    ensures value { IfOk result (λ b. let ts = places game.entry.p.now.types in Plays ts g b frame.entry state.old state.new (steps.task_step (program_view game.entry.p.now) game.entry.choices.now (move_of game.entry.free) g (core.exit_with))) }
{
    let mut f = frame;
    let came = exit_step(&mut f);
    tell(game.c, game.p.hidden, state, g, f, came)
}

/// It meets a fatal error.
pub fn fatal_task<'s, 'p, 'a>(
    game: Game<'s, 'p, 'a>,
    state: &mut State<'p, 'a>,
    g: usize,
    frame: Frame<'p, 'a>,
) -> Result<bool, NoMemory>
    requires types { game.c.now.table.now ≡ game.p.now.types }
    requires goroutine { g < vec_len state.old.goroutines }
    ensures value { IfOk result (λ b. let ts = places game.entry.p.now.types in Plays ts g b frame.entry state.old state.new (steps.task_step (program_view game.entry.p.now) game.entry.choices.now (move_of game.entry.free) g (core.fatal_with))) }
{
    let mut f = frame;
    let came = fatal_step(&mut f);
    tell(game.c, game.p.hidden, state, g, f, came)
}
