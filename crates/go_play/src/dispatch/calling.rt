//! Calls, goroutines that begin, deferred calls and panics.
//!
//! The Go Programming Language Specification (as of Go 1.17), "Calls", "Go statements", "Defer
//! statements", "Return statements", "Handling panics".

ghost use Rattle.std.specs.Prelude.{◌≡◌, ◌<◌, List, IfOk, vec_len};
ghost use Rattle.go_type.specs.Tree.{Ty};
ghost use Rattle.go_type.specs.Table.{places};
ghost use Rattle.go_core.specs.CoreTree.{CoreProgram};
ghost use Rattle.go_core.specs.CoreView.{callee_view, program_view, var_of};
ghost use Rattle.go_core.specs.Goroutine as core;
ghost use Rattle.go_core.specs.GoStep as steps;
ghost use Rattle.go_core.specs.Opened as opened;
ghost use Rattle.go_state.specs.StateSeen.{move_of};
ghost use Rattle.go_play.specs.Plays.{Plays};
ghost use Rattle.go_play.specs.Recovers.{Recovers};

use crate::dispatch::game::Game;
use crate::outcomes::outcome::{begin, enter, finish, go_on};
use gj_base::NoMemory;
use go_core::node::{Callee, Var};
use go_core::tree::FuncId;
use go_entries::call_steps::calls::{call_step, defer_step, go_step, receive_through_step};
use go_entries::call_steps::panics::{panic_step, recover_step};
use go_entries::call_steps::results::return_step;
use go_entries::entries::resolve::{Called, called_by};
use go_state::state::frame::Frame;
use go_state::state::state::State;
use go_values::operators::did::{Context, Stop};

/// A call.
pub fn call_task<'s, 'p, 'a>(
    game: Game<'s, 'p, 'a>,
    state: &mut State<'p, 'a>,
    g: usize,
    frame: Frame<'p, 'a>,
    callee: &'p Callee,
    n: usize,
) -> Result<bool, NoMemory>
    requires types { game.c.now.table.now ≡ game.p.now.types }
    requires goroutine { g < vec_len state.old.goroutines }
    ensures value { IfOk result (λ b. let ts = places game.entry.p.now.types in Plays ts g b frame.entry state.old state.new (steps.task_step (program_view game.entry.p.now) game.entry.choices.now (move_of game.entry.free) g (core.call_with (opened.called_of (callee_view ts callee.now)) n))) }
{
    let mut f = frame;
    let came = call_step(
        game.c,
        game.p,
        called_by(callee),
        n,
        &mut f,
        &mut state.memory,
    );
    enter(game.c, game.p.hidden, state, g, f, came)
}

/// A call of a function without parameters.
pub fn function_task<'s, 'p, 'a>(
    game: Game<'s, 'p, 'a>,
    state: &mut State<'p, 'a>,
    g: usize,
    frame: Frame<'p, 'a>,
    func: FuncId,
) -> Result<bool, NoMemory>
    requires types { game.c.now.table.now ≡ game.p.now.types }
    requires goroutine { g < vec_len state.old.goroutines }
    ensures value { IfOk result (λ b. let ts = places game.entry.p.now.types in Plays ts g b frame.entry state.old state.new (steps.task_step (program_view game.entry.p.now) game.entry.choices.now (move_of game.entry.free) g (core.call_with (core.the_function func.0) 0))) }
{
    let mut f = frame;
    let came = call_step(
        game.c,
        game.p,
        Called::Function(func),
        0,
        &mut f,
        &mut state.memory,
    );
    enter(game.c, game.p.hidden, state, g, f, came)
}

/// A goroutine begins.
pub fn go_task<'s, 'p, 'a>(
    game: Game<'s, 'p, 'a>,
    state: &mut State<'p, 'a>,
    g: usize,
    frame: Frame<'p, 'a>,
    callee: &'p Callee,
    n: usize,
) -> Result<bool, NoMemory>
    requires types { game.c.now.table.now ≡ game.p.now.types }
    requires goroutine { g < vec_len state.old.goroutines }
    ensures value { IfOk result (λ b. let ts = places game.entry.p.now.types in Plays ts g b frame.entry state.old state.new (steps.task_step (program_view game.entry.p.now) game.entry.choices.now (move_of game.entry.free) g (core.go_with (opened.called_of (callee_view ts callee.now)) n))) }
{
    let mut f = frame;
    let came = go_step(
        game.c,
        game.p,
        called_by(callee),
        n,
        &mut f,
        &mut state.memory,
    );
    begin(game.c, game.p.hidden, state, g, f, came)
}

/// A call is deferred.
pub fn defer_task<'s, 'p, 'a>(
    game: Game<'s, 'p, 'a>,
    state: &mut State<'p, 'a>,
    g: usize,
    frame: Frame<'p, 'a>,
    callee: &'p Callee,
    n: usize,
) -> Result<bool, NoMemory>
    requires types { game.c.now.table.now ≡ game.p.now.types }
    requires goroutine { g < vec_len state.old.goroutines }
    ensures value { IfOk result (λ b. let ts = places game.entry.p.now.types in Plays ts g b frame.entry state.old state.new (steps.task_step (program_view game.entry.p.now) game.entry.choices.now (move_of game.entry.free) g (core.defer_with (opened.called_of (callee_view ts callee.now)) n))) }
{
    let mut f = frame;
    let came = defer_step(game.c, game.p, called_by(callee), n, &mut f);
    go_on(game.c, game.p.hidden, state, g, f, came)
}

/// A receiver is read through the pointer to it.
pub fn through_task<'s, 'p, 'a>(
    game: Game<'s, 'p, 'a>,
    state: &mut State<'p, 'a>,
    g: usize,
    frame: Frame<'p, 'a>,
    var: Var,
) -> Result<bool, NoMemory>
    requires types { game.c.now.table.now ≡ game.p.now.types }
    requires goroutine { g < vec_len state.old.goroutines }
    ensures value { IfOk result (λ b. let ts = places game.entry.p.now.types in Plays ts g b frame.entry state.old state.new (steps.task_step (program_view game.entry.p.now) game.entry.choices.now (move_of game.entry.free) g (core.receive_through (var_of ts var)))) }
{
    let mut f = frame;
    let came = receive_through_step(game.c, game.p, var, &mut f, &mut state.memory);
    go_on(game.c, game.p.hidden, state, g, f, came)
}

/// `return` with so many values.
pub fn return_task<'s, 'p, 'a>(
    game: Game<'s, 'p, 'a>,
    state: &mut State<'p, 'a>,
    g: usize,
    frame: Frame<'p, 'a>,
    n: usize,
) -> Result<bool, NoMemory>
    requires types { game.c.now.table.now ≡ game.p.now.types }
    requires goroutine { g < vec_len state.old.goroutines }
    ensures value { IfOk result (λ b. let ts = places game.entry.p.now.types in Plays ts g b frame.entry state.old state.new (steps.task_step (program_view game.entry.p.now) game.entry.choices.now (move_of game.entry.free) g (core.return_with n))) }
{
    let mut f = frame;
    let came = return_step(game.c, game.p, n, &mut f, &mut state.memory);
    go_on(game.c, game.p.hidden, state, g, f, came)
}

/// `panic`.
pub fn panic_task<'s, 'p, 'a>(
    game: Game<'s, 'p, 'a>,
    state: &mut State<'p, 'a>,
    g: usize,
    frame: Frame<'p, 'a>,
) -> Result<bool, NoMemory>
    requires types { game.c.now.table.now ≡ game.p.now.types }
    requires goroutine { g < vec_len state.old.goroutines }
    ensures value { IfOk result (λ b. let ts = places game.entry.p.now.types in Plays ts g b frame.entry state.old state.new (steps.task_step (program_view game.entry.p.now) game.entry.choices.now (move_of game.entry.free) g (core.panic_with))) }
{
    let mut f = frame;
    let came = panic_step(&mut f);
    go_on(game.c, game.p.hidden, state, g, f, came)
}

// `recover`, among the frames of the goroutine.
fn recover_in<'p, 'a>(
    c: &Context<'a>,
    state: &mut State<'p, 'a>,
    g: usize,
    f: &mut Frame<'p, 'a>,
) -> Result<u64, Stop>
    requires goroutine { g < vec_len state.old.goroutines }
    ensures value { (p : CoreProgram) (ts : List Ty) → Recovers p ts g result f.old f.new state.old state.new }
    ensures same { vec_len state.new.goroutines ≡ vec_len state.old.goroutines }
{
    recover_step(c, f, &mut state.goroutines[g].frames)
}

/// `recover`.
pub fn recover_task<'s, 'p, 'a>(
    game: Game<'s, 'p, 'a>,
    state: &mut State<'p, 'a>,
    g: usize,
    frame: Frame<'p, 'a>,
) -> Result<bool, NoMemory>
    requires types { game.c.now.table.now ≡ game.p.now.types }
    requires goroutine { g < vec_len state.old.goroutines }
    ensures value { IfOk result (λ b. let ts = places game.entry.p.now.types in Plays ts g b frame.entry state.old state.new (steps.task_step (program_view game.entry.p.now) game.entry.choices.now (move_of game.entry.free) g (core.recover_here))) }
{
    let mut f = frame;
    let came = recover_in(game.c, state, g, &mut f);
    go_on(game.c, game.p.hidden, state, g, f, came)
}

/// `main` has returned.
pub fn finish_task<'s, 'p, 'a>(
    game: Game<'s, 'p, 'a>,
    state: &mut State<'p, 'a>,
    g: usize,
    frame: Frame<'p, 'a>,
) -> Result<bool, NoMemory>
    requires goroutine { g < vec_len state.old.goroutines }
    ensures value { IfOk result (λ b. let ts = places game.entry.p.now.types in Plays ts g b frame.entry state.old state.new (steps.task_step (program_view game.entry.p.now) game.entry.choices.now (move_of game.entry.free) g core.finish)) }
{
    finish(state, g)?;
    Ok(true)
}
