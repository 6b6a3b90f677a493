//! Runs by lists of moves.
//!
//! The Go Programming Language Specification (as of Go 1.17), "Program initialization and
//! execution", "Program execution".

ghost use Rattle.std.specs.Prelude.{◌≡◌, IfOk, map};
ghost use Rattle.go_type.specs.Table.{places};
ghost use Rattle.go_core.specs.CoreView.{init_step_view, program_view};
ghost use Rattle.go_core.specs.Run as running;
ghost use Rattle.go_state.specs.StateSeen.{move_of, state_of};
ghost use Rattle.go_play.specs.Turns.{Steps};
ghost use Rattle.go_play.specs.Comes.{Comes};

use crate::dispatch::game::Game;
use crate::play::step::step;
use gj_base::NoMemory;
use go_core::program::{InitSteps, Program};
use go_state::start::start::start;
use go_state::state::state::{Move, State};
use go_values::operators::did::Context;

/// Makes these moves, with these numbers for `select` statements; false where one of them may not
/// be made.
pub fn advance<'p, 'a>(
    c: &Context<'a>,
    p: &'p Program,
    choices: &[u64],
    moves: &[Move],
    state: &mut State<'p, 'a>,
) -> Result<bool, NoMemory>
    requires { c.now.table.now ≡ p.now.types }
    ensures value { IfOk result (λ b. let ts = places p.now.types in Steps ts b state.new (running.after (program_view p.now) choices.now (map move_of moves.now) (state_of ts state.old))) }
{
    'moves: for i in 0..moves.len() {
        let game = Game {
            c,
            p,
            choices,
            free: moves[i],
        };
        let made = step(game, state)?;
        if !made {
            return Ok(false);
        }
    }
    Ok(true)
}

/// The state that a program comes to by these moves, with this order of initialisation and these
/// numbers for `select` statements; none where a move may not be made.
pub fn play<'p, 'a>(
    c: &Context<'a>,
    p: &'p Program,
    order: &InitSteps,
    choices: &[u64],
    moves: &[Move],
) -> Result<Option<State<'p, 'a>>, NoMemory>
    requires { c.now.table.now ≡ p.now.types }
    ensures value { IfOk result (λ s. let ts = places p.now.types in Comes ts s (running.after (program_view p.now) choices.now (map move_of moves.now) (running.start (program_view p.now) (map init_step_view order.now.items.items)))) }
{
    let begun = start(c, p, order)?;
    let mut state = begun;
    let made = advance(c, p, choices, moves, &mut state)?;
    if made {
        return Ok(Some(state));
    }
    Ok(None)
}
