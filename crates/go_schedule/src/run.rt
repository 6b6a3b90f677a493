//! A run from its beginning to its end.
//!
//! Go, "Program execution".

ghost use Rattle.std.specs.Prelude.{◌≡◌, IfOk, IfSome, map};
ghost use Rattle.go_type.specs.Table.{places};
ghost use Rattle.go_core.specs.CoreView.{init_step_view, program_view};
ghost use Rattle.go_state.specs.StateSeen.{state_of};
ghost use Rattle.go_schedule.specs.Runs.{IsOfSomeRun};

use crate::numbers::Numbers;
use crate::schedule::Schedule;
use crate::turn::{Chosen, Turn, next_step};
use gj_base::NoMemory;
use go_core::program::{InitSteps, Program};
use go_play::dispatch::game::Game;
use go_play::play::step::step;
use go_state::start::start::start;
use go_state::state::state::{End, Move, State};
use go_values::operators::did::Context;
use std::alloc::Global;

/// Why a run goes on no longer.
#[derive(Clone, Copy, Debug, PartialEq, Eq)]
pub enum Halt {
    /// It has ended.
    Ended,
    /// It has made so many steps as it may.
    Stopped,
    /// A goroutine can move and has no step, which no sound program's does.
    Stuck,
}

/// A run as far as it came.
#[derive(Drop)]
pub struct Played<'p, 'a> {
    pub state: State<'p, 'a>,
    pub halt: Halt,
}

// What settles what Go leaves free, and the moves that were made by now.
#[derive(Drop)]
struct Player {
    schedule: Schedule,
    numbers: Numbers,
    moves: Vec<Move>,
}

fn has_ended(end: End) -> bool {
    match end {
        End::Going => false,
        _ => true,
    }
}

impl Player {
    fn new(alloc: Global, seed: u64) -> Player {
        Player {
            schedule: Schedule::new(alloc),
            numbers: Numbers::new(alloc, seed),
            moves: Vec::new(alloc),
        }
    }

    // The move of the goroutine whose turn it is.
    fn choose<'p, 'a>(
        &mut self,
        c: &Context<'a>,
        state: &mut State<'p, 'a>,
        g: usize,
    ) -> Result<Chosen, NoMemory> {
        let next = next_step(state, g)?;
        self.numbers.reach(state.taken)?;
        let turn = Turn {
            c,
            g,
            choices: self.numbers.needed(),
            since: self.schedule.since(),
            state,
        };
        turn.chosen(next)
    }

    // The step of this number; false where there is none.
    fn advance<'p, 'a>(
        &mut self,
        c: &Context<'a>,
        p: &'p Program,
        state: &mut State<'p, 'a>,
        at: u64,
    ) -> Result<bool, NoMemory>
        requires { c.now.table.now ≡ p.now.types }
    {
        let g = self.schedule.next(state)?;
        let chosen = self.choose(c, state, g)?;
        let game = Game {
            c,
            p,
            choices: self.numbers.needed(),
            free: chosen.free,
        };
        let made = step(game, state)?;
        if !made {
            return Ok(false);
        }
        self.moves.push(chosen.free)?;
        self.schedule.settle(state, g, chosen.yields, at)?;
        Ok(true)
    }

    // At most so many steps.
    fn go_on<'p, 'a>(
        &mut self,
        c: &Context<'a>,
        p: &'p Program,
        most: u64,
        state: &mut State<'p, 'a>,
    ) -> Result<Halt, NoMemory>
        requires { c.now.table.now ≡ p.now.types }
    {
        'steps: for at in 0..most {
            if has_ended(state.end) {
                return Ok(Halt::Ended);
            }
            let made = self.advance(c, p, state, at)?;
            if !made {
                return Ok(Halt::Stuck);
            }
        }
        Ok(Halt::Stopped)
    }
}

// A run by these moves and numbers.
fn replay<'p, 'a>(
    c: &Context<'a>,
    p: &'p Program,
    order: &InitSteps,
    choices: &[u64],
    moves: &[Move],
) -> Result<Option<State<'p, 'a>>, NoMemory>
    requires { c.now.table.now ≡ p.now.types }
    ensures reached { IfOk result (λ r. IfSome r (λ s. IsOfSomeRun (program_view p.now) (map init_step_view order.now.items.items) (state_of (places p.now.types) s))) }
{
    go_play::play::play::play(c, p, order, choices, moves)
}

/// A run of a program with this order of initialisation and the numbers of a seed for `select`
/// statements, of at most so many steps. Its moves are chosen as it is played once, and it is played
/// by them once more; none where that comes to no state.
pub fn play<'p, 'a>(
    c: &Context<'a>,
    p: &'p Program,
    order: &InitSteps,
    seed: u64,
    most: u64,
) -> Result<Option<Played<'p, 'a>>, NoMemory>
    requires { c.now.table.now ≡ p.now.types }
    ensures reached { IfOk result (λ r. IfSome r (λ x. IsOfSomeRun (program_view p.now) (map init_step_view order.now.items.items) (state_of (places p.now.types) x.state))) }
{
    let mut state = start(c, p, order)?;
    let mut player = Player::new(c.alloc, seed);
    let halt = player.go_on(c, p, most, &mut state)?;
    let replayed = replay(
        c,
        p,
        order,
        player.numbers.needed(),
        player.moves.as_slice(),
    )?;
    match replayed {
        Some(reached) => Ok(Some(Played {
            state: reached,
            halt,
        })),
        None => Ok(None),
    }
}
