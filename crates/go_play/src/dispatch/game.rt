//! What a step is made with.

use go_core::program::Program;
use go_state::state::state::Move;
use go_values::operators::did::Context;

/// The program, where values are put, the numbers that `select` statements take, and what Go leaves
/// free at the step.
#[derive(Clone, Copy)]
pub struct Game<'s, 'p, 'a> {
    pub c: &'s Context<'a>,
    pub p: &'p Program,
    pub choices: &'s [u64],
    pub free: Move,
}
