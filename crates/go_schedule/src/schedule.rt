//! Whose turn it is.

use gj_base::NoMemory;
use go_partners::partners::moves::can_move;
use go_state::state::state::{Goroutine, State, Waiting};
use std::alloc::Global;
use std::collections::VecDeque;

/// The goroutines that could move when they came, the first in first, and when each of all began to
/// wait, in steps. Whose turn it is stands in the line no longer.
#[derive(Drop)]
pub struct Schedule {
    line: VecDeque<usize>,
    since: Vec<u64>,
}

/// Whether a goroutine goes on by itself.
pub fn is_able(goroutine: &Goroutine) -> bool {
    match &goroutine.waiting {
        Waiting::Able => !goroutine.frames.is_empty(),
        _ => false,
    }
}

// Whether there is such a goroutine, and it goes on by itself.
fn goes_on(state: &State, g: usize) -> bool {
    g < state.goroutines.len() && is_able(&state.goroutines[g])
}

// Whether there is such a goroutine, and it can move.
fn is_ready(state: &State, g: usize) -> bool {
    g < state.goroutines.len() && can_move(state, g)
}

impl Schedule {
    /// Nobody.
    pub fn new(alloc: Global) -> Schedule {
        Schedule {
            line: VecDeque::new(alloc),
            since: Vec::new(alloc),
        }
    }

    /// When each goroutine began to wait.
    pub fn since(&self) -> &[u64] {
        self.since.as_slice()
    }

    /// Whose turn it is: the first that can move, or the first goroutine of all where none can.
    pub fn next(&mut self, state: &State) -> Result<usize, NoMemory> {
        if let Some(g) = self.first(state) {
            return Ok(g);
        }
        self.join(state, None)?;
        Ok(self.line.pop_front().unwrap_or(0))
    }

    // Leads the first that can move out of the line, and all before it.
    fn first(&mut self, state: &State) -> Option<usize> {
        'line: for _ in 0..self.line.len() {
            if let Some(g) = self.line.pop_front() {
                if is_ready(state, g) {
                    return Some(g);
                }
            }
        }
        None
    }

    // All that can move and aren't there come last, but for this one.
    fn join(&mut self, state: &State, but: Option<usize>) -> Result<(), NoMemory> {
        'goroutines: for g in 0..state.goroutines.len() {
            if but != Some(g) && is_ready(state, g) && !self.line.contains(&g) {
                self.line.push_back(g)?;
            }
        }
        self.since.resize(state.goroutines.len(), 0)?;
        Ok(())
    }

    /// After a step of a goroutine, which goes on where it is able and doesn't yield.
    pub fn settle(
        &mut self,
        state: &State,
        g: usize,
        yields: bool,
        at: u64,
    ) -> Result<(), NoMemory> {
        if !yields && goes_on(state, g) {
            self.line.push_front(g)?;
            return Ok(());
        }
        self.join(state, Some(g))?;
        if yields {
            self.line.push_back(g)?;
        }
        if g < self.since.len() {
            self.since[g] = at;
        }
        Ok(())
    }
}
