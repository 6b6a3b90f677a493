//! The numbers that `select` statements take.

use gj_base::NoMemory;
use std::alloc::Global;

const FACTOR: u64 = 6364136223846793005;

const SUMMAND: u64 = 1442695040888963407;

/// The numbers of a seed, as a script takes them: those that were needed by now.
#[derive(Drop)]
pub struct Numbers {
    state: u64,
    list: Vec<u64>,
}

impl Numbers {
    /// The numbers of a seed, none of them needed yet.
    pub fn new(alloc: Global, seed: u64) -> Numbers {
        Numbers {
            state: seed,
            list: Vec::new(alloc),
        }
    }

    /// Those that were needed by now.
    pub fn needed(&self) -> &[u64] {
        self.list.as_slice()
    }

    /// One number more than were taken is needed.
    pub fn reach(&mut self, taken: u64) -> Result<(), NoMemory> {
        if self.list.len() as u64 <= taken {
            self.state = self.state.wrapping_mul(FACTOR).wrapping_add(SUMMAND);
            self.list.push(self.state >> 33)?;
        }
        Ok(())
    }
}
