//! Choices: where a run takes its numbers from.

ghost use Rattle.std.specs.Prelude.{◌≡◌, ◌<◌, ◌≤◌, ◌+◌, ◌%◌, ◌^◌, ℕ, List, length};
ghost use Rattle.gj_base.specs.Choices.{Picks};
ghost use Rattle.gj_base.specs.Listed.{listed, listed_taken};
ghost use Rattle.gj_base.specs.Seeded.{seeded, seeded_taken};

use std::marker::Model;

/// What gives numbers, one after the other.
///
/// `taken` is the list of the raw numbers that were taken so far.
pub trait Choices {
    ghost taken: { Self → List ℕ };

    /// Takes one raw number, and answers what it leaves by `k`.
    fn pick(&mut self, k: u32) -> u32
        requires choice { 2 ≤ k }
        requires room { length (taken self.old) < 2 ^ 63 }
        ensures picks { Picks result k (taken self.old) (taken self.new) };
}

/// The numbers of a list, and then zeros.
#[derive(Debug, Drop)]
pub struct ListChoices {
    numbers: Vec<u64>,
    count: u64,
}

impl Model for ListChoices {
    ghost use Rattle.gj_base.specs.Listed.{ListPoint};

    ghost Value = { ListPoint };

    ghost view = { λ c. record { numbers = c.numbers.items; count = c.count } };
}

impl ListChoices {
    /// The choices of these numbers, none taken yet.
    pub fn new(numbers: Vec<u64>) -> ListChoices
        ensures { result ≡ record { numbers = numbers.items; count = 0 } }
    {
        ListChoices { numbers, count: 0 }
    }
}

impl Choices for ListChoices {
    ghost taken = { listed_taken };

    fn pick(&mut self, k: u32) -> u32
        requires choice { 2 ≤ k }
        requires room { length (listed_taken self.old) < 2 ^ 63 }
        ensures picks { Picks result k (listed_taken self.old) (listed_taken self.new) }
        ensures value { result ≡ listed self.old.numbers self.old.count % k }
        ensures same { self.new ≡ record self.old { count = self.old.count + 1 } }
    {
        let raw = self.numbers.get(self.count as usize).copied().unwrap_or(0);
        self.count += 1;
        (raw % k as u64) as u32
    }
}

/// Numbers that follow from a seed.
///
/// The state is the seed at first. Each pick makes of the state `x`
/// `(x * 6364136223846793005 + 1442695040888963407) mod 2^64`, and the raw number is the new
/// state without its low 33 bits.
#[derive(Debug, Drop)]
pub struct SeedChoices {
    seed: u64,
    count: u64,
    state: u64,
}

impl Model for SeedChoices {
    ghost use Rattle.std.specs.Prelude.{◌≡◌};
    ghost use Rattle.gj_base.specs.Seeded.{SeedPoint, seeded_state};

    ghost Value = { SeedPoint };

    ghost view = { λ c. record { seed = c.seed; count = c.count } };

    ghost invariant = { λ c. c.state ≡ seeded_state c.seed c.count };
}

impl SeedChoices {
    const FACTOR: u64 = 6364136223846793005;

    const SUMMAND: u64 = 1442695040888963407;

    /// The choices of a seed, none taken yet.
    pub fn new(seed: u64) -> SeedChoices
        ensures { result ≡ record { seed = seed; count = 0 } }
    {
        SeedChoices {
            seed,
            count: 0,
            state: seed,
        }
    }
}

impl Choices for SeedChoices {
    ghost taken = { seeded_taken };

    fn pick(&mut self, k: u32) -> u32
        requires choice { 2 ≤ k }
        requires room { length (seeded_taken self.old) < 2 ^ 63 }
        ensures picks { Picks result k (seeded_taken self.old) (seeded_taken self.new) }
        ensures value { result ≡ seeded self.old.seed self.old.count % k }
        ensures same { self.new ≡ record self.old { count = self.old.count + 1 } }
    {
        self.state = self
            .state
            .wrapping_mul(Self::FACTOR)
            .wrapping_add(Self::SUMMAND);
        self.count += 1;
        ((self.state >> 33) % k as u64) as u32
    }
}
