//! Gates (own): cells that goroutines take, add to and wait for.

ghost use Rattle.std.specs.Prelude.{◌≡◌, ◌≤◌, ℕ, [], ◌∷◌, List, length, map};
ghost use Rattle.go_type.specs.Tree.{Ty};
ghost use Rattle.go_core.specs.Communicate as defined;
ghost use Rattle.go_core.specs.CoreTree.{CoreProgram};
ghost use Rattle.go_core.specs.Goroutine as core;
ghost use Rattle.go_core.specs.Memory as cell;
ghost use Rattle.go_values.specs.ValuesSeen.{memory_of, scalar_of, value_of};
ghost use Rattle.go_state.specs.StateSeen.{goroutine_of, waiting_of};

use go_state::state::state::{Goroutine, Waiting};
use go_values::values::memory::{Memory, read_cells};
use go_values::values::scalar::Scalar;

fn whole_in(x: Scalar) -> Option<i128>
    ensures value { (ts : List Ty) (p : CoreProgram) (g : ℕ) (free : core.Move) → result ≡ defined.number_in p g free (scalar_of ts x.entry ∷ []) }
{
    match x {
        Scalar::Whole(n) => Some(n),
        _ => None,
    }
}

/// An integer.
pub fn number_in(x: &[Scalar]) -> Option<i128>
    ensures value { (ts : List Ty) (p : CoreProgram) (g : ℕ) (free : core.Move) → result ≡ defined.number_in p g free (value_of ts x.now) }
{
    match x {
        [x] => whole_in(*x),
        _ => None,
    }
}

/// What a gate's cell holds.
pub fn gate_number(base: u64, m: &Memory) -> Option<i128>
    ensures value { (ts : List Ty) (p : CoreProgram) (g : ℕ) (free : core.Move) → result ≡ defined.number_in p g free (cell.read_cells base 1 (memory_of ts m.now).cells) }
{
    number_in(read_cells(base, 1, m.cells.as_slice()))
}

fn is_at_gate(base: u64, waiting: &Waiting) -> bool
    ensures value { (ts : List Ty) (p : CoreProgram) (g : ℕ) (free : core.Move) → result ≡ defined.is_at_gate p g free base (waiting_of ts waiting.now) }
{
    match waiting {
        Waiting::AtTake(own) => *own == base,
        Waiting::AtAwait(own) => *own == base,
        Waiting::Able => false,
        Waiting::AtChannels(_) => false,
    }
}

/// How many goroutines wait for the gate.
pub fn waiting_at_gate(base: u64, goroutines: &[Goroutine]) -> u64
    ensures value { (ts : List Ty) (p : CoreProgram) (g : ℕ) (free : core.Move) → result ≡ defined.waiting_at_gate p g free base (map (goroutine_of ts) goroutines.now) }
    ensures within { result ≤ length goroutines.now }
{
    let mut count = 0;
    'goroutines: for i in 0..goroutines.len() {
        if is_at_gate(base, &goroutines[i].waiting) {
            count += 1;
        }
    }
    count
}

/// How many are woken by a gate's new number: all that wait for it by 0, and none by another one.
pub fn woken(n: i128, base: u64, goroutines: &[Goroutine]) -> u64
    ensures value { (ts : List Ty) (p : CoreProgram) (g : ℕ) (free : core.Move) (s : core.State) → s.goroutines ≡ map (goroutine_of ts) goroutines.now → result ≡ defined.woken p g free n base s }
    ensures within { result ≤ length goroutines.now }
{
    if n == 0 {
        waiting_at_gate(base, goroutines)
    } else {
        0
    }
}
