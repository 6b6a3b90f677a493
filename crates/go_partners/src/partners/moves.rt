//! Who can move.
//!
//! The Go Programming Language Specification (as of Go 1.17), "Program execution".

ghost use Rattle.std.specs.Prelude.{◌≡◌, ◌<◌, ℕ, [], ◌∷◌, List, Some, map, slice_get, vec_len};
ghost use Rattle.go_type.specs.Tree.{Ty};
ghost use Rattle.go_core.specs.Communicate as defined;
ghost use Rattle.go_core.specs.Goroutine as core;
ghost use Rattle.go_core.specs.Memory.{read_cells};
ghost use Rattle.go_values.specs.ValuesSeen.{memory_of, scalar_of, value_of};
ghost use Rattle.go_state.specs.StateSeen.{goroutine_of, state_of, waiting_of};

use crate::partners::ready::any_ready;
use go_state::state::state::{Goroutine, State, Waiting};
use go_values::values::memory::{Memory, read_cells};
use go_values::values::scalar::Scalar;

fn zero_in(x: Scalar) -> bool
    ensures value { (ts : List Ty) → result ≡ defined.is_zero (scalar_of ts x.entry ∷ []) }
{
    match x {
        Scalar::Whole(n) => n == 0,
        _ => false,
    }
}

fn is_zero(x: &[Scalar]) -> bool
    ensures value { (ts : List Ty) → result ≡ defined.is_zero (value_of ts x.now) }
{
    match x {
        [x] => zero_in(*x),
        _ => false,
    }
}

fn is_open_gate(base: u64, m: &Memory) -> bool
    ensures value { (ts : List Ty) → result ≡ defined.is_zero (read_cells base 1 (memory_of ts m.now).cells) }
{
    is_zero(read_cells(base, 1, m.cells.as_slice()))
}

fn waiting_ready(state: &State, g: usize, waiting: &Waiting) -> bool
    ensures value { (ts : List Ty) → result ≡ defined.waiting_ready g (state_of ts state.now) (waiting_of ts waiting.now) }
{
    match waiting {
        Waiting::Able => true,
        Waiting::AtChannels(offers) => any_ready(state, g, offers.as_slice()),
        Waiting::AtTake(base) => is_open_gate(*base, &state.memory),
        Waiting::AtAwait(base) => is_open_gate(*base, &state.memory),
    }
}

fn able(state: &State, g: usize, goroutine: &Goroutine) -> bool
    ensures value { (ts : List Ty) → result ≡ defined.can_move g (state_of ts state.now) (goroutine_of ts goroutine.now) }
{
    if goroutine.frames.is_empty() {
        return false;
    }
    waiting_ready(state, g, &goroutine.waiting)
}

/// Whether a goroutine can move.
pub fn can_move(state: &State, g: usize) -> bool
    requires goroutine { g < vec_len state.now.goroutines }
    ensures value { (ts : List Ty) (x : core.Goroutine) → let s = state_of ts state.now in slice_get s.goroutines g ≡ Some x → result ≡ defined.can_move g s x }
{
    able(state, g, &state.goroutines[g])
}

/// Whether some goroutine can move.
pub fn any_moves(state: &State) -> bool
    ensures value { (ts : List Ty) → let s = state_of ts state.now in result ≡ defined.any_moves 0 s.goroutines s }
{
    'goroutines: for g in 0..state.goroutines.len() {
        if able(state, g, &state.goroutines[g]) {
            return true;
        }
    }
    false
}
