//! Panics that are raised, and `recover`.
//!
//! The Go Programming Language Specification (as of Go 1.17), "Handling panics".

ghost use Rattle.std.specs.Prelude.{◌≡◌, ℕ, [], ◌∷◌, List, Some, IfOk};
ghost use Rattle.go_type.specs.Tree.{Ty};
ghost use Rattle.go_core.specs.CoreTree.{CoreProgram};
ghost use Rattle.go_core.specs.Frames.{with_more};
ghost use Rattle.go_core.specs.Goroutine as defined;
ghost use Rattle.go_core.specs.Goroutine.{deferred, moved};
ghost use Rattle.go_core.specs.Panics as defining;
ghost use Rattle.go_values.specs.ValuesSeen.{scalar_of, value_of};
ghost use Rattle.go_values.specs.declared.values.memory.Memory as held;
ghost use Rattle.go_state.specs.StateSeen.{frame_of, mode_of, purpose_of, stacked};
ghost use Rattle.go_state.specs.Goes.{Goes};
ghost use Rattle.go_entries.specs.Enters.{StaysAbove};

use crate::end_steps::frames::{put, to_panicking};
use gj_base::NoMemory;
use go_state::frame_steps::operands::{give_scalar, operand};
use go_state::state::frame::{Frame, Mode, Purpose};
use go_values::operators::did::{Context, Stop};
use go_values::values::scalar::Scalar;

// The frame panics with a value of one scalar.
fn raised<'p, 'a>(cells: &[Scalar<'a>], f: &mut Frame<'p, 'a>) -> Result<u64, Stop>
    ensures value { (p : CoreProgram) (ts : List Ty) (m : held.Memory) → Goes p ts result f.old f.new m m (λ g y below s. defining.raised p g below s (value_of ts cells.now) y) }
{
    match cells {
        [x] => {
            to_panicking(f, *x);
            Ok(1)
        }
        _ => Err(Stop::NoStep),
    }
}

/// `panic` with an interface value.
pub fn panic_step<'p, 'a>(f: &mut Frame<'p, 'a>) -> Result<u64, Stop>
    ensures value { (p : CoreProgram) (ts : List Ty) (m : held.Memory) → Goes p ts result f.old f.new m m (λ g. defining.panic_with_step p g) }
{
    let x = operand(f)?;
    raised(x, f)
}

// The value that a frame panics with, which returns then; nil where it doesn't panic.
fn stop_panic<'p, 'a>(f: &mut Frame<'p, 'a>) -> Scalar<'a>
    ensures value { (ts : List Ty) (p : CoreProgram) (g : ℕ) (x : defined.Frame) (below : List defined.Frame) (s : defined.State) → defining.recovered_from p g (mode_of ts f.old.mode) x (frame_of ts f.old) below s ≡ Some (moved g (with_more ((scalar_of ts result ∷ []) ∷ []) x ∷ frame_of ts f.new ∷ below) 1 s) }
{
    match f.mode {
        Mode::Panicking(x) => {
            f.mode = Mode::Returning;
            x
        }
        Mode::Normal => Scalar::Nil,
        Mode::Returning => Scalar::Nil,
    }
}

// The same of the frame on top, if any.
fn stop_panic_below<'p, 'a>(below: &mut Vec<Frame<'p, 'a>>) -> Result<Scalar<'a>, NoMemory>
    ensures value { IfOk result (λ v. (ts : List Ty) (p : CoreProgram) (g : ℕ) (x : defined.Frame) (s : defined.State) → defining.recovered p g deferred x (stacked (frame_of ts) below.old.items) s ≡ Some (moved g (with_more ((scalar_of ts v ∷ []) ∷ []) x ∷ stacked (frame_of ts) below.new.items) 1 s)) }
{
    match below.pop() {
        Some(under) => {
            let mut f = under;
            let x = stop_panic(&mut f);
            put(below, f)?;
            Ok(x)
        }
        None => Ok(Scalar::Nil),
    }
}

// The value of `recover` in a frame of this purpose above others.
fn recovered<'p, 'a>(
    purpose: Purpose,
    below: &mut Vec<Frame<'p, 'a>>,
) -> Result<Scalar<'a>, NoMemory>
    ensures value { IfOk result (λ v. (ts : List Ty) (p : CoreProgram) (g : ℕ) (x : defined.Frame) (s : defined.State) → defining.recovered p g (purpose_of purpose) x (stacked (frame_of ts) below.old.items) s ≡ Some (moved g (with_more ((scalar_of ts v ∷ []) ∷ []) x ∷ stacked (frame_of ts) below.new.items) 1 s)) }
{
    match purpose {
        Purpose::Deferred => stop_panic_below(below),
        Purpose::Called => Ok(Scalar::Nil),
        Purpose::Reporting => Ok(Scalar::Nil),
    }
}

/// `recover`: the value, in a deferred call of a frame right below that panics; else nil.
pub fn recover_step<'p, 'a>(
    c: &Context<'a>,
    f: &mut Frame<'p, 'a>,
    below: &mut Vec<Frame<'p, 'a>>,
) -> Result<u64, Stop>
    ensures value { (p : CoreProgram) (ts : List Ty) → StaysAbove p ts result f.new below.new.items (λ g s. defining.recover_step p g (frame_of ts f.old) (stacked (frame_of ts) below.old.items) s) }
{
    let x = recovered(f.purpose, below)?;
    give_scalar(c, f, x)?;
    Ok(0)
}
