//! Operands of a frame's step, and values that it gives.
//!
//! The Go Programming Language Specification (as of Go 1.17), "Order of evaluation".

ghost use Rattle.std.specs.Prelude.{◌≡◌, [], ◌∷◌, List, OnOk};
ghost use Rattle.go_type.specs.Tree.{Ty};
ghost use Rattle.go_core.specs.Control.{on_choice, with_first};
ghost use Rattle.go_core.specs.Frames.{on_operand, on_operands, on_pair, with_more};
ghost use Rattle.go_values.specs.ValuesSeen.{scalar_of, value_of, values_of};
ghost use Rattle.go_values.specs.OperatorsSeen as seen;
ghost use Rattle.go_state.specs.StateSeen.{frame_of, todo_first};
ghost use Rattle.go_state.specs.FrameStepsFound.{Taken, PairTaken, Chooses};

use crate::state::frame::{Frame, Todo};
use crate::state::stack::pop_values;
use gj_base::NoMemory;
use go_values::operators::did::{Context, Stop, Values, alone};
use go_values::values::scalar::Scalar;

/// So many operands, from the left.
pub fn operands<'p, 'a>(f: &mut Frame<'p, 'a>, count: usize) -> Result<Vec<&'a [Scalar<'a>]>, Stop>
    ensures value { (ts : List Ty) → Taken ts (λ xs. values_of ts xs.items) result f.new (on_operands count (frame_of ts f.old)) }
{
    let found = pop_values(&mut f.values, count)?;
    match found {
        Some(xs) => Ok(xs),
        None => Err(Stop::NoStep),
    }
}

/// One operand.
pub fn operand<'p, 'a>(f: &mut Frame<'p, 'a>) -> Result<&'a [Scalar<'a>], Stop>
    ensures value { (ts : List Ty) → Taken ts (λ x. value_of ts x.now) result f.new (on_operand (frame_of ts f.old)) }
{
    match f.values.pop() {
        Some(x) => Ok(x),
        None => Err(Stop::NoStep),
    }
}

/// Two operands, from the left.
#[derive(Clone, Copy)]
pub struct Pair<'a> {
    pub left: &'a [Scalar<'a>],
    pub right: &'a [Scalar<'a>],
}

/// Two operands.
pub fn operand_pair<'p, 'a>(f: &mut Frame<'p, 'a>) -> Result<Pair<'a>, Stop>
    ensures value { (ts : List Ty) → PairTaken ts result f.new (on_pair (frame_of ts f.old)) }
{
    let right = operand(f)?;
    let left = operand(f)?;
    Ok(Pair { left, right })
}

fn truth_in(x: Scalar) -> Result<bool, Stop>
    ensures value { (ts : List Ty) → Chooses result (scalar_of ts x.entry ∷ []) }
{
    match x {
        Scalar::Truth(b) => Ok(b),
        _ => Err(Stop::NoStep),
    }
}

fn truth_of(x: &[Scalar]) -> Result<bool, Stop>
    ensures value { (ts : List Ty) → Chooses result (value_of ts x.now) }
{
    match x {
        [x] => truth_in(*x),
        _ => Err(Stop::NoStep),
    }
}

/// A truth value that chooses.
pub fn choice<'p, 'a>(f: &mut Frame<'p, 'a>) -> Result<bool, Stop>
    ensures value { (ts : List Ty) → Taken ts (λ b. b) result f.new (on_choice (frame_of ts f.old)) }
{
    let x = operand(f)?;
    truth_of(x)
}

/// A value goes onto the frame's stack.
pub fn give<'p, 'a>(f: &mut Frame<'p, 'a>, x: &'a [Scalar<'a>]) -> Result<(), NoMemory>
    ensures value { OnOk result ((ts : List Ty) → frame_of ts f.new ≡ with_more (value_of ts x.now ∷ []) (frame_of ts f.old)) }
{
    f.values.push(x)?;
    Ok(())
}

/// A value of one scalar goes onto the frame's stack.
pub fn give_scalar<'p, 'a>(
    c: &Context<'a>,
    f: &mut Frame<'p, 'a>,
    x: Scalar<'a>,
) -> Result<(), NoMemory>
    ensures value { OnOk result ((ts : List Ty) → frame_of ts f.new ≡ with_more ((scalar_of ts x.entry ∷ []) ∷ []) (frame_of ts f.old)) }
{
    let v = alone(c, x)?;
    give(f, v)
}

/// The values of a step, the last one on top.
pub fn give_values<'p, 'a>(f: &mut Frame<'p, 'a>, given: Values<'a>) -> Result<(), NoMemory>
    ensures value { OnOk result ((ts : List Ty) → frame_of ts f.new ≡ with_more (seen.values_of ts given.entry) (frame_of ts f.old)) }
{
    match given {
        Values::Nothing => Ok(()),
        Values::One(x) => give(f, x),
        Values::Two(x, y) => {
            give(f, x)?;
            give(f, y)
        }
    }
}

/// A task comes before those that remain.
pub fn before<'p, 'a>(f: &mut Frame<'p, 'a>, todo: Todo<'p, 'a>) -> Result<(), NoMemory>
    ensures value { OnOk result ((ts : List Ty) → frame_of ts f.new ≡ with_first (todo_first ts todo.entry) (frame_of ts f.old)) }
{
    f.tasks.push(todo)?;
    Ok(())
}
