//! Gates (own): cells that goroutines take, add to and wait for.

ghost use Rattle.std.specs.Prelude.{◌≡◌, ◌+ℤ◌, ℕ, [], ◌∷◌, List, IfOk, Some};
ghost use Rattle.gj_base.specs.declared.kind.Kind.TheVariants.{I32};
ghost use Rattle.go_type.specs.Tree.{Ty};
ghost use Rattle.go_core.specs.Arithmetic as arithmetic;
ghost use Rattle.go_core.specs.Communicate as defined;
ghost use Rattle.go_core.specs.CoreTree.{CoreProgram};
ghost use Rattle.go_core.specs.Goroutine as core;
ghost use Rattle.go_core.specs.Memory as cell;
ghost use Rattle.go_values.specs.ValuesSeen.{memory_of, scalar_of, value_of};
ghost use Rattle.go_state.specs.StateSeen.{frame_of};
ghost use Rattle.go_state.specs.FrameStepsFound.{Taken};
ghost use Rattle.go_partners.specs.Gates.{IsGate};
ghost use Rattle.go_partners.specs.Talks.{Talks};

use crate::partners::gates::{gate_number, number_in, woken};
use crate::selects::reach::{Talked, able};
use gj_base::{Kind, NoMemory};
use go_state::bindings::results::write_value;
use go_state::frame_steps::operands::{give_scalar, operand, operand_pair};
use go_state::state::frame::Frame;
use go_state::state::state::{State, Waiting};
use go_values::operators::did::{Context, Stop};
use go_values::operators::places::sum;
use go_values::values::arithmetic::wrapped;
use go_values::values::memory::Memory;
use go_values::values::scalar::Scalar;

fn set_gate<'a>(base: u64, x: Scalar<'a>, m: &mut Memory<'a>)
    ensures value { (ts : List Ty) → memory_of ts m.new ≡ cell.with_written (memory_of ts m.old) base (scalar_of ts x.entry ∷ []) }
{
    write_value(base, &[x], m);
}

fn pointed(x: Scalar) -> Result<u64, Stop>
    ensures value { (ts : List Ty) (p : CoreProgram) (g : ℕ) (free : core.Move) (f : core.Frame) → IsGate result f (λ k. defined.with_gate p g free k (scalar_of ts x.entry ∷ []) f) }
{
    match x {
        Scalar::Pointer(base) => Ok(base),
        _ => Err(Stop::NoStep),
    }
}

// The place of a gate.
fn gate_in(x: &[Scalar]) -> Result<u64, Stop>
    ensures value { (ts : List Ty) (p : CoreProgram) (g : ℕ) (free : core.Move) (f : core.Frame) → IsGate result f (λ k. defined.with_gate p g free k (value_of ts x.now) f) }
{
    match x {
        [x] => pointed(*x),
        _ => Err(Stop::NoStep),
    }
}

// The gate that is the frame's operand.
fn gate_of<'p, 'a>(f: &mut Frame<'p, 'a>) -> Result<u64, Stop>
    ensures value { (ts : List Ty) (p : CoreProgram) (g : ℕ) (free : core.Move) → Taken ts (λ n. n) result f.new (defined.on_gate p g free (frame_of ts f.old)) }
{
    let x = operand(f)?;
    gate_in(x)
}

// Whether a gate of this number is open.
fn is_open(n: i128) -> bool
    ensures value { result ≡ defined.is_zero (cell.whole n ∷ []) }
{
    n == 0
}

fn waits<'p, 'a>(waiting: Waiting<'p, 'a>) -> Talked<'p, 'a>
    ensures value { result ≡ record { waiting = waiting.entry; units = 1 } }
{
    Talked { waiting, units: 1 }
}

fn take_gate<'p, 'a>(
    state: &mut State<'p, 'a>,
    g: usize,
    base: u64,
    f: &Frame<'p, 'a>,
) -> Result<Talked<'p, 'a>, Stop>
    ensures value { (p : CoreProgram) (ts : List Ty) (free : core.Move) → Talks p ts g result f.now f.now state.old state.new (λ x below s. defined.gate_taken p g free (defined.gate_number p g free base s) base x below s) }
    ensures same { state.new.goroutines ≡ state.old.goroutines }
{
    match gate_number(base, &state.memory) {
        Some(n) => {
            if is_open(n) {
                set_gate(base, Scalar::Whole(1), &mut state.memory);
                return Ok(able(1));
            }
            Ok(waits(Waiting::AtTake(base)))
        }
        None => Err(Stop::NoStep),
    }
}

/// A take waits for 0 and sets 1.
pub fn take_gate_step<'p, 'a>(
    state: &mut State<'p, 'a>,
    g: usize,
    f: &mut Frame<'p, 'a>,
) -> Result<Talked<'p, 'a>, Stop>
    ensures value { (p : CoreProgram) (ts : List Ty) (free : core.Move) → Talks p ts g result f.old f.new state.old state.new (λ x below s. defined.take_gate_step p g free x below s) }
    ensures same { state.new.goroutines ≡ state.old.goroutines }
{
    let base = gate_of(f)?;
    take_gate(state, g, base, f)
}

fn await_gate<'p, 'a>(
    state: &State<'p, 'a>,
    g: usize,
    base: u64,
    f: &Frame<'p, 'a>,
) -> Result<Talked<'p, 'a>, Stop>
    ensures value { (p : CoreProgram) (ts : List Ty) (free : core.Move) → Talks p ts g result f.now f.now state.now state.now (λ x below s. defined.gate_awaited p g free (defined.gate_number p g free base s) base x below s) }
{
    match gate_number(base, &state.memory) {
        Some(n) => {
            if is_open(n) {
                return Ok(able(1));
            }
            Ok(waits(Waiting::AtAwait(base)))
        }
        None => Err(Stop::NoStep),
    }
}

/// An await waits for 0.
pub fn await_gate_step<'p, 'a>(
    state: &State<'p, 'a>,
    g: usize,
    f: &mut Frame<'p, 'a>,
) -> Result<Talked<'p, 'a>, Stop>
    ensures value { (p : CoreProgram) (ts : List Ty) (free : core.Move) → Talks p ts g result f.old f.new state.now state.now (λ x below s. defined.await_gate_step p g free x below s) }
{
    let base = gate_of(f)?;
    await_gate(state, g, base, f)
}

// The sum of two numbers, which wraps.
fn sum_of(n: i128, k: i128) -> Result<i128, NoMemory>
    ensures value { IfOk result (λ t. t ≡ arithmetic.wrapped I32 (n +ℤ k)) }
{
    match n.checked_add(k) {
        Some(m) => Ok(wrapped(Kind::I32, m)),
        None => Err(NoMemory),
    }
}

// An add to a gate that holds a number is always ready, and answers the new one, which wraps.
fn add_number<'p, 'a>(
    c: &Context<'a>,
    state: &mut State<'p, 'a>,
    g: usize,
    base: u64,
    n: i128,
    k: i128,
    f: &mut Frame<'p, 'a>,
) -> Result<Talked<'p, 'a>, Stop>
    ensures value { (p : CoreProgram) (ts : List Ty) (free : core.Move) → Talks p ts g result f.old f.new state.old state.new (λ x below s. defined.gate_added p g free (Some n) k base x below s) }
    ensures same { state.new.goroutines ≡ state.old.goroutines }
{
    let total = sum_of(n, k)?;
    let units = sum(1, woken(total, base, state.goroutines.as_slice()))?;
    set_gate(base, Scalar::Whole(total), &mut state.memory);
    give_scalar(c, f, Scalar::Whole(total))?;
    Ok(able(units))
}

fn add_to<'p, 'a>(
    c: &Context<'a>,
    state: &mut State<'p, 'a>,
    g: usize,
    base: u64,
    k: i128,
    f: &mut Frame<'p, 'a>,
) -> Result<Talked<'p, 'a>, Stop>
    ensures value { (p : CoreProgram) (ts : List Ty) (free : core.Move) → Talks p ts g result f.old f.new state.old state.new (λ x below s. defined.gate_added p g free (defined.gate_number p g free base s) k base x below s) }
    ensures same { state.new.goroutines ≡ state.old.goroutines }
{
    match gate_number(base, &state.memory) {
        Some(n) => add_number(c, state, g, base, n, k, f),
        None => Err(Stop::NoStep),
    }
}

/// An add of an operand to a gate.
pub fn add_gate_step<'p, 'a>(
    c: &Context<'a>,
    state: &mut State<'p, 'a>,
    g: usize,
    f: &mut Frame<'p, 'a>,
) -> Result<Talked<'p, 'a>, Stop>
    ensures value { (p : CoreProgram) (ts : List Ty) (free : core.Move) → Talks p ts g result f.old f.new state.old state.new (λ x below s. defined.add_gate_step p g free x below s) }
    ensures same { state.new.goroutines ≡ state.old.goroutines }
{
    let xs = operand_pair(f)?;
    let base = gate_in(xs.left)?;
    match number_in(xs.right) {
        Some(k) => add_to(c, state, g, base, k, f),
        None => Err(Stop::NoStep),
    }
}

/// A goroutine that waits to take a gate goes on where it is 0.
pub fn take_again<'p, 'a>(
    state: &mut State<'p, 'a>,
    g: usize,
    base: u64,
    f: &Frame<'p, 'a>,
) -> Result<Talked<'p, 'a>, Stop>
    ensures value { (p : CoreProgram) (ts : List Ty) (free : core.Move) → Talks p ts g result f.now f.now state.old state.new (λ x below s. defined.waiting_step p g free (core.at_take base) x below s) }
    ensures same { state.new.goroutines ≡ state.old.goroutines }
{
    match gate_number(base, &state.memory) {
        Some(n) => {
            if is_open(n) {
                set_gate(base, Scalar::Whole(1), &mut state.memory);
                return Ok(able(1));
            }
            Err(Stop::NoStep)
        }
        None => Err(Stop::NoStep),
    }
}

/// One that waits for a gate goes on where it is 0.
pub fn await_again<'p, 'a>(
    state: &State<'p, 'a>,
    g: usize,
    base: u64,
    f: &Frame<'p, 'a>,
) -> Result<Talked<'p, 'a>, Stop>
    ensures value { (p : CoreProgram) (ts : List Ty) (free : core.Move) → Talks p ts g result f.now f.now state.now state.now (λ x below s. defined.waiting_step p g free (core.at_await base) x below s) }
{
    match gate_number(base, &state.memory) {
        Some(n) => {
            if is_open(n) {
                return Ok(able(1));
            }
            Err(Stop::NoStep)
        }
        None => Err(Stop::NoStep),
    }
}
