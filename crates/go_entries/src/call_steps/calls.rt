//! Calls, goroutines that begin, and calls that are deferred.
//!
//! The Go Programming Language Specification (as of Go 1.17), "Calls", "Go statements", "Defer
//! statements".

ghost use Rattle.std.specs.Prelude.{◌≡◌, ℕ, [], ◌∷◌, List, Some, IfOk, OnOk, slice_get};
ghost use Rattle.go_type.specs.Tree.{Ty};
ghost use Rattle.go_type.specs.Table.{places, names};
ghost use Rattle.go_core.specs.Calls as calls;
ghost use Rattle.go_core.specs.CoreTree.{CoreProgram};
ghost use Rattle.go_core.specs.CoreView.{func_view, program_view, var_of};
ghost use Rattle.go_core.specs.Frames.{on_operands};
ghost use Rattle.go_core.specs.Memory as cell;
ghost use Rattle.go_values.specs.ValuesSeen.{scalar_of, value_of, values_of};
ghost use Rattle.go_values.specs.declared.values.memory.Memory as held;
ghost use Rattle.go_state.specs.declared.state.frame.Frame as framed;
ghost use Rattle.go_state.specs.StateSeen.{frame_of, invocation_of};
ghost use Rattle.go_state.specs.Goes.{Goes};
ghost use Rattle.go_entries.specs.EntriesSeen.{called_of, resolved_of};
ghost use Rattle.go_entries.specs.Enters.{CalleeTaken, CallEnters, Enters, Starts};

use crate::entries::enter::{Entered, enter, params_of, results_after};
use crate::entries::resolve::{Called, Ready, Resolved, resolve};
use gj_base::NoMemory;
use go_core::node::Var;
use go_core::program::{Func, Program};
use go_state::bindings::results::{weights, write_value};
use go_state::frame_steps::operands::{operand, operands};
use go_state::state::frame::{Frame, Invocation, Purpose};
use go_state::state::stack::base_of;
use go_values::operators::did::{Context, Stop};
use go_values::operators::places::{size_of, sum, weight_of};
use go_values::values::memory::{Memory, read_cells};
use go_values::values::run_panic::RunPanic;
use go_values::values::scalar::Scalar;

// What a task calls, with its operands taken from the frame.
fn take_callee<'p, 'a>(
    c: &Context<'a>,
    p: &Program,
    called: Called,
    count: usize,
    f: &mut Frame<'p, 'a>,
) -> Result<Resolved<'a>, Stop>
    requires { c.now.table.now ≡ p.now.types }
    ensures value { let ts = places p.now.types in CalleeTaken (program_view p.now) ts result f.new (called_of ts called.entry) (on_operands count (frame_of ts f.old)) }
{
    let vs = operands(f, count)?;
    let found = resolve(c, p, called, f.places.as_slice(), vs.as_slice())?;
    Ok(found)
}

// The new frame of a call, or why there is none.
fn entered<'p, 'a>(
    c: &Context<'a>,
    p: &'p Program,
    found: Resolved<'a>,
    m: &mut Memory<'a>,
) -> Result<Entered<'p, 'a>, Stop>
    requires { c.now.table.now ≡ p.now.types }
    ensures value { let ts = places p.now.types in CallEnters (program_view p.now) ts result m.old m.new (resolved_of ts found.entry) }
{
    match found {
        Resolved::Ready(ready) => enter(c, p, ready, Purpose::Called, m),
        Resolved::NilFunction => Err(Stop::Panics {
            panic: RunPanic::NilUsed,
            units: 0,
        }),
        Resolved::NilInterface => Err(Stop::Panics {
            panic: RunPanic::NilUsed,
            units: 0,
        }),
        Resolved::Unresolved => Err(Stop::NoStep),
    }
}

/// A call: a nil function, and a method of a nil interface value, panic.
pub fn call_step<'p, 'a>(
    c: &Context<'a>,
    p: &'p Program,
    called: Called,
    count: usize,
    f: &mut Frame<'p, 'a>,
    m: &mut Memory<'a>,
) -> Result<Entered<'p, 'a>, Stop>
    requires { c.now.table.now ≡ p.now.types }
    ensures value { let ts = places p.now.types in Enters (program_view p.now) ts result f.old f.new m.old m.new (λ g. calls.call_step (program_view p.now) g (called_of ts called.entry) count) }
{
    let found = take_callee(c, p, called, count, f)?;
    entered(c, p, found, m)
}

/// A goroutine begins, whose first frame is the answer's.
pub fn go_step<'p, 'a>(
    c: &Context<'a>,
    p: &'p Program,
    called: Called,
    count: usize,
    f: &mut Frame<'p, 'a>,
    m: &mut Memory<'a>,
) -> Result<Entered<'p, 'a>, Stop>
    requires { c.now.table.now ≡ p.now.types }
    ensures value { let ts = places p.now.types in Starts (program_view p.now) ts result f.old f.new m.old m.new (λ g. calls.go_step (program_view p.now) g (called_of ts called.entry) count) }
{
    let found = take_callee(c, p, called, count, f)?;
    entered(c, p, found, m)
}

// The size of what a function takes and gives.
fn weights_of(c: &Context, func: &Func, count: usize) -> Result<u64, NoMemory>
    ensures value { let ts = places c.now.table.now in IfOk result (λ n. (p : CoreProgram) (g : ℕ) → p.names ≡ names c.now.table.now → n ≡ calls.frame_weights p g (Some (func_view ts func.now)) count) }
{
    let taken = weights(c, params_of(func, count))?;
    let given = weights(c, results_after(func, count))?;
    sum(taken, given)
}

// The same by the function's number.
fn frame_weights(c: &Context, p: &Program, func: u64, count: usize) -> Result<u64, NoMemory>
    requires { c.now.table.now ≡ p.now.types }
    ensures value { IfOk result (λ n. (g : ℕ) → n ≡ calls.frame_weights (program_view p.now) g (slice_get (program_view p.now).funcs func) count) }
{
    match p.funcs.items.as_slice().get(func as usize) {
        Some(f) => weights_of(c, f, count),
        None => Ok(0),
    }
}

// A call comes before those that were deferred.
fn defer<'p, 'a>(f: &mut Frame<'p, 'a>, call: Invocation<'a>) -> Result<(), NoMemory>
    ensures value { OnOk result ((ts : List Ty) → let x = frame_of ts f.old in frame_of ts f.new ≡ record x { deferred_calls = invocation_of ts call.entry ∷ x.deferred_calls }) }
{
    f.deferred.push(call)?;
    Ok(())
}

// A call is deferred; the last one that is comes first.
fn defer_ready<'p, 'a>(
    c: &Context<'a>,
    p: &Program,
    ready: Ready<'a>,
    f: &mut Frame<'p, 'a>,
) -> Result<u64, Stop>
    requires { c.now.table.now ≡ p.now.types }
    ensures value { (m : held.Memory) → let ts = places p.now.types in Goes (program_view p.now) ts result f.old f.new m m (λ g. calls.defer_resolved (program_view p.now) g (let r = ready.entry in calls.ready r.func r.bases.now r.row (values_of ts r.operands.now))) }
{
    let units = frame_weights(c, p, ready.func, ready.operands.len())?;
    let call = Invocation::Invoke {
        func: ready.func,
        bases: ready.bases,
        row: ready.row,
        operands: ready.operands,
    };
    defer(f, call)?;
    Ok(units)
}

/// A call is deferred. A nil function panics only when its turn comes.
pub fn defer_step<'p, 'a>(
    c: &Context<'a>,
    p: &Program,
    called: Called,
    count: usize,
    f: &mut Frame<'p, 'a>,
) -> Result<u64, Stop>
    requires { c.now.table.now ≡ p.now.types }
    ensures value { (m : held.Memory) → let ts = places p.now.types in Goes (program_view p.now) ts result f.old f.new m m (λ g. calls.defer_step (program_view p.now) g (called_of ts called.entry) count) }
{
    let found = take_callee(c, p, called, count, f)?;
    match found {
        Resolved::Ready(ready) => defer_ready(c, p, ready, f),
        Resolved::NilFunction => {
            defer(f, Invocation::Nothing)?;
            Ok(0)
        }
        Resolved::NilInterface => Err(Stop::Panics {
            panic: RunPanic::NilUsed,
            units: 0,
        }),
        Resolved::Unresolved => Err(Stop::NoStep),
    }
}

// What lies at a base is copied to another one.
fn read_into<'a>(
    c: &Context<'a>,
    p: &Program,
    var: Var,
    own_base: u64,
    base: u64,
    m: &mut Memory<'a>,
) -> Result<u64, Stop>
    requires { c.now.table.now ≡ p.now.types }
    ensures value { (f : framed.Frame) → let ts = places p.now.types in Goes (program_view p.now) ts result f f m.old m.new (λ g x below s. calls.receiver_read (program_view p.now) g (var_of ts var) base (Some own_base) x below s) }
{
    let size = size_of(c, var.ty)?;
    let units = weight_of(c, var.ty)?;
    let there = read_cells(base, size, m.cells.as_slice());
    let copy: &'a [Scalar<'a>] = c.arena.try_alloc_slice_copy(there)?;
    write_value(own_base, copy, m);
    Ok(units)
}

// The variable takes what lies at a base.
fn read_receiver<'p, 'a>(
    c: &Context<'a>,
    p: &Program,
    var: Var,
    base: u64,
    f: &Frame<'p, 'a>,
    m: &mut Memory<'a>,
) -> Result<u64, Stop>
    requires { c.now.table.now ≡ p.now.types }
    ensures value { let ts = places p.now.types in Goes (program_view p.now) ts result f.now f.now m.old m.new (λ g x below s. calls.read_through (program_view p.now) g (var_of ts var) below s (cell.pointer base ∷ []) x) }
{
    match base_of(f.places.as_slice(), var.id) {
        Some(own_base) => read_into(c, p, var, own_base, base, m),
        None => Err(Stop::NoStep),
    }
}

// The same, with the pointer.
fn read_in<'p, 'a>(
    c: &Context<'a>,
    p: &Program,
    var: Var,
    x: Scalar<'a>,
    f: &Frame<'p, 'a>,
    m: &mut Memory<'a>,
) -> Result<u64, Stop>
    requires { c.now.table.now ≡ p.now.types }
    ensures value { let ts = places p.now.types in Goes (program_view p.now) ts result f.now f.now m.old m.new (λ g y below s. calls.read_through (program_view p.now) g (var_of ts var) below s (scalar_of ts x.entry ∷ []) y) }
{
    match x {
        Scalar::Pointer(base) => read_receiver(c, p, var, base, f, m),
        Scalar::Nil => Err(Stop::Panics {
            panic: RunPanic::NilUsed,
            units: 0,
        }),
        _ => Err(Stop::NoStep),
    }
}

// The same, with the operand.
fn read_by<'p, 'a>(
    c: &Context<'a>,
    p: &Program,
    var: Var,
    cells: &[Scalar<'a>],
    f: &Frame<'p, 'a>,
    m: &mut Memory<'a>,
) -> Result<u64, Stop>
    requires { c.now.table.now ≡ p.now.types }
    ensures value { let ts = places p.now.types in Goes (program_view p.now) ts result f.now f.now m.old m.new (λ g y below s. calls.read_through (program_view p.now) g (var_of ts var) below s (value_of ts cells.now) y) }
{
    match cells {
        [x] => read_in(c, p, var, *x, f, m),
        _ => Err(Stop::NoStep),
    }
}

/// The receiver is read through the pointer; through nil it panics.
pub fn receive_through_step<'p, 'a>(
    c: &Context<'a>,
    p: &Program,
    var: Var,
    f: &mut Frame<'p, 'a>,
    m: &mut Memory<'a>,
) -> Result<u64, Stop>
    requires { c.now.table.now ≡ p.now.types }
    ensures value { let ts = places p.now.types in Goes (program_view p.now) ts result f.old f.new m.old m.new (λ g. calls.receive_through_step (program_view p.now) g (var_of ts var)) }
{
    let x = operand(f)?;
    read_by(c, p, var, x, f, m)
}
