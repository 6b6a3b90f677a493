//! How frames end.
//!
//! The Go Programming Language Specification (as of Go 1.17), "Defer statements", "Return
//! statements", "Handling panics".

ghost use Rattle.std.specs.Prelude.{◌≡◌, ℕ, [], List, Some};
ghost use Rattle.go_type.specs.Tree.{Ty};
ghost use Rattle.go_type.specs.Table.{places, names};
ghost use Rattle.go_core.specs.Calls as calls;
ghost use Rattle.go_core.specs.CoreTree.{CoreProgram};
ghost use Rattle.go_core.specs.CoreView.{program_view};
ghost use Rattle.go_core.specs.Goroutine.{called, deferred, nothing_to_invoke, reporting, with_memory};
ghost use Rattle.go_core.specs.Panics as defining;
ghost use Rattle.go_core.specs.StepInterfaces as defined;
ghost use Rattle.go_values.specs.ValuesSeen.{scalar_of, values_of, memory_of};
ghost use Rattle.go_values.specs.declared.values.memory.Memory as held;
ghost use Rattle.go_state.specs.StateSeen.{frame_of, invocation_of, mode_of, places_of, purpose_of, stacked, vars_of};
ghost use Rattle.go_entries.specs.Leaves.{Leaves};

use crate::end_steps::frames::{
    emptied, is_returning, put, to_nil_used, to_panicking, with_results,
};
use crate::end_steps::report::{failed_text, plain_text};
use crate::end_steps::told::{content_of, error_row, told};
use crate::entries::enter::enter;
use crate::entries::resolve::Ready;
use go_core::program::Program;
use go_state::bindings::results::results_of;
use go_state::state::frame::{Frame, Invocation, Mode, Purpose};
use go_state::state::state::End;
use go_values::operators::did::{Context, Stop};
use go_values::values::memory::Memory;
use go_values::values::scalar::Scalar;

// ---- deferred calls, the last one that was deferred first

// The frame comes first, and above it that of the call.
fn invoked<'p, 'a>(
    c: &Context<'a>,
    p: &'p Program,
    ready: Ready<'a>,
    frame: Frame<'p, 'a>,
    below: &mut Vec<Frame<'p, 'a>>,
    m: &mut Memory<'a>,
) -> Result<Option<End<'a>>, Stop>
    requires { c.now.table.now ≡ p.now.types }
    ensures value { let ts = places p.now.types in let r = ready.entry in Leaves ts result below.new.items m.new (λ g s. defining.deferred_above (program_view p.now) g (calls.entered (program_view p.now) r.func r.bases.now r.row (values_of ts r.operands.now) deferred (memory_of ts m.old)) (frame_of ts frame.entry) (stacked (frame_of ts) below.old.items) (with_memory (memory_of ts m.old) s)) }
{
    let entered = enter(c, p, ready, Purpose::Deferred, m)?;
    put(below, frame)?;
    put(below, entered.frame)?;
    Ok(None)
}

// A nil function panics when its turn comes.
fn nothing_invoked<'p, 'a>(
    c: &Context<'a>,
    p: &Program,
    frame: Frame<'p, 'a>,
    below: &mut Vec<Frame<'p, 'a>>,
) -> Result<Option<End<'a>>, Stop>
    ensures value { (m : held.Memory) → let ts = places p.now.types in Leaves ts result below.new.items m (λ g s. defining.deferred_step (program_view p.now) g nothing_to_invoke (frame_of ts frame.entry) (stacked (frame_of ts) below.old.items) (with_memory (memory_of ts m) s)) }
{
    let mut f = frame;
    to_nil_used(c, p, &mut f)?;
    put(below, f)?;
    Ok(None)
}

fn deferred_step<'p, 'a>(
    c: &Context<'a>,
    p: &'p Program,
    call: Invocation<'a>,
    frame: Frame<'p, 'a>,
    below: &mut Vec<Frame<'p, 'a>>,
    m: &mut Memory<'a>,
) -> Result<Option<End<'a>>, Stop>
    requires { c.now.table.now ≡ p.now.types }
    ensures value { let ts = places p.now.types in Leaves ts result below.new.items m.new (λ g s. defining.deferred_step (program_view p.now) g (invocation_of ts call.entry) (frame_of ts frame.entry) (stacked (frame_of ts) below.old.items) (with_memory (memory_of ts m.old) s)) }
{
    match call {
        Invocation::Invoke {
            func,
            bases,
            row,
            operands,
        } => {
            let ready = Ready {
                func,
                bases,
                row,
                operands,
            };
            invoked(c, p, ready, frame, below, m)
        }
        Invocation::Nothing => nothing_invoked(c, p, frame, below),
    }
}

// ---- the end of a frame that doesn't panic

// Results go to the frame below.
fn given_below<'p, 'a>(
    xs: &[&'a [Scalar<'a>]],
    below: &mut Vec<Frame<'p, 'a>>,
) -> Result<Option<End<'a>>, Stop>
    ensures value { (p : CoreProgram) (ts : List Ty) (m : held.Memory) → Leaves ts result below.new.items m (λ g s. defining.given_below p g (values_of ts xs.now) (stacked (frame_of ts) below.old.items) (with_memory (memory_of ts m) s)) }
{
    match below.pop() {
        Some(under) => {
            let f = with_results(under, xs)?;
            put(below, f)?;
            Ok(None)
        }
        None => Ok(None),
    }
}

// The answer of `Error` is told.
fn reported<'p, 'a>(
    xs: &[&'a [Scalar<'a>]],
    below: &mut Vec<Frame<'p, 'a>>,
) -> Result<Option<End<'a>>, Stop>
    ensures value { (p : CoreProgram) (ts : List Ty) (m : held.Memory) → Leaves ts result below.new.items m (λ g s. defining.reported p g (values_of ts xs.now) (with_memory (memory_of ts m) s)) }
{
    match told(xs) {
        Some(bytes) => {
            below.clear();
            Ok(Some(End::Panicked(bytes)))
        }
        None => Err(Stop::NoStep),
    }
}

// What comes of a frame's results.
fn ended_with<'p, 'a>(
    purpose: Purpose,
    xs: &[&'a [Scalar<'a>]],
    below: &mut Vec<Frame<'p, 'a>>,
) -> Result<Option<End<'a>>, Stop>
    ensures value { (p : CoreProgram) (ts : List Ty) (m : held.Memory) → Leaves ts result below.new.items m (λ g s. defining.ended_with p g (purpose_of purpose) (Some (values_of ts xs.now)) (stacked (frame_of ts) below.old.items) (with_memory (memory_of ts m) s)) }
{
    match purpose {
        Purpose::Called => given_below(xs, below),
        Purpose::Deferred => Ok(None),
        Purpose::Reporting => reported(xs, below),
    }
}

fn returned<'p, 'a>(
    c: &Context<'a>,
    f: &Frame<'p, 'a>,
    below: &mut Vec<Frame<'p, 'a>>,
    m: &Memory<'a>,
) -> Result<Option<End<'a>>, Stop>
    ensures value { (p : CoreProgram) → p.names ≡ names c.now.table.now → let ts = places c.now.table.now in Leaves ts result below.new.items m.now (λ g s. defining.ended_with p g (purpose_of f.now.purpose) (calls.results_of p g (vars_of ts f.now.results.now) (places_of f.now.places.items) (memory_of ts m.now)) (stacked (frame_of ts) below.old.items) (with_memory (memory_of ts m.now) s)) }
{
    let xs = results_of(c, f.results, f.places.as_slice(), m)?;
    ended_with(f.purpose, xs.as_slice(), below)
}

// ---- a panic that nobody recovers from

// The method `Error` of the value is asked.
fn asked<'p, 'a>(
    c: &Context<'a>,
    p: &'p Program,
    ready: Ready<'a>,
    x: Scalar<'a>,
    below: &mut Vec<Frame<'p, 'a>>,
    m: &mut Memory<'a>,
) -> Result<Option<End<'a>>, Stop>
    requires { c.now.table.now ≡ p.now.types }
    ensures value { let ts = places p.now.types in let r = ready.entry in Leaves ts result below.new.items m.new (λ g s. defining.report_with (program_view p.now) g (scalar_of ts x.entry) (calls.entered (program_view p.now) r.func r.bases.now r.row (values_of ts r.operands.now) reporting (memory_of ts m.old)) (with_memory (memory_of ts m.old) s)) }
{
    let entered = enter(c, p, ready, Purpose::Reporting, m)?;
    below.clear();
    put(below, entered.frame)?;
    Ok(None)
}

fn report_by<'p, 'a>(
    c: &Context<'a>,
    p: &'p Program,
    row: u64,
    x: Scalar<'a>,
    below: &mut Vec<Frame<'p, 'a>>,
    m: &mut Memory<'a>,
) -> Result<Option<End<'a>>, Stop>
    requires { c.now.table.now ≡ p.now.types }
    ensures value { let ts = places p.now.types in Leaves ts result below.new.items m.new (λ g s. defining.report_begun (program_view p.now) g (scalar_of ts x.entry) (Some row) (with_memory (memory_of ts m.old) s)) }
{
    match p.methods.items.as_slice().get(row as usize) {
        Some(found) => {
            let operands = content_of(c, x)?;
            let ready = Ready {
                func: found.func.0 as u64,
                bases: &[],
                row: Some(row),
                operands,
            };
            asked(c, p, ready, x, below, m)
        }
        None => Err(Stop::NoStep),
    }
}

// No frame is left: the value is told, or asked for its text.
fn report_begun<'p, 'a>(
    c: &Context<'a>,
    p: &'p Program,
    x: Scalar<'a>,
    below: &mut Vec<Frame<'p, 'a>>,
    m: &mut Memory<'a>,
) -> Result<Option<End<'a>>, Stop>
    requires { c.now.table.now ≡ p.now.types }
    ensures value { let ts = places p.now.types in Leaves ts result below.new.items m.new (λ g s. defining.report_begun (program_view p.now) g (scalar_of ts x.entry) (defined.error_row (program_view p.now) (scalar_of ts x.entry)) (with_memory (memory_of ts m.old) s)) }
{
    match error_row(p, x) {
        Some(row) => report_by(c, p, row, x, below, m),
        None => {
            let text = plain_text(c, x)?;
            below.clear();
            Ok(Some(End::Panicked(text)))
        }
    }
}

// ---- the end of a frame that panics

// The frame below panics with the same value, whatever it did.
fn panicking_below<'p, 'a>(
    c: &Context<'a>,
    p: &'p Program,
    x: Scalar<'a>,
    below: &mut Vec<Frame<'p, 'a>>,
    m: &mut Memory<'a>,
) -> Result<Option<End<'a>>, Stop>
    requires { c.now.table.now ≡ p.now.types }
    ensures value { let ts = places p.now.types in Leaves ts result below.new.items m.new (λ g s. defining.removed_panicking (program_view p.now) g called (scalar_of ts x.entry) (stacked (frame_of ts) below.old.items) (with_memory (memory_of ts m.old) s)) }
{
    match below.pop() {
        Some(under) => {
            let mut f = under;
            to_panicking(&mut f, x);
            put(below, f)?;
            Ok(None)
        }
        None => report_begun(c, p, x, below, m),
    }
}

fn removed_panicking<'p, 'a>(
    c: &Context<'a>,
    p: &'p Program,
    purpose: Purpose,
    x: Scalar<'a>,
    below: &mut Vec<Frame<'p, 'a>>,
    m: &mut Memory<'a>,
) -> Result<Option<End<'a>>, Stop>
    requires { c.now.table.now ≡ p.now.types }
    ensures value { let ts = places p.now.types in Leaves ts result below.new.items m.new (λ g s. defining.removed_panicking (program_view p.now) g (purpose_of purpose) (scalar_of ts x.entry) (stacked (frame_of ts) below.old.items) (with_memory (memory_of ts m.old) s)) }
{
    match purpose {
        Purpose::Called => panicking_below(c, p, x, below, m),
        Purpose::Deferred => panicking_below(c, p, x, below, m),
        Purpose::Reporting => {
            let text = failed_text(c)?;
            below.clear();
            Ok(Some(End::Panicked(text)))
        }
    }
}

// ---- the end of a frame

// No call is deferred any more.
fn end_by_mode<'p, 'a>(
    c: &Context<'a>,
    p: &'p Program,
    f: &Frame<'p, 'a>,
    below: &mut Vec<Frame<'p, 'a>>,
    m: &mut Memory<'a>,
) -> Result<Option<End<'a>>, Stop>
    requires { c.now.table.now ≡ p.now.types }
    ensures value { let ts = places p.now.types in Leaves ts result below.new.items m.new (λ g s. defining.end_by_mode (program_view p.now) g (mode_of ts f.now.mode) (frame_of ts f.now) (stacked (frame_of ts) below.old.items) (with_memory (memory_of ts m.old) s)) }
{
    match f.mode {
        Mode::Panicking(x) => removed_panicking(c, p, f.purpose, x, below, m),
        Mode::Normal => returned(c, f, below, m),
        Mode::Returning => returned(c, f, below, m),
    }
}

/// Nothing is left of a frame's body: its deferred calls are run, and then it ends. Answers the end
/// of the run, if this is it.
pub fn end_step<'p, 'a>(
    c: &Context<'a>,
    p: &'p Program,
    frame: Frame<'p, 'a>,
    below: &mut Vec<Frame<'p, 'a>>,
    m: &mut Memory<'a>,
) -> Result<Option<End<'a>>, Stop>
    requires { c.now.table.now ≡ p.now.types }
    ensures value { let ts = places p.now.types in let f = record (frame_of ts frame.entry) { tasks = []; values = [] } in Leaves ts result below.new.items m.new (λ g s. defining.ended_step (program_view p.now) g f.deferred_calls f (stacked (frame_of ts) below.old.items) (with_memory (memory_of ts m.old) s)) }
{
    let mut f = emptied(frame);
    match f.deferred.pop() {
        Some(call) => {
            f.mode = is_returning(f.mode);
            deferred_step(c, p, call, f, below, m)
        }
        None => end_by_mode(c, p, &f, below, m),
    }
}
