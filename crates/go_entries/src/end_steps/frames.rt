//! Frames that come above others, and how a frame changes that is left.
//!
//! The Go Programming Language Specification (as of Go 1.17), "Handling panics", "Defer statements".

ghost use Rattle.std.specs.Prelude.{◌≡◌, ℕ, [], ◌∷◌, List, IfOk, OnOk};
ghost use Rattle.go_type.specs.Tree.{Ty};
ghost use Rattle.go_type.specs.Table.{places};
ghost use Rattle.go_core.specs.CoreTree.{CoreProgram};
ghost use Rattle.go_core.specs.CoreView.{program_view};
ghost use Rattle.go_core.specs.Frames as frames;
ghost use Rattle.go_core.specs.Panics as defining;
ghost use Rattle.go_core.specs.RunPanic as raising;
ghost use Rattle.go_values.specs.ValuesSeen.{scalar_of, values_of};
ghost use Rattle.go_state.specs.StateSeen.{frame_of, mode_of, stacked};

use gj_base::NoMemory;
use go_core::program::Program;
use go_state::state::frame::{Frame, Mode};
use go_state::state::stack::push_values;
use go_values::operators::did::Context;
use go_values::values::run_panic::{RunPanic, panic_value};
use go_values::values::scalar::Scalar;

/// What was left of the frame's body will not be done.
pub fn to_panicking<'p, 'a>(f: &mut Frame<'p, 'a>, x: Scalar<'a>)
    ensures value { (ts : List Ty) → frame_of ts f.new ≡ frames.to_panicking (scalar_of ts x.entry) (frame_of ts f.old) }
{
    f.tasks.clear();
    f.values.clear();
    f.mode = Mode::Panicking(x);
}

/// A nil function was to be called.
pub fn to_nil_used<'p, 'a>(
    c: &Context<'a>,
    p: &Program,
    f: &mut Frame<'p, 'a>,
) -> Result<(), NoMemory>
    ensures value { OnOk result (let ts = places p.now.types in frame_of ts f.new ≡ frames.to_panicking (raising.panic_value (program_view p.now).hidden raising.nil_used) (frame_of ts f.old)) }
{
    let x = panic_value(c.alloc, c.arena, p.hidden, RunPanic::NilUsed)?;
    to_panicking(f, x);
    Ok(())
}

/// A frame comes above the others.
pub fn put<'p, 'a>(below: &mut Vec<Frame<'p, 'a>>, f: Frame<'p, 'a>) -> Result<(), NoMemory>
    ensures value { OnOk result ((ts : List Ty) → stacked (frame_of ts) below.new.items ≡ frame_of ts f.entry ∷ stacked (frame_of ts) below.old.items) }
{
    below.push(f)?;
    Ok(())
}

/// A frame that has been given results.
pub fn with_results<'p, 'a>(
    frame: Frame<'p, 'a>,
    xs: &[&'a [Scalar<'a>]],
) -> Result<Frame<'p, 'a>, NoMemory>
    ensures value { IfOk result (λ f. (ts : List Ty) → frame_of ts f ≡ frames.with_more (values_of ts xs.now) (frame_of ts frame.entry)) }
{
    let mut f = frame;
    push_values(&mut f.values, xs)?;
    Ok(f)
}

/// A frame of whose body nothing is left.
pub fn emptied<'p, 'a>(frame: Frame<'p, 'a>) -> Frame<'p, 'a>
    ensures value { (ts : List Ty) → frame_of ts result ≡ record (frame_of ts frame.entry) { tasks = []; values = [] } }
{
    let mut f = frame;
    f.tasks.clear();
    f.values.clear();
    f
}

/// A frame that runs deferred calls returns, unless it panics.
pub fn is_returning<'a>(mode: Mode<'a>) -> Mode<'a>
    ensures value { (ts : List Ty) (p : CoreProgram) (g : ℕ) → mode_of ts result ≡ defining.is_returning p g (mode_of ts mode.entry) }
{
    match mode {
        Mode::Panicking(x) => Mode::Panicking(x),
        Mode::Normal => Mode::Returning,
        Mode::Returning => Mode::Returning,
    }
}
