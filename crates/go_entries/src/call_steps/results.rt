//! Results.
//!
//! The Go Programming Language Specification (as of Go 1.17), "Return statements".

ghost use Rattle.std.specs.Prelude.{◌≡◌, [], List};
ghost use Rattle.go_type.specs.Tree.{Ty};
ghost use Rattle.go_type.specs.Table.{places};
ghost use Rattle.go_core.specs.Calls as calls;
ghost use Rattle.go_core.specs.CoreView.{program_view};
ghost use Rattle.go_core.specs.Goroutine as defined;
ghost use Rattle.go_state.specs.StateSeen.{frame_of};
ghost use Rattle.go_state.specs.Goes.{Goes};

use go_core::program::Program;
use go_state::bindings::results::{store, weights};
use go_state::frame_steps::operands::operands;
use go_state::state::frame::{Frame, Mode};
use go_values::operators::did::{Context, Stop};
use go_values::values::memory::Memory;

// The results are set; nothing is left of the body.
fn returned<'p, 'a>(f: &mut Frame<'p, 'a>)
    ensures value { (ts : List Ty) → frame_of ts f.new ≡ record (frame_of ts f.old) { tasks = []; values = []; mode = defined.returning } }
{
    f.tasks.clear();
    f.values.clear();
    f.mode = Mode::Returning;
}

/// The results are set, and then the deferred calls are due; a bare return leaves them.
pub fn return_step<'p, 'a>(
    c: &Context<'a>,
    p: &Program,
    count: usize,
    f: &mut Frame<'p, 'a>,
    m: &mut Memory<'a>,
) -> Result<u64, Stop>
    requires { c.now.table.now ≡ p.now.types }
    ensures value { let ts = places p.now.types in Goes (program_view p.now) ts result f.old f.new m.old m.new (λ g. calls.return_step (program_view p.now) g count) }
{
    if count == 0 {
        returned(f);
        return Ok(0);
    }
    let xs = operands(f, count)?;
    store(f.results, xs.as_slice(), f.places.as_slice(), m)?;
    let units = weights(c, f.results)?;
    returned(f);
    Ok(units)
}
