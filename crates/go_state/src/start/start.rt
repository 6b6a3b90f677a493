//! The state before the first move.
//!
//! The Go Programming Language Specification (as of Go 1.17), "Program initialization and
//! execution".

ghost use Rattle.std.specs.Prelude.{◌≡◌, [], ◌∷◌, List, IfOk, map};
ghost use Rattle.go_type.specs.Tree.{Ty};
ghost use Rattle.go_type.specs.Table.{places};
ghost use Rattle.go_core.specs.CoreView.{init_step_view, program_view};
ghost use Rattle.go_core.specs.Run as running;
ghost use Rattle.go_core.specs.Goroutine.{able};
ghost use Rattle.go_state.specs.StateSeen.{goroutine_of, state_of, tasks_of};

use crate::start::globals::{global_weight, global_zeros};
use crate::start::tasks::first_tasks;
use crate::state::frame::{Frame, Mode, Purpose, Todo};
use crate::state::state::{End, Goroutine, State, Waiting};
use gj_base::NoMemory;
use go_core::program::{InitSteps, Program};
use go_values::operators::did::Context;
use go_values::operators::places::sum;
use go_values::values::memory::Memory;
use go_values::values::scalar::Scalar;

// One goroutine, whose one frame has these tasks.
fn first_goroutine<'p, 'a>(
    c: &Context<'a>,
    tasks: Vec<Todo<'p, 'a>>,
) -> Result<Goroutine<'p, 'a>, NoMemory>
    ensures value { IfOk result (λ x. (ts : List Ty) → goroutine_of ts x ≡ record { frames = running.first_frame (tasks_of ts tasks.entry.items) ∷ []; waiting = able }) }
{
    let frame = Frame {
        func: None,
        tasks,
        values: Vec::new(c.alloc),
        places: Vec::new(c.alloc),
        deferred: Vec::new(c.alloc),
        results: &[],
        mode: Mode::Normal,
        purpose: Purpose::Called,
    };
    let mut frames = Vec::new(c.alloc);
    frames.push(frame)?;
    Ok(Goroutine {
        frames,
        waiting: Waiting::Able,
    })
}

/// The state before the first move: package variables are zero, and one goroutine is able.
pub fn start<'p, 'a>(
    c: &Context<'a>,
    p: &'p Program,
    order: &InitSteps,
) -> Result<State<'p, 'a>, NoMemory>
    requires { c.now.table.now ≡ p.now.types }
    ensures value { IfOk result (λ s. state_of (places p.now.types) s ≡ running.start (program_view p.now) (map init_step_view order.now.items.items)) }
{
    let globals = p.globals.items.as_slice();
    let cells = global_zeros(c, globals)?;
    let weight = global_weight(c, globals)?;
    let units = sum(1, weight)?;
    let tasks = first_tasks(c, p, order)?;
    let first = first_goroutine(c, tasks)?;
    let mut goroutines = Vec::new(c.alloc);
    goroutines.push(first)?;
    Ok(State {
        goroutines,
        memory: Memory {
            cells,
            maps: Vec::new(c.alloc),
            channels: Vec::new(c.alloc),
        },
        printed: Vec::new(c.alloc),
        taken: 0,
        units,
        end: End::Going,
    })
}
