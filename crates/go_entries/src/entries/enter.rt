//! New frames.
//!
//! The Go Programming Language Specification (as of Go 1.17), "Calls": parameters hold the operands,
//! and results are zero.

ghost use Rattle.std.specs.Prelude.{◌≡◌, ◌++◌, [], List, Some, IfOk, drop, take};
ghost use Rattle.go_type.specs.Tree.{Ty};
ghost use Rattle.go_type.specs.Table.{places, names};
ghost use Rattle.go_core.specs.Calls as calls;
ghost use Rattle.go_core.specs.CoreView.{func_view, program_view};
ghost use Rattle.go_core.specs.Opened.{all_opened};
ghost use Rattle.go_values.specs.ValuesSeen.{values_of, memory_of};
ghost use Rattle.go_state.specs.StateSeen.{places_of, purpose_of, tasks_of, vars_of};
ghost use Rattle.go_entries.specs.EntriesSeen.{adapted_of, first_of, IsEntered};

use crate::entries::receiver::{Adapted, First, adapt, receiver_for};
use crate::entries::resolve::Ready;
use gj_base::NoMemory;
use go_core::node::Var;
use go_core::program::{Func, Program};
use go_state::bindings::bind::{bind_vars, bind_zeros};
use go_state::bindings::captured::captured_places;
use go_state::state::frame::{Frame, Mode, Place, Purpose, Todo};
use go_state::tasks::task::Task;
use go_values::operators::did::{Context, Stop};
use go_values::values::memory::Memory;

/// A new frame, and the size of its parameters and results.
#[derive(Drop)]
pub struct Entered<'p, 'a> {
    pub frame: Frame<'p, 'a>,
    pub units: u64,
}

// The tasks of a function: what reads its receiver, and its body.
fn body_tasks<'p, 'a>(
    c: &Context<'a>,
    func: &'p Func,
    first: Option<First<'a>>,
) -> Result<Vec<Todo<'p, 'a>>, NoMemory>
    ensures value { IfOk result (λ todos. (ts : List Ty) → tasks_of ts todos.items ≡ first_of ts first.entry ++ all_opened (func_view ts func.now).body []) }
{
    let mut tasks = Vec::new(c.alloc);
    tasks.push(Todo::Text(Task::Run(&func.body, 0)))?;
    match first {
        Some(read) => {
            tasks.push(Todo::ReceiveThrough(read.var))?;
            tasks.push(Todo::Push(read.pointer))?;
            Ok(tasks)
        }
        None => Ok(tasks),
    }
}

// So many variables from a place on, or fewer where there are no more.
fn some_of<'p>(vars: &'p [Var], from: usize, count: usize) -> &'p [Var]
    ensures value { result.now ≡ take count (drop from vars.now) }
{
    if from >= vars.len() {
        return &[];
    }
    let others = &vars[from..];
    if count >= others.len() {
        return others;
    }
    &others[..count]
}

// The variables that a function captured, where they lie.
fn captured_at(c: &Context, func: &Func, bases: &[u64]) -> Result<Vec<Place>, NoMemory>
    ensures value { IfOk result (λ at. (ts : List Ty) → places_of at.items ≡ calls.captured_places (func_view ts func.now).captured bases.now) }
{
    let mut at = Vec::new(c.alloc);
    captured_places(&mut at, func.captured.items.as_slice(), bases)?;
    Ok(at)
}

/// The variables that take so many operands.
pub fn params_of(func: &Func, count: usize) -> &[Var]
    ensures value { (ts : List Ty) → vars_of ts result.now ≡ take count (func_view ts func.now).vars }
{
    some_of(func.vars.items.as_slice(), 0, count)
}

/// The variables of its results, after so many parameters.
pub fn results_after(func: &Func, count: usize) -> &[Var]
    ensures value { (ts : List Ty) → vars_of ts result.now ≡ calls.result_vars (func_view ts func.now) count }
{
    let wanted = func.sig.results.as_slice().len();
    some_of(func.vars.items.as_slice(), count, wanted)
}

// The frame of a function with operands as it takes them.
fn entered_with<'p, 'a>(
    c: &Context<'a>,
    number: u64,
    func: &'p Func,
    bases: &[u64],
    purpose: Purpose,
    adapted: Adapted<'a>,
    m: &mut Memory<'a>,
) -> Result<Entered<'p, 'a>, Stop>
    ensures value { let ts = places c.now.table.now in IsEntered ts result m.new (calls.entered_with (names c.now.table.now) number (func_view ts func.now) bases.now (purpose_of purpose) (adapted_of ts adapted.entry m.old)) }
{
    let operands = adapted.operands.as_slice();
    let count = operands.len();
    let mut at = captured_at(c, func, bases)?;
    let params = params_of(func, count);
    let given = bind_vars(c, params, operands, &mut at, m)?;
    let results = results_after(func, count);
    let units = bind_zeros(c, results, given, &mut at, m)?;
    let tasks = body_tasks(c, func, adapted.first)?;
    Ok(Entered {
        frame: Frame {
            func: Some(number),
            tasks,
            values: Vec::new(c.alloc),
            places: at,
            deferred: Vec::new(c.alloc),
            results,
            mode: Mode::Normal,
            purpose,
        },
        units,
    })
}

fn entered_at<'p, 'a>(
    c: &Context<'a>,
    p: &Program,
    ready: Ready<'a>,
    func: &'p Func,
    purpose: Purpose,
    m: &mut Memory<'a>,
) -> Result<Entered<'p, 'a>, Stop>
    requires { c.now.table.now ≡ p.now.types }
    ensures value { let ts = places p.now.types in let r = ready.entry in IsEntered ts result m.new (calls.entered_at (program_view p.now) r.func (Some (func_view ts func.now)) r.bases.now r.row (values_of ts r.operands.now) (purpose_of purpose) (memory_of ts m.old)) }
{
    let receiver = receiver_for(p, ready.row, func.vars.items.as_slice());
    let adapted = adapt(c, receiver, ready.operands, m)?;
    entered_with(c, ready.func, func, ready.bases, purpose, adapted, m)
}

/// The frame of a call.
pub fn enter<'p, 'a>(
    c: &Context<'a>,
    p: &'p Program,
    ready: Ready<'a>,
    purpose: Purpose,
    m: &mut Memory<'a>,
) -> Result<Entered<'p, 'a>, Stop>
    requires { c.now.table.now ≡ p.now.types }
    ensures value { let ts = places p.now.types in let r = ready.entry in IsEntered ts result m.new (calls.entered (program_view p.now) r.func r.bases.now r.row (values_of ts r.operands.now) (purpose_of purpose) (memory_of ts m.old)) }
{
    match p.funcs.items.as_slice().get(ready.func as usize) {
        Some(func) => entered_at(c, p, ready, func, purpose, m),
        None => Err(Stop::NoStep),
    }
}
