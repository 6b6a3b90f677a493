//! What is done before `main`, `main` itself, and the end.
//!
//! The Go Programming Language Specification (as of Go 1.17), "Package initialization", "Program
//! execution".

ghost use Rattle.std.specs.Prelude.{◌≡◌, [], ◌∷◌, List, IfOk, OnOk, map, slice_get};
ghost use Rattle.go_type.specs.Tree.{Ty};
ghost use Rattle.go_type.specs.Table.{places};
ghost use Rattle.go_core.specs.CoreView.{init_step_view, package_var_view, program_view};
ghost use Rattle.go_core.specs.Run as running;
ghost use Rattle.go_core.specs.Goroutine as defined;
ghost use Rattle.go_state.specs.StateSeen.{tasks_of};

use crate::start::globals::set_with;
use crate::state::frame::Todo;
use crate::tasks::task::{ExprTask, Task};
use gj_base::NoMemory;
use go_core::program::{InitStep, InitSteps, PackageVar, Program};
use go_values::operators::did::Context;

// A package variable is set, with those that its initialiser sets too, before what remains.
fn initialise_by<'p, 'a>(
    c: &Context<'a>,
    holder: &'p PackageVar,
    globals: &[PackageVar],
    tasks: &mut Vec<Todo<'p, 'a>>,
) -> Result<(), NoMemory>
    ensures value { OnOk result ((ts : List Ty) → let x = package_var_view ts holder.now in tasks_of ts tasks.new.items ≡ running.initialised x.initialiser (running.set_with x 0 (map (package_var_view ts) globals.now)) (tasks_of ts tasks.old.items)) }
{
    match &holder.initialiser {
        Some(e) => {
            let numbers = set_with(c, holder, globals)?;
            tasks.push(Todo::SetGlobals(numbers))?;
            tasks.push(Todo::Text(Task::Expr(ExprTask::Evaluate, e)))?;
            Ok(())
        }
        None => Ok(()),
    }
}

fn initialise<'p, 'a>(
    c: &Context<'a>,
    p: &'p Program,
    number: u64,
    tasks: &mut Vec<Todo<'p, 'a>>,
) -> Result<(), NoMemory>
    ensures value { OnOk result (let ts = places p.now.types in let q = program_view p.now in tasks_of ts tasks.new.items ≡ running.initialised_at q (slice_get q.globals number) (tasks_of ts tasks.old.items)) }
{
    let globals = p.globals.items.as_slice();
    if number >= globals.len() as u64 {
        return Ok(());
    }
    initialise_by(c, &globals[number as usize], globals, tasks)
}

fn initialised<'p, 'a>(
    c: &Context<'a>,
    p: &'p Program,
    step: InitStep,
    tasks: &mut Vec<Todo<'p, 'a>>,
) -> Result<(), NoMemory>
    ensures value { OnOk result (let ts = places p.now.types in let q = program_view p.now in (later : List defined.Task) → tasks_of ts tasks.old.items ≡ later → tasks_of ts tasks.new.items ≡ running.init_tasks q (init_step_view step ∷ []) later) }
{
    match step {
        InitStep::Initialise(number) => initialise(c, p, number, tasks),
        InitStep::Call(func) => {
            tasks.push(Todo::Call(func))?;
            Ok(())
        }
    }
}

/// The tasks of the first frame.
pub fn first_tasks<'p, 'a>(
    c: &Context<'a>,
    p: &'p Program,
    order: &InitSteps,
) -> Result<Vec<Todo<'p, 'a>>, NoMemory>
    ensures value { IfOk result (λ todos. let ts = places p.now.types in let q = program_view p.now in tasks_of ts todos.items ≡ running.init_tasks q (map init_step_view order.now.items.items) (defined.call_with (defined.the_function q.main) 0 ∷ defined.finish ∷ [])) }
{
    let mut tasks: Vec<Todo<'p, 'a>> = Vec::new(c.alloc);
    tasks.push(Todo::Finish)?;
    tasks.push(Todo::Call(p.main))?;
    let count = order.items.len();
    'steps: for i in 0..count {
        initialised(c, p, order.items[count - 1 - i], &mut tasks)?;
    }
    Ok(tasks)
}
