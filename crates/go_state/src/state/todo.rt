//! Tasks of a frame, opened where they are wanted.
//!
//! The Go Programming Language Specification (as of Go 1.17), "Order of evaluation". Opening is no
//! step.

ghost use Rattle.std.specs.Prelude.{◌≡◌, ◌<◌, ◌+◌, ◌*◌, List, [], IfOk, OnOk};
ghost use Rattle.std.specs.Bool.{OnTrue, OnFalse};
ghost use Rattle.go_type.specs.Tree.{Ty};
ghost use Rattle.go_state.specs.TasksSeen.{first_of, pieces_first, is_opened};
ghost use Rattle.go_state.specs.Weight.{weight, pieces_weight};
ghost use Rattle.go_state.specs.StateSeen.{todo_first, tasks_of};
ghost use Rattle.go_state.specs.Measure.{opens, todo_measure, measure};

use crate::state::frame::Todo;
use crate::tasks::open::open;
use crate::tasks::task::{Pieces, Task};
use gj_base::NoMemory;

fn push_pieces<'p, 'a>(tasks: &mut Vec<Todo<'p, 'a>>, pieces: Pieces<'p>) -> Result<(), NoMemory>
    ensures value { OnOk result ((ts : List Ty) → tasks_of ts tasks.new.items ≡ pieces_first ts pieces.entry (tasks_of ts tasks.old.items)) }
    ensures weighs { OnOk result (measure tasks.new.items ≡ 4 * pieces_weight [] pieces.entry + 3 + measure tasks.old.items) }
{
    tasks.push(Todo::Text(pieces.2))?;
    tasks.push(Todo::Text(pieces.1))?;
    tasks.push(Todo::Text(pieces.0))?;
    Ok(())
}

// The same as `open_onto`, of a task of the text.
fn open_text<'p, 'a>(tasks: &mut Vec<Todo<'p, 'a>>, task: Task<'p>) -> Result<bool, NoMemory>
    ensures opens { IfOk result (λ b. b ≡ is_opened task.entry) }
    ensures value { IfOk result (λ b. OnTrue b ((ts : List Ty) → tasks_of ts tasks.new.items ≡ first_of ts task.entry (tasks_of ts tasks.old.items))) }
    ensures smaller { IfOk result (λ b. measure tasks.new.items < 4 * weight [] task.entry + 1 + measure tasks.old.items) }
    ensures same { IfOk result (λ b. OnFalse b (tasks.new.items ≡ tasks.old.items)) }
{
    match open(task) {
        Some(pieces) => {
            push_pieces(tasks, pieces)?;
            Ok(true)
        }
        None => Ok(false),
    }
}

/// Puts a task before those that remain, opened one level; false, with the tasks as they were,
/// where it is none that is opened.
pub fn open_onto<'p, 'a>(
    tasks: &mut Vec<Todo<'p, 'a>>,
    todo: Todo<'p, 'a>,
) -> Result<bool, NoMemory>
    ensures opens { IfOk result (λ b. b ≡ opens todo.entry) }
    ensures value { IfOk result (λ b. OnTrue b ((ts : List Ty) → tasks_of ts tasks.new.items ≡ todo_first ts todo.entry (tasks_of ts tasks.old.items))) }
    ensures smaller { IfOk result (λ b. measure tasks.new.items < todo_measure todo.entry + measure tasks.old.items) }
    ensures same { IfOk result (λ b. OnFalse b (tasks.new.items ≡ tasks.old.items)) }
{
    match todo {
        Todo::Text(task) => open_text(tasks, task),
        Todo::Push(_) => Ok(false),
        Todo::ReceiveThrough(_) => Ok(false),
        Todo::AssignRest {
            targets: _,
            from: _,
            operands: _,
            values: _,
        } => Ok(false),
        Todo::NextRange(_, _) => Ok(false),
        Todo::BindVars(_) => Ok(false),
        Todo::SetGlobals(_) => Ok(false),
        Todo::Call(_) => Ok(false),
        Todo::Finish => Ok(false),
    }
}
