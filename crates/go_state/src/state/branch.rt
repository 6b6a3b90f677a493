//! Where a branch leads.
//!
//! The Go Programming Language Specification (as of Go 1.17), "Break statements", "Continue
//! statements".

ghost use Rattle.std.specs.Prelude.{◌≡◌, ◌<◌, ◌+◌, List, IfOk, OnOk};
ghost use Rattle.std.specs.Bool.{OnTrue, OnFalse};
ghost use Rattle.go_type.specs.Tree.{Ty};
ghost use Rattle.go_core.specs.CoreView.{branch_of};
ghost use Rattle.go_core.specs.Control.{left, continued, branched};
ghost use Rattle.go_state.specs.StateSeen.{todo_first, tasks_of};
ghost use Rattle.go_state.specs.Branch as branches;
ghost use Rattle.go_state.specs.declared.state.frame.Todo.TheVariants.{Text};
ghost use Rattle.go_state.specs.Measure.{todo_measure, measure};

use crate::state::frame::Todo;
use crate::state::todo::open_onto;
use crate::tasks::task::{LoopTask, Task};
use gj_base::NoMemory;
use go_core::statement::{BranchKind, Label};

// Whether a task of the text is the next turn of the loop with the label.
fn text_turns(label: Label, task: Task) -> bool
    ensures value { result ≡ branches.turns label.0 (Text task.entry) }
{
    match task {
        Task::Loop(what, parts) => match what {
            LoopTask::Begin => false,
            LoopTask::Turn => false,
            LoopTask::Again => parts.label.0 == label.0,
        },
        Task::Nothing => false,
        Task::Expr(_, _) => false,
        Task::Place(_, _) => false,
        Task::Callee(_) => false,
        Task::All(_, _) => false,
        Task::Elements(_, _) => false,
        Task::Pairs(_, _) => false,
        Task::Targets(_, _) => false,
        Task::Cases(_, _) => false,
        Task::One(_, _) => false,
        Task::Run(_, _) => false,
        Task::Do(_, _) => false,
        Task::Switch(_, _) => false,
        Task::Clause(_, _) => false,
        Task::Leave(_) => false,
    }
}

// Whether it is the next turn of the loop with the label.
fn turns(label: Label, todo: Todo) -> bool
    ensures value { result ≡ branches.turns label.0 todo.entry }
{
    match todo {
        Todo::Text(task) => text_turns(label, task),
        Todo::NextRange(range, _) => range.label.0 == label.0,
        Todo::Push(_) => false,
        Todo::ReceiveThrough(_) => false,
        Todo::AssignRest {
            targets: _,
            from: _,
            operands: _,
            values: _,
        } => false,
        Todo::BindVars(_) => false,
        Todo::SetGlobals(_) => false,
        Todo::Call(_) => false,
        Todo::Finish => false,
    }
}

// Whether a task of the text is the end of the statement with the label, or the next turn of that
// loop.
fn text_ends(label: Label, task: Task) -> bool
    ensures value { result ≡ branches.ends label.0 (Text task.entry) }
{
    match task {
        Task::Leave(own) => own.0 == label.0,
        Task::Loop(_, _) => text_turns(label, task),
        Task::Nothing => false,
        Task::Expr(_, _) => false,
        Task::Place(_, _) => false,
        Task::Callee(_) => false,
        Task::All(_, _) => false,
        Task::Elements(_, _) => false,
        Task::Pairs(_, _) => false,
        Task::Targets(_, _) => false,
        Task::Cases(_, _) => false,
        Task::One(_, _) => false,
        Task::Run(_, _) => false,
        Task::Do(_, _) => false,
        Task::Switch(_, _) => false,
        Task::Clause(_, _) => false,
    }
}

// Whether it is the end of the statement with the label, or the next turn of that loop.
fn ends(label: Label, todo: Todo) -> bool
    ensures value { result ≡ branches.ends label.0 todo.entry }
{
    match todo {
        Todo::Text(task) => text_ends(label, task),
        Todo::NextRange(range, _) => range.label.0 == label.0,
        Todo::Push(_) => false,
        Todo::ReceiveThrough(_) => false,
        Todo::AssignRest {
            targets: _,
            from: _,
            operands: _,
            values: _,
        } => false,
        Todo::BindVars(_) => false,
        Todo::SetGlobals(_) => false,
        Todo::Call(_) => false,
        Todo::Finish => false,
    }
}

// Goes past a task, opened where it is one that is opened; true where the statement with the label
// has been left.
fn leave_one<'p, 'a>(
    tasks: &mut Vec<Todo<'p, 'a>>,
    label: Label,
    todo: Todo<'p, 'a>,
) -> Result<bool, NoMemory>
    ensures end { IfOk result (λ b. OnTrue b ((ts : List Ty) → left label.0 (todo_first ts todo.entry (tasks_of ts tasks.old.items)) ≡ tasks_of ts tasks.new.items)) }
    ensures past { IfOk result (λ b. OnFalse b ((ts : List Ty) → left label.0 (todo_first ts todo.entry (tasks_of ts tasks.old.items)) ≡ left label.0 (tasks_of ts tasks.new.items))) }
    ensures smaller { IfOk result (λ b. measure tasks.new.items < todo_measure todo.entry + measure tasks.old.items) }
{
    let opened = open_onto(tasks, todo)?;
    if opened {
        return Ok(false);
    }
    Ok(ends(label, todo))
}

// Goes past a task in the same way; true where it is the next turn of the loop with the label, which
// stays.
fn continue_one<'p, 'a>(
    tasks: &mut Vec<Todo<'p, 'a>>,
    label: Label,
    todo: Todo<'p, 'a>,
) -> Result<bool, NoMemory>
    ensures end { IfOk result (λ b. OnTrue b ((ts : List Ty) → continued label.0 (todo_first ts todo.entry (tasks_of ts tasks.old.items)) ≡ tasks_of ts tasks.new.items)) }
    ensures past { IfOk result (λ b. OnFalse b ((ts : List Ty) → continued label.0 (todo_first ts todo.entry (tasks_of ts tasks.old.items)) ≡ continued label.0 (tasks_of ts tasks.new.items))) }
    ensures smaller { IfOk result (λ b. OnFalse b (measure tasks.new.items < todo_measure todo.entry + measure tasks.old.items)) }
{
    let opened = open_onto(tasks, todo)?;
    if opened {
        return Ok(false);
    }
    let found = turns(label, todo);
    if found {
        tasks.push(todo)?;
        return Ok(true);
    }
    Ok(false)
}

/// To what remains after the statement with the label.
pub fn leave<'p, 'a>(tasks: &mut Vec<Todo<'p, 'a>>, label: Label) -> Result<(), NoMemory>
    ensures value { OnOk result ((ts : List Ty) → tasks_of ts tasks.new.items ≡ left label.0 (tasks_of ts tasks.old.items)) }
{
    'tasks: while let Some(todo) = tasks.pop() {
        let found = leave_one(tasks, label, todo)?;
        if found {
            return Ok(());
        }
    }
    Ok(())
}

/// To the next turn of the loop with the label.
pub fn continue_at<'p, 'a>(tasks: &mut Vec<Todo<'p, 'a>>, label: Label) -> Result<(), NoMemory>
    ensures value { OnOk result ((ts : List Ty) → tasks_of ts tasks.new.items ≡ continued label.0 (tasks_of ts tasks.old.items)) }
{
    'tasks: while let Some(todo) = tasks.pop() {
        let found = continue_one(tasks, label, todo)?;
        if found {
            return Ok(());
        }
    }
    Ok(())
}

/// To where a branch leads.
pub fn branch<'p, 'a>(
    tasks: &mut Vec<Todo<'p, 'a>>,
    kind: BranchKind,
    label: Label,
) -> Result<(), NoMemory>
    ensures value { OnOk result ((ts : List Ty) → tasks_of ts tasks.new.items ≡ branched (branch_of kind) label.0 (tasks_of ts tasks.old.items)) }
{
    match kind {
        BranchKind::Break => leave(tasks, label),
        BranchKind::Continue => continue_at(tasks, label),
    }
}
