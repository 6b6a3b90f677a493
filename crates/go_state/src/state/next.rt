//! What a frame does next.
//!
//! The Go Programming Language Specification (as of Go 1.17), "Statements". Which tasks are no step
//! is own.

ghost use Rattle.std.specs.Prelude.{◌≡◌, ◌<◌, ◌+◌, [], List, Some, None, false, slice_get, IfOk, IfSome, IfNone};
ghost use Rattle.std.specs.Bool.{OnTrue, OnFalse};
ghost use Rattle.go_type.specs.Tree.{Ty};
ghost use Rattle.go_state.specs.TasksSeen.{stmts_listed};
ghost use Rattle.go_state.specs.StateSeen.{todo_first, tasks_of, stack_of};
ghost use Rattle.go_state.specs.Passed as passing;
ghost use Rattle.go_state.specs.Passed.{values_past, passed, IsStep, ComesTo};
ghost use Rattle.go_state.specs.declared.state.frame.Todo.TheVariants.{Text};
ghost use Rattle.go_state.specs.Measure.{opens, todo_measure, measure};

use crate::state::frame::Todo;
use crate::state::stack::drop_values;
use crate::state::todo::open_onto;
use crate::tasks::task::Task;
use gj_base::NoMemory;
use go_core::statement::{CoreStmtForm, CoreStmts};
use go_values::values::scalar::Scalar;

// How many values the statement at a place drops that does nothing else itself; none where it is a
// step.
fn dropped_at(list: &CoreStmts, at: usize) -> Option<u32>
    ensures value { (ts : List Ty) → result ≡ passing.dropped_at (slice_get (stmts_listed ts list.now) at) }
{
    if at >= list.items.len() {
        return Some(0);
    }
    match &*list.items[at].form {
        CoreStmtForm::Seq(_) => Some(0),
        CoreStmtForm::Perform { operand: _, values } => Some(*values),
        CoreStmtForm::Declare(_) => None,
        CoreStmtForm::Store {
            targets: _,
            values: _,
        } => None,
        CoreStmtForm::MapDelete {
            map_type: _,
            operand: _,
            key: _,
        } => None,
        CoreStmtForm::If {
            condition: _,
            when_true: _,
            when_false: _,
        } => None,
        CoreStmtForm::Loop {
            label: _,
            condition: _,
            body: _,
            post: _,
        } => Some(0),
        CoreStmtForm::SwitchOn {
            label: _,
            tests: _,
            clauses: _,
            default: _,
        } => Some(0),
        CoreStmtForm::RangeNext {
            label: _,
            from: _,
            operand: _,
            key: _,
            value: _,
            body: _,
        } => None,
        CoreStmtForm::Labeled { label: _, body: _ } => Some(0),
        CoreStmtForm::Branch { kind: _, label: _ } => None,
        CoreStmtForm::Send {
            channel: _,
            operand: _,
            value: _,
        } => None,
        CoreStmtForm::Close(_) => None,
        CoreStmtForm::SelectStep {
            label: _,
            cases: _,
            has_default: _,
            default: _,
        } => None,
        CoreStmtForm::GateTake(_) => None,
        CoreStmtForm::GateAwait(_) => None,
        CoreStmtForm::Yield => None,
        CoreStmtForm::GoCall {
            callee: _,
            operands: _,
        } => None,
        CoreStmtForm::DeferCall {
            callee: _,
            operands: _,
        } => None,
        CoreStmtForm::Return(_) => None,
        CoreStmtForm::Panic(_) => None,
        CoreStmtForm::Print {
            operands: _,
            ends_line: _,
        } => None,
        CoreStmtForm::Exit(_) => None,
        CoreStmtForm::Fatal(_) => None,
    }
}

// The same of a task of the text that isn't opened.
fn dropped_by(task: Task) -> Option<u32>
    ensures value { (ts : List Ty) → result ≡ passing.dropped_by ts task.entry }
{
    match task {
        Task::Nothing => Some(0),
        Task::Expr(_, _) => None,
        Task::Place(_, _) => None,
        Task::Callee(_) => None,
        Task::All(_, _) => None,
        Task::Elements(_, _) => None,
        Task::Pairs(_, _) => None,
        Task::Targets(_, _) => None,
        Task::Cases(_, _) => None,
        Task::One(_, _) => None,
        Task::Run(_, _) => None,
        Task::Do(list, at) => dropped_at(list, at),
        Task::Loop(_, _) => None,
        Task::Switch(_, _) => None,
        Task::Clause(_, _) => None,
        Task::Leave(_) => Some(0),
    }
}

// Does what a task of the text that is no step does to the values; false where it is a step.
fn pass_text<'p, 'a>(values: &mut Vec<&'a [Scalar<'a>]>, task: Task<'p>) -> bool
    ensures past { OnTrue result ((ts : List Ty) → values_past ts (Text task.entry) (stack_of ts values.old.items) ≡ Some (stack_of ts values.new.items)) }
    ensures step { OnFalse result ((ts : List Ty) → values_past ts (Text task.entry) (stack_of ts values.old.items) ≡ None) }
    ensures same { OnFalse result (values.new.items ≡ values.old.items) }
{
    match dropped_by(task) {
        Some(count) => {
            drop_values(values, count as usize);
            true
        }
        None => false,
    }
}

// Does what a task that is no step does to the values; false where it is a step.
fn pass<'p, 'a>(values: &mut Vec<&'a [Scalar<'a>]>, todo: Todo<'p, 'a>) -> Result<bool, NoMemory>
    ensures past { IfOk result (λ b. OnTrue b ((ts : List Ty) → values_past ts todo.entry (stack_of ts values.old.items) ≡ Some (stack_of ts values.new.items))) }
    ensures step { IfOk result (λ b. OnFalse b ((ts : List Ty) → values_past ts todo.entry (stack_of ts values.old.items) ≡ None)) }
    ensures same { IfOk result (λ b. OnFalse b (values.new.items ≡ values.old.items)) }
{
    match todo {
        Todo::Text(task) => Ok(pass_text(values, task)),
        Todo::Push(x) => {
            values.push(x)?;
            Ok(true)
        }
        Todo::ReceiveThrough(_) => Ok(false),
        Todo::AssignRest {
            targets: _,
            from: _,
            operands: _,
            values: _,
        } => Ok(false),
        Todo::NextRange(_, _) => Ok(false),
        Todo::BindVars(_) => Ok(false),
        Todo::SetGlobals(_) => Ok(false),
        Todo::Call(_) => Ok(false),
        Todo::Finish => Ok(false),
    }
}

// Opens a task onto those that remain, or passes over it; false where it is a step.
fn pass_over<'p, 'a>(
    tasks: &mut Vec<Todo<'p, 'a>>,
    values: &mut Vec<&'a [Scalar<'a>]>,
    todo: Todo<'p, 'a>,
) -> Result<bool, NoMemory>
    ensures past { IfOk result (λ b. OnTrue b ((ts : List Ty) → passed (todo_first ts todo.entry (tasks_of ts tasks.old.items)) (stack_of ts values.old.items) ≡ passed (tasks_of ts tasks.new.items) (stack_of ts values.new.items))) }
    ensures step { IfOk result (λ b. OnFalse b (IsStep todo.entry)) }
    ensures closed { IfOk result (λ b. OnFalse b (opens todo.entry ≡ false)) }
    ensures tasks { IfOk result (λ b. OnFalse b (tasks.new.items ≡ tasks.old.items)) }
    ensures values { IfOk result (λ b. OnFalse b (values.new.items ≡ values.old.items)) }
    ensures smaller { IfOk result (λ b. measure tasks.new.items < todo_measure todo.entry + measure tasks.old.items) }
{
    let opened = open_onto(tasks, todo)?;
    if opened {
        return Ok(true);
    }
    pass(values, todo)
}

/// Takes the next step from a frame's tasks, none where nothing is left. What is no step is passed
/// over on the way, and done to the values.
pub fn next_todo<'p, 'a>(
    tasks: &mut Vec<Todo<'p, 'a>>,
    values: &mut Vec<&'a [Scalar<'a>]>,
) -> Result<Option<Todo<'p, 'a>>, NoMemory>
    ensures value { IfOk result (λ r. (ts : List Ty) → ComesTo (tasks_of ts tasks.old.items) (stack_of ts values.old.items) ts r tasks.new.items values.new.items) }
    ensures step { IfOk result (λ r. IfSome r IsStep) }
    ensures closed { IfOk result (λ r. IfSome r (λ t. opens t ≡ false)) }
    ensures none { IfOk result (λ r. IfNone r (tasks.new.items ≡ [])) }
{
    'tasks: while let Some(todo) = tasks.pop() {
        let gone = pass_over(tasks, values, todo)?;
        if !gone {
            return Ok(Some(todo));
        }
    }
    Ok(None)
}
