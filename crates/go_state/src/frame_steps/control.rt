//! Where control goes on.
//!
//! The Go Programming Language Specification (as of Go 1.17), "If statements", "For statements",
//! "Switch statements", "Break statements", "Continue statements", "Fallthrough statements".

ghost use Rattle.std.specs.Prelude.{◌∷◌, List, Some};
ghost use Rattle.go_type.specs.Tree.{Ty};
ghost use Rattle.go_core.specs.Control as control;
ghost use Rattle.go_core.specs.CoreTree.{CoreProgram};
ghost use Rattle.go_core.specs.CoreView.{branch_of, stmts_view};
ghost use Rattle.go_core.specs.Goroutine.{moved};
ghost use Rattle.go_state.specs.TasksSeen.{condition_of, tests_from, clauses_from};
ghost use Rattle.go_values.specs.declared.values.memory.Memory.{Memory};
ghost use Rattle.go_state.specs.Goes.{Goes};

use crate::frame_steps::operands::{before, choice};
use crate::state::branch::branch;
use crate::state::frame::{Frame, Todo};
use crate::tasks::task::{Loop, LoopTask, Switch, SwitchTask, Task};
use go_core::statement::{BranchKind, CoreClauses, CoreStmts, Label};
use go_values::operators::did::Stop;

/// The condition of an `if` chooses.
pub fn choose_step<'p, 'a>(
    when_true: &'p CoreStmts,
    when_false: &'p CoreStmts,
    f: &mut Frame<'p, 'a>,
) -> Result<u64, Stop>
    ensures value { (p : CoreProgram) (ts : List Ty) (m : Memory) → Goes p ts result f.old f.new m m (λ g. control.choose_step p g (stmts_view ts when_true.now) (stmts_view ts when_false.now)) }
{
    let b = choice(f)?;
    if b {
        before(f, Todo::Text(Task::Run(when_true, 0)))?;
    } else {
        before(f, Todo::Text(Task::Run(when_false, 0)))?;
    }
    Ok(0)
}

// The body of a loop, and then the next turn.
fn turn_body<'p, 'a>(parts: Loop<'p>, f: &mut Frame<'p, 'a>) -> Result<u64, Stop>
    ensures value { (p : CoreProgram) (ts : List Ty) (m : Memory) → let l = parts.entry in Goes p ts result f.old f.new m m (λ g. control.turn_body p g l.label.0 (condition_of ts l) (stmts_view ts l.body.now) (stmts_view ts l.post.now)) }
{
    before(f, Todo::Text(Task::Loop(LoopTask::Again, parts)))?;
    before(f, Todo::Text(Task::Run(parts.body, 0)))?;
    Ok(0)
}

/// A turn of a loop where its condition is true; a missing one is.
pub fn turn_step<'p, 'a>(parts: Loop<'p>, f: &mut Frame<'p, 'a>) -> Result<u64, Stop>
    ensures value { (p : CoreProgram) (ts : List Ty) (m : Memory) → let l = parts.entry in Goes p ts result f.old f.new m m (λ g. control.turn_step p g l.label.0 (condition_of ts l) (stmts_view ts l.body.now) (stmts_view ts l.post.now)) }
{
    match parts.condition {
        None => turn_body(parts, f),
        Some(_) => {
            let b = choice(f)?;
            if b { turn_body(parts, f) } else { Ok(0) }
        }
    }
}

/// The post statement, and then the condition again.
pub fn again_step<'p, 'a>(parts: Loop<'p>, f: &mut Frame<'p, 'a>) -> Result<u64, Stop>
    ensures value { (p : CoreProgram) (ts : List Ty) (m : Memory) → let l = parts.entry in Goes p ts result f.old f.new m m (λ g. control.again_step p g l.label.0 (condition_of ts l) (stmts_view ts l.body.now) (stmts_view ts l.post.now)) }
{
    before(f, Todo::Text(Task::Loop(LoopTask::Begin, parts)))?;
    before(f, Todo::Text(Task::Run(parts.post, 0)))?;
    Ok(0)
}

/// A test of a switch chooses its clause, or the switch goes on with the others.
pub fn clause_step<'p, 'a>(
    clause: u32,
    others: Switch<'p>,
    f: &mut Frame<'p, 'a>,
) -> Result<u64, Stop>
    ensures value { (p : CoreProgram) (ts : List Ty) (m : Memory) → let s = others.entry in Goes p ts result f.old f.new m m (λ g. control.clause_step p g clause (tests_from ts s.tests.now s.from) (clauses_from ts s.clauses.now 0) s.default) }
{
    let b = choice(f)?;
    if b {
        before(f, Todo::Text(Task::Clause(others.clauses, clause as usize)))?;
    } else {
        before(f, Todo::Text(Task::Switch(SwitchTask::Test, others)))?;
    }
    Ok(1)
}

/// The default of a switch, where there is one.
pub fn default_step<'p, 'a>(
    clauses: &'p CoreClauses,
    default: Option<u32>,
    f: &mut Frame<'p, 'a>,
) -> Result<u64, Stop>
    ensures value { (p : CoreProgram) (ts : List Ty) (m : Memory) → Goes p ts result f.old f.new m m (λ g. control.default_step p g (clauses_from ts clauses.now 0) default) }
{
    match default {
        Some(clause) => {
            before(f, Todo::Text(Task::Clause(clauses, clause as usize)))?;
            Ok(0)
        }
        None => Ok(0),
    }
}

/// A `break` or a `continue`.
pub fn branch_step<'p, 'a>(
    kind: BranchKind,
    label: Label,
    f: &mut Frame<'p, 'a>,
) -> Result<u64, Stop>
    ensures value { (p : CoreProgram) (ts : List Ty) (m : Memory) → Goes p ts result f.old f.new m m (λ g x below s. Some (moved g (record x { tasks = control.branched (branch_of kind) label.0 x.tasks } ∷ below) 1 s)) }
{
    branch(&mut f.tasks, kind, label)?;
    Ok(0)
}
