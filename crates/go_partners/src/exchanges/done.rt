//! What an operation leaves in its frame once it is done.
//!
//! The Go Programming Language Specification (as of Go 1.17), "Receive operator", "Select
//! statements". What a step counts is own.

ghost use Rattle.std.specs.Prelude.{◌≡◌, ◌++◌, [], ◌∷◌, List, Some, IfOk, OnOk};
ghost use Rattle.go_type.specs.Tree.{Ty};
ghost use Rattle.go_core.specs.Communicate.{done_with, received};
ghost use Rattle.go_core.specs.Control.{with_first};
ghost use Rattle.go_core.specs.Frames.{with_more};
ghost use Rattle.go_values.specs.OperatorsSeen as seen;
ghost use Rattle.go_values.specs.ValuesSeen.{value_of};
ghost use Rattle.go_state.specs.StateSeen.{after_of, bound_first, frame_of, todo_first, vars_of};

use gj_base::NoMemory;
use go_core::node::Var;
use go_state::state::frame::{Frame, Todo};
use go_state::state::state::Clause;
use go_state::tasks::task::Task;
use go_values::operators::did::{Context, Values, alone};
use go_values::values::scalar::Scalar;

// A value goes onto the frame's stack.
fn give<'p, 'a>(f: &mut Frame<'p, 'a>, x: &'a [Scalar<'a>]) -> Result<(), NoMemory>
    ensures value { OnOk result ((ts : List Ty) → frame_of ts f.new ≡ with_more (value_of ts x.now ∷ []) (frame_of ts f.old)) }
{
    f.values.push(x)?;
    Ok(())
}

// Values do, the last one on top.
fn give_values<'p, 'a>(f: &mut Frame<'p, 'a>, given: Values<'a>) -> Result<(), NoMemory>
    ensures value { OnOk result ((ts : List Ty) → frame_of ts f.new ≡ with_more (seen.values_of ts given.entry) (frame_of ts f.old)) }
{
    match given {
        Values::Nothing => Ok(()),
        Values::One(x) => give(f, x),
        Values::Two(x, y) => {
            give(f, x)?;
            give(f, y)
        }
    }
}

// A task comes before those that remain.
fn before<'p, 'a>(f: &mut Frame<'p, 'a>, todo: Todo<'p, 'a>) -> Result<(), NoMemory>
    ensures value { OnOk result ((ts : List Ty) → frame_of ts f.new ≡ with_first (todo_first ts todo.entry) (frame_of ts f.old)) }
{
    f.tasks.push(todo)?;
    Ok(())
}

// Fresh variables take what was received, if there are any.
fn bind<'p, 'a>(f: &mut Frame<'p, 'a>, vars: &'p [Var]) -> Result<(), NoMemory>
    ensures value { OnOk result ((ts : List Ty) → frame_of ts f.new ≡ with_first (bound_first (vars_of ts vars.now)) (frame_of ts f.old)) }
{
    if vars.is_empty() {
        return Ok(());
    }
    before(f, Todo::BindVars(vars))
}

// The tasks of a clause come before those that remain.
fn go_on<'p, 'a>(f: &mut Frame<'p, 'a>, clause: Clause<'p>) -> Result<(), NoMemory>
    ensures value { OnOk result ((ts : List Ty) → frame_of ts f.new ≡ with_first (λ rest. after_of ts (Some clause.entry) ++ rest) (frame_of ts f.old)) }
{
    before(f, Todo::Text(Task::Run(clause.body, 0)))?;
    bind(f, clause.vars)
}

/// Values are there, and the tasks of a clause come first, if there is one.
pub fn done<'p, 'a>(
    f: &mut Frame<'p, 'a>,
    given: Values<'a>,
    after: Option<Clause<'p>>,
) -> Result<(), NoMemory>
    ensures value { OnOk result ((ts : List Ty) → frame_of ts f.new ≡ done_with (seen.values_of ts given.entry) (after_of ts after.entry) (frame_of ts f.old)) }
{
    give_values(f, given)?;
    match after {
        Some(clause) => go_on(f, clause),
        None => Ok(()),
    }
}

/// So many of what was received and whether it was sent.
pub fn received_values<'a>(
    c: &Context<'a>,
    count: u64,
    x: &'a [Scalar<'a>],
    ok: bool,
) -> Result<Values<'a>, NoMemory>
    ensures value { IfOk result (λ vs. (ts : List Ty) → seen.values_of ts vs ≡ received count (value_of ts x.now) ok) }
{
    if count == 0 {
        return Ok(Values::Nothing);
    }
    if count == 1 {
        return Ok(Values::One(x));
    }
    let truth = alone(c, Scalar::Truth(ok))?;
    Ok(Values::Two(x, truth))
}
