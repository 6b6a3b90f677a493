//! Right sides that are evaluated only where they are wanted.
//!
//! The Go Programming Language Specification (as of Go 1.17), "Logical operators".

ghost use Rattle.std.specs.Prelude.{List};
ghost use Rattle.go_type.specs.Tree.{Ty};
ghost use Rattle.go_core.specs.Control as control;
ghost use Rattle.go_core.specs.CoreTree.{CoreProgram};
ghost use Rattle.go_core.specs.CoreView.{expr_view};
ghost use Rattle.go_values.specs.declared.values.memory.Memory.{Memory};
ghost use Rattle.go_state.specs.Goes.{Goes};

use crate::frame_steps::operands::{before, choice, give_scalar};
use crate::state::frame::{Frame, Todo};
use crate::tasks::task::{ExprTask, Task};
use go_core::node::CoreExpr;
use go_values::operators::did::{Context, Stop};
use go_values::values::scalar::Scalar;

// The right side is evaluated where that is wanted; else the value is there.
fn right_or<'p, 'a>(
    c: &Context<'a>,
    wanted: bool,
    value: bool,
    right: &'p CoreExpr,
    f: &mut Frame<'p, 'a>,
) -> Result<u64, Stop>
    ensures value { (p : CoreProgram) (ts : List Ty) (m : Memory) → Goes p ts result f.old f.new m m (λ g. control.right_or p g wanted value (expr_view ts right.now)) }
{
    if wanted {
        before(f, Todo::Text(Task::Expr(ExprTask::Evaluate, right)))?;
    } else {
        give_scalar(c, f, Scalar::Truth(value))?;
    }
    Ok(0)
}

/// The right side of `&&`, only where the left one is true.
pub fn where_true_step<'p, 'a>(
    c: &Context<'a>,
    right: &'p CoreExpr,
    f: &mut Frame<'p, 'a>,
) -> Result<u64, Stop>
    ensures value { (p : CoreProgram) (ts : List Ty) (m : Memory) → Goes p ts result f.old f.new m m (λ g. control.where_true_step p g (expr_view ts right.now)) }
{
    let b = choice(f)?;
    right_or(c, b, false, right, f)
}

/// The right side of `||`, only where the left one is false.
pub fn where_false_step<'p, 'a>(
    c: &Context<'a>,
    right: &'p CoreExpr,
    f: &mut Frame<'p, 'a>,
) -> Result<u64, Stop>
    ensures value { (p : CoreProgram) (ts : List Ty) (m : Memory) → Goes p ts result f.old f.new m m (λ g. control.where_false_step p g (expr_view ts right.now)) }
{
    let b = choice(f)?;
    right_or(c, !b, true, right, f)
}
