//! Untyped numbers whose type is pending, each from its parts.

ghost use Rattle.std.specs.Prelude.{◌≡◌, IfOk, List};
ghost use Rattle.go_type.specs.Tree.{Ty};
ghost use Rattle.go_core.specs.CoreView.{expr_view};
ghost use Rattle.go_typing.specs.Answer as tree;
ghost use Rattle.go_operands.specs.AnswerView.{pending_view, pending_form_view};

use crate::answers::answer::{Pending, PendingForm};
use gj_base::{NoMemory, Op, Place};
use go_const::Const;
use go_core::node::CoreExpr;
use std::alloc::Global;

/// An untyped number of a form.
pub fn pending(alloc: Global, form: PendingForm) -> Result<Pending, NoMemory>
    ensures view { IfOk result (λ p. (ts : List Ty) → pending_view ts p ≡ pending_form_view ts form) }
{
    let form = Box::new(alloc, form)?;
    Ok(Pending { form })
}

/// An untyped constant where it stands, as an operand.
pub fn fixed(alloc: Global, at: Place, value: Const) -> Result<Pending, NoMemory>
    ensures view { IfOk result (λ r. (ts : List Ty) → pending_view ts r ≡ tree.fixed at value) }
{
    pending(alloc, PendingForm::Fixed { at, value })
}

/// The shift, where it and the constant stand, of an untyped constant by a count.
pub fn shifted(
    alloc: Global,
    at: Place,
    op: Op,
    value: Const,
    count: CoreExpr,
) -> Result<Pending, NoMemory>
    ensures view { IfOk result (λ r. (ts : List Ty) → pending_view ts r ≡ tree.shifted at op value (expr_view ts count)) }
{
    pending(
        alloc,
        PendingForm::Shifted {
            at,
            op,
            value,
            count,
        },
    )
}

/// A further shift.
pub fn further(alloc: Global, op: Op, p: Pending, count: CoreExpr) -> Result<Pending, NoMemory>
    ensures view { IfOk result (λ r. (ts : List Ty) → pending_view ts r ≡ tree.further op (pending_view ts p) (expr_view ts count)) }
{
    pending(
        alloc,
        PendingForm::Further {
            op,
            operand: p,
            count,
        },
    )
}

/// `+`, `-` or `^` before one.
pub fn signed(alloc: Global, op: Op, p: Pending) -> Result<Pending, NoMemory>
    ensures view { IfOk result (λ r. (ts : List Ty) → pending_view ts r ≡ tree.signed op (pending_view ts p)) }
{
    pending(alloc, PendingForm::Signed { op, operand: p })
}

/// An operator between two.
pub fn joined(alloc: Global, op: Op, x: Pending, y: Pending) -> Result<Pending, NoMemory>
    ensures view { IfOk result (λ r. (ts : List Ty) → pending_view ts r ≡ tree.joined op (pending_view ts x) (pending_view ts y)) }
{
    pending(
        alloc,
        PendingForm::Joined {
            op,
            left: x,
            right: y,
        },
    )
}
