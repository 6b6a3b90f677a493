//! Expressions.

ghost use Rattle.std.specs.Prelude.{◌≡◌, true};
ghost use Rattle.go_walk.specs.Steady.{IsSteady, IsSteadyBound, AreSteady};

use crate::steady::leaf::{both, callee_is_steady, is_below, place_is_steady, types_are_steady};
use go_core::node::{CoreExpr, CoreForm};

/// Whether an expression has types among the first so many alone. Forms that no scalar program has
/// are not built yet.
#[cycle(steady)]
pub fn is_steady(count: u64, e: &CoreExpr) -> bool
    ensures steady { result ≡ true → IsSteady count e.now }
{
    match &*e.form {
        CoreForm::Const { ty, value: _ } => is_below(count, *ty),
        CoreForm::Zero { ty } => is_below(count, *ty),
        CoreForm::Read { ty, place } => both(is_below(count, *ty), place_is_steady(place)),
        CoreForm::Unary { op: _, ty, operand } => {
            let x = is_steady(count, operand);
            both(is_below(count, *ty), x)
        }
        CoreForm::Not { ty, operand } => {
            let x = is_steady(count, operand);
            both(is_below(count, *ty), x)
        }
        CoreForm::Len { from, operand } => {
            let x = is_steady(count, operand);
            both(is_below(count, *from), x)
        }
        CoreForm::Convert { from, ty, operand } => {
            let x = is_steady(count, operand);
            let u = is_below(count, *from);
            both(both(u, is_below(count, *ty)), x)
        }
        CoreForm::Binary {
            op: _,
            ty,
            left,
            right,
        } => {
            let x = is_steady(count, left);
            let y = is_steady(count, right);
            both(is_below(count, *ty), both(x, y))
        }
        CoreForm::Concat { ty, left, right } => {
            let x = is_steady(count, left);
            let y = is_steady(count, right);
            both(is_below(count, *ty), both(x, y))
        }
        CoreForm::AndThen { ty, left, right } => {
            let x = is_steady(count, left);
            let y = is_steady(count, right);
            both(is_below(count, *ty), both(x, y))
        }
        CoreForm::OrElse { ty, left, right } => {
            let x = is_steady(count, left);
            let y = is_steady(count, right);
            both(is_below(count, *ty), both(x, y))
        }
        CoreForm::Equal {
            negated: _,
            operands,
            ty,
            left,
            right,
        } => {
            let x = is_steady(count, left);
            let y = is_steady(count, right);
            let u = is_below(count, *operands);
            both(both(u, is_below(count, *ty)), both(x, y))
        }
        CoreForm::Less {
            op: _,
            operands,
            ty,
            left,
            right,
        } => {
            let x = is_steady(count, left);
            let y = is_steady(count, right);
            let u = is_below(count, *operands);
            both(both(u, is_below(count, *ty)), both(x, y))
        }
        CoreForm::ByteAt { text, index } => {
            let x = is_steady(count, text);
            let y = is_steady(count, index);
            both(x, y)
        }
        CoreForm::SliceOf {
            from,
            ty,
            operand,
            low,
            high,
            limit,
        } => {
            let x = is_steady(count, operand);
            let a = bound_is_steady(count, low);
            let b = bound_is_steady(count, high);
            let c = bound_is_steady(count, limit);
            let u = is_below(count, *from);
            both(both(both(u, is_below(count, *ty)), x), both(a, both(b, c)))
        }
        CoreForm::Call {
            results,
            callee,
            operands,
        } => {
            let xs = are_steady(count, operands.items.as_slice());
            let us = types_are_steady(count, results.as_slice());
            both(both(us, callee_is_steady(callee)), xs)
        }
        _ => false,
    }
}

#[cycle(steady)]
fn bound_is_steady(count: u64, e: &Option<CoreExpr>) -> bool
    ensures steady { result ≡ true → IsSteadyBound count e.now }
{
    match e {
        Some(e) => is_steady(count, e),
        None => true,
    }
}

/// Whether operands have types among the first so many alone.
#[cycle(steady)]
pub fn are_steady(count: u64, es: &[CoreExpr]) -> bool
    ensures steady { result ≡ true → AreSteady count es.now }
{
    for e in es {
        if !is_steady(count, e) {
            return false;
        }
    }
    true
}
