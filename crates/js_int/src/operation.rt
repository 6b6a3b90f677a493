//! The expression of an operation.

ghost use Rattle.js_pool.specs.Stands.{Builds1, Sees2};
ghost use Rattle.js_int.specs.Operation.{unary_tree, binary_tree};

use crate::convert::convert;
use crate::kinds::is_wide;
use crate::{small, wide};
use gj_base::{Kind, Op};
use js_pool::{ExprId, Pool};

/// An operator on one operand.
pub fn unary(p: &mut Pool, op: Op, kind: Kind, x: ExprId) -> ExprId
    ensures { Builds1 p.old p.new result x (unary_tree op kind) }
{
    match op {
        Op::To(to) => convert(p, kind, to, x),
        _ => {
            if is_wide(kind) {
                return wide::unary(p, op, x);
            }
            small::unary(p, op, kind, x)
        }
    }
}

/// An operator on two integers of a kind, each a name or a constant: an operand may stand more than once in
/// what is made. The count of a shift has 32 bits and no sign.
pub fn binary(p: &mut Pool, op: Op, kind: Kind, x: ExprId, y: ExprId) -> ExprId
    ensures { Sees2 p.old p.new result x y (binary_tree op kind) }
{
    if is_wide(kind) {
        return wide::binary(p, op, kind, x, y);
    }
    small::binary(p, op, kind, x, y)
}
