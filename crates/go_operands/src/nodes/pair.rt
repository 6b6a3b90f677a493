//! Nodes with two operands.

ghost use Rattle.std.specs.Prelude.{◌≡◌, IfOk, List};
ghost use Rattle.go_type.specs.Tree.{Ty};
ghost use Rattle.go_type.specs.Levels.{tree_of};
ghost use Rattle.go_core.specs.CoreTree as core;
ghost use Rattle.go_core.specs.CoreView.{expr_view};

use crate::nodes::form::expression;
use gj_base::{NoMemory, Op};
use go_core::node::{CoreExpr, CoreForm};
use go_type::types::TypeId;
use std::alloc::Global;

/// Arithmetic or a shift on integers.
pub fn binary(
    alloc: Global,
    op: Op,
    ty: TypeId,
    left: CoreExpr,
    right: CoreExpr,
) -> Result<CoreExpr, NoMemory>
    ensures value { IfOk result (λ r. (ts : List Ty) → expr_view ts r ≡ core.binary op (tree_of ts ty) (expr_view ts left) (expr_view ts right)) }
{
    expression(
        alloc,
        CoreForm::Binary {
            op,
            ty,
            left,
            right,
        },
    )
}

/// One string and then the other.
pub fn concat(
    alloc: Global,
    ty: TypeId,
    left: CoreExpr,
    right: CoreExpr,
) -> Result<CoreExpr, NoMemory>
    ensures value { IfOk result (λ r. (ts : List Ty) → expr_view ts r ≡ core.concat (tree_of ts ty) (expr_view ts left) (expr_view ts right)) }
{
    expression(alloc, CoreForm::Concat { ty, left, right })
}

/// Whether both operands are equal, or, where it is negated, aren't.
pub fn equal(
    alloc: Global,
    negated: bool,
    operands: TypeId,
    ty: TypeId,
    left: CoreExpr,
    right: CoreExpr,
) -> Result<CoreExpr, NoMemory>
    ensures value { IfOk result (λ r. (ts : List Ty) → expr_view ts r ≡ core.equal negated (tree_of ts operands) (tree_of ts ty) (expr_view ts left) (expr_view ts right)) }
{
    expression(
        alloc,
        CoreForm::Equal {
            negated,
            operands,
            ty,
            left,
            right,
        },
    )
}

/// `<`, `<=`, `>` or `>=`.
pub fn less(
    alloc: Global,
    op: Op,
    operands: TypeId,
    ty: TypeId,
    left: CoreExpr,
    right: CoreExpr,
) -> Result<CoreExpr, NoMemory>
    ensures value { IfOk result (λ r. (ts : List Ty) → expr_view ts r ≡ core.less op (tree_of ts operands) (tree_of ts ty) (expr_view ts left) (expr_view ts right)) }
{
    expression(
        alloc,
        CoreForm::Less {
            op,
            operands,
            ty,
            left,
            right,
        },
    )
}

/// `&&`.
pub fn and_then(
    alloc: Global,
    ty: TypeId,
    left: CoreExpr,
    right: CoreExpr,
) -> Result<CoreExpr, NoMemory>
    ensures value { IfOk result (λ r. (ts : List Ty) → expr_view ts r ≡ core.and_then (tree_of ts ty) (expr_view ts left) (expr_view ts right)) }
{
    expression(alloc, CoreForm::AndThen { ty, left, right })
}

/// `||`.
pub fn or_else(
    alloc: Global,
    ty: TypeId,
    left: CoreExpr,
    right: CoreExpr,
) -> Result<CoreExpr, NoMemory>
    ensures value { IfOk result (λ r. (ts : List Ty) → expr_view ts r ≡ core.or_else (tree_of ts ty) (expr_view ts left) (expr_view ts right)) }
{
    expression(alloc, CoreForm::OrElse { ty, left, right })
}

/// A byte of a string.
pub fn byte_at(alloc: Global, text: CoreExpr, index: CoreExpr) -> Result<CoreExpr, NoMemory>
    ensures value { IfOk result (λ r. (ts : List Ty) → expr_view ts r ≡ core.byte_at (expr_view ts text) (expr_view ts index)) }
{
    expression(alloc, CoreForm::ByteAt { text, index })
}
