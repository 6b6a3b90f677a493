//! Nodes with one operand.

ghost use Rattle.std.specs.Prelude.{◌≡◌, IfOk, List};
ghost use Rattle.go_type.specs.Tree.{Ty};
ghost use Rattle.go_type.specs.Levels.{tree_of};
ghost use Rattle.go_core.specs.CoreTree as core;
ghost use Rattle.go_core.specs.CoreView.{expr_view};

use crate::nodes::form::expression;
use gj_base::{NoMemory, Op};
use go_core::node::{CoreExpr, CoreForm};
use go_type::types::TypeId;
use std::alloc::Global;

/// `+`, `-` or `^` of an integer.
pub fn unary(alloc: Global, op: Op, ty: TypeId, e: CoreExpr) -> Result<CoreExpr, NoMemory>
    ensures value { IfOk result (λ r. (ts : List Ty) → expr_view ts r ≡ core.unary op (tree_of ts ty) (expr_view ts e)) }
{
    expression(alloc, CoreForm::Unary { op, ty, operand: e })
}

/// `!` of a boolean.
pub fn not(alloc: Global, ty: TypeId, e: CoreExpr) -> Result<CoreExpr, NoMemory>
    ensures value { IfOk result (λ r. (ts : List Ty) → expr_view ts r ≡ core.not_ (tree_of ts ty) (expr_view ts e)) }
{
    expression(alloc, CoreForm::Not { ty, operand: e })
}

/// A value of the one type as one of the other.
pub fn convert(alloc: Global, from: TypeId, ty: TypeId, e: CoreExpr) -> Result<CoreExpr, NoMemory>
    ensures value { IfOk result (λ r. (ts : List Ty) → expr_view ts r ≡ core.convert (tree_of ts from) (tree_of ts ty) (expr_view ts e)) }
{
    expression(
        alloc,
        CoreForm::Convert {
            from,
            ty,
            operand: e,
        },
    )
}

/// The length of a value of the type.
pub fn len(alloc: Global, from: TypeId, e: CoreExpr) -> Result<CoreExpr, NoMemory>
    ensures value { IfOk result (λ r. (ts : List Ty) → expr_view ts r ≡ core.len (tree_of ts from) (expr_view ts e)) }
{
    expression(alloc, CoreForm::Len { from, operand: e })
}
