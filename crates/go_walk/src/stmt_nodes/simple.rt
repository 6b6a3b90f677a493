//! Statements without statements in them.

ghost use Rattle.std.specs.Prelude.{◌≡◌, IfOk, List};
ghost use Rattle.go_type.specs.Tree.{Ty};
ghost use Rattle.go_core.specs.CoreTree as core;
ghost use Rattle.go_core.specs.CoreView.{expr_view, exprs_view, stmt_view, var_of, branch_of};

use gj_base::NoMemory;
use go_core::node::{CoreExpr, CoreExprs, Var};
use go_core::statement::{BranchKind, CoreStmt, CoreStmtForm, Label};
use go_operands::nodes::form::statement;
use std::alloc::Global;

/// A fresh variable.
pub fn declare(alloc: Global, var: Var) -> Result<CoreStmt, NoMemory>
    ensures value { IfOk result (λ s. (ts : List Ty) → stmt_view ts s ≡ core.declare (var_of ts var)) }
{
    statement(alloc, CoreStmtForm::Declare(var))
}

/// An expression whose values, so many, are dropped.
pub fn perform(alloc: Global, operand: CoreExpr, values: u32) -> Result<CoreStmt, NoMemory>
    ensures value { IfOk result (λ s. (ts : List Ty) → stmt_view ts s ≡ core.perform (expr_view ts operand) values) }
{
    statement(alloc, CoreStmtForm::Perform { operand, values })
}

/// `break` or `continue` at a label.
pub fn branch(alloc: Global, kind: BranchKind, label: Label) -> Result<CoreStmt, NoMemory>
    ensures value { IfOk result (λ s. (ts : List Ty) → stmt_view ts s ≡ core.branch (branch_of kind) label.0) }
{
    statement(alloc, CoreStmtForm::Branch { kind, label })
}

/// `return` with these values.
pub fn give_back(alloc: Global, values: CoreExprs) -> Result<CoreStmt, NoMemory>
    ensures value { IfOk result (λ s. (ts : List Ty) → stmt_view ts s ≡ core.return_ (exprs_view ts values)) }
{
    statement(alloc, CoreStmtForm::Return(values))
}
