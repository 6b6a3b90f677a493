//! Assignments.

ghost use Rattle.std.specs.Prelude.{◌≡◌, IfOk, List, map};
ghost use Rattle.go_type.specs.Tree.{Ty};
ghost use Rattle.go_type.specs.Levels.{tree_of};
ghost use Rattle.go_core.specs.CoreTree as core;
ghost use Rattle.go_core.specs.CoreView.{expr_view, exprs_view, exprs_of, stmt_view, target_view};

use gj_base::NoMemory;
use go_core::node::{CoreExpr, CoreExprs, GlobalId, PlaceForm, VarId};
use go_core::statement::{CoreStmt, CoreStmtForm, Target, Targets};
use go_operands::nodes::form::{place, statement};
use go_type::types::TypeId;
use std::alloc::Global;

/// The left side `_`.
pub fn blank() -> Target
    ensures value { (ts : List Ty) → target_view ts result ≡ core.blank }
{
    Target::Blank
}

/// A variable of a function as a left side.
pub fn local(alloc: Global, ty: TypeId, var: VarId) -> Result<Target, NoMemory>
    ensures value { IfOk result (λ x. (ts : List Ty) → target_view ts x ≡ core.to_place (tree_of ts ty) (core.local_ var.0)) }
{
    let place = place(alloc, PlaceForm::Local(var))?;
    Ok(Target::Place { ty, place })
}

/// A package variable as a left side.
pub fn global(alloc: Global, ty: TypeId, number: GlobalId) -> Result<Target, NoMemory>
    ensures value { IfOk result (λ x. (ts : List Ty) → target_view ts x ≡ core.to_place (tree_of ts ty) (core.global number.0)) }
{
    let place = place(alloc, PlaceForm::Global(number))?;
    Ok(Target::Place { ty, place })
}

/// These values, in order.
pub fn values(items: Vec<CoreExpr>) -> CoreExprs
    ensures value { (ts : List Ty) → exprs_view ts result ≡ exprs_of (map (expr_view ts) items.items) }
{
    CoreExprs { items }
}

/// Left sides with what they are set to.
pub fn store(alloc: Global, targets: Vec<Target>, values: CoreExprs) -> Result<CoreStmt, NoMemory>
    ensures value { IfOk result (λ s. (ts : List Ty) → stmt_view ts s ≡ core.store (map (target_view ts) targets.items) (exprs_view ts values)) }
{
    let targets = Targets { items: targets };
    statement(alloc, CoreStmtForm::Store { targets, values })
}
