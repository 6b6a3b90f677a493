//! Nodes from their forms.

ghost use Rattle.std.specs.Prelude.{◌≡◌, IfOk, List};
ghost use Rattle.go_type.specs.Tree.{Ty};
ghost use Rattle.go_core.specs.CoreView.{expr_view, expr_form_view, place_view, place_form_view, stmt_view, stmt_form_view};

use gj_base::NoMemory;
use go_core::node::{CoreExpr, CoreForm, CorePlace, PlaceForm};
use go_core::statement::{CoreStmt, CoreStmtForm};
use std::alloc::Global;

/// An expression of a form.
pub fn expression(alloc: Global, form: CoreForm) -> Result<CoreExpr, NoMemory>
    ensures value { IfOk result (λ e. (ts : List Ty) → expr_view ts e ≡ expr_form_view ts form) }
{
    let form = Box::new(alloc, form)?;
    Ok(CoreExpr { form })
}

/// What denotes storage, of a form.
pub fn place(alloc: Global, form: PlaceForm) -> Result<CorePlace, NoMemory>
    ensures value { IfOk result (λ p. (ts : List Ty) → place_view ts p ≡ place_form_view ts form) }
{
    let form = Box::new(alloc, form)?;
    Ok(CorePlace { form })
}

/// A statement of a form.
pub fn statement(alloc: Global, form: CoreStmtForm) -> Result<CoreStmt, NoMemory>
    ensures value { IfOk result (λ s. (ts : List Ty) → stmt_view ts s ≡ stmt_form_view ts form) }
{
    let form = Box::new(alloc, form)?;
    Ok(CoreStmt { form })
}
