//! Nodes from a place and a form.

ghost use Rattle.std.specs.Prelude.{◌≡◌, IfOk};
ghost use Rattle.go_syntax.specs.View.{expr_view, expr_form_view, stmt_view, stmt_form_view, decl_view, decl_form_view};

use crate::tree::{Decl, DeclForm, Expr, ExprForm, Stmt, StmtForm};
use gj_base::{NoMemory, Place};
use std::alloc::Global;

pub fn expression(alloc: Global, place: Place, form: ExprForm) -> Result<Expr, NoMemory>
    ensures value { IfOk result (λ e. expr_view e ≡ expr_form_view form place) }
{
    let form = Box::new(alloc, form)?;
    Ok(Expr { place, form })
}

pub fn statement(alloc: Global, place: Place, form: StmtForm) -> Result<Stmt, NoMemory>
    ensures value { IfOk result (λ s. stmt_view s ≡ stmt_form_view form place) }
{
    let form = Box::new(alloc, form)?;
    Ok(Stmt { place, form })
}

pub fn declaration(alloc: Global, place: Place, form: DeclForm) -> Result<Decl, NoMemory>
    ensures value { IfOk result (λ d. decl_view d ≡ decl_form_view form place) }
{
    let form = Box::new(alloc, form)?;
    Ok(Decl { place, form })
}
