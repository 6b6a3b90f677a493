//! Nodes without operands.

ghost use Rattle.std.specs.Prelude.{◌≡◌, IfOk, List};
ghost use Rattle.go_type.specs.Tree.{Ty};
ghost use Rattle.go_type.specs.Levels.{tree_of};
ghost use Rattle.go_core.specs.CoreTree as core;
ghost use Rattle.go_core.specs.CoreView.{expr_view};

use crate::nodes::form::{expression, place};
use gj_base::{NoMemory, Text};
use go_core::node::{Constant, CoreExpr, CoreForm, GlobalId, PlaceForm, VarId};
use go_type::types::TypeId;
use std::alloc::Global;

/// A truth value of a type.
pub fn truth(alloc: Global, ty: TypeId, value: bool) -> Result<CoreExpr, NoMemory>
    ensures value { IfOk result (λ e. (ts : List Ty) → expr_view ts e ≡ core.constant (tree_of ts ty) (core.truth_constant value)) }
{
    let value = Constant::Bool(value);
    expression(alloc, CoreForm::Const { ty, value })
}

/// A whole number of a type.
pub fn whole(alloc: Global, ty: TypeId, value: i128) -> Result<CoreExpr, NoMemory>
    ensures value { IfOk result (λ e. (ts : List Ty) → expr_view ts e ≡ core.constant (tree_of ts ty) (core.whole_constant value)) }
{
    let value = Constant::Int(value);
    expression(alloc, CoreForm::Const { ty, value })
}

/// A string of a type, with these bytes.
pub fn text(alloc: Global, ty: TypeId, bytes: &Text) -> Result<CoreExpr, NoMemory>
    ensures value { IfOk result (λ e. (ts : List Ty) → expr_view ts e ≡ core.constant (tree_of ts ty) (core.text_constant bytes.now)) }
{
    let bytes = Text::from_slice(alloc, bytes.as_bytes())?;
    let value = Constant::Text(bytes);
    expression(alloc, CoreForm::Const { ty, value })
}

/// The zero of a type.
pub fn zero(alloc: Global, ty: TypeId) -> Result<CoreExpr, NoMemory>
    ensures value { IfOk result (λ e. (ts : List Ty) → expr_view ts e ≡ core.zero_value (tree_of ts ty)) }
{
    expression(alloc, CoreForm::Zero { ty })
}

/// What a variable of a function holds.
pub fn read_local(alloc: Global, ty: TypeId, var: VarId) -> Result<CoreExpr, NoMemory>
    ensures value { IfOk result (λ e. (ts : List Ty) → expr_view ts e ≡ core.read (tree_of ts ty) (core.local_ var.0)) }
{
    let place = place(alloc, PlaceForm::Local(var))?;
    expression(alloc, CoreForm::Read { ty, place })
}

/// What a package variable holds.
pub fn read_global(alloc: Global, ty: TypeId, number: GlobalId) -> Result<CoreExpr, NoMemory>
    ensures value { IfOk result (λ e. (ts : List Ty) → expr_view ts e ≡ core.read (tree_of ts ty) (core.global number.0)) }
{
    let place = place(alloc, PlaceForm::Global(number))?;
    expression(alloc, CoreForm::Read { ty, place })
}
