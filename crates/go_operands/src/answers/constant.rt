//! Constants as nodes.

ghost use Rattle.std.specs.Prelude.{◌≡◌, IfOk, List};
ghost use Rattle.go_type.specs.Tree.{Ty};
ghost use Rattle.go_type.specs.Levels.{tree_of};
ghost use Rattle.go_core.specs.CoreView.{expr_view};
ghost use Rattle.go_typing.specs.Operand.{constant_at};

use crate::nodes::leaf;
use gj_base::NoMemory;
use go_const::Const;
use go_core::node::CoreExpr;
use go_type::types::TypeId;
use std::alloc::Global;

/// The node of a constant of a type.
pub fn constant_at(alloc: Global, t: TypeId, k: &Const) -> Result<CoreExpr, NoMemory>
    ensures value { IfOk result (λ e. (ts : List Ty) → expr_view ts e ≡ constant_at (tree_of ts t) k.now) }
{
    match k {
        Const::Bool(b) => leaf::truth(alloc, t, *b),
        Const::Int(z) | Const::Rune(z) => leaf::whole(alloc, t, *z),
        Const::Text(text) => leaf::text(alloc, t, text),
    }
}
