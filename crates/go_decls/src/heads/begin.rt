//! Where a function's body begins.
//!
//! Go, "Declarations and scope", "Function declarations".

ghost use Rattle.std.specs.Prelude.{◌≡◌, ◌+◌, List, OnOk, length, map};
ghost use Rattle.go_type.specs.Table.{size};
ghost use Rattle.go_type.specs.Tree.{Ty};
ghost use Rattle.go_operands.specs.EnvView.{table_of};
ghost use Rattle.go_items.specs.ParamView.{grouped_view};
ghost use Rattle.go_typing.specs.Signature.{type_of_param, all_bound, inside};
ghost use Rattle.go_decls.specs.Bound.{type_view, TypesBelow};
ghost use Rattle.go_typing.specs.Walk as go;
ghost use Rattle.go_walk.specs.WalkView.{walk_of, depth, Keeps};

use crate::heads::head::Head;
use crate::params::bind_all;
use gj_base::NoMemory;
use go_walk::walk::Walk;

/// Opens a function's own scope, where its parameters and results are declared.
pub fn begin(walk: &mut Walk, head: &Head<'_>) -> Result<(), NoMemory>
    requires count { length head.now.params.items ≡ length head.now.types.items }
    requires below { TypesBelow (size (table_of walk.old.env)) head.now.types.items }
    ensures value { OnOk result ((ts : List Ty) (w : go.Walk) → Keeps (table_of walk.old.env) ts → map (type_view ts) head.now.types.items ≡ map (type_of_param w) (map grouped_view head.now.params.items) → walk_of ts walk.new ≡ all_bound w (map grouped_view head.now.params.items) (inside (walk_of ts walk.old))) }
    ensures depth { OnOk result (depth walk.new ≡ depth walk.old + 1) }
    ensures table { OnOk result (table_of walk.new.env ≡ table_of walk.old.env) }
{
    walk.begin()?;
    bind_all(walk, head.params.as_slice(), head.types.as_slice())?;
    Ok(())
}
