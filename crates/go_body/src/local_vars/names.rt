//! Names of variables, which are declared one by one.

ghost use Rattle.std.specs.Prelude.{◌≡◌, ◌<◌, OnOk, IfSome, List, option_map};
ghost use Rattle.go_type.specs.Tree.{Ty};
ghost use Rattle.go_type.specs.Levels.{tree_of};
ghost use Rattle.go_type.specs.Table.{size};
ghost use Rattle.go_operands.specs.EnvView.{table_of};
ghost use Rattle.go_calls.specs.Words.{types_of};
ghost use Rattle.go_typing.specs.Walk.{is_there};
ghost use Rattle.go_walk.specs.WalkView.{walk_of, depth};
ghost use Rattle.go_body.specs.LocalVarsLeft.{Puts};

use gj_base::{NoMemory, Place};
use go_assign::effects::declared;
use go_core::statement::{CoreStmt, Target};
use go_syntax::tree::Name;
use go_type::types::TypeId;
use go_walk::stmt_gone::more::and_target;
use go_walk::walk::Walk;
use std::alloc::Global;

/// A name with its type if that is known: the statement that declares it, and its left side.
#[tactic(auto, using(crate::proofs::NameLemmas::puts_from))]
pub fn put(
    alloc: Global,
    walk: &mut Walk,
    out: &mut Vec<CoreStmt>,
    targets: &mut Vec<Target>,
    n: &Name,
    at: Option<Place>,
    ty: Option<TypeId>,
) -> Result<(), NoMemory>
    requires depth { 0 < depth walk.old }
    requires there { (ts : List Ty) → is_there n.now (walk_of ts walk.old) ≡ at }
    requires below { IfSome ty (λ t. t.0 < size (table_of walk.old.env)) }
    ensures puts { OnOk result (Puts n.now at (option_map (tree_of (types_of walk.old.env)) ty) walk.old walk.new out.old.items out.new.items targets.old.items targets.new.items) }
{
    match declared(alloc, walk, n, at, ty, out) {
        Ok(target) => match and_target(targets, target) {
            Ok(()) => Ok(()),
            Err(error) => Err(error),
        },
        Err(error) => Err(error),
    }
}
