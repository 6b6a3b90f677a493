//! Names that declare variables.
//!
//! Go, "Variable declarations", "Short variable declarations".

ghost use Rattle.std.specs.Prelude.{◌≡◌, ◌<◌, ◌++◌, List, None, Some, OnOk, IfOk, IfSome, map, option_map};
ghost use Rattle.go_type.specs.Tree.{Ty};
ghost use Rattle.go_type.specs.Levels.{tree_of};
ghost use Rattle.go_type.specs.Table.{size};
ghost use Rattle.go_core.specs.CoreView.{target_view, stmt_view};
ghost use Rattle.go_operands.specs.EnvView.{table_of};
ghost use Rattle.go_calls.specs.Words.{types_of};
ghost use Rattle.go_typing.specs.Walk.{is_there, with_variable};
ghost use Rattle.go_typing.specs.Assign.{new_stmts, new_target, with_new};
ghost use Rattle.go_typing.specs.Declare.{declare_one, declare_stmts, declare_target};
ghost use Rattle.go_walk.specs.WalkView.{walk_of, depth, Keeps};
ghost use Rattle.go_assign.specs.Moves.{Moves};

use gj_base::{NoMemory, Place};
use go_core::node::Var;
use go_core::statement::{CoreStmt, Target};
use go_syntax::tree::Name;
use go_type::types::TypeId;
use go_walk::stmt_gone::more::and_stmt;
use go_walk::stmt_nodes::simple::declare;
use go_walk::stmt_nodes::store::{blank, local};
use go_walk::walk::Walk;
use go_walk::walk::variables::{unknown, variable};
use std::alloc::Global;

// A fresh variable of a type, with its name and the statement that declares it.
#[tactic(auto, using(crate::proofs::EmitLemmas::declare_more, crate::proofs::EmitLemmas::local_kept, crate::proofs::WalkLemmas::moves_in))]
fn new_variable(
    alloc: Global,
    walk: &mut Walk,
    n: &Name,
    ty: TypeId,
    out: &mut Vec<CoreStmt>,
) -> Result<Target, NoMemory>
    requires depth { 0 < depth walk.old }
    requires missing { (ts : List Ty) → is_there n.now (walk_of ts walk.old) ≡ None }
    requires below { ty.0 < size (table_of walk.old.env) }
    ensures core { OnOk result ((ts : List Ty) → Keeps (table_of walk.old.env) ts → map (stmt_view ts) out.new.items ≡ map (stmt_view ts) out.old.items ++ new_stmts (walk_of ts walk.old) (Some (tree_of (types_of walk.old.env) ty))) }
    ensures target { IfOk result (λ g. (ts : List Ty) → Keeps (table_of walk.old.env) ts → target_view ts g ≡ new_target (walk_of ts walk.old) (Some (tree_of (types_of walk.old.env) ty))) }
    ensures walk { OnOk result (Moves (with_variable n.now (tree_of (types_of walk.old.env) ty)) walk.old walk.new) }
    ensures table { table_of walk.new.env ≡ table_of walk.old.env }
{
    let id = variable(walk, n, ty)?;
    let s = declare(alloc, Var { id, ty })?;
    match and_stmt(out, s) {
        Ok(()) => match local(alloc, ty, id) {
            Ok(target) => Ok(target),
            Err(error) => Err(error),
        },
        Err(error) => Err(error),
    }
}

// A name whose type isn't known.
#[tactic(auto, using(crate::proofs::WalkLemmas::moves_in, crate::proofs::NameLemmas::no_more))]
fn new_unknown(walk: &mut Walk, n: &Name) -> Result<Target, NoMemory>
    requires depth { 0 < depth walk.old }
    requires missing { (ts : List Ty) → is_there n.now (walk_of ts walk.old) ≡ None }
    ensures target { IfOk result (λ g. (ts : List Ty) → target_view ts g ≡ new_target (walk_of ts walk.old) None) }
    ensures walk { OnOk result (Moves (with_new n.now None) walk.old walk.new) }
    ensures table { table_of walk.new.env ≡ table_of walk.old.env }
{
    match unknown(walk, n) {
        Ok(()) => Ok(blank()),
        Err(error) => Err(error),
    }
}

// A name that the innermost scope hasn't.
#[tactic(auto, using(crate::proofs::NameLemmas::no_more))]
fn new_name(
    alloc: Global,
    walk: &mut Walk,
    n: &Name,
    ty: Option<TypeId>,
    out: &mut Vec<CoreStmt>,
) -> Result<Target, NoMemory>
    requires depth { 0 < depth walk.old }
    requires missing { (ts : List Ty) → is_there n.now (walk_of ts walk.old) ≡ None }
    requires below { IfSome ty (λ t. t.0 < size (table_of walk.old.env)) }
    ensures core { OnOk result ((ts : List Ty) → Keeps (table_of walk.old.env) ts → map (stmt_view ts) out.new.items ≡ map (stmt_view ts) out.old.items ++ new_stmts (walk_of ts walk.old) (option_map (tree_of (types_of walk.old.env)) ty)) }
    ensures target { IfOk result (λ g. (ts : List Ty) → Keeps (table_of walk.old.env) ts → target_view ts g ≡ new_target (walk_of ts walk.old) (option_map (tree_of (types_of walk.old.env)) ty)) }
    ensures walk { OnOk result (Moves (with_new n.now (option_map (tree_of (types_of walk.old.env)) ty)) walk.old walk.new) }
    ensures table { table_of walk.new.env ≡ table_of walk.old.env }
{
    match ty {
        Some(t) => new_variable(alloc, walk, n, t, out),
        None => new_unknown(walk, n),
    }
}

/// A name of a declaration of variables, with its type if that is known. Where its scope has it already
/// nothing is declared.
#[tactic(auto, using(crate::proofs::NameLemmas::no_more, crate::proofs::NameLemmas::moves_none))]
pub fn declared(
    alloc: Global,
    walk: &mut Walk,
    n: &Name,
    at: Option<Place>,
    ty: Option<TypeId>,
    out: &mut Vec<CoreStmt>,
) -> Result<Target, NoMemory>
    requires depth { 0 < depth walk.old }
    requires there { (ts : List Ty) → is_there n.now (walk_of ts walk.old) ≡ at }
    requires below { IfSome ty (λ t. t.0 < size (table_of walk.old.env)) }
    ensures core { OnOk result ((ts : List Ty) → Keeps (table_of walk.old.env) ts → map (stmt_view ts) out.new.items ≡ map (stmt_view ts) out.old.items ++ declare_stmts at (walk_of ts walk.old) (option_map (tree_of (types_of walk.old.env)) ty)) }
    ensures target { IfOk result (λ g. (ts : List Ty) → Keeps (table_of walk.old.env) ts → target_view ts g ≡ declare_target at (walk_of ts walk.old) (option_map (tree_of (types_of walk.old.env)) ty)) }
    ensures walk { OnOk result (Moves (declare_one n.now at (option_map (tree_of (types_of walk.old.env)) ty)) walk.old walk.new) }
    ensures table { table_of walk.new.env ≡ table_of walk.old.env }
{
    match at {
        Some(_) => Ok(blank()),
        None => new_name(alloc, walk, n, ty, out),
    }
}
