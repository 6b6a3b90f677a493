//! Parameters and results as variables of their function's scope. One without a name is a variable too.

ghost use Rattle.std.specs.Prelude.{◌≡◌, ◌<◌, List, None, Some, OnOk, length, map, option_map};
ghost use Rattle.go_items.specs.ParamView.{grouped_view, named_view};
ghost use Rattle.go_typing.specs.Signature.{type_of_param, bound_name, bound, all_bound};
ghost use Rattle.go_operands.specs.EnvView.{table_of};
ghost use Rattle.go_typing.specs.Walk as go;
ghost use Rattle.go_typing.specs.Walk.{is_there};
ghost use Rattle.go_type.specs.Levels.{tree_of};
ghost use Rattle.go_type.specs.Table.{size};
ghost use Rattle.go_type.specs.Tree.{Ty};
ghost use Rattle.go_walk.specs.WalkView.{walk_of, depth, Keeps};
ghost use Rattle.go_decls.specs.Bound.{type_view, TypeBelow, TypesBelow};

use crate::params::names::owned;
use gj_base::NoMemory;
use go_items::items::param::{Grouped, Named};
use go_operands::scopes::Declared;
use go_syntax::tree::Name;
use go_type::types::TypeId;
use go_walk::walk::Walk;
use go_walk::walk::scopes::{name, there};
use go_walk::walk::variables::fresh;

// A name that its scope hasn't, with its type.
fn declare_typed(walk: &mut Walk, n: &Name, ty: TypeId) -> Result<(), NoMemory>
    requires depth { 0 < depth walk.old }
    requires missing { (ts : List Ty) → is_there n.now (walk_of ts walk.old) ≡ None }
    requires below { ty.0 < size (table_of walk.old.env) }
    ensures value { OnOk result ((ts : List Ty) → Keeps (table_of walk.old.env) ts → walk_of ts walk.new ≡ bound_name n.now (Some (tree_of ts ty)) None (walk_of ts walk.old)) }
    ensures depth { depth walk.new ≡ depth walk.old }
    ensures table { table_of walk.new.env ≡ table_of walk.old.env }
{
    let id = fresh(walk, ty)?;
    name(walk, n, Declared::Var(id, ty))?;
    Ok(())
}

// The same with its type where that is known.
fn declare(walk: &mut Walk, n: &Name, ty: Option<TypeId>) -> Result<(), NoMemory>
    requires depth { 0 < depth walk.old }
    requires missing { (ts : List Ty) → is_there n.now (walk_of ts walk.old) ≡ None }
    requires below { TypeBelow (size (table_of walk.old.env)) ty }
    ensures value { OnOk result ((ts : List Ty) → Keeps (table_of walk.old.env) ts → walk_of ts walk.new ≡ bound_name n.now (type_view ts ty) None (walk_of ts walk.old)) }
    ensures depth { depth walk.new ≡ depth walk.old }
    ensures table { table_of walk.new.env ≡ table_of walk.old.env }
{
    match ty {
        None => {
            name(walk, n, Declared::Unknown)?;
            Ok(())
        }
        Some(ty) => declare_typed(walk, n, ty),
    }
}

// A name is declared where its scope hasn't it.
fn bind_name(walk: &mut Walk, n: &Name, ty: Option<TypeId>) -> Result<(), NoMemory>
    requires depth { 0 < depth walk.old }
    requires below { TypeBelow (size (table_of walk.old.env)) ty }
    ensures value { OnOk result ((ts : List Ty) → Keeps (table_of walk.old.env) ts → walk_of ts walk.new ≡ bound (Some n.now) (type_view ts ty) (walk_of ts walk.old)) }
    ensures depth { depth walk.new ≡ depth walk.old }
    ensures table { table_of walk.new.env ≡ table_of walk.old.env }
{
    match there(walk, n) {
        Some(_) => Ok(()),
        None => {
            declare(walk, n, ty)?;
            Ok(())
        }
    }
}

fn bind_named(walk: &mut Walk, n: Named<'_>, ty: Option<TypeId>) -> Result<(), NoMemory>
    requires depth { 0 < depth walk.old }
    requires below { TypeBelow (size (table_of walk.old.env)) ty }
    ensures value { OnOk result ((ts : List Ty) → Keeps (table_of walk.old.env) ts → walk_of ts walk.new ≡ bound (Some (named_view (n).entry)) (type_view ts ty) (walk_of ts walk.old)) }
    ensures depth { depth walk.new ≡ depth walk.old }
    ensures table { table_of walk.new.env ≡ table_of walk.old.env }
{
    let n = owned(n.place, n.text)?;
    bind_name(walk, &n, ty)?;
    Ok(())
}

// One without a name is a variable where its type is known.
fn bind_unnamed(walk: &mut Walk, ty: Option<TypeId>) -> Result<(), NoMemory>
    ensures value { OnOk result ((ts : List Ty) → walk_of ts walk.new ≡ bound None (type_view ts ty) (walk_of ts walk.old)) }
    ensures env { walk.new.env ≡ walk.old.env }
{
    match ty {
        None => Ok(()),
        Some(ty) => {
            fresh(walk, ty)?;
            Ok(())
        }
    }
}

fn bind(walk: &mut Walk, name: Option<Named<'_>>, ty: Option<TypeId>) -> Result<(), NoMemory>
    requires depth { 0 < depth walk.old }
    requires below { TypeBelow (size (table_of walk.old.env)) ty }
    ensures value { OnOk result ((ts : List Ty) → Keeps (table_of walk.old.env) ts → walk_of ts walk.new ≡ bound (option_map named_view (name).entry) (type_view ts ty) (walk_of ts walk.old)) }
    ensures depth { depth walk.new ≡ depth walk.old }
    ensures table { table_of walk.new.env ≡ table_of walk.old.env }
{
    match name {
        None => {
            bind_unnamed(walk, ty)?;
            Ok(())
        }
        Some(n) => {
            bind_named(walk, n, ty)?;
            Ok(())
        }
    }
}

/// Parameters and results, each a variable of its type where that is known. These are their types in the
/// scopes outside the function, or none for one whose type isn't known.
pub fn bind_all(
    walk: &mut Walk,
    params: &[Grouped<'_>],
    types: &[Option<TypeId>],
) -> Result<(), NoMemory>
    requires depth { 0 < depth walk.old }
    requires count { length params.now ≡ length types.now }
    requires below { TypesBelow (size (table_of walk.old.env)) types.now }
    ensures value { OnOk result ((ts : List Ty) (w : go.Walk) → Keeps (table_of walk.old.env) ts → map (type_view ts) types.now ≡ map (type_of_param w) (map grouped_view params.now) → walk_of ts walk.new ≡ all_bound w (map grouped_view params.now) (walk_of ts walk.old)) }
    ensures depth { depth walk.new ≡ depth walk.old }
    ensures table { table_of walk.new.env ≡ table_of walk.old.env }
{
    for i in 0..params.len() {
        bind(walk, params[i].name, types[i])?;
    }
    Ok(())
}
