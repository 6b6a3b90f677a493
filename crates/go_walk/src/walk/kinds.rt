//! Types that are declared in functions.
//!
//! Go, "Type definitions".

ghost use Rattle.std.specs.Prelude.{◌≡◌, ◌<◌, ◌≤◌, ◌∷◌, ◌++◌, [], List, None, Some, true, false, OnOk, IfOk, length};
ghost use Rattle.go_type.specs.Tree.{Ty};
ghost use Rattle.go_type.specs.Tree as ty;
ghost use Rattle.go_type.specs.Levels.{tree_of};
ghost use Rattle.go_type.specs.Named.{IsUnnamed};
ghost use Rattle.go_type.specs.Table.{places, names, size, KeepsTrees};
ghost use Rattle.go_type.specs.Underlying.{underlying};
ghost use Rattle.go_operands.specs.EnvView.{table_of, env_of, with_types};
ghost use Rattle.go_typing.specs.Walk.{is_there};
ghost use Rattle.go_typing.specs.Declare.{declare_type};
ghost use Rattle.go_walk.specs.WalkView.{walk_of, depth, named_for};

use crate::walk::scopes::name;
use crate::walk::walk::Walk;
use gj_base::{NoMemory, Text};
use go_operands::scopes::{Declared, Env};
use go_syntax::tree::Name;
use go_type::types::{GoType, TypeId};
use std::alloc::Global;

// A new named type that stands for what the other type does, which has no name itself.
fn new_type(alloc: Global, env: &mut Env, n: &Name, of: TypeId) -> Result<TypeId, NoMemory>
    requires below { of.0 < size (table_of env.old) }
    requires set { IsUnnamed (underlying (names (table_of env.old)) (tree_of (places (table_of env.old)) of)) }
    ensures env { OnOk result (env_of env.new ≡ with_types (names (table_of env.old) ++ named_for n.now.text (underlying (names (table_of env.old)) (tree_of (places (table_of env.old)) of)) ∷ []) (env_of env.old)) }
    ensures tree { IfOk result (λ id. tree_of (places (table_of env.new)) id ≡ ty.named (length (names (table_of env.old)))) }
    ensures within { IfOk result (λ id. id.0 < size (table_of env.new)) }
    ensures kept { KeepsTrees (table_of env.old) (table_of env.new) }
    ensures counts { size (table_of env.old) ≤ size (table_of env.new) }
{
    let under = env.table().underlying(of);
    let text = n.text.clone()?;
    let id = env.add_named(text, Text::new(alloc))?;
    env.set_named(id, under);
    env.add(GoType::Named(id))
}

/// A new named type of the innermost scope, where the name isn't declared yet, and where what the other
/// type stands for has no name itself.
pub fn local_type(walk: &mut Walk, n: &Name, of: TypeId) -> Result<(), NoMemory>
    requires depth { 0 < depth walk.old }
    requires missing { (ts : List Ty) → is_there n.now (walk_of ts walk.old) ≡ None }
    requires below { of.0 < size (table_of walk.old.env) }
    requires set { IsUnnamed (underlying (names (table_of walk.old.env)) (tree_of (places (table_of walk.old.env)) of)) }
    ensures value { OnOk result ((ts : List Ty) → walk_of ts walk.new ≡ declare_type n.now false (Some (tree_of (places (table_of walk.old.env)) of)) (walk_of ts walk.old)) }
    ensures depth { OnOk result (depth walk.new ≡ depth walk.old) }
    ensures kept { KeepsTrees (table_of walk.old.env) (table_of walk.new.env) }
    ensures counts { size (table_of walk.old.env) ≤ size (table_of walk.new.env) }
{
    let alloc = *walk.used.allocator();
    let ty = new_type(alloc, &mut walk.env, n, of)?;
    name(walk, n, Declared::TypeName(ty))?;
    Ok(())
}

/// An alias of the innermost scope, where the name isn't declared yet.
pub fn local_alias(walk: &mut Walk, n: &Name, of: TypeId) -> Result<(), NoMemory>
    requires depth { 0 < depth walk.old }
    requires missing { (ts : List Ty) → is_there n.now (walk_of ts walk.old) ≡ None }
    requires below { of.0 < size (table_of walk.old.env) }
    ensures value { OnOk result ((ts : List Ty) → walk_of ts walk.new ≡ declare_type n.now true (Some (tree_of (places (table_of walk.old.env)) of)) (walk_of ts walk.old)) }
    ensures depth { depth walk.new ≡ depth walk.old }
    ensures table { table_of walk.new.env ≡ table_of walk.old.env }
{
    name(walk, n, Declared::TypeName(of))
}
