//! Variables that statements declare.

ghost use Rattle.std.specs.Prelude.{◌≡◌, ◌<◌, List, None, OnOk, IfOk};
ghost use Rattle.go_type.specs.Tree.{Ty};
ghost use Rattle.go_type.specs.Levels.{tree_of};
ghost use Rattle.go_type.specs.Table.{size};
ghost use Rattle.go_operands.specs.EnvView.{table_of};
ghost use Rattle.go_typing.specs.Walk.{is_there, fresh, noted, with_variable, with_unknown};
ghost use Rattle.go_walk.specs.WalkView.{walk_of, depth, Keeps};

use crate::labels::blank::is_blank;
use crate::walk::scopes::name;
use crate::walk::walk::Walk;
use gj_base::NoMemory;
use go_core::node::{Var, VarId};
use go_operands::scopes::Declared;
use go_syntax::tree::Name;
use go_type::types::TypeId;

/// A fresh variable of a type; its number.
pub fn fresh(walk: &mut Walk, ty: TypeId) -> Result<VarId, NoMemory>
    ensures id { IfOk result (λ v. v.0 ≡ walk.old.next) }
    ensures value { OnOk result ((ts : List Ty) → walk_of ts walk.new ≡ fresh (tree_of ts ty) (walk_of ts walk.old)) }
    ensures env { walk.new.env ≡ walk.old.env }
{
    let id = VarId(walk.next);
    let Some(next) = walk.next.checked_add(1) else {
        return Err(NoMemory);
    };
    walk.vars.push(Var { id, ty })?;
    walk.next = next;
    Ok(id)
}

/// Own: each use of the name is looked for.
pub fn note(walk: &mut Walk, n: &Name) -> Result<(), NoMemory>
    ensures value { OnOk result ((ts : List Ty) → walk_of ts walk.new ≡ noted n.now (walk_of ts walk.old)) }
    ensures env { walk.new.env ≡ walk.old.env }
    ensures next { walk.new.next ≡ walk.old.next }
{
    if is_blank(&n.text) {
        return Ok(());
    }
    let text = n.text.clone()?;
    walk.declared.push(Name {
        place: n.place,
        text,
    })?;
    Ok(())
}

/// A variable with its name, in the innermost scope, where the name isn't declared yet; its number.
pub fn variable(walk: &mut Walk, n: &Name, ty: TypeId) -> Result<VarId, NoMemory>
    requires depth { 0 < depth walk.old }
    requires missing { (ts : List Ty) → is_there n.now (walk_of ts walk.old) ≡ None }
    requires below { ty.0 < size (table_of walk.old.env) }
    ensures id { IfOk result (λ v. v.0 ≡ walk.old.next) }
    ensures value { OnOk result ((ts : List Ty) → Keeps (table_of walk.old.env) ts → walk_of ts walk.new ≡ with_variable n.now (tree_of ts ty) (walk_of ts walk.old)) }
    ensures depth { depth walk.new ≡ depth walk.old }
    ensures table { table_of walk.new.env ≡ table_of walk.old.env }
{
    let id = fresh(walk, ty)?;
    note(walk, n)?;
    name(walk, n, Declared::Var(id, ty))?;
    Ok(id)
}

/// The same where its type isn't known.
pub fn unknown(walk: &mut Walk, n: &Name) -> Result<(), NoMemory>
    requires depth { 0 < depth walk.old }
    requires missing { (ts : List Ty) → is_there n.now (walk_of ts walk.old) ≡ None }
    ensures value { OnOk result ((ts : List Ty) → walk_of ts walk.new ≡ with_unknown n.now (walk_of ts walk.old)) }
    ensures depth { depth walk.new ≡ depth walk.old }
    ensures table { table_of walk.new.env ≡ table_of walk.old.env }
{
    note(walk, n)?;
    name(walk, n, Declared::Unknown)
}
