//! Scopes that are opened and closed, and names in the innermost one.
//!
//! Go, "Blocks", "Declarations and scope", "Iota".

ghost use Rattle.std.specs.Prelude.{◌≡◌, ◌<◌, ◌+◌, List, None, Some, OnOk};
ghost use Rattle.go_type.specs.Tree.{Ty};
ghost use Rattle.go_type.specs.Table.{places, size};
ghost use Rattle.go_operands.specs.EnvView.{table_of, env_of};
ghost use Rattle.go_operands.specs.View.{decl_of};
ghost use Rattle.go_operands.specs.Within.{DeclaredBelow};
ghost use Rattle.go_typing.specs.Scopes as scopes;
ghost use Rattle.go_typing.specs.Walk.{pushed, popped, is_there, with_name};
ghost use Rattle.go_typing.specs.Declare.{counting};
ghost use Rattle.go_walk.specs.WalkView.{walk_of, depth};

use crate::labels::blank::is_blank;
use crate::walk::walk::Walk;
use gj_base::{NoMemory, Place};
use go_operands::scopes::Declared;
use go_syntax::tree::Name;

/// Opens a block.
pub fn push(walk: &mut Walk) -> Result<(), NoMemory>
    ensures value { OnOk result ((ts : List Ty) → walk_of ts walk.new ≡ pushed (walk_of ts walk.old)) }
    ensures depth { OnOk result (depth walk.new ≡ depth walk.old + 1) }
    ensures table { table_of walk.new.env ≡ table_of walk.old.env }
{
    walk.env.push()
}

/// Closes a block.
pub fn pop(walk: &mut Walk)
    requires depth { 0 < depth walk.old }
    ensures value { (ts : List Ty) → walk_of ts walk.new ≡ popped (walk_of ts walk.old) }
    ensures depth { depth walk.new + 1 ≡ depth walk.old }
    ensures table { table_of walk.new.env ≡ table_of walk.old.env }
{
    walk.env.pop();
}

/// Where a name is declared in the innermost scope, if it is. `_` is declared nowhere.
pub fn there(walk: &Walk, n: &Name) -> Option<Place>
    requires depth { 0 < depth walk.now }
    ensures value { (ts : List Ty) → result ≡ is_there n.now (walk_of ts walk.now) }
{
    if is_blank(&n.text) {
        return None;
    }
    walk.env.place(n.text.as_bytes())
}

/// A name of the innermost scope, where it isn't declared yet. `_` is declared nowhere.
pub fn name(walk: &mut Walk, n: &Name, what: Declared) -> Result<(), NoMemory>
    requires depth { 0 < depth walk.old }
    requires missing { (ts : List Ty) → is_there n.now (walk_of ts walk.old) ≡ None }
    requires below { DeclaredBelow (size (table_of walk.old.env)) what }
    ensures value { OnOk result ((ts : List Ty) → walk_of ts walk.new ≡ with_name n.now (decl_of (places (table_of walk.old.env)) what) (walk_of ts walk.old)) }
    ensures depth { depth walk.new ≡ depth walk.old }
    ensures table { table_of walk.new.env ≡ table_of walk.old.env }
{
    if is_blank(&n.text) {
        return Ok(());
    }
    let text = n.text.clone()?;
    walk.env.declare(text, n.place, what)?;
    Ok(())
}

/// Says which specification of a declaration of constants is typed next.
pub fn count(walk: &mut Walk, number: u64)
    requires none { (env_of walk.old.env).iota ≡ None }
    ensures value { (ts : List Ty) → walk_of ts walk.new ≡ counting number (walk_of ts walk.old) }
    ensures env { env_of walk.new.env ≡ scopes.counting (Some number) (env_of walk.old.env) }
    ensures table { table_of walk.new.env ≡ table_of walk.old.env }
{
    walk.env.count(Some(number));
}

/// Says that none is.
pub fn count_none(walk: &mut Walk)
    ensures env { env_of walk.new.env ≡ scopes.counting None (env_of walk.old.env) }
    ensures table { table_of walk.new.env ≡ table_of walk.old.env }
    ensures kept { (walk.new.vars ≡ walk.old.vars) × (walk.new.declared ≡ walk.old.declared) × (walk.new.used ≡ walk.old.used) }
    ensures lost { walk.new.lost ≡ walk.old.lost }
    ensures numbers { (walk.new.next ≡ walk.old.next) × (walk.new.next_label ≡ walk.old.next_label) }
{
    walk.env.count(None);
}
