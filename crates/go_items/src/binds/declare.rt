//! The names of a package, none of which is typed yet.

ghost use Rattle.std.specs.Prelude.{◌≡◌, ◌∷◌, ◌++◌, [], OnOk, map};
ghost use Rattle.go_items.specs.ItemView.{item_view};
ghost use Rattle.go_typing.specs.Known.{Known, names_alone, unset, with_item};
ghost use Rattle.go_operands.specs.EnvView.{env_of};
ghost use Rattle.go_typing.specs.Env.{unknown};
ghost use Rattle.go_items.specs.Stands.{Stands};

use crate::items::item::{Item, name_of};
use crate::needed::called::is_blank;
use gj_base::{NoMemory, Text};
use go_operands::scopes::{Declared, Env};
use go_syntax::tree::Name;
use std::alloc::Global;

// `_` is declared nowhere.
fn declare_name(env: &mut Env, n: &Name) -> Result<(), NoMemory>
    ensures value { OnOk result ((k : Known) → Stands k (env_of env.old) → Stands (record k { binds = with_item n.now unknown k.binds }) (env_of env.new)) }
{
    if is_blank(&n.text) {
        return Ok(());
    }
    let text = n.text.clone()?;
    env.declare(text, n.place, Declared::Unknown)?;
    Ok(())
}

fn add_type(alloc: Global, env: &mut Env, n: &Name) -> Result<(), NoMemory>
    ensures value { OnOk result ((k : Known) → Stands k (env_of env.old) → Stands (record k { names = k.names ++ record { name = n.now.text; package_ = []; under = None; methods = [] } ∷ [] }) (env_of env.new)) }
{
    let text = n.text.clone()?;
    env.add_named(text, Text::new(alloc))?;
    Ok(())
}

fn add_types<'a>(alloc: Global, env: &mut Env, item: &Item<'a>) -> Result<(), NoMemory>
    ensures value { OnOk result ((k : Known) → Stands k (env_of env.old) → Stands (record k { names = k.names ++ unset (item_view item.now ∷ []) }) (env_of env.new)) }
{
    match item {
        Item::Type {
            name,
            number: _,
            ty: _,
        } => add_type(alloc, env, *name),
        Item::Constant {
            name: _,
            number: _,
            spec: _,
            value: _,
        } => Ok(()),
        Item::Alias { name: _, ty: _ } => Ok(()),
        Item::Function {
            name: _,
            id: _,
            sig: _,
        } => Ok(()),
        Item::Variable { name: _ } => Ok(()),
        Item::Init { name: _ } => Ok(()),
    }
}

/// Declares the names of these declarations in the scope of the package that was entered, and adds its
/// named types; none is typed yet.
pub fn declare_all<'a>(alloc: Global, env: &mut Env, items: &[Item<'a>]) -> Result<(), NoMemory>
    ensures value { OnOk result ((k : Known) → Stands k (env_of env.old) → Stands (record { binds = names_alone (map item_view items.now) k.binds; names = k.names ++ unset (map item_view items.now) }) (env_of env.new)) }
{
    for item in items {
        declare_name(env, name_of(item))?;
        add_types(alloc, env, item)?;
    }
    Ok(())
}
