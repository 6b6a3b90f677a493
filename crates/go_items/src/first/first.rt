//! The environment in which a package begins.

ghost use Rattle.std.specs.Prelude.{◌≡◌, ◌<◌, ◌≤◌, ◌++◌, ◌∷◌, [], false, codes, OnOk, IfOk};
ghost use Rattle.go_type.specs.Levels.{tree_of, SigBelow};
ghost use Rattle.go_type.specs.Named.{NamedTy, new_name, with_under, with_method, method_with};
ghost use Rattle.go_type.specs.Predeclared.{predeclared_names};
ghost use Rattle.go_type.specs.Table.{places, names, size, name_count};
ghost use Rattle.go_type.specs.Tree as ty;
ghost use Rattle.go_type.specs.declared.types.Sig as code;
ghost use Rattle.go_typing.specs.Scopes.{new_env, entered};
ghost use Rattle.go_operands.specs.RulesReady.{HasPredeclared};
ghost use Rattle.go_operands.specs.EnvView.{table_of, env_of, with_types};
ghost use Rattle.go_typing.specs.Known.{first_names, hidden};
ghost use Rattle.go_items.specs.Stands.{Stands};
ghost use Rattle.go_items.specs.Steps.{named_text, no_text};

use gj_base::{NoMemory, Text};
use go_operands::scopes::Env;
use go_type::types::{GoType, NamedId, Sig, TypeId};
use go_type::{Ids, TypeTable};
use std::alloc::Global;

/// An environment, with the type of run-time panics.
#[derive(Drop)]
pub struct First {
    pub env: Env,
    pub hidden: TypeId,
}

// The predeclared names alone, in the scope of the package.
fn begun(alloc: Global) -> Result<Env, NoMemory>
    ensures env { IfOk result (λ e. env_of e ≡ entered [] (new_env predeclared_names)) }
    ensures count { IfOk result (λ e. name_count (table_of e) ≡ 1) }
    ensures predeclared { IfOk result (λ e. HasPredeclared (table_of e)) }
{
    let table = TypeTable::new(alloc)?;
    let mut env = Env::new(alloc, table)?;
    let path = Text::new(alloc);
    env.enter(&path)?;
    Ok(env)
}

// The type of run-time panics, by its name.
fn and_name(alloc: Global, env: &mut Env) -> Result<NamedId, NoMemory>
    requires names { names (table_of env.old) ≡ predeclared_names }
    ensures id { IfOk result (λ id. id.0 ≡ name_count (table_of env.old)) }
    ensures within { IfOk result (λ id. id.0 < name_count (table_of env.new)) }
    ensures env { OnOk result (env_of env.new ≡ with_types (predeclared_names ++ no_text ∷ []) (env_of env.old)) }
    ensures places { places (table_of env.new) ≡ places (table_of env.old) }
    ensures size { size (table_of env.new) ≡ size (table_of env.old) }
{
    let name = Text::from_slice(alloc, b"runtimeError")?;
    let id = env.add_named(name, Text::new(alloc))?;
    Ok(id)
}

// It stands for a string.
fn and_text(env: &mut Env, id: NamedId)
    requires predeclared { HasPredeclared (table_of env.old) }
    requires id { id.0 ≡ 1 }
    requires within { id.0 < name_count (table_of env.old) }
    requires names { names (table_of env.old) ≡ predeclared_names ++ no_text ∷ [] }
    ensures env { env_of env.new ≡ with_types (predeclared_names ++ named_text ∷ []) (env_of env.old) }
    ensures places { places (table_of env.new) ≡ places (table_of env.old) }
    ensures counts { (size (table_of env.new) ≡ size (table_of env.old)) × (name_count (table_of env.new) ≡ name_count (table_of env.old)) }
{
    env.set_named(id, TypeId(1));
}

// A method without parameters.
fn and_method(
    alloc: Global,
    env: &mut Env,
    id: NamedId,
    name: &[u8],
    results: Ids,
) -> Result<(), NoMemory>
    requires id { id.0 ≡ 1 }
    requires within { id.0 < name_count (table_of env.old) }
    requires results { SigBelow (size (table_of env.old)) (record { params = []; results = results; variadic = false }) }
    ensures env { OnOk result ((x : NamedTy) → names (table_of env.old) ≡ predeclared_names ++ x ∷ [] → env_of env.new ≡ with_types (predeclared_names ++ with_method (method_with (places (table_of env.old)) name.now false (record { params = []; results = results; variadic = false })) x ∷ []) (env_of env.old)) }
    ensures places { places (table_of env.new) ≡ places (table_of env.old) }
    ensures counts { (size (table_of env.new) ≡ size (table_of env.old)) × (name_count (table_of env.new) ≡ name_count (table_of env.old)) }
{
    let text = Text::from_slice(alloc, name)?;
    env.add_method(
        id,
        text,
        false,
        Sig {
            params: Ids::new(alloc),
            results,
            variadic: false,
        },
    )?;
    Ok(())
}

fn one_text(alloc: Global) -> Result<Ids, NoMemory>
    ensures value { IfOk result (λ is. is ≡ record { 0 = 1 } ∷ []) }
{
    let mut ids = Vec::new(alloc);
    ids.push(TypeId(1))?;
    Ok(Ids::from_vec(ids))
}

// Both methods.
fn and_methods(alloc: Global, env: &mut Env, id: NamedId) -> Result<(), NoMemory>
    requires predeclared { HasPredeclared (table_of env.old) }
    requires id { id.0 ≡ 1 }
    requires within { id.0 < name_count (table_of env.old) }
    requires names { names (table_of env.old) ≡ predeclared_names ++ named_text ∷ [] }
    ensures env { OnOk result (env_of env.new ≡ with_types first_names (env_of env.old)) }
    ensures places { places (table_of env.new) ≡ places (table_of env.old) }
    ensures counts { (size (table_of env.new) ≡ size (table_of env.old)) × (name_count (table_of env.new) ≡ name_count (table_of env.old)) }
{
    let results = one_text(alloc)?;
    and_method(alloc, env, id, b"Error".as_slice(), results)?;
    and_method(alloc, env, id, b"RuntimeError".as_slice(), Ids::new(alloc))?;
    Ok(())
}

// The type of run-time panics, whose number among the named types is that after `error`.
fn and_runtime(alloc: Global, env: &mut Env) -> Result<NamedId, NoMemory>
    requires predeclared { HasPredeclared (table_of env.old) }
    requires count { name_count (table_of env.old) ≡ 1 }
    requires names { names (table_of env.old) ≡ predeclared_names }
    ensures id { IfOk result (λ id. id.0 ≡ 1) }
    ensures within { IfOk result (λ id. id.0 < name_count (table_of env.new)) }
    ensures env { OnOk result (env_of env.new ≡ with_types first_names (env_of env.old)) }
{
    let id = and_name(alloc, env)?;
    and_text(env, id);
    and_methods(alloc, env, id)?;
    Ok(id)
}

/// Where a package begins: it is entered, and nothing is declared in it.
pub fn first_env(alloc: Global) -> Result<First, NoMemory>
    ensures stands { IfOk result (λ f. Stands (record { binds = []; names = first_names }) (env_of f.env)) }
    ensures hidden { IfOk result (λ f. tree_of (places (table_of f.env)) f.hidden ≡ hidden) }
    ensures within { IfOk result (λ f. f.hidden.0 < size (table_of f.env)) }
{
    let mut env = begun(alloc)?;
    let id = and_runtime(alloc, &mut env)?;
    let hidden = env.add(GoType::Named(id))?;
    Ok(First { env, hidden })
}
