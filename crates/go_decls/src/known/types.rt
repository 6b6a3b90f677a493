//! Named types of the package, and aliases.
//!
//! Go, "Type definitions", "Alias declarations".

ghost use Rattle.std.specs.Prelude.{◌≡◌, ◌+◌, ◌<◌, ℕ, List, Some, IfOk, length, option_map};
ghost use Rattle.go_syntax.specs.Tree as t;
ghost use Rattle.go_typing.specs.Items as go;
ghost use Rattle.go_typing.specs.Known.{first_names, type_found, alias_decl};
ghost use Rattle.go_type.specs.Levels.{tree_of};
ghost use Rattle.go_type.specs.Named.{IsUnnamed};
ghost use Rattle.go_type.specs.Table.{places, names, size, name_count};
ghost use Rattle.go_type.specs.Tree.{Ty};
ghost use Rattle.go_type.specs.Underlying.{underlying};
ghost use Rattle.go_syntax.specs.View.{expr_view};
ghost use Rattle.go_operands.specs.EnvView.{table_of, env_of};
ghost use Rattle.go_operands.specs.View.{decl_of};
ghost use Rattle.go_operands.specs.Within.{DeclaredBelow};
ghost use Rattle.go_sound.specs.Rows.{Row, known_by};
ghost use Rattle.go_assign.specs.SpecView.{TypeBelow};
ghost use Rattle.go_decls.specs.Before.{is_unnamed, Before, Outcome};

use crate::known::settled::settle_name;
use gj_base::NoMemory;
use go_assign::constants::type_found;
use go_items::binds::settle::{set_type, settle};
use go_operands::scopes::{Declared, Env};
use go_syntax::tree::{Expr, Name};
use go_type::TypeTable;
use go_type::types::{GoType, NamedId, TypeId};
use go_walk::sets::NameMap;
use std::alloc::Global;

fn is_unnamed(table: &TypeTable, t: TypeId) -> bool
    requires { t.0 < size table.now }
    ensures value { result ≡ is_unnamed (tree_of (places table.now) t) }
{
    match table.get(t) {
        GoType::Named(_) => false,
        _ => true,
    }
}

// The named type of the package of a number: two stand before those.
#[tactic(auto, using(crate::proofs::TypeLemmas::first_two))]
fn named_id(table: &TypeTable, number: u64) -> Result<NamedId, NoMemory>
    ensures value { IfOk result (λ id. id.0 ≡ length first_names + number) }
    ensures within { IfOk result (λ id. id.0 < name_count table.now) }
{
    match number.checked_add(2) {
        Some(id) => {
            if id < table.name_len() {
                return Ok(NamedId(id));
            }
            // Own: not proved is that the package's types are in the table.
            Err(NoMemory)
        }
        None => Err(NoMemory),
    }
}

// A declaration of a named type that stands for a type without a name.
fn set_under<'a>(
    env: &mut Env,
    numbers: &NameMap<'a>,
    n: &'a Name,
    index: usize,
    number: u64,
    of: TypeId,
    under: TypeId,
) -> Result<bool, NoMemory>
    requires under { under.0 < size (table_of env.old) }
    requires unnamed { IsUnnamed (tree_of (places (table_of env.old)) under) }
    requires tree { tree_of (places (table_of env.old)) under ≡ underlying (names (table_of env.old)) (tree_of (places (table_of env.old)) of) }
    ensures value { IfOk result (λ b. (e : t.Expr) (rs : List Row) → Before rs index (go.type_item n.now number e) numbers.now (env_of env.old) → Some (tree_of (places (table_of env.old)) of) ≡ type_found (known_by rs) e → Outcome b rs index (go.type_item n.now number e) (env_of env.new)) }
{
    let _ = of;
    let id = named_id(env.table(), number)?;
    let own = env.add(GoType::Named(id))?;
    settle(env, numbers, n, index, Declared::TypeName(own));
    set_type(env, id, under);
    Ok(true)
}

// The declaration of a named type is typed: it stands for what the other type does.
#[tactic(auto, using(crate::proofs::TypeLemmas::unnamed_is))]
fn set_named<'a>(
    env: &mut Env,
    numbers: &NameMap<'a>,
    n: &'a Name,
    index: usize,
    number: u64,
    of: TypeId,
) -> Result<bool, NoMemory>
    requires below { of.0 < size (table_of env.old) }
    ensures value { IfOk result (λ b. (e : t.Expr) (rs : List Row) → Before rs index (go.type_item n.now number e) numbers.now (env_of env.old) → Some (tree_of (places (table_of env.old)) of) ≡ type_found (known_by rs) e → Outcome b rs index (go.type_item n.now number e) (env_of env.new)) }
{
    let under = env.table().underlying(of);
    if is_unnamed(env.table(), under) {
        return set_under(env, numbers, n, index, number, of, under);
    }
    // Own: not proved is that what a type stands for has no name itself.
    Err(NoMemory)
}

/// The declaration of a named type, by its number among those of the package.
pub fn type_named<'a>(
    alloc: Global,
    env: &mut Env,
    numbers: &NameMap<'a>,
    n: &'a Name,
    index: usize,
    number: u64,
    ty: &Expr,
) -> Result<bool, NoMemory>
    ensures value { IfOk result (λ b. (rs : List Row) → Before rs index (go.type_item n.now number (expr_view ty.now)) numbers.now (env_of env.old) → Outcome b rs index (go.type_item n.now number (expr_view ty.now)) (env_of env.new)) }
{
    let found = type_found(alloc, env, ty)?;
    match found.ty {
        Some(of) => {
            let is_typed = set_named(env, numbers, n, index, number, of)?;
            Ok(is_typed)
        }
        None => Ok(false),
    }
}

fn alias_of(ty: Option<TypeId>) -> Declared
    ensures value { (ts : List Ty) → decl_of ts result ≡ alias_decl (option_map (tree_of ts) ty) }
    ensures within { (n : ℕ) → TypeBelow n ty → DeclaredBelow n result }
{
    match ty {
        Some(t) => Declared::TypeName(t),
        None => Declared::Unknown,
    }
}

/// The declaration of an alias.
pub fn alias_named<'a>(
    alloc: Global,
    env: &mut Env,
    numbers: &NameMap<'a>,
    n: &'a Name,
    index: usize,
    ty: &Expr,
) -> Result<bool, NoMemory>
    ensures value { IfOk result (λ b. (rs : List Row) → Before rs index (go.alias_item n.now (expr_view ty.now)) numbers.now (env_of env.old) → Outcome b rs index (go.alias_item n.now (expr_view ty.now)) (env_of env.new)) }
{
    let found = type_found(alloc, env, ty)?;
    Ok(settle_name(env, numbers, n, index, alias_of(found.ty)))
}
