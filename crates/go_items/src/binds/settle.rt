//! What the name of a declaration stands for, once that is typed.

ghost use Rattle.std.specs.Prelude.{◌≡◌, ◌↔◌, ◌<◌, [], ℕ, List, IsTrue, Some};
ghost use Rattle.go_typing.specs.Items as go;
ghost use Rattle.go_typing.specs.Known as known;
ghost use Rattle.go_type.specs.Levels.{tree_of};
ghost use Rattle.go_type.specs.Named.{NamedTy, IsUnnamed};
ghost use Rattle.go_type.specs.Table.{places, size, name_count};
ghost use Rattle.go_operands.specs.EnvView.{table_of, env_of, KeepsRest, KeepsLiterals};
ghost use Rattle.go_operands.specs.View.{decl_of};
ghost use Rattle.go_operands.specs.Within.{DeclaredBelow};
ghost use Rattle.go_walk.specs.SetsHas.{number_of};
ghost use Rattle.go_sound.specs.Rows.{Row, known_by, binds_by, one_typed};
ghost use Rattle.go_items.specs.Stands.{Stands, IsRow, AreNumbers, IsSetAt};

use crate::needed::called::is_blank;
use go_operands::scopes::{Declared, Env};
use go_syntax::tree::Name;
use go_type::types::{NamedId, TypeId};
use go_walk::sets::NameMap;

// Whether this is the number of the name.
fn is_first<'a>(numbers: &NameMap<'a>, n: &'a Name, number: usize) -> bool
    ensures value { IsTrue result ↔ (number_of n.now.text numbers.now ≡ Some number) }
{
    match numbers.number(&n.text) {
        Some(first) => first == number,
        None => false,
    }
}

/// What the name of the declaration of a number stands for: its first declaration says it, and `_`
/// stands for nothing.
pub fn settle<'a>(env: &mut Env, numbers: &NameMap<'a>, n: &'a Name, number: usize, what: Declared)
    requires { DeclaredBelow (size (table_of env.old)) what }
    ensures value { (i : go.Item) (rs : List Row) → Stands (known_by rs) (env_of env.old) → go.name_of i ≡ n.now → IsRow rs number i → AreNumbers numbers.now rs → decl_of (places (table_of env.old)) what ≡ known.decl_of (known_by rs) i → Stands (record (known_by rs) { binds = binds_by (one_typed number rs) [] }) (env_of env.new) }
    ensures rest { KeepsRest env.old env.new }
{
    if is_blank(&n.text) {
        return;
    }
    if is_first(numbers, n, number) {
        env.settle(&n.text, what);
        return;
    }
}

/// What a named type of the package stands for, which has no name itself; takes no memory.
pub fn set_type(env: &mut Env, id: NamedId, under: TypeId)
    requires id { id.0 < name_count (table_of env.old) }
    requires under { under.0 < size (table_of env.old) }
    requires unnamed { IsUnnamed (tree_of (places (table_of env.old)) under) }
    ensures value { (k : known.Known) (new : List NamedTy) → Stands k (env_of env.old) → IsSetAt id.0 (tree_of (places (table_of env.old)) under) k.names new → Stands (record k { names = new }) (env_of env.new) }
    ensures places { places (table_of env.new) ≡ places (table_of env.old) }
    ensures counts { (size (table_of env.new) ≡ size (table_of env.old)) × (name_count (table_of env.new) ≡ name_count (table_of env.old)) }
    ensures literals { KeepsLiterals env.old env.new }
{
    env.set_named(id, under);
}
