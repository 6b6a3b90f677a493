//! The types of a table by their ids, also by an id that the table doesn't have: such a one stands
//! for the type `bool`.

ghost use Rattle.std.specs.Prelude.{◌≡◌, IfSome, IfNone};
ghost use Rattle.go_type.specs.Levels.{level, tree_of, Below};
ghost use Rattle.go_type.specs.Table.{places, names, size, name_count};
ghost use Rattle.go_type.specs.Tree as tree;
ghost use Rattle.go_type.specs.Underlying.{underlying};
ghost use Rattle.go_core.specs.SameType.{same_type};

use go_type::TypeTable;
use go_type::types::{GoType, TypeId};

/// The level of a type, where the table has it.
pub fn level_at(table: &TypeTable, t: TypeId) -> Option<&GoType>
    ensures tree { IfSome result (λ g. level (places table.now) g.now ≡ tree_of (places table.now) t) }
    ensures within { IfSome result (λ g. Below (size table.now) (name_count table.now) g.now) }
    ensures none { IfNone result (tree_of (places table.now) t ≡ tree.bool) }
{
    if t.0 < table.len() {
        Some(table.get(t))
    } else {
        None
    }
}

/// The underlying type.
pub fn underlying(table: &TypeTable, t: TypeId) -> TypeId
    ensures tree { tree_of (places table.now) result ≡ underlying (names table.now) (tree_of (places table.now) t) }
{
    if t.0 < table.len() {
        table.underlying(t)
    } else {
        t
    }
}

fn is_bool(table: &TypeTable, t: TypeId) -> bool
    ensures value { result ≡ same_type tree.bool (tree_of (places table.now) t) }
    ensures other { result ≡ same_type (tree_of (places table.now) t) tree.bool }
{
    match level_at(table, t) {
        Some(GoType::Bool) => true,
        Some(_) => false,
        None => true,
    }
}

/// Whether two types are identical.
pub fn same_type(table: &TypeTable, a: TypeId, b: TypeId) -> bool
    ensures value { result ≡ same_type (tree_of (places table.now) a) (tree_of (places table.now) b) }
{
    if a.0 >= table.len() {
        return is_bool(table, b);
    }
    if b.0 >= table.len() {
        return is_bool(table, a);
    }
    table.identical(a, b)
}
