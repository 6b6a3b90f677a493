//! The shallowest depth at which a type has a name.

ghost use Rattle.std.specs.Prelude.{◌≡◌, ◌<◌, ◌↔◌, ℕ, [], IsTrue, IfNone, IfSome};
ghost use Rattle.go_type.specs.Levels.{tree_of};
ghost use Rattle.go_type.specs.Table.{places, names, size};
ghost use Rattle.go_type.specs.Members.{sought, members_at, NoneBefore};
ghost use Rattle.go_type.specs.Hits.{Sees, IsIn, IsSomething, is_something};

use crate::hits::Hit;
use crate::search::{goes_deep, hit_at};
use crate::table::TypeTable;
use crate::types::TypeId;
use crate::walk::walk;
use gj_base::Text;

/// Whether something was found.
pub fn is_something(hit: Hit<'_>) -> bool
    ensures { result ≡ is_something hit.entry }
{
    match hit {
        Hit::Nothing => false,
        _ => true,
    }
}

// The same, by each chain of embedded fields.
fn each_chain<'a>(
    table: &'a TypeTable,
    t: TypeId,
    name: &Text,
    package: &Text,
) -> Option<(u64, Hit<'a>)>
    requires { t.0 < size table.now }
    ensures none { IfNone result ((d : ℕ) → members_at (names table.now) (sought name.now «package».now) d (tree_of (places table.now) t) ≡ []) }
    ensures before { IfSome result (λ r. NoneBefore (names table.now) (sought name.now «package».now) (tree_of (places table.now) t) r.0) }
    ensures here { IfSome result (λ r. Sees (places table.now) (members_at (names table.now) (sought name.now «package».now) r.0 (tree_of (places table.now) t)) r.1) }
    ensures something { IfSome result (λ r. IsSomething r.1) }
    ensures within { IfSome result (λ r. IsIn (size table.now) r.1) }
{
    for depth in 0..table.len() + 1 {
        let hit = hit_at(table, t, name, package, depth);
        if is_something(hit) {
            return Some((depth, hit));
        }
        if !goes_deep(table, t, depth) {
            return None;
        }
    }
    None
}

/// The shallowest depth at which the type has fields or methods of the name, and what they come to;
/// none where no depth has one. Takes no memory: where the walk has no room
/// for so many types, each chain of embedded fields is gone along.
pub fn shallowest<'a>(
    table: &'a TypeTable,
    t: TypeId,
    name: &Text,
    package: &Text,
) -> Option<(u64, Hit<'a>)>
    requires { t.0 < size table.now }
    ensures none { IfNone result ((d : ℕ) → members_at (names table.now) (sought name.now «package».now) d (tree_of (places table.now) t) ≡ []) }
    ensures before { IfSome result (λ r. NoneBefore (names table.now) (sought name.now «package».now) (tree_of (places table.now) t) r.0) }
    ensures here { IfSome result (λ r. Sees (places table.now) (members_at (names table.now) (sought name.now «package».now) r.0 (tree_of (places table.now) t)) r.1) }
    ensures something { IfSome result (λ r. IsSomething r.1) }
    ensures within { IfSome result (λ r. IsIn (size table.now) r.1) }
{
    match walk(table, t, name, package) {
        Some(found) => found,
        None => each_chain(table, t, name, package),
    }
}
