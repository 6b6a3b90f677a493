//! A walk over embedded fields, depth by depth. A type that was reached at a lesser depth is left out, and
//! of one depth each type is kept twice at most: a third time shows nothing more. Nothing is allocated.

ghost use Rattle.std.specs.Prelude.{◌≡◌, ◌<◌, ◌+◌, ◌++◌, ℕ, suc, ◌∷◌, [], false, ◌||◌, map, get_or, nat_eq, IsTrue, IfSome, OnSome};
ghost use Rattle.std.specs.Bool.{OnTrue};
ghost use Rattle.std.specs.List.{list_any};
ghost use Rattle.go_type.specs.Tree.{bool};
ghost use Rattle.go_type.specs.Levels.{level, tree_of, fields_of, Below, FieldsBelow};
ghost use Rattle.go_type.specs.Table.{places, names, size, name_count};
ghost use Rattle.go_type.specs.Members.{behind, sought, own_members, members_at, through, fields_in};
ghost use Rattle.go_type.specs.Hits.{Sees, IsIn};
ghost use Rattle.go_type.specs.Walk.{look, shift, seen_in, total, Expands, AllWithin, times_in, first_of, spread, IsShallow, pointer_if};

use crate::hits::{Hit, after, join};
use crate::search::{base, own_hit};
use crate::shallow::is_something;
use crate::table::TypeTable;
use crate::types::{FieldRow, GoType, TypeId};
use arrayvec::ArrayVec;
use gj_base::Text;

// Whether the id is there.
fn holds(ids: &[u64], id: u64) -> bool
    ensures { result ≡ list_any (nat_eq id) ids.now }
{
    let mut rest = ids;
    'ids: while let Some((first, others)) = rest.split_first() {
        if id == *first {
            return true;
        }
        rest = others;
    }
    false
}

// How often the id is there.
fn times_in(entries: &[(u64, bool)], id: u64) -> usize
    ensures { result ≡ times_in id entries.now }
{
    let mut times = 0;
    let mut rest = entries;
    'entries: while let Some((first, others)) = rest.split_first() {
        if id == first.0 {
            times += 1;
        }
        rest = others;
    }
    times
}

// One more at the end; false where there is no room.
fn push(entries: &mut ArrayVec<(u64, bool), 256>, entry: (u64, bool)) -> bool
    ensures { OnTrue result (entries.new.items ≡ entries.old.items ++ entry ∷ []) }
{
    entries.try_push(entry).is_ok()
}

// A type at the next depth, unless it was seen before or is there twice; false where there is no room.
fn enter(
    table: &TypeTable,
    seen: &[u64],
    id: u64,
    follows: bool,
    next: &mut ArrayVec<(u64, bool), 256>,
) -> bool
    requires id { id < size table.now }
    requires next { AllWithin (size table.now) next.old.items }
    ensures expands { OnTrue result (Expands (names table.now) (places table.now) seen.now (λ f k. shift follows (seen_in (names table.now) (places table.now) f k id)) next.old.items next.new.items) }
    ensures within { OnTrue result (AllWithin (size table.now) next.new.items) }
{
    if holds(seen, id) {
        return true;
    }
    let times = times_in(next.as_slice(), id);
    if times >= 2 {
        return true;
    }
    push(next, (id, follows))
}

fn either(a: bool, b: bool) -> bool
    ensures { result ≡ (a || b) }
{
    a || b
}

// The types that these fields embed.
fn enter_fields(
    table: &TypeTable,
    seen: &[u64],
    fields: &[FieldRow],
    follows: bool,
    next: &mut ArrayVec<(u64, bool), 256>,
) -> bool
    requires fields { FieldsBelow (size table.now) fields.now }
    requires next { AllWithin (size table.now) next.old.items }
    ensures expands { OnTrue result (Expands (names table.now) (places table.now) seen.now (λ f k. shift follows (look (through (members_at (names table.now) f k) 0 (fields_of (places table.now) fields.now)))) next.old.items next.new.items) }
    ensures within { OnTrue result (AllWithin (size table.now) next.new.items) }
{
    let mut rest = fields;
    'fields: while let Some((field, others)) = rest.split_first() {
        if field.embedded {
            let (t, pointer) = base(table, field.ty);
            let behind = either(follows, pointer);
            if !enter(table, seen, t.0, behind, next) {
                return false;
            }
        }
        rest = others;
    }
    true
}

// The types that an underlying type embeds.
fn enter_level(
    table: &TypeTable,
    seen: &[u64],
    under: &GoType,
    follows: bool,
    next: &mut ArrayVec<(u64, bool), 256>,
) -> bool
    requires under { Below (size table.now) (name_count table.now) under.now }
    requires next { AllWithin (size table.now) next.old.items }
    ensures expands { OnTrue result (Expands (names table.now) (places table.now) seen.now (λ f k. shift follows (look (through (members_at (names table.now) f k) 0 (fields_in (level (places table.now) under.now))))) next.old.items next.new.items) }
    ensures within { OnTrue result (AllWithin (size table.now) next.new.items) }
{
    match under {
        GoType::Struct(fields) => enter_fields(table, seen, fields.as_slice(), follows, next),
        _ => true,
    }
}

// The types that a type embeds.
fn enter_type(
    table: &TypeTable,
    seen: &[u64],
    id: u64,
    follows: bool,
    next: &mut ArrayVec<(u64, bool), 256>,
) -> bool
    requires id { id < size table.now }
    requires next { AllWithin (size table.now) next.old.items }
    ensures expands { OnTrue result (Expands (names table.now) (places table.now) seen.now (λ f k. shift follows (seen_in (names table.now) (places table.now) f (suc k) id)) next.old.items next.new.items) }
    ensures within { OnTrue result (AllWithin (size table.now) next.new.items) }
{
    let under = table.get(table.underlying(TypeId(id)));
    enter_level(table, seen, under, follows, next)
}

// The types of the next depth; false where there is no room.
fn expand(
    table: &TypeTable,
    seen: &[u64],
    level: &[(u64, bool)],
    next: &mut ArrayVec<(u64, bool), 256>,
) -> bool
    requires level { AllWithin (size table.now) level.now }
    requires next { AllWithin (size table.now) next.old.items }
    ensures expands { OnTrue result (Expands (names table.now) (places table.now) seen.now (λ f k. total (names table.now) (places table.now) f level.now (suc k)) next.old.items next.new.items) }
    ensures within { OnTrue result (AllWithin (size table.now) next.new.items) }
{
    let mut rest = level;
    'level: while let Some((entry, others)) = rest.split_first() {
        if !enter_type(table, seen, entry.0, entry.1, next) {
            return false;
        }
        rest = others;
    }
    true
}

// The types of a depth were seen; false where there is no room.
fn remember(seen: &mut ArrayVec<u64, 256>, level: &[(u64, bool)]) -> bool
    ensures { OnTrue result (seen.new.items ≡ seen.old.items ++ map first_of level.now) }
{
    let mut rest = level;
    'level: while let Some((entry, others)) = rest.split_first() {
        if seen.try_push(entry.0).is_err() {
            return false;
        }
        rest = others;
    }
    true
}

// What a type declares of the name.
fn entry_hit<'a>(
    table: &'a TypeTable,
    id: u64,
    follows: bool,
    name: &Text,
    package: &Text,
) -> Hit<'a>
    requires { id < size table.now }
    ensures seen { Sees (places table.now) (map (behind (pointer_if follows)) (own_members (names table.now) (sought name.now «package».now) (get_or (places table.now) id bool))) result }
    ensures within { IsIn (size table.now) result }
{
    after(follows, own_hit(table, TypeId(id), name, package))
}

// What the types of a depth declare of the name.
fn level_hit<'a>(
    table: &'a TypeTable,
    level: &[(u64, bool)],
    name: &Text,
    package: &Text,
) -> Hit<'a>
    requires { AllWithin (size table.now) level.now }
    ensures seen { Sees (places table.now) (spread (names table.now) (places table.now) (sought name.now «package».now) level.now) result }
    ensures within { IsIn (size table.now) result }
{
    let mut hit = Hit::Nothing;
    let mut rest = level;
    'level: while let Some((entry, others)) = rest.split_first() {
        hit = join(hit, entry_hit(table, entry.0, entry.1, name, package));
        rest = others;
    }
    hit
}

// The type itself, at depth zero.
fn start(id: u64) -> ArrayVec<(u64, bool), 256>
    ensures { result.items ≡ (id, false) ∷ [] }
{
    let mut level = ArrayVec::new();
    level.push((id, false));
    level
}

fn none_yet() -> ArrayVec<(u64, bool), 256>
    ensures { result.items ≡ [] }
{
    ArrayVec::new()
}

fn none_seen() -> ArrayVec<u64, 256>
    ensures { result.items ≡ [] }
{
    ArrayVec::new()
}

// The types of the next depth, those of this one being seen; none where there is no room.
fn next_level(
    table: &TypeTable,
    seen: &mut ArrayVec<u64, 256>,
    level: &[(u64, bool)],
) -> Option<ArrayVec<(u64, bool), 256>>
    requires { AllWithin (size table.now) level.now }
    ensures seen { OnSome result (seen.new.items ≡ seen.old.items ++ map first_of level.now) }
    ensures expands { IfSome result (λ next. Expands (names table.now) (places table.now) seen.new.items (λ f k. total (names table.now) (places table.now) f level.now (suc k)) [] next.items) }
    ensures within { IfSome result (λ next. AllWithin (size table.now) next.items) }
{
    if !remember(seen, level) {
        return None;
    }
    let mut next = none_yet();
    if !expand(table, seen.as_slice(), level, &mut next) {
        return None;
    }
    Some(next)
}

fn is_over(level: &[(u64, bool)]) -> bool
    ensures { IsTrue result → level.now ≡ [] }
{
    match level {
        [] => true,
        _ => false,
    }
}

/// The shallowest depth at which the type has fields or methods of the name, and what they come to; none
/// at all where there is no room for so many types.
pub fn walk<'a>(
    table: &'a TypeTable,
    t: TypeId,
    name: &Text,
    package: &Text,
) -> Option<Option<(u64, Hit<'a>)>>
    requires { t.0 < size table.now }
    ensures { IfSome result (IsShallow (size table.now) (places table.now) (names table.now) (sought name.now «package».now) (tree_of (places table.now) t)) }
{
    let mut seen = none_seen();
    let mut level = start(t.0);
    for depth in 0..table.len() + 1 {
        let at = level.as_slice();
        if is_over(at) {
            return Some(None);
        }
        let hit = level_hit(table, at, name, package);
        if is_something(hit) {
            return Some(Some((depth, hit)));
        }
        match next_level(table, &mut seen, at) {
            Some(next) => level = next,
            None => return None,
        }
    }
    Some(None)
}
