//! What holds of a type through the parts that it holds by value: comparable types, key types, sizes.

ghost use Rattle.std.specs.Prelude.{◌≡◌, ◌<◌, ◌≤◌, ◌-◌, ℕ, length, IsTrue, ◌↔◌};
ghost use Rattle.go_type.specs.Tree.{Ty};
ghost use Rattle.go_type.specs.Levels.{level, tree_of, fields_of, Below, FieldsBelow};
ghost use Rattle.go_type.specs.Table.{places, names, size, name_count};
ghost use Rattle.go_type.specs.Underlying.{under_at};
ghost use Rattle.go_type.specs.Parts.{holds_at, holds_within, each_field, if_under, IsFinite, IsComparable, IsKeyType};
ghost use Rattle.go_type.specs.Leaf.{leaf_test};
ghost use Rattle.go_type.specs.Memo.{Remembers};

use crate::memo::{is_known, keep, no_memo};
use crate::table::TypeTable;
use crate::types::{FieldRow, GoType, NamedId, TypeId};
use arrayvec::ArrayVec;

/// What is asked of the parts that have no parts of their own.
#[derive(Clone, Copy)]
pub enum Leaf {
    /// That they are comparable.
    Compares,
    /// That they are map keys of the profile.
    IsKey,
    /// Nothing.
    Every,
}

fn leaf_holds(table: &TypeTable, asked: Leaf, at: &GoType) -> bool
    ensures { result ≡ leaf_test asked (level (places table.now) at.now) }
{
    match asked {
        Leaf::Every => true,
        Leaf::Compares => match at {
            GoType::Bool | GoType::Str | GoType::Int(_) | GoType::Untyped(_) => true,
            GoType::Pointer(_) | GoType::Chan(_, _) | GoType::Interface(_) => true,
            _ => false,
        },
        Leaf::IsKey => match at {
            GoType::Bool | GoType::Str | GoType::Int(_) => true,
            _ => false,
        },
    }
}

// Whether it holds of each part of a level, to a depth.
#[cycle(holds)]
fn holds_level(
    table: &TypeTable,
    asked: Leaf,
    at: &GoType,
    left: u64,
    memo: &mut ArrayVec<(u64, u64), 256>,
) -> bool
    requires at { Below (size table.now) (name_count table.now) at.now }
    requires memo { Remembers (leaf_test asked) (names table.now) (places table.now) memo.old.items }
    ensures value { result ≡ holds_at (leaf_test asked) (names table.now) (holds_within (leaf_test asked) (names table.now) left) (level (places table.now) at.now) }
    ensures memo { Remembers (leaf_test asked) (names table.now) (places table.now) memo.new.items }
{
    match at {
        GoType::Array(_, element) => holds(table, asked, *element, left, memo),
        GoType::Struct(fields) => holds_fields(table, asked, fields.as_slice(), left, memo),
        GoType::Named(id) => match table.under_of(*id) {
            Some(under) => holds(table, asked, under, left, memo),
            None => false,
        },
        _ => leaf_holds(table, asked, at),
    }
}

#[cycle(holds)]
fn holds_fields(
    table: &TypeTable,
    asked: Leaf,
    fields: &[FieldRow],
    left: u64,
    memo: &mut ArrayVec<(u64, u64), 256>,
) -> bool
    requires fields { FieldsBelow (size table.now) fields.now }
    requires memo { Remembers (leaf_test asked) (names table.now) (places table.now) memo.old.items }
    ensures value { result ≡ each_field (holds_within (leaf_test asked) (names table.now) left) (fields_of (places table.now) fields.now) }
    ensures memo { Remembers (leaf_test asked) (names table.now) (places table.now) memo.new.items }
{
    let mut rest = fields;
    'fields: while let Some((field, others)) = rest.split_first() {
        if !holds(table, asked, field.ty, left, memo) {
            return false;
        }
        rest = others;
    }
    true
}

// Whether it holds of each part of a type, to a depth.
#[cycle(holds)]
fn holds(
    table: &TypeTable,
    asked: Leaf,
    t: TypeId,
    left: u64,
    memo: &mut ArrayVec<(u64, u64), 256>,
) -> bool
    requires t { t.0 < size table.now }
    requires memo { Remembers (leaf_test asked) (names table.now) (places table.now) memo.old.items }
    ensures value { result ≡ holds_within (leaf_test asked) (names table.now) left (tree_of (places table.now) t) }
    ensures memo { Remembers (leaf_test asked) (names table.now) (places table.now) memo.new.items }
{
    if left == 0 {
        return false;
    }
    if is_known(memo.as_slice(), t.0, left) {
        return true;
    }
    if !holds_level(table, asked, table.get(t), left - 1, memo) {
        return false;
    }
    let _ = keep(memo, (t.0, left));
    true
}

impl TypeTable {
    ghost use Rattle.std.specs.Prelude.{◌≡◌, ◌<◌, ◌≤◌, ◌↔◌, ℕ, IsTrue, MatchOption};
    ghost use Rattle.go_type.specs.Levels.{tree_of};
    ghost use Rattle.go_type.specs.Table.{places, names, size};
    ghost use Rattle.go_type.specs.Parts.{IsFinite, IsComparable, IsKeyType, HasSize};

    /// Whether the type neither contains itself nor holds by value a type that does. The calls that
    /// need this ask for just this.
    pub fn is_finite(&self, t: TypeId) -> bool
        requires { t.0 < size self.now }
        ensures { IsTrue result ↔ IsFinite self.now t }
    {
        holds(self, Leaf::Every, t, self.len(), &mut no_memo())
    }

    /// Whether values of the type can be compared.
    ///
    /// Go, "Comparison operators".
    pub fn comparable(&self, t: TypeId) -> bool
        requires t { t.0 < size self.now }
        requires finite { IsFinite self.now t }
        ensures { IsTrue result ↔ IsComparable (names self.now) (tree_of (places self.now) t) }
    {
        holds(self, Leaf::Compares, t, self.len(), &mut no_memo())
    }

    /// Whether the type is that of map keys in the profile (own).
    pub fn key_type(&self, t: TypeId) -> bool
        requires t { t.0 < size self.now }
        requires finite { IsFinite self.now t }
        ensures { IsTrue result ↔ IsKeyType (names self.now) (tree_of (places self.now) t) }
    {
        holds(self, Leaf::IsKey, t, self.len(), &mut no_memo())
    }
}
