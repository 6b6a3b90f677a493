//! Tests of the types that a type holds by value.
//!
//! The Go Programming Language Specification (as of Go 1.17), "Comparison operators".

ghost use Rattle.std.specs.Prelude.{◌≡◌, ◌<◌};
ghost use Rattle.go_type.specs.Levels.{level, tree_of, fields_of, FieldsBelow};
ghost use Rattle.go_type.specs.Table.{places, names, size};
ghost use Rattle.go_core.specs.Layout as defined;
ghost use Rattle.go_values.specs.Asked.{asked_of};

use crate::layouts::fields::type_at;
use go_type::TypeTable;
use go_type::types::{FieldRow, GoType, TypeId};

/// What is asked of the types that hold no others by value.
#[derive(Clone, Copy, Debug, PartialEq, Eq)]
pub enum Asked {
    /// That their values can be compared.
    Compares,
    /// That they can be keys of maps (own).
    IsKey,
}

fn leaf_holds(table: &TypeTable, asked: Asked, at: &GoType) -> bool
    ensures value { result ≡ asked_of asked (level (places table.now) at.now) }
{
    match asked {
        Asked::Compares => match at {
            GoType::Bool | GoType::Str | GoType::Int(_) | GoType::Untyped(_) => true,
            GoType::Pointer(_) | GoType::Chan(_, _) | GoType::Interface(_) => true,
            _ => false,
        },
        Asked::IsKey => match at {
            GoType::Bool | GoType::Str | GoType::Int(_) => true,
            _ => false,
        },
    }
}

// The fields of a struct that stands at `owner`.
#[cycle(holds)]
fn holds_all(table: &TypeTable, asked: Asked, owner: TypeId, fields: &[FieldRow], left: u64) -> bool
    requires owner { owner.0 < size table.now }
    requires fields { FieldsBelow owner.0 fields.now }
    ensures value { result ≡ defined.all_with (asked_of asked) (defined.name_holds (asked_of asked) (names table.now) left) (fields_of (places table.now) fields.now) }
{
    'fields: for i in 0..fields.len() {
        if !holds(table, asked, type_at(owner, fields, i), left) {
            return false;
        }
    }
    true
}

// Where named types lead on through so many names.
#[cycle(holds)]
fn holds(table: &TypeTable, asked: Asked, t: TypeId, left: u64) -> bool
    requires { t.0 < size table.now }
    ensures value { result ≡ defined.holds_with (asked_of asked) (defined.name_holds (asked_of asked) (names table.now) left) (tree_of (places table.now) t) }
{
    match table.get(t) {
        GoType::Array(_, element) => holds(table, asked, *element, left),
        GoType::Struct(fields) => holds_all(table, asked, t, fields.as_slice(), left),
        GoType::Named(id) => {
            if left == 0 {
                return false;
            }
            match table.under_of(*id) {
                Some(under) => holds(table, asked, under, left - 1),
                None => false,
            }
        }
        other => leaf_holds(table, asked, other),
    }
}

fn holds_by_value(table: &TypeTable, asked: Asked, t: TypeId) -> bool
    ensures value { result ≡ defined.holds_by_value (asked_of asked) (names table.now) (tree_of (places table.now) t) }
{
    if t.0 < table.len() {
        holds(table, asked, t, table.name_len())
    } else {
        true
    }
}

/// Whether values of the type can be compared.
pub fn is_comparable(table: &TypeTable, t: TypeId) -> bool
    ensures value { result ≡ defined.is_comparable (names table.now) (tree_of (places table.now) t) }
{
    holds_by_value(table, Asked::Compares, t)
}

/// Whether the type can be that of a map's keys (own).
pub fn is_key_type(table: &TypeTable, t: TypeId) -> bool
    ensures value { result ≡ defined.is_key_type (names table.now) (tree_of (places table.now) t) }
{
    holds_by_value(table, Asked::IsKey, t)
}
