//! Assignability.

ghost use Rattle.std.specs.Prelude.{◌≡◌, ◌<◌, ◌↔◌, IsTrue};
ghost use Rattle.go_type.specs.Levels.{level, tree_of};
ghost use Rattle.go_type.specs.Table.{places, names, size};
ghost use Rattle.go_type.specs.Assignability.{is_defined, one_undefined, SharesUnderlying, IsChannelOf, GoesToChannel, has_nil, is_nil, IsNilTo, is_of_kind, IsConstantTo};

use crate::implements::implements;
use crate::table::TypeTable;
use crate::types::{Basis, Dir, GoType, TypeId};

fn is_defined(table: &TypeTable, t: TypeId) -> bool
    requires { t.0 < size table.now }
    ensures { result ≡ is_defined (tree_of (places table.now) t) }
{
    match table.get(t) {
        GoType::Bool | GoType::Str | GoType::Int(_) | GoType::Named(_) => true,
        _ => false,
    }
}

// Whether one of the two isn't a defined type.
fn one_undefined(table: &TypeTable, v: TypeId, t: TypeId) -> bool
    requires v { v.0 < size table.now }
    requires t { t.0 < size table.now }
    ensures { result ≡ one_undefined (tree_of (places table.now) v) (tree_of (places table.now) t) }
{
    !(is_defined(table, v) && is_defined(table, t))
}

// Whether their underlying types are identical, and one isn't defined.
fn shares_underlying(table: &TypeTable, v: TypeId, t: TypeId) -> bool
    requires v { v.0 < size table.now }
    requires t { t.0 < size table.now }
    ensures { IsTrue result ↔ SharesUnderlying (names table.now) (tree_of (places table.now) v) (tree_of (places table.now) t) }
{
    if !table.identical(table.underlying(v), table.underlying(t)) {
        return false;
    }
    one_undefined(table, v, t)
}

// Whether the one is a bidirectional channel type, and the other a channel type of the same elements.
fn is_channel_of(table: &TypeTable, v: TypeId, t: TypeId) -> bool
    requires v { v.0 < size table.now }
    requires t { t.0 < size table.now }
    ensures { IsTrue result ↔ IsChannelOf (tree_of (places table.now) v) (tree_of (places table.now) t) }
{
    match table.get(v) {
        GoType::Chan(Dir::Both, a) => match table.get(t) {
            GoType::Chan(_, b) => table.identical(*a, *b),
            _ => false,
        },
        _ => false,
    }
}

fn goes_to_channel(table: &TypeTable, v: TypeId, t: TypeId) -> bool
    requires v { v.0 < size table.now }
    requires t { t.0 < size table.now }
    ensures { IsTrue result ↔ GoesToChannel (names table.now) (tree_of (places table.now) v) (tree_of (places table.now) t) }
{
    if !is_channel_of(table, table.underlying(v), table.underlying(t)) {
        return false;
    }
    one_undefined(table, v, t)
}

fn has_nil(table: &TypeTable, at: &GoType) -> bool
    ensures { result ≡ has_nil (level (places table.now) at.now) }
{
    match at {
        GoType::Pointer(_) | GoType::Func(_) | GoType::Slice(_) => true,
        GoType::Map(_, _) | GoType::Chan(_, _) | GoType::Interface(_) => true,
        _ => false,
    }
}

fn is_of_kind(table: &TypeTable, basis: Basis, at: &GoType) -> bool
    ensures { result ≡ is_of_kind basis (level (places table.now) at.now) }
{
    match basis {
        Basis::Bool => match at {
            GoType::Bool => true,
            _ => false,
        },
        Basis::Int | Basis::Rune => match at {
            GoType::Int(_) => true,
            _ => false,
        },
        Basis::Str => match at {
            GoType::Str => true,
            _ => false,
        },
    }
}

fn is_nil_to(table: &TypeTable, v: TypeId, t: TypeId) -> bool
    requires v { v.0 < size table.now }
    requires t { t.0 < size table.now }
    ensures { IsTrue result ↔ IsNilTo (names table.now) (tree_of (places table.now) v) (tree_of (places table.now) t) }
{
    match table.get(v) {
        GoType::Nil => has_nil(table, table.get(table.underlying(t))),
        _ => false,
    }
}

fn is_constant_to(table: &TypeTable, v: TypeId, t: TypeId) -> bool
    requires v { v.0 < size table.now }
    requires t { t.0 < size table.now }
    ensures { IsTrue result ↔ IsConstantTo (names table.now) (tree_of (places table.now) v) (tree_of (places table.now) t) }
{
    match table.get(v) {
        GoType::Untyped(basis) => is_of_kind(table, *basis, table.get(table.underlying(t))),
        _ => false,
    }
}

impl TypeTable {
    ghost use Rattle.std.specs.Prelude.{◌<◌, ◌↔◌, IsTrue};
    ghost use Rattle.go_type.specs.Levels.{tree_of};
    ghost use Rattle.go_type.specs.Table.{places, names, size};
    ghost use Rattle.go_type.specs.Assignability.{IsAssignable};

    /// Whether a value of the one type is assignable to the other. An untyped constant is, where it is
    /// of the other's kind; whether the type holds its value is asked apart.
    ///
    /// Go, "Assignability".
    pub fn assignable(&self, from: TypeId, to: TypeId) -> bool
        requires from { from.0 < size self.now }
        requires to { to.0 < size self.now }
        ensures { IsTrue result ↔ IsAssignable (names self.now) (tree_of (places self.now) from) (tree_of (places self.now) to) }
    {
        if self.identical(from, to) {
            return true;
        }
        if shares_underlying(self, from, to) {
            return true;
        }
        if goes_to_channel(self, from, to) {
            return true;
        }
        if is_nil_to(self, from, to) {
            return true;
        }
        if is_constant_to(self, from, to) {
            return true;
        }
        implements(self, from, to)
    }
}
