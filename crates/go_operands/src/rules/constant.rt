//! Constants, untyped and of a type.
//!
//! Go, "Constants", "Representability".

ghost use Rattle.std.specs.Prelude.{◌≡◌, ◌<◌};
ghost use Rattle.go_type.specs.Tree as ty;
ghost use Rattle.go_type.specs.Levels.{tree_of};
ghost use Rattle.go_type.specs.Underlying.{underlying};
ghost use Rattle.go_type.specs.Table.{places, names, size};
ghost use Rattle.go_typing.specs.Operand.{basis_of, is_number, later_basis, number_in, constant_in};
ghost use Rattle.go_operands.specs.HeldView.{held_view, is_held};

use crate::rules::kind::{holds, kind_of, under};
use gj_base::Kind;
use go_const::Const;
use go_type::TypeTable;
use go_type::types::{Basis, GoType, IntName, TypeId};

/// What an untyped constant, or one that is converted, is as a value of a type.
#[derive(Drop)]
pub enum Held {
    Value(Const),
    /// Of the type's kind, but not in its range.
    Past,
    /// Of another kind.
    Unlike,
}

/// The kind of an untyped constant.
pub fn basis_of(k: &Const) -> Basis
    ensures { result ≡ basis_of k.now }
{
    match k {
        Const::Bool(_) => Basis::Bool,
        Const::Int(_) => Basis::Int,
        Const::Rune(_) => Basis::Rune,
        Const::Text(_) => Basis::Str,
    }
}

/// Whether a constant is a number.
pub fn is_number(k: &Const) -> bool
    ensures { result ≡ is_number k.now }
{
    match k {
        Const::Int(_) | Const::Rune(_) => true,
        Const::Bool(_) | Const::Text(_) => false,
    }
}

/// The one that comes later of integer and rune.
pub fn later_basis(a: Basis, b: Basis) -> Basis
    ensures { result ≡ later_basis a b }
{
    match a {
        Basis::Rune => Basis::Rune,
        Basis::Bool | Basis::Int | Basis::Str => match b {
            Basis::Rune => Basis::Rune,
            Basis::Bool | Basis::Int | Basis::Str => a,
        },
    }
}

fn number_in(kind: Kind, z: i128) -> Held
    ensures { held_view result ≡ number_in kind z }
{
    if holds(kind, z) {
        return Held::Value(Const::Int(z));
    }
    Held::Past
}

fn number_held(name: IntName, k: Const) -> Held
    ensures { held_view result ≡ constant_in (ty.int name) k }
{
    match k {
        Const::Int(z) => number_in(kind_of(name), z),
        Const::Rune(z) => number_in(kind_of(name), z),
        Const::Bool(_) | Const::Text(_) => Held::Unlike,
    }
}

fn truth_held(k: Const) -> Held
    ensures { held_view result ≡ constant_in ty.bool k }
{
    match k {
        Const::Bool(b) => Held::Value(Const::Bool(b)),
        Const::Int(_) | Const::Rune(_) | Const::Text(_) => Held::Unlike,
    }
}

fn text_held(k: Const) -> Held
    ensures { held_view result ≡ constant_in ty.str k }
{
    match k {
        Const::Text(text) => Held::Value(Const::Text(text)),
        Const::Int(_) | Const::Rune(_) | Const::Bool(_) => Held::Unlike,
    }
}

/// What an untyped constant is as a value of a type.
pub fn constant_in(table: &TypeTable, t: TypeId, k: Const) -> Held
    requires { t.0 < size table.now }
    ensures { held_view result ≡ constant_in (underlying (names table.now) (tree_of (places table.now) t)) k }
{
    match under(table, t) {
        GoType::Int(name) => number_held(*name, k),
        GoType::Bool => truth_held(k),
        GoType::Str => text_held(k),
        _ => Held::Unlike,
    }
}

/// Whether an integer type holds an untyped constant.
pub fn is_held(name: IntName, k: &Const) -> bool
    ensures { result ≡ is_held (constant_in (ty.int name) k.now) }
{
    match k {
        Const::Int(z) | Const::Rune(z) => holds(kind_of(name), *z),
        Const::Bool(_) | Const::Text(_) => false,
    }
}
