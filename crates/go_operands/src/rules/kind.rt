//! Rules on types.

ghost use Rattle.std.specs.Prelude.{◌≡◌, ◌<◌, Some};
ghost use Rattle.go_const.specs.Answer.{holds};
ghost use Rattle.go_type.specs.Tree as ty;
ghost use Rattle.go_type.specs.Levels.{level, tree_of};
ghost use Rattle.go_type.specs.Underlying.{underlying};
ghost use Rattle.go_type.specs.Assignability.{is_defined, one_undefined, has_nil};
ghost use Rattle.go_type.specs.Table.{places, names, size};
ghost use Rattle.go_core.specs.Layout.{kind_of};
ghost use Rattle.go_core.specs.SameType.{same_type};
ghost use Rattle.go_typing.specs.Env.{int_type, uint_type, byte_type, rune_type};
ghost use Rattle.go_typing.specs.Operand.{default_type, number_kind, is_int, is_bool, is_str, goes_to, goes_to_channel};
ghost use Rattle.go_typing.specs.Convert.{is_scalar};
ghost use Rattle.go_operands.specs.RulesReady.{HasPredeclared};

use gj_base::Kind;
use go_const::range::settled;
use go_type::types::{Basis, Dir, GoType, IntName, TypeId};
use go_type::{BOOL, STR, TypeTable};

/// The level of the underlying type.
pub fn under(table: &TypeTable, t: TypeId) -> &GoType
    requires { t.0 < size table.now }
    ensures tree { level (places table.now) result.now ≡ underlying (names table.now) (tree_of (places table.now) t) }
{
    table.get(table.underlying(t))
}

/// Whether two types are identical.
pub fn same_type(table: &TypeTable, a: TypeId, b: TypeId) -> bool
    requires a { a.0 < size table.now }
    requires b { b.0 < size table.now }
    ensures { result ≡ same_type (tree_of (places table.now) a) (tree_of (places table.now) b) }
{
    table.identical(a, b)
}

/// Whether the underlying type is one of integers.
pub fn is_int(table: &TypeTable, t: TypeId) -> bool
    requires { t.0 < size table.now }
    ensures { result ≡ is_int (underlying (names table.now) (tree_of (places table.now) t)) }
{
    match under(table, t) {
        GoType::Int(_) => true,
        _ => false,
    }
}

/// Whether the underlying type is that of booleans.
pub fn is_bool(table: &TypeTable, t: TypeId) -> bool
    requires { t.0 < size table.now }
    ensures { result ≡ is_bool (underlying (names table.now) (tree_of (places table.now) t)) }
{
    match under(table, t) {
        GoType::Bool => true,
        _ => false,
    }
}

/// Whether the underlying type is that of strings.
pub fn is_str(table: &TypeTable, t: TypeId) -> bool
    requires { t.0 < size table.now }
    ensures { result ≡ is_str (underlying (names table.now) (tree_of (places table.now) t)) }
{
    match under(table, t) {
        GoType::Str => true,
        _ => false,
    }
}

/// Whether the underlying type is boolean, integer or string.
pub fn is_scalar(table: &TypeTable, t: TypeId) -> bool
    requires { t.0 < size table.now }
    ensures { result ≡ is_scalar (underlying (names table.now) (tree_of (places table.now) t)) }
{
    match under(table, t) {
        GoType::Bool | GoType::Str | GoType::Int(_) => true,
        _ => false,
    }
}

/// Whether `nil` is a value of the type.
pub fn has_nil(table: &TypeTable, t: TypeId) -> bool
    requires { t.0 < size table.now }
    ensures { result ≡ has_nil (underlying (names table.now) (tree_of (places table.now) t)) }
{
    match under(table, t) {
        GoType::Pointer(_) | GoType::Func(_) | GoType::Slice(_) => true,
        GoType::Map(_, _) | GoType::Chan(_, _) | GoType::Interface(_) => true,
        _ => false,
    }
}

/// The size of an integer type, with or without sign.
pub fn kind_of(name: IntName) -> Kind
    ensures { result ≡ kind_of name }
{
    match name {
        IntName::Int | IntName::Int32 => Kind::I32,
        IntName::Int8 => Kind::I8,
        IntName::Int16 => Kind::I16,
        IntName::Int64 => Kind::I64,
        IntName::Uint | IntName::Uint32 | IntName::Uintptr => Kind::U32,
        IntName::Uint8 => Kind::U8,
        IntName::Uint16 => Kind::U16,
        IntName::Uint64 => Kind::U64,
    }
}

/// The kind of the numbers that a type has, if it has some.
pub fn number_kind(table: &TypeTable, t: TypeId) -> Option<Kind>
    requires { t.0 < size table.now }
    ensures { result ≡ number_kind (underlying (names table.now) (tree_of (places table.now) t)) }
{
    match under(table, t) {
        GoType::Int(name) => Some(kind_of(*name)),
        _ => None,
    }
}

/// Whether a kind holds a number.
#[tactic(auto, using(crate::proofs::TableLemmas::was_first, crate::proofs::TableLemmas::was_second))]
pub fn holds(kind: Kind, z: i128) -> bool
    ensures { result ≡ holds (Some kind) z }
{
    match settled(Some(kind), false, Some(z)) {
        Ok(_) => true,
        Err(_) => false,
    }
}

// ---- assignability

fn is_defined(table: &TypeTable, t: TypeId) -> bool
    requires { t.0 < size table.now }
    ensures { result ≡ is_defined (tree_of (places table.now) t) }
{
    match table.get(t) {
        GoType::Bool | GoType::Str | GoType::Int(_) | GoType::Named(_) => true,
        _ => false,
    }
}

fn one_undefined(table: &TypeTable, t: TypeId, u: TypeId) -> bool
    requires t { t.0 < size table.now }
    requires u { u.0 < size table.now }
    ensures { result ≡ one_undefined (tree_of (places table.now) t) (tree_of (places table.now) u) }
{
    let first = is_defined(table, t);
    let second = is_defined(table, u);
    !(first && second)
}

fn goes_to_channel(table: &TypeTable, t: TypeId, u: TypeId) -> bool
    requires t { t.0 < size table.now }
    requires u { u.0 < size table.now }
    ensures { result ≡ goes_to_channel (tree_of (places table.now) t) (tree_of (places table.now) u) }
{
    match table.get(t) {
        GoType::Chan(Dir::Both, a) => match table.get(u) {
            GoType::Chan(_, b) => same_type(table, *a, *b),
            _ => false,
        },
        _ => false,
    }
}

/// Whether a value of the one type may be assigned to a variable of the other, where neither has an
/// interface type beneath it.
///
/// Go, "Assignability".
pub fn goes_to(table: &TypeTable, t: TypeId, u: TypeId) -> bool
    requires t { t.0 < size table.now }
    requires u { u.0 < size table.now }
    ensures { result ≡ goes_to (names table.now) (tree_of (places table.now) t) (tree_of (places table.now) u) }
{
    let same = same_type(table, t, u);
    let below = table.underlying(t);
    let beneath = table.underlying(u);
    let shares = same_type(table, below, beneath);
    let channel = goes_to_channel(table, below, beneath);
    let undefined = one_undefined(table, t, u);
    same || shares && undefined || channel && undefined
}

// ---- the predeclared types

const INT: TypeId = TypeId(7);

const RUNE: TypeId = TypeId(10);

const UINT: TypeId = TypeId(12);

const BYTE: TypeId = TypeId(13);

/// `bool`.
pub fn bool_type(table: &TypeTable) -> TypeId
    requires { HasPredeclared table.now }
    ensures tree { tree_of (places table.now) result ≡ ty.bool }
    ensures within { result.0 < size table.now }
{
    let _ = table;
    BOOL
}

/// `string`.
pub fn string_type(table: &TypeTable) -> TypeId
    requires { HasPredeclared table.now }
    ensures tree { tree_of (places table.now) result ≡ ty.str }
    ensures within { result.0 < size table.now }
{
    let _ = table;
    STR
}

/// `int`.
pub fn int_type(table: &TypeTable) -> TypeId
    requires { HasPredeclared table.now }
    ensures tree { tree_of (places table.now) result ≡ int_type }
    ensures within { result.0 < size table.now }
{
    let _ = table;
    INT
}

/// `uint`.
pub fn uint_type(table: &TypeTable) -> TypeId
    requires { HasPredeclared table.now }
    ensures tree { tree_of (places table.now) result ≡ uint_type }
    ensures within { result.0 < size table.now }
{
    let _ = table;
    UINT
}

/// `byte`.
pub fn byte_type(table: &TypeTable) -> TypeId
    requires { HasPredeclared table.now }
    ensures tree { tree_of (places table.now) result ≡ byte_type }
    ensures within { result.0 < size table.now }
{
    let _ = table;
    BYTE
}

/// `rune`.
fn rune_type(table: &TypeTable) -> TypeId
    requires { HasPredeclared table.now }
    ensures tree { tree_of (places table.now) result ≡ rune_type }
    ensures within { result.0 < size table.now }
{
    let _ = table;
    RUNE
}

/// The type that an untyped value takes where nothing decides.
///
/// Go, "Constants".
pub fn default_type(table: &TypeTable, basis: Basis) -> TypeId
    requires { HasPredeclared table.now }
    ensures tree { tree_of (places table.now) result ≡ default_type basis }
    ensures within { result.0 < size table.now }
{
    match basis {
        Basis::Bool => bool_type(table),
        Basis::Int => int_type(table),
        Basis::Rune => rune_type(table),
        Basis::Str => string_type(table),
    }
}
