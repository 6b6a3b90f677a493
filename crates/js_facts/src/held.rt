//! How values of a type are held in the script.

ghost use Rattle.std.specs.Prelude.{◌≡◌, ◌<◌, ◌≤◌, IfSome, IfNone, List};
ghost use Rattle.go_type.specs.Tree.{Ty};
ghost use Rattle.go_type.specs.Levels.{level, tree_of};
ghost use Rattle.go_type.specs.Table.{places, names, size};
ghost use Rattle.go_type.specs.Underlying.{underlying};
ghost use Rattle.js_facts.specs.Held.{kind_of, held_int, held_untyped, held_tree, how_held, how, is_block, kind_held, other, is_signed, is_wide};

use gj_base::Kind;
use go_type::TypeTable;
use go_type::types::{Basis, FieldRow, GoType, IntName, MethodSpec, Sig, TypeId};

/// How a value is held.
#[derive(Clone, Copy)]
pub enum Held {
    Truth,
    Str,
    /// A number of up to 32 bits.
    Small(Kind),
    /// Two halves.
    Wide(Kind),
    /// An array that is compared by identity, or null: a channel, a pointer to a struct or an array.
    Itself,
    /// An array of a holding array and an index, or null: a pointer to anything else.
    Pointer,
    Interface,
    Slice,
    Map,
    Func,
    /// An array of so many fields.
    Struct(u32),
    /// An array of so many elements of a type.
    Array(u32, TypeId),
}

/// The kind of an integer type.
pub fn kind_of(name: IntName) -> Kind
    ensures { result ≡ kind_of name }
{
    match name {
        IntName::Int | IntName::Int32 => Kind::I32,
        IntName::Uint | IntName::Uint32 | IntName::Uintptr => Kind::U32,
        IntName::Int8 => Kind::I8,
        IntName::Int16 => Kind::I16,
        IntName::Int64 => Kind::I64,
        IntName::Uint8 => Kind::U8,
        IntName::Uint16 => Kind::U16,
        IntName::Uint64 => Kind::U64,
    }
}

fn held_int(kind: Kind) -> Held
    ensures { how result ≡ held_int kind }
{
    match kind {
        Kind::I64 | Kind::U64 => Held::Wide(kind),
        _ => Held::Small(kind),
    }
}

fn held_untyped(basis: Basis) -> Held
    ensures { how result ≡ held_untyped basis }
{
    match basis {
        Basis::Bool => Held::Truth,
        Basis::Str => Held::Str,
        Basis::Int | Basis::Rune => Held::Small(Kind::I32),
    }
}

/// Whether numbers of a kind have a sign.
pub fn is_signed(kind: Kind) -> bool
    ensures { result ≡ is_signed kind }
{
    match kind {
        Kind::I8 | Kind::I16 | Kind::I32 | Kind::I64 => true,
        Kind::U8 | Kind::U16 | Kind::U32 | Kind::U64 => false,
    }
}

/// Whether a number of a kind is two halves.
pub fn is_wide(kind: Kind) -> bool
    ensures { result ≡ is_wide kind }
{
    match kind {
        Kind::I64 | Kind::U64 => true,
        _ => false,
    }
}

/// The underlying type of a type, which is the same number for identical ones.
pub fn underlying(table: &TypeTable, t: TypeId) -> TypeId {
    if t.0 < table.len() {
        return table.underlying(t);
    }
    t
}

/// One level of the underlying type.
pub fn level(table: &TypeTable, t: TypeId) -> Option<&GoType>
    ensures some { IfSome result (λ g. (t.0 < size table.now) × (level (places table.now) g.now ≡ underlying (names table.now) (tree_of (places table.now) t))) }
    ensures none { IfNone result (size table.now ≤ t.0) }
{
    if t.0 < table.len() {
        return Some(table.get(table.underlying(t)));
    }
    None
}

/// How values of a type are held.
pub fn held_as(table: &TypeTable, t: TypeId) -> Held
    ensures { how result ≡ how_held table.now t }
{
    match level(table, t) {
        Some(g) => held_level(table, g),
        None => Held::Truth,
    }
}

// How values of a type with this level are held.
fn held_level(table: &TypeTable, g: &GoType) -> Held
    ensures { how result ≡ held_tree (level (places table.now) g.now) }
{
    match g {
        GoType::Bool => Held::Truth,
        GoType::Str => Held::Str,
        GoType::Int(name) => held_int(kind_of(*name)),
        GoType::Untyped(basis) => held_untyped(*basis),
        GoType::Pointer(to) => held_pointer(table, *to),
        GoType::Interface(_) => Held::Interface,
        GoType::Slice(_) => Held::Slice,
        GoType::Map(_, _) => Held::Map,
        GoType::Func(_) => Held::Func,
        GoType::Struct(fields) => Held::Struct(counted(fields.as_slice().len())),
        GoType::Array(n, of) => Held::Array(*n, *of),
        _ => Held::Itself,
    }
}

fn counted(n: usize) -> u32 {
    if n < 4294967295 { n as u32 } else { 0 }
}

fn held_pointer(table: &TypeTable, to: TypeId) -> Held
    ensures { how result ≡ other }
{
    if is_block(table, to) {
        return Held::Itself;
    }
    Held::Pointer
}

/// Whether values of a type are arrays that are written in place: those of structs and arrays.
pub fn is_block(table: &TypeTable, t: TypeId) -> bool
    ensures { result ≡ is_block (how_held table.now t) }
{
    match level(table, t) {
        Some(g) => is_block_level(g),
        None => false,
    }
}

fn is_block_level(g: &GoType) -> bool
    ensures { (ts : List Ty) → result ≡ is_block (held_tree (level ts g.now)) }
{
    match g {
        GoType::Struct(_) | GoType::Array(_, _) => true,
        _ => false,
    }
}

/// How many elements the array of a struct or an array has.
pub fn parts(table: &TypeTable, t: TypeId) -> u32 {
    match held_as(table, t) {
        Held::Struct(n) => n,
        Held::Array(n, _) => n,
        _ => 0,
    }
}

/// The kind of an integer type; `I32` for any other.
pub fn int_kind(table: &TypeTable, t: TypeId) -> Kind
    ensures { result ≡ kind_held (how_held table.now t) }
{
    match held_as(table, t) {
        Held::Small(kind) => kind,
        Held::Wide(kind) => kind,
        _ => Kind::I32,
    }
}

/// The fields of a struct type.
pub fn fields(table: &TypeTable, t: TypeId) -> &[FieldRow] {
    match level(table, t) {
        Some(GoType::Struct(fields)) => fields.as_slice(),
        _ => &[],
    }
}

/// The type of a field; the struct type itself where it has no such field.
pub fn field_type(table: &TypeTable, t: TypeId, number: u32) -> TypeId {
    match fields(table, t).get(number as usize) {
        Some(row) => row.ty,
        None => t,
    }
}

/// The methods of an interface type.
pub fn methods(table: &TypeTable, t: TypeId) -> &[MethodSpec] {
    match level(table, t) {
        Some(GoType::Interface(methods)) => methods.as_slice(),
        _ => &[],
    }
}

/// The signature of a function type.
pub fn signature(table: &TypeTable, t: TypeId) -> Option<&Sig> {
    match level(table, t) {
        Some(GoType::Func(sig)) => Some(sig),
        _ => None,
    }
}

/// The type of the elements of an array, a slice, a channel or a map, or of what a pointer points to.
pub fn element(table: &TypeTable, t: TypeId) -> TypeId {
    match level(table, t) {
        Some(GoType::Array(_, e)) => *e,
        Some(GoType::Slice(e)) => *e,
        Some(GoType::Chan(_, e)) => *e,
        Some(GoType::Map(_, e)) => *e,
        Some(GoType::Pointer(e)) => *e,
        _ => t,
    }
}

/// The type of the keys of a map.
pub fn key(table: &TypeTable, t: TypeId) -> TypeId {
    match level(table, t) {
        Some(GoType::Map(k, _)) => *k,
        _ => t,
    }
}

/// Whether two types are one.
pub fn identical(a: TypeId, b: TypeId) -> bool {
    a.0 == b.0
}
