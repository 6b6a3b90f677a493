//! How a value of a type lies in memory: as scalars one after another.
//!
//! The Go Programming Language Specification (as of Go 1.17), "Types", "Struct types", "Array
//! types", "The zero value". A type without scalars takes one (own).

ghost use Rattle.std.specs.Prelude.{◌≡◌, ◌<◌, ◌+◌, ◌-◌, ◌*◌, ◌++◌, ◌&&◌, [], ◌∷◌, List, OnOk, IfOk, IfSome, IfNone, length, not, true, false};
ghost use Rattle.go_type.specs.Tree.{Ty};
ghost use Rattle.go_type.specs.Levels.{tree_of, fields_of, FieldsBelow};
ghost use Rattle.go_type.specs.Levels as levels;
ghost use Rattle.go_type.specs.Table.{places, names, size, name_count};
ghost use Rattle.go_core.specs.Layout as defined;
ghost use Rattle.go_core.specs.Memory as core;
ghost use Rattle.go_values.specs.ValuesSeen.{scalar_of, value_of};
ghost use Rattle.go_values.specs.Laid.{leaf_kind, Adds, AddsParts, IsLaid};

use crate::layouts::fields::type_at;
use crate::values::scalar::{Scalar, nil, truth};
use gj_base::{Kind, NoMemory};
use go_type::TypeTable;
use go_type::types::{FieldRow, GoType, IntName, NamedId, TypeId};
use std::alloc::Global;

/// The kind of an integer type: `int`, `uint` and `uintptr` have 32 bits (own).
pub fn kind_of(name: IntName) -> Kind
    ensures value { result ≡ defined.kind_of name }
{
    match name {
        IntName::Int8 => Kind::I8,
        IntName::Int16 => Kind::I16,
        IntName::Int | IntName::Int32 => Kind::I32,
        IntName::Int64 => Kind::I64,
        IntName::Uint8 => Kind::U8,
        IntName::Uint16 => Kind::U16,
        IntName::Uint | IntName::Uint32 | IntName::Uintptr => Kind::U32,
        IntName::Uint64 => Kind::U64,
    }
}

/// The scalars of a type.
#[derive(Drop)]
pub struct Layout<'a> {
    /// Each scalar at zero.
    pub zeros: Vec<Scalar<'a>>,
    /// Of each scalar, whether a comparison looks at it.
    pub flags: Vec<bool>,
    /// How many structs and arrays, at all depths.
    pub composites: u64,
}

/// How many scalars.
pub fn places_in(layout: &Layout) -> u64
    ensures value { result ≡ length layout.now.zeros.items }
{
    layout.zeros.len() as u64
}

// The zero of a type that has no parts and no name.
fn zero_of<'a>(level: &GoType) -> Scalar<'a>
    ensures value { (ts us : List Ty) → scalar_of ts result ≡ core.zero_scalar (leaf_kind (levels.level us level.now)) }
{
    match level {
        GoType::Bool => Scalar::Truth(false),
        GoType::Str => Scalar::Text(&[]),
        GoType::Int(_) => Scalar::Whole(0),
        _ => Scalar::Nil,
    }
}

// One more scalar.
fn push<'a>(out: &mut Layout<'a>, zero: Scalar<'a>, compared: bool) -> Result<(), NoMemory>
    ensures zeros { OnOk result (out.new.zeros.items ≡ out.old.zeros.items ++ zero.entry ∷ []) }
    ensures flags { OnOk result (out.new.flags.items ≡ out.old.flags.items ++ compared ∷ []) }
    ensures composites { OnOk result (out.new.composites ≡ out.old.composites) }
{
    out.zeros.push(zero)?;
    out.flags.push(compared)?;
    Ok(())
}

// The one scalar of a type that has no parts and no name.
fn lay_leaf<'a>(level: &GoType, looked: bool, out: &mut Layout<'a>) -> Result<(), NoMemory>
    ensures value { OnOk result ((ts us : List Ty) → Adds ts out.old out.new looked (defined.one (leaf_kind (levels.level us level.now)))) }
{
    push(out, zero_of(level), looked)?;
    Ok(())
}

fn lay_pointer<'a>(looked: bool, out: &mut Layout<'a>) -> Result<(), NoMemory>
    ensures value { OnOk result ((ts : List Ty) → Adds ts out.old out.new looked (defined.one defined.a_pointer)) }
{
    push(out, nil(), looked)?;
    Ok(())
}

fn lay_bool<'a>(out: &mut Layout<'a>) -> Result<(), NoMemory>
    ensures value { OnOk result ((ts : List Ty) → Adds ts out.old out.new true (defined.one defined.a_truth)) }
{
    push(out, truth(false), true)?;
    Ok(())
}

// One more scalar where there are only so many as there were.
fn pad<'a>(out: &mut Layout<'a>, before: u64) -> Result<(), NoMemory>
    ensures zeros { OnOk result (length out.old.zeros.items ≡ before → (ts : List Ty) → value_of ts out.new.zeros.items ≡ value_of ts out.old.zeros.items ++ core.nil ∷ []) }
    ensures flags { OnOk result (length out.old.zeros.items ≡ before → out.new.flags.items ≡ out.old.flags.items ++ false ∷ []) }
    ensures same { OnOk result (¬ (length out.old.zeros.items ≡ before) → (out.new.zeros.items ≡ out.old.zeros.items) × (out.new.flags.items ≡ out.old.flags.items)) }
    ensures composites { OnOk result (out.new.composites ≡ out.old.composites + 1) }
{
    match out.composites.checked_add(1) {
        Some(n) => out.composites = n,
        None => return Err(NoMemory),
    }
    if places_in(out) != before {
        return Ok(());
    }
    push(out, nil(), false)?;
    Ok(())
}

// The elements of an array that stands at `owner`.
#[cycle(lay)]
fn lay_copies<'a>(
    table: &TypeTable,
    owner: TypeId,
    element: TypeId,
    count: u32,
    left: u64,
    looked: bool,
    out: &mut Layout<'a>,
) -> Result<(), NoMemory>
    requires owner { owner.0 < size table.now }
    requires element { element.0 < owner.0 }
    ensures value { OnOk result (AddsParts (places table.now) out.old out.new looked (defined.copies count (defined.shape_with (defined.name_shape (names table.now) left) (tree_of (places table.now) element)))) }
{
    'copies: for _i in 0..count {
        lay(table, element, left, looked, out)?;
    }
    Ok(())
}

// Whether a comparison looks at a field: not at a blank one.
fn is_compared(looked: bool, name: &[u8]) -> bool
    ensures value { result ≡ (looked && not (defined.is_blank name.now)) }
{
    looked && name != b"_".as_slice()
}

// The fields of a struct that stands at `owner`.
#[cycle(lay)]
fn lay_fields<'a>(
    table: &TypeTable,
    owner: TypeId,
    fields: &[FieldRow],
    left: u64,
    looked: bool,
    out: &mut Layout<'a>,
) -> Result<(), NoMemory>
    requires owner { owner.0 < size table.now }
    requires fields { FieldsBelow owner.0 fields.now }
    ensures value { OnOk result (AddsParts (places table.now) out.old out.new looked (defined.parts_with (defined.name_shape (names table.now) left) (fields_of (places table.now) fields.now))) }
{
    'fields: for i in 0..fields.len() {
        let compared = is_compared(looked, fields[i].name.as_bytes());
        lay(table, type_at(owner, fields, i), left, compared, out)?;
    }
    Ok(())
}

// An array that stands at `owner`.
#[cycle(lay)]
fn lay_array<'a>(
    table: &TypeTable,
    owner: TypeId,
    element: TypeId,
    count: u32,
    left: u64,
    looked: bool,
    out: &mut Layout<'a>,
) -> Result<(), NoMemory>
    requires owner { owner.0 < size table.now }
    requires element { element.0 < owner.0 }
    ensures value { OnOk result (Adds (places table.now) out.old out.new looked (defined.many (defined.copies count (defined.shape_with (defined.name_shape (names table.now) left) (tree_of (places table.now) element))))) }
{
    let before = places_in(out);
    lay_copies(table, owner, element, count, left, looked, out)?;
    pad(out, before)?;
    Ok(())
}

// A struct that stands at `owner`.
#[cycle(lay)]
fn lay_struct<'a>(
    table: &TypeTable,
    owner: TypeId,
    fields: &[FieldRow],
    left: u64,
    looked: bool,
    out: &mut Layout<'a>,
) -> Result<(), NoMemory>
    requires owner { owner.0 < size table.now }
    requires fields { FieldsBelow owner.0 fields.now }
    ensures value { OnOk result (Adds (places table.now) out.old out.new looked (defined.many (defined.parts_with (defined.name_shape (names table.now) left) (fields_of (places table.now) fields.now)))) }
{
    let before = places_in(out);
    lay_fields(table, owner, fields, left, looked, out)?;
    pad(out, before)?;
    Ok(())
}

// What a named type stands for, where named types lead on through so many names.
fn under_within(table: &TypeTable, id: NamedId, left: u64) -> Option<TypeId>
    requires { id.0 < name_count table.now }
    ensures some { IfSome result (λ t. defined.name_shape (names table.now) left id.0 ≡ defined.shape_with (defined.name_shape (names table.now) (left - 1)) (tree_of (places table.now) t)) }
    ensures none { IfNone result (defined.name_shape (names table.now) left id.0 ≡ defined.one defined.a_pointer) }
    ensures within { IfSome result (λ t. t.0 < size table.now) }
    ensures left { IfSome result (λ t. 0 < left) }
{
    if left == 0 {
        return None;
    }
    table.under_of(id)
}

// The scalars of a named type, where named types lead on through so many names.
#[cycle(lay)]
fn lay_named<'a>(
    table: &TypeTable,
    id: NamedId,
    left: u64,
    looked: bool,
    out: &mut Layout<'a>,
) -> Result<(), NoMemory>
    requires { id.0 < name_count table.now }
    ensures value { OnOk result (Adds (places table.now) out.old out.new looked (defined.name_shape (names table.now) left id.0)) }
{
    match under_within(table, id, left) {
        Some(under) => lay(table, under, left - 1, looked, out),
        None => lay_pointer(looked, out),
    }
}

// The scalars of a type, where named types lead on through so many names.
#[cycle(lay)]
fn lay<'a>(
    table: &TypeTable,
    t: TypeId,
    left: u64,
    looked: bool,
    out: &mut Layout<'a>,
) -> Result<(), NoMemory>
    requires { t.0 < size table.now }
    ensures value { OnOk result (Adds (places table.now) out.old out.new looked (defined.shape_with (defined.name_shape (names table.now) left) (tree_of (places table.now) t))) }
{
    match table.get(t) {
        GoType::Array(count, element) => lay_array(table, t, *element, *count, left, looked, out),
        GoType::Struct(fields) => lay_struct(table, t, fields.as_slice(), left, looked, out),
        GoType::Named(id) => lay_named(table, *id, left, looked, out),
        other => lay_leaf(other, looked, out),
    }
}

// The scalars of a type.
fn lay_any<'a>(table: &TypeTable, t: TypeId, out: &mut Layout<'a>) -> Result<(), NoMemory>
    ensures value { OnOk result (Adds (places table.now) out.old out.new true (defined.shape_of (names table.now) (tree_of (places table.now) t))) }
{
    if t.0 < table.len() {
        lay(table, t, table.name_len(), true, out)
    } else {
        lay_bool(out)
    }
}

fn empty<'a>(alloc: Global) -> Layout<'a>
    ensures value { (result.zeros.items ≡ []) × (result.flags.items ≡ []) × (result.composites ≡ 0) }
{
    Layout {
        zeros: Vec::new(alloc),
        flags: Vec::new(alloc),
        composites: 0,
    }
}

/// The layout of a type.
pub fn layout_of<'a>(alloc: Global, table: &TypeTable, t: TypeId) -> Result<Layout<'a>, NoMemory>
    ensures value { IfOk result (λ l. IsLaid (places table.now) l (defined.shape_of (names table.now) (tree_of (places table.now) t))) }
{
    let mut out = empty(alloc);
    lay_any(table, t, &mut out)?;
    Ok(out)
}

/// What a value takes of units (own): its scalars, and the structs and arrays in it.
pub fn weight(layout: &Layout) -> Result<u64, NoMemory>
    ensures value { IfOk result (λ n. (ts : List Ty) (s : defined.Shape) → IsLaid ts layout.now s → n ≡ defined.weight s) }
{
    match layout.composites.checked_add(places_in(layout)) {
        Some(n) => Ok(n),
        None => Err(NoMemory),
    }
}

// Where the field with a number lies in a struct that stands at `owner`.
fn field_offset(
    alloc: Global,
    table: &TypeTable,
    owner: TypeId,
    fields: &[FieldRow],
    left: u64,
    number: u64,
) -> Result<u64, NoMemory>
    requires owner { owner.0 < size table.now }
    requires fields { FieldsBelow owner.0 fields.now }
    ensures value { IfOk result (λ n. n ≡ defined.offset_in (defined.nth_part (defined.parts_with (defined.name_shape (names table.now) left) (fields_of (places table.now) fields.now)) number)) }
{
    if number >= fields.len() as u64 {
        return Ok(0);
    }
    let mut before = empty(alloc);
    let earlier = &fields[..number as usize];
    lay_fields(table, owner, earlier, left, true, &mut before)?;
    Ok(places_in(&before))
}

fn product(m: u64, n: u64) -> Result<u64, NoMemory>
    ensures value { IfOk result (λ k. k ≡ m * n) }
{
    match m.checked_mul(n) {
        Some(k) => Ok(k),
        None => Err(NoMemory),
    }
}

// Where the element at an index lies in an array that stands at `owner`.
fn element_offset(
    alloc: Global,
    table: &TypeTable,
    element: TypeId,
    count: u32,
    left: u64,
    index: u64,
) -> Result<u64, NoMemory>
    requires { element.0 < size table.now }
    ensures value { IfOk result (λ n. n ≡ defined.offset_in (defined.nth_part (defined.copies count (defined.shape_with (defined.name_shape (names table.now) left) (tree_of (places table.now) element))) index)) }
{
    if index >= count as u64 {
        return Ok(0);
    }
    let mut one = empty(alloc);
    lay(table, element, left, true, &mut one)?;
    let offset = product(index, places_in(&one))?;
    Ok(offset)
}

#[cycle(offset)]
fn named_offset(
    alloc: Global,
    table: &TypeTable,
    id: NamedId,
    left: u64,
    number: u64,
) -> Result<u64, NoMemory>
    requires { id.0 < name_count table.now }
    ensures value { IfOk result (λ n. n ≡ defined.offset_in (defined.part_of (defined.name_shape (names table.now) left id.0) number)) }
{
    match under_within(table, id, left) {
        Some(under) => offset_at(alloc, table, under, left - 1, number),
        None => Ok(0),
    }
}

#[cycle(offset)]
fn offset_at(
    alloc: Global,
    table: &TypeTable,
    t: TypeId,
    left: u64,
    number: u64,
) -> Result<u64, NoMemory>
    requires { t.0 < size table.now }
    ensures value { IfOk result (λ n. n ≡ defined.offset_in (defined.part_of (defined.shape_with (defined.name_shape (names table.now) left) (tree_of (places table.now) t)) number)) }
{
    match table.get(t) {
        GoType::Struct(fields) => field_offset(alloc, table, t, fields.as_slice(), left, number),
        GoType::Array(count, element) => {
            element_offset(alloc, table, *element, *count, left, number)
        }
        GoType::Named(id) => named_offset(alloc, table, *id, left, number),
        _ => Ok(0),
    }
}

/// Where the field with a number, or the element at an index, lies in a value of the type; 0 where
/// there is none.
pub fn offset_of(alloc: Global, table: &TypeTable, t: TypeId, number: u64) -> Result<u64, NoMemory>
    ensures value { IfOk result (λ n. n ≡ defined.offset_in (defined.part_of (defined.shape_of (names table.now) (tree_of (places table.now) t)) number)) }
{
    if t.0 < table.len() {
        offset_at(alloc, table, t, table.name_len(), number)
    } else {
        Ok(0)
    }
}
