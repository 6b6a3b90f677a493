//! Fields, and which of them are gates.
//!
//! Go, "Struct types". Gates are own.

ghost use Rattle.std.specs.Prelude.{◌≡◌, IfSome, Some, None, ℕ, List, map, slice_get, true, false};
ghost use Rattle.go_type.specs.Tree as tree;
ghost use Rattle.go_type.specs.Tree.{Ty};
ghost use Rattle.go_type.specs.Levels.{tree_of, fields_of};
ghost use Rattle.go_type.specs.Table.{places, names};
ghost use Rattle.go_type.specs.Underlying.{underlying};
ghost use Rattle.go_core.specs.CoreView.{expr_view, program_view};
ghost use Rattle.go_core.specs.TypeOf.{types_of, one_type, field_in, nth_field, int_type};
ghost use Rattle.go_core.specs.SoundNode.{IsField, IsGate, IsGateField, BuildsPart};
ghost use Rattle.go_sound_parts.specs.Fields.{field_of};

use crate::given::gives;
use crate::levels::{level_at, under};
use go_core::node::CoreExpr;
use go_core::program::Program;
use go_type::TypeTable;
use go_type::types::{FieldRow, GoType, IntName, TypeId};

fn row_at<'a>(table: &TypeTable, fields: &'a [FieldRow], number: u32) -> Option<&'a FieldRow>
    ensures is { let ts = places table.now in IfSome result (λ f. slice_get (map (field_of ts) fields.now) number ≡ Some (field_of ts f.now)) }
{
    fields.get(number as usize)
}

fn nth_field<'a>(table: &TypeTable, fields: &'a [FieldRow], number: u32) -> Option<&'a FieldRow>
    ensures is { let ts = places table.now in IfSome result (λ f. nth_field (fields_of ts fields.now) number ≡ Some (field_of ts f.now)) }
{
    match row_at(table, fields, number) {
        Some(f) => Some(f),
        None => None,
    }
}

/// A field of a struct type.
pub fn field(table: &TypeTable, t: TypeId, number: u32) -> Option<&FieldRow>
    ensures is { let ts = places table.now in IfSome result (λ f. field_in (underlying (names table.now) (tree_of ts t)) number ≡ Some (field_of ts f.now)) }
{
    match under(table, t) {
        Some(GoType::Struct(fields)) => nth_field(table, fields.as_slice(), number),
        _ => None,
    }
}

// Whether it is `int`, where the table has the type.
fn is_int_level(table: &TypeTable, t: TypeId) -> Option<bool>
    ensures is { result ≡ Some true → tree_of (places table.now) t ≡ int_type }
    ensures not { result ≡ Some false → tree_of (places table.now) t ≡ int_type → ⊥ }
{
    match level_at(table, t) {
        Some(GoType::Int(name)) => match name {
            IntName::Int => Some(true),
            _ => Some(false),
        },
        Some(_) => Some(false),
        None => None,
    }
}

// Whether it is the type of pointers to `int`, where the table has it.
fn is_gate_type(table: &TypeTable, t: TypeId) -> Option<bool>
    ensures is { result ≡ Some true → tree_of (places table.now) t ≡ tree.pointer int_type }
    ensures not { result ≡ Some false → tree_of (places table.now) t ≡ tree.pointer int_type → ⊥ }
{
    match level_at(table, t) {
        Some(GoType::Pointer(target)) => is_int_level(table, *target),
        Some(_) => Some(false),
        None => None,
    }
}

// Whether the field is a gate, of package `sync` and a pointer to `int`, where the table has its
// type.
fn is_gate(table: &TypeTable, f: &FieldRow) -> Option<bool>
    ensures is { result ≡ Some true → IsGate (Some (field_of (places table.now) f.now)) }
    ensures not { result ≡ Some false → IsGate (Some (field_of (places table.now) f.now)) → ⊥ }
{
    if f.package.as_bytes() == b"sync".as_slice() {
        is_gate_type(table, f.ty)
    } else {
        Some(false)
    }
}

/// A field that is no gate.
pub fn plain_field(p: &Program, t: TypeId, number: u32) -> Option<&FieldRow>
    ensures is { let q = program_view p.now in let ts = places p.now.types in IfSome result (λ f. (field_in (underlying q.names (tree_of ts t)) number ≡ Some (field_of ts f.now)) × (IsGateField q (tree_of ts t) number → ⊥)) }
{
    match field(&p.types, t, number) {
        Some(f) => match is_gate(&p.types, f) {
            Some(gate) => if gate { None } else { Some(f) },
            None => None,
        },
        None => None,
    }
}

/// Whether it is a field that is no gate.
pub fn is_plain_field(p: &Program, t: TypeId, number: u32) -> bool
    ensures is { let q = program_view p.now in let ts = places p.now.types in result ≡ true → IsField (field_in (underlying q.names (tree_of ts t)) number) × (IsGateField q (tree_of ts t) number → ⊥) }
{
    match plain_field(p, t, number) {
        Some(_) => true,
        None => false,
    }
}

/// Whether the field is a gate.
pub fn is_gate_field(p: &Program, t: TypeId, number: u32) -> bool
    ensures is { let q = program_view p.now in let ts = places p.now.types in result ≡ true → IsGateField q (tree_of ts t) number }
{
    match field(&p.types, t, number) {
        Some(f) => match is_gate(&p.types, f) {
            Some(gate) => gate,
            None => false,
        },
        None => false,
    }
}

/// Whether an expression gives the element of what is built at an index.
pub fn part_fits(p: &Program, t: TypeId, count: u32, index: u32, e: &CoreExpr) -> bool
    ensures is { let q = program_view p.now in let ts = places p.now.types in result ≡ true → BuildsPart q (tree_of ts t) (underlying q.names (tree_of ts t)) count index (one_type (types_of q.names (expr_view ts e.now))) }
{
    match under(&p.types, t) {
        Some(GoType::Slice(element)) => index < count && gives(&p.types, e, *element),
        Some(GoType::Array(length, element)) => index < *length && gives(&p.types, e, *element),
        Some(GoType::Struct(_)) => match plain_field(p, t, index) {
            Some(f) => gives(&p.types, e, f.ty),
            None => false,
        },
        _ => false,
    }
}
