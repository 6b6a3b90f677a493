//! Conversions.
//!
//! Go, "Conversions", "Assignability".

ghost use Rattle.std.specs.Prelude.{◌≡◌, ◌⊎◌, true, List, option_map};
ghost use Rattle.std.specs.List.{AllByRecursion};
ghost use Rattle.go_type.specs.Tree as tree;
ghost use Rattle.go_type.specs.Tree.{Ty};
ghost use Rattle.go_type.specs.Levels.{tree_of, trees_of, specs_of};
ghost use Rattle.go_type.specs.Table.{places};
ghost use Rattle.go_type.specs.Underlying.{underlying};
ghost use Rattle.go_type.specs.Assignability.{IsAssignable};
ghost use Rattle.go_core.specs.CoreView.{program_view};
ghost use Rattle.go_core.specs.TypeOf.{spec_in};
ghost use Rattle.go_core.specs.Untagged.{IsAlike};
ghost use Rattle.go_sound_parts.specs.Methods.{OwnsSpec};
ghost use Rattle.go_core.specs.SoundNode.{IsByteOrRune, Converts, ConvertsPointer, IsTyped, AsksNoMore, IsConversion, IsInterface};

use crate::alike::are_alike;
use crate::levels::{is_concrete, is_interface, level_at, under, underlying};
use crate::methods::{same_signature, spec_among};
use go_core::program::Program;
use go_type::types::{GoType, IntName, MethodSpec, Sig, TypeId};

// Whether the underlying types are identical but for tags.
fn same_under(p: &Program, a: TypeId, b: TypeId) -> bool
    ensures is { let q = program_view p.now in let ts = places p.now.types in result ≡ true → IsAlike (underlying q.names (tree_of ts a)) (underlying q.names (tree_of ts b)) }
{
    match underlying(&p.types, a) {
        Some(x) => match underlying(&p.types, b) {
            Some(y) => are_alike(&p.types, x, y),
            None => false,
        },
        None => false,
    }
}

// Whether it is a type of bytes or of runes.
fn is_byte_or_rune(p: &Program, t: TypeId) -> bool
    ensures is { let q = program_view p.now in result ≡ true → IsByteOrRune (underlying q.names (tree_of (places p.now.types) t)) }
{
    match under(&p.types, t) {
        Some(GoType::Int(name)) => match name {
            IntName::Uint8 => true,
            IntName::Int32 => true,
            _ => false,
        },
        _ => false,
    }
}

// From an integer, a string or a slice.
fn int_converts(p: &Program, name: IntName, to: TypeId) -> bool
    ensures is { let q = program_view p.now in result ≡ true → Converts q (tree.int name) (underlying q.names (tree_of (places p.now.types) to)) }
{
    match under(&p.types, to) {
        Some(GoType::Int(_)) => true,
        Some(GoType::Str) => true,
        _ => false,
    }
}

fn text_converts(p: &Program, to: TypeId) -> bool
    ensures is { let q = program_view p.now in result ≡ true → Converts q tree.str (underlying q.names (tree_of (places p.now.types) to)) }
{
    match under(&p.types, to) {
        Some(GoType::Slice(element)) => is_byte_or_rune(p, *element),
        _ => false,
    }
}

fn slice_converts(p: &Program, element: TypeId, to: TypeId) -> bool
    ensures is { let q = program_view p.now in let ts = places p.now.types in result ≡ true → Converts q (tree.slice (tree_of ts element)) (underlying q.names (tree_of ts to)) }
{
    match under(&p.types, to) {
        Some(GoType::Str) => is_byte_or_rune(p, element),
        _ => false,
    }
}

fn converts(p: &Program, from: TypeId, to: TypeId) -> bool
    ensures is { let q = program_view p.now in let ts = places p.now.types in result ≡ true → Converts q (underlying q.names (tree_of ts from)) (underlying q.names (tree_of ts to)) }
{
    match under(&p.types, from) {
        Some(GoType::Int(name)) => int_converts(p, *name, to),
        Some(GoType::Str) => text_converts(p, to),
        Some(GoType::Slice(element)) => slice_converts(p, *element, to),
        _ => false,
    }
}

// Between pointer types that no name stands for.
fn to_pointer(p: &Program, target: TypeId, to: TypeId) -> bool
    ensures is { let q = program_view p.now in let ts = places p.now.types in result ≡ true → ConvertsPointer q (tree.pointer (tree_of ts target)) (tree_of ts to) }
{
    match level_at(&p.types, to) {
        Some(GoType::Pointer(other)) => same_under(p, target, *other),
        _ => false,
    }
}

fn converts_pointer(p: &Program, from: TypeId, to: TypeId) -> bool
    ensures is { let q = program_view p.now in let ts = places p.now.types in result ≡ true → ConvertsPointer q (tree_of ts from) (tree_of ts to) }
{
    match level_at(&p.types, from) {
        Some(GoType::Pointer(target)) => to_pointer(p, *target, to),
        _ => false,
    }
}

fn is_typed(p: &Program, t: TypeId) -> bool
    ensures is { let q = program_view p.now in result ≡ true → IsTyped (underlying q.names (tree_of (places p.now.types) t)) }
{
    match under(&p.types, t) {
        Some(GoType::Untyped(_)) => false,
        Some(GoType::Nil) => false,
        Some(GoType::Tuple(_)) => false,
        Some(_) => true,
        None => false,
    }
}

// Between types of which one is an interface type at most, or whose methods are the same.
fn asks_no_more(p: &Program, from: TypeId, to: TypeId) -> bool
    ensures is { let q = program_view p.now in let ts = places p.now.types in result ≡ true → AsksNoMore (underlying q.names (tree_of ts from)) (underlying q.names (tree_of ts to)) }
{
    match under(&p.types, from) {
        Some(GoType::Interface(own)) => match under(&p.types, to) {
            Some(GoType::Interface(asked)) => has_all(own.as_slice(), asked.as_slice()),
            Some(_) => true,
            None => false,
        },
        Some(_) => true,
        None => false,
    }
}

fn own_method<'a>(own: &'a [MethodSpec], spec: &MethodSpec) -> Option<&'a Sig>
    ensures is { (ts : List Ty) → option_map (λ s. record { params = trees_of ts s.now.params; results = trees_of ts s.now.results; variadic = s.now.variadic }) result ≡ spec_in spec.now.name spec.now.package (specs_of ts own.now) }
{
    spec_among(own, spec.name.as_bytes(), spec.package.as_bytes())
}

// Whether a method asked for is among the own ones.
fn owns(own: &[MethodSpec], spec: &MethodSpec) -> bool
    ensures is { result ≡ true → OwnsSpec own.now spec.now }
{
    match own_method(own, spec) {
        Some(sig) => same_signature(sig, &spec.sig),
        None => false,
    }
}

fn owns_all(own: &[MethodSpec], asked: &[MethodSpec]) -> bool
    ensures is { result ≡ true → AllByRecursion (OwnsSpec own.now) asked.now }
{
    for spec in asked {
        if !owns(own, spec) {
            return false;
        }
    }
    true
}

// Whether the methods asked for are among the own ones.
fn has_all(own: &[MethodSpec], asked: &[MethodSpec]) -> bool
    ensures is { result ≡ true → (ts : List Ty) → AsksNoMore (tree.interface (specs_of ts own.now)) (tree.interface (specs_of ts asked.now)) }
{
    owns_all(own, asked)
}

// To an interface only from another one, since a Wrap stands for the others.
fn keeps_kind(p: &Program, from: TypeId, to: TypeId) -> bool
    ensures is { let q = program_view p.now in let ts = places p.now.types in result ≡ true → IsInterface (underlying q.names (tree_of ts from)) ⊎ (IsInterface (underlying q.names (tree_of ts to)) → ⊥) }
{
    is_interface(&p.types, from) || is_concrete(&p.types, to)
}

fn is_assignable(p: &Program, from: TypeId, to: TypeId) -> bool
    ensures is { let q = program_view p.now in let ts = places p.now.types in result ≡ true → IsAssignable q.names (tree_of ts from) (tree_of ts to) }
{
    let count = p.types.len();
    from.0 < count && to.0 < count && p.types.assignable(from, to)
}

/// Whether values of a type can be converted to another.
pub fn is_conversion(p: &Program, from: TypeId, to: TypeId) -> bool
    ensures is { let q = program_view p.now in let ts = places p.now.types in result ≡ true → IsConversion q (tree_of ts from) (tree_of ts to) }
{
    if same_under(p, from, to) || converts(p, from, to) || converts_pointer(p, from, to) {
        return true;
    }
    is_assignable(p, from, to)
        && keeps_kind(p, from, to)
        && is_typed(p, from)
        && asks_no_more(p, from, to)
}
