//! Method rows: what an interface value can be asked for.
//!
//! Go, "Method sets", "Interface types".

ghost use Rattle.std.specs.Prelude.{◌≡◌, IfSome, Some, true, List, slice_get, option_map, ◌&&◌, bytes_eq, ◌<◌};
ghost use Rattle.go_type.specs.Tree as tree;
ghost use Rattle.go_type.specs.Tree.{Ty};
ghost use Rattle.go_type.specs.Levels.{tree_of, trees_of, specs_of};
ghost use Rattle.go_type.specs.Table.{places, names};
ghost use Rattle.go_type.specs.Underlying.{underlying};
ghost use Rattle.go_core.specs.CoreTree.{MethodName};
ghost use Rattle.go_core.specs.CoreView.{func_view, method_row_view, program_view};
ghost use Rattle.go_core.specs.TypeOf.{Signature, method_in, spec_in};
ghost use Rattle.go_core.specs.SoundNode.{Answers, AnswersTo};
ghost use Rattle.go_sound_parts.specs.Index.{IsRowAt, OwnRows, name_of};
ghost use Rattle.go_sound_parts.specs.Methods.{Finds, HasSpec};
ghost use Rattle.std.specs.List.{AllByRecursion};

use crate::index::{KeyIndex, place_of};
use crate::levels::under;
use crate::lists::same_types;
use go_core::program::{Func, MethodRow, Program};
use go_core::tree::FuncId;
use go_type::types::{GoType, MethodSpec, Sig, TypeId};

/// A function by its number.
pub fn func_at(p: &Program, id: FuncId) -> Option<&Func>
    ensures is { IfSome result (λ f. slice_get (program_view p.now).funcs id.0 ≡ Some (func_view (places p.now.types) f.now)) }
{
    p.funcs.items.as_slice().get(id.0 as usize)
}

/// A method row by its place.
pub fn row_at(p: &Program, at: u64) -> Option<&MethodRow>
    ensures is { IfSome result (λ r. slice_get (program_view p.now).methods at ≡ Some (method_row_view (places p.now.types) r.now)) }
{
    p.methods.items.as_slice().get(at as usize)
}

fn is_row(row: &MethodRow, t: TypeId, name: &[u8], package: &[u8]) -> bool
    ensures is { result ≡ true → (ts : List Ty) → name_of (method_row_view ts row.now) ≡ record { type_ = tree_of ts t; name = name.now; package_ = «package».now } }
{
    row.ty.0 == t.0 && row.name.as_bytes() == name && row.package.as_bytes() == package
}

/// The place of a method's row, by the type, the name and the package.
pub fn row_of(p: &Program, index: &KeyIndex, t: TypeId, name: &[u8], package: &[u8]) -> Option<u64>
    ensures is { let ts = places p.now.types in IfSome result (λ at. IsRowAt (program_view p.now) (record { type_ = tree_of ts t; name = name.now; package_ = «package».now }) at) }
{
    match place_of(index, t.0, name, package) {
        Some(at) => match row_at(p, at) {
            Some(row) => if is_row(row, t, name, package) {
                Some(at)
            } else {
                None
            },
            None => None,
        },
        None => None,
    }
}

/// The function of a type's method.
pub fn method<'a>(
    p: &'a Program,
    index: &KeyIndex,
    t: TypeId,
    name: &[u8],
    package: &[u8],
) -> Option<&'a Func>
    ensures is { let ts = places p.now.types in OwnRows (program_view p.now) → IfSome result (λ f. Finds (program_view p.now) (record { type_ = tree_of ts t; name = name.now; package_ = «package».now }) (func_view ts f.now)) }
{
    match row_of(p, index, t, name, package) {
        Some(at) => match row_at(p, at) {
            Some(row) => match func_at(p, row.func) {
                Some(f) => Some(f),
                None => None,
            },
            None => None,
        },
        None => None,
    }
}

/// Whether two signatures are identical.
pub fn same_signature(a: &Sig, b: &Sig) -> bool
    ensures is { result ≡ true → (ts : List Ty) → (trees_of ts a.now.params ≡ trees_of ts b.now.params) × (trees_of ts a.now.results ≡ trees_of ts b.now.results) × (a.now.variadic ≡ b.now.variadic) }
{
    a.variadic == b.variadic
        && same_types(a.params.as_slice(), b.params.as_slice())
        && same_types(a.results.as_slice(), b.results.as_slice())
}

// Whether a method of a type has its row, whose function has its signature.
fn has_row(p: &Program, index: &KeyIndex, t: TypeId, spec: &MethodSpec) -> bool
    ensures is { OwnRows (program_view p.now) → result ≡ true → HasSpec p.now t spec.now }
{
    match method(p, index, t, spec.name.as_bytes(), spec.package.as_bytes()) {
        Some(func) => same_signature(&func.sig, &spec.sig),
        None => false,
    }
}

/// Whether each of these methods has its row.
pub fn have_rows(p: &Program, index: &KeyIndex, t: TypeId, specs: &[MethodSpec]) -> bool
    ensures is { OwnRows (program_view p.now) → result ≡ true → AllByRecursion (HasSpec p.now t) specs.now }
{
    for spec in specs {
        if !has_row(p, index, t, spec) {
            return false;
        }
    }
    true
}

/// Whether each method of an interface type has its row for the type.
pub fn answers(p: &Program, index: &KeyIndex, t: TypeId, specs: &[MethodSpec]) -> bool
    ensures is { let ts = places p.now.types in OwnRows (program_view p.now) → result ≡ true → Answers (program_view p.now) (tree_of ts t) (specs_of ts specs.now) }
{
    have_rows(p, index, t, specs)
}

/// Whether values of a type can be ones of an interface type: each of its methods has its row.
pub fn answers_to(p: &Program, index: &KeyIndex, from: TypeId, to: TypeId) -> bool
    ensures is { let q = program_view p.now in let ts = places p.now.types in OwnRows q → result ≡ true → AnswersTo q (tree_of ts from) (underlying q.names (tree_of ts to)) }
{
    match under(&p.types, to) {
        Some(GoType::Interface(specs)) => answers(p, index, from, specs.as_slice()),
        _ => false,
    }
}

fn is_spec(spec: &MethodSpec, name: &[u8], package: &[u8]) -> bool
    ensures is { result ≡ bytes_eq spec.now.name name.now && bytes_eq spec.now.package «package».now }
{
    spec.name.as_bytes() == name && spec.package.as_bytes() == package
}

/// A method among those of an interface type.
pub fn spec_among<'a>(specs: &'a [MethodSpec], name: &[u8], package: &[u8]) -> Option<&'a Sig>
    ensures is { (ts : List Ty) → option_map (λ s. record { params = trees_of ts s.now.params; results = trees_of ts s.now.results; variadic = s.now.variadic }) result ≡ spec_in name.now «package».now (specs_of ts specs.now) }
{
    for spec in specs {
        if is_spec(spec, name, package) {
            return Some(&spec.sig);
        }
    }
    None
}

/// A method of an interface type.
pub fn interface_method<'a>(
    p: &'a Program,
    t: TypeId,
    name: &[u8],
    package: &[u8],
) -> Option<&'a Sig>
    ensures is { let q = program_view p.now in let ts = places p.now.types in IfSome result (λ s. method_in name.now «package».now (underlying q.names (tree_of ts t)) ≡ Some (record { params = trees_of ts s.now.params; results = trees_of ts s.now.results; variadic = s.now.variadic })) }
{
    match under(&p.types, t) {
        Some(GoType::Interface(specs)) => spec_among(specs.as_slice(), name, package),
        _ => None,
    }
}
