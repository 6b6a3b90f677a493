//! The method `Error` of a panic's value, and what it answers.
//!
//! The Go Programming Language Specification (as of Go 1.17), "Errors".

ghost use Rattle.std.specs.Prelude.{◌≡◌, ℕ, false, List, Some, IfOk, option_map};
ghost use Rattle.go_type.specs.Tree.{Ty, no_tys, str};
ghost use Rattle.go_type.specs.Levels.{level, tree_of, trees_of};
ghost use Rattle.go_type.specs.Table.{places};
ghost use Rattle.go_core.specs.CoreView.{func_view, program_view};
ghost use Rattle.go_core.specs.CoreTree.{CoreProgram};
ghost use Rattle.go_core.specs.Memory as core;
ghost use Rattle.go_core.specs.Panics as defining;
ghost use Rattle.go_core.specs.SameType.{same_type, same_types};
ghost use Rattle.go_core.specs.StepInterfaces as defined;
ghost use Rattle.go_values.specs.ValuesSeen.{scalar_of, value_of, values_of};
ghost use Rattle.go_entries.specs.Told.{text_scalar, text_of, told_of};

use gj_base::NoMemory;
use go_core::program::{Func, Program};
use go_slices::composites::interfaces::{func_of_row, row_of};
use go_type::TypeTable;
use go_type::types::{GoType, TypeId};
use go_values::operators::did::Context;
use go_values::values::level::level_at;
use go_values::values::scalar::Scalar;

fn is_text_level(g: &GoType) -> bool
    ensures value { (ts : List Ty) → result ≡ same_type (level ts g.now) str }
{
    match g {
        GoType::Str => true,
        _ => false,
    }
}

fn is_text(table: &TypeTable, t: TypeId) -> bool
    ensures value { result ≡ same_type (tree_of (places table.now) t) str }
{
    match level_at(table, t) {
        Some(g) => is_text_level(g),
        None => false,
    }
}

// One result, a string.
fn is_one_text(table: &TypeTable, ids: &[TypeId]) -> bool
    ensures value { result ≡ same_types (trees_of (places table.now) ids.now) defined.one_string }
{
    if ids.len() != 1 {
        return false;
    }
    is_text(table, ids[0])
}

fn has_text(table: &TypeTable, f: &Func) -> bool
    ensures value { result ≡ defined.has_signature no_tys defined.one_string false (Some (func_view (places table.now) f.now)) }
{
    let params = f.sig.params.as_slice();
    if params.len() > 0 {
        return false;
    }
    if f.sig.variadic {
        return false;
    }
    is_one_text(table, f.sig.results.as_slice())
}

// Whether a function is `func() string`.
fn answers_text(table: &TypeTable, func: Option<&Func>) -> bool
    ensures value { result ≡ defined.has_signature no_tys defined.one_string false (option_map (λ f. func_view (places table.now) f.now) func.entry) }
{
    match func {
        Some(f) => has_text(table, f),
        None => false,
    }
}

fn row_of_type(p: &Program, ty: TypeId) -> Option<u64>
    ensures value { (xs : core.Scalars) → result ≡ defined.error_row (program_view p.now) (core.interface (tree_of (places p.now.types) ty) xs) }
{
    let row = row_of(p, ty, b"Error", b"");
    let func = func_of_row(p, row);
    if answers_text(&p.types, func) {
        return row;
    }
    None
}

/// The place of the row of the value's method `Error`, where it has one.
pub fn error_row(p: &Program, x: Scalar) -> Option<u64>
    ensures value { result ≡ defined.error_row (program_view p.now) (scalar_of (places p.now.types) x.entry) }
{
    match x {
        Scalar::Interface { ty, content: _ } => row_of_type(p, ty),
        _ => None,
    }
}

/// What an interface value holds, as the one operand of its method.
pub fn content_of<'a>(c: &Context<'a>, x: Scalar<'a>) -> Result<&'a [&'a [Scalar<'a>]], NoMemory>
    ensures value { IfOk result (λ vs. (ts : List Ty) (p : CoreProgram) (g : ℕ) → values_of ts vs.now ≡ defining.content_of p g (scalar_of ts x.entry)) }
{
    match x {
        Scalar::Interface { ty: _, content } => {
            let vs: &'a [&'a [Scalar<'a>]] = c.arena.try_alloc_slice_copy(&[content])?;
            Ok(vs)
        }
        _ => Ok(&[]),
    }
}

fn text_in<'a>(x: Scalar<'a>) -> Option<&'a [u8]>
    ensures value { (ts : List Ty) → option_map (λ b. b.now) result ≡ text_scalar (scalar_of ts x.entry) }
{
    match x {
        Scalar::Text(bytes) => Some(bytes),
        _ => None,
    }
}

fn text_value<'a>(x: &[Scalar<'a>]) -> Option<&'a [u8]>
    ensures value { (ts : List Ty) → option_map (λ b. b.now) result ≡ text_of (value_of ts x.now) }
{
    match x {
        [x] => text_in(*x),
        _ => None,
    }
}

/// The text that results are, where they are one.
pub fn told<'a>(xs: &[&'a [Scalar<'a>]]) -> Option<&'a [u8]>
    ensures value { (ts : List Ty) → option_map (λ b. b.now) result ≡ told_of (values_of ts xs.now) }
{
    match xs {
        [x] => text_value(*x),
        _ => None,
    }
}
