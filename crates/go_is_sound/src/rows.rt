//! Method rows, each of which leads to a method of its type.
//!
//! Go, "Method sets", "Method declarations".

ghost use Rattle.std.specs.Prelude.{◌≡◌, ◌⊎◌, ◌<◌, ℕ, List, [], true, false, IfSome, Some, map, slice_get, codes};
ghost use Rattle.std.specs.List.{AllByRecursion};
ghost use Rattle.go_type.specs.Tree as tree;
ghost use Rattle.go_type.specs.Tree.{Ty, no_tys, more_tys};
ghost use Rattle.go_type.specs.Levels.{tree_of, trees_of};
ghost use Rattle.go_type.specs.Table.{places, names};
ghost use Rattle.go_type.specs.Underlying.{underlying};
ghost use Rattle.go_type.specs.Members.{sought};
ghost use Rattle.go_type.specs.MethodList.{IsMethodOf, IsMethodSet, spec_of};
ghost use Rattle.go_core.specs.CoreView.{func_view, program_view};
ghost use Rattle.go_core.specs.SoundNode.{HasRow, HasRows};
ghost use Rattle.go_core.specs.CoreTree.{CoreProgram};
ghost use Rattle.go_core.specs.SoundProgram.{SoundHidden};
ghost use Rattle.go_sound_parts.specs.Index.{OwnRows};
ghost use Rattle.go_is_sound.specs.Rows.{AreDeclared, HasReceiver, IsDeclaredAt, LeadsTo, RowFits, RowsDeclared};

use go_core::program::{Func, MethodRow, Program};
use go_sound_parts::index::KeyIndex;
use go_sound_parts::levels::{level_at, points_to, under};
use go_sound_parts::methods::{func_at, have_rows, method, row_at, row_of, same_signature};
use go_type::types::{GoType, MethodSpec, Sig, TypeId};

// ---- a type's methods have rows

/// Whether each method of a type's method set has its row.
pub fn has_rows(p: &Program, index: &KeyIndex, t: TypeId, set: &[MethodSpec]) -> bool
    ensures is { let q = program_view p.now in let ts = places p.now.types in OwnRows q → IsMethodSet q.names (tree_of ts t) (map (spec_of ts) set.now) → result ≡ true → HasRows q (tree_of ts t) }
{
    have_rows(p, index, t, set)
}

// ---- a row's function is a method of the type

fn leads_to(p: &Program, at: u64, sig: &Sig) -> bool
    ensures is { result ≡ true → LeadsTo p.now at sig.now }
{
    match row_at(p, at) {
        Some(row) => match func_at(p, row.func) {
            Some(f) => same_signature(&f.sig, sig),
            None => false,
        },
        None => false,
    }
}

// The place of the row of a type's method, where it leads to a function with the method's signature.
fn declared_at(p: &Program, index: &KeyIndex, t: TypeId, spec: &MethodSpec) -> Option<u64>
    ensures is { let q = program_view p.now in let ts = places p.now.types in IsMethodOf q.names (tree_of ts t) (spec_of ts spec.now) → IfSome result (IsDeclaredAt q) }
{
    match row_of(p, index, t, spec.name.as_bytes(), spec.package.as_bytes()) {
        Some(at) => if leads_to(p, at, &spec.sig) {
            Some(at)
        } else {
            None
        },
        None => None,
    }
}

fn mark(done: &mut Vec<bool>, at: u64)
    ensures is { (q : CoreProgram) → IsDeclaredAt q at → AreDeclared q done.old.items → AreDeclared q done.new.items }
{
    if at < done.len() as u64 {
        done[at as usize] = true;
    }
}

fn mark_method(p: &Program, index: &KeyIndex, t: TypeId, spec: &MethodSpec, done: &mut Vec<bool>)
    ensures is { let q = program_view p.now in let ts = places p.now.types in IsMethodOf q.names (tree_of ts t) (spec_of ts spec.now) → AreDeclared q done.old.items → AreDeclared q done.new.items }
{
    match declared_at(p, index, t, spec) {
        Some(at) => mark(done, at),
        None => {}
    }
}

/// Marks the rows of a type that lead to methods of its method set.
pub fn mark_declared(
    p: &Program,
    index: &KeyIndex,
    t: TypeId,
    set: &[MethodSpec],
    done: &mut Vec<bool>,
)
    ensures is { let q = program_view p.now in let ts = places p.now.types in AllByRecursion (IsMethodOf q.names (tree_of ts t)) (map (spec_of ts) set.now) → AreDeclared q done.old.items → AreDeclared q done.new.items }
{
    for spec in set {
        mark_method(p, index, t, spec, done);
    }
}

fn is_done(done: &[bool], i: usize) -> bool
    ensures is { result ≡ true → slice_get done.now i ≡ Some true }
{
    match done.get(i) {
        Some(found) => *found,
        None => false,
    }
}

/// Whether each row is marked.
pub fn all_done(p: &Program, done: &[bool]) -> bool
    ensures is { let q = program_view p.now in AreDeclared q done.now → result ≡ true → RowsDeclared q }
{
    'rows: for i in 0..p.methods.items.len() {
        if !is_done(done, i) {
            return false;
        }
    }
    true
}

// ---- receivers

// Whether a receiver takes what a row's type gives: a value of it, what it points to, or a pointer
// to it.
fn receiver_fits(p: &Program, receiver: TypeId, row: TypeId) -> bool
    ensures is { let ts = places p.now.types in result ≡ true → (tree_of ts receiver ≡ tree_of ts row) ⊎ (tree_of ts row ≡ tree.pointer (tree_of ts receiver)) ⊎ (tree_of ts receiver ≡ tree.pointer (tree_of ts row)) }
{
    if receiver.0 == row.0 {
        return true;
    }
    if points_to(&p.types, row, receiver) {
        return true;
    }
    points_to(&p.types, receiver, row)
}

fn begins_with_receiver(p: &Program, f: &Func, row: TypeId) -> bool
    ensures is { let ts = places p.now.types in result ≡ true → HasReceiver (func_view ts f.now) (tree_of ts row) }
{
    match f.vars.items.as_slice().split_first() {
        Some((receiver, _others)) => {
            receiver_fits(p, receiver.ty, row) && f.captured.items.is_empty()
        }
        None => false,
    }
}

fn row_fits(p: &Program, row: &MethodRow) -> bool
    ensures is { result ≡ true → RowFits p.now row.now }
{
    match func_at(p, row.func) {
        Some(f) => begins_with_receiver(p, f, row.ty) && row.ty.0 < p.types.len(),
        None => false,
    }
}

/// Whether each row's function takes a receiver of the row's type.
pub fn rows_fit(p: &Program) -> bool
    ensures is { result ≡ true → AllByRecursion (RowFits p.now) p.now.methods.items.items }
{
    for row in &p.methods.items {
        if !row_fits(p, row) {
            return false;
        }
    }
    true
}

// ---- the hidden type of run-time panics

fn gives_one_text(p: &Program, f: &Func) -> bool
    ensures is { let ts = places p.now.types in result ≡ true → trees_of ts f.now.sig.results ≡ more_tys tree.str no_tys }
{
    match f.sig.results.as_slice() {
        [t] => match level_at(&p.types, *t) {
            Some(GoType::Str) => true,
            _ => false,
        },
        _ => false,
    }
}

fn has_no_params(f: &Func) -> bool
    ensures is { result ≡ true → (ts : List Ty) → (trees_of ts f.now.sig.params ≡ no_tys) × (f.now.sig.variadic ≡ false) }
{
    !f.sig.variadic && f.sig.params.as_slice().is_empty()
}

fn has_no_results(f: &Func) -> bool
    ensures is { result ≡ true → (ts : List Ty) → trees_of ts f.now.sig.results ≡ no_tys }
{
    f.sig.results.as_slice().is_empty()
}

fn has_error(p: &Program, index: &KeyIndex, t: TypeId) -> bool
    ensures is { let ts = places p.now.types in OwnRows (program_view p.now) → result ≡ true → HasRow (program_view p.now) (tree_of ts t) (sought (codes "Error") []) no_tys (more_tys tree.str no_tys) false }
{
    match method(p, index, t, b"Error", b"") {
        Some(f) => has_no_params(f) && gives_one_text(p, f),
        None => false,
    }
}

fn has_runtime_error(p: &Program, index: &KeyIndex, t: TypeId) -> bool
    ensures is { let ts = places p.now.types in OwnRows (program_view p.now) → result ≡ true → HasRow (program_view p.now) (tree_of ts t) (sought (codes "RuntimeError") []) no_tys no_tys false }
{
    match method(p, index, t, b"RuntimeError", b"") {
        Some(f) => has_no_params(f) && has_no_results(f),
        None => false,
    }
}

fn is_named(p: &Program, t: TypeId) -> bool
    ensures is { let ts = places p.now.types in result ≡ true → (n : ℕ) × (tree_of ts t ≡ tree.named n) }
{
    match level_at(&p.types, t) {
        Some(GoType::Named(_)) => true,
        _ => false,
    }
}

fn is_text_type(p: &Program, t: TypeId) -> bool
    ensures is { let q = program_view p.now in result ≡ true → underlying q.names (tree_of (places p.now.types) t) ≡ tree.str }
{
    match under(&p.types, t) {
        Some(GoType::Str) => true,
        _ => false,
    }
}

/// Whether the type of run-time panics is a named string type with the methods of an error.
pub fn hidden_is_sound(p: &Program, index: &KeyIndex) -> bool
    ensures is { OwnRows (program_view p.now) → result ≡ true → SoundHidden (program_view p.now) }
{
    is_named(p, p.hidden)
        && is_text_type(p, p.hidden)
        && has_error(p, index, p.hidden)
        && has_runtime_error(p, index, p.hidden)
}
