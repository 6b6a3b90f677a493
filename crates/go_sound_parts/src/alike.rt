//! Types that are identical but for tags.
//!
//! Go, "Conversions", "Struct types".

ghost use Rattle.std.specs.Prelude.{◌≡◌, true};
ghost use Rattle.go_type.specs.Levels.{level, tree_of, trees_of, fields_of, specs_of};
ghost use Rattle.go_type.specs.Table.{places};
ghost use Rattle.go_core.specs.Untagged.{untagged, untagged_types, untagged_fields, untagged_specs};

use crate::levels::level_at;
use go_type::TypeTable;
use go_type::types::{Dir, FieldRow, GoType, MethodSpec, Sig, TypeId};

fn same_dir(a: Dir, b: Dir) -> bool
    ensures is { result ≡ true → a ≡ b }
{
    match a {
        Dir::Both => match b {
            Dir::Both => true,
            _ => false,
        },
        Dir::Send => match b {
            Dir::Send => true,
            _ => false,
        },
        Dir::Receive => match b {
            Dir::Receive => true,
            _ => false,
        },
    }
}

#[cycle(alike)]
fn lists_alike(table: &TypeTable, a: &[TypeId], b: &[TypeId], left: u64) -> bool
    ensures is { let ts = places table.now in result ≡ true → untagged_types (trees_of ts a.now) ≡ untagged_types (trees_of ts b.now) }
{
    let mut xs = a;
    let mut ys = b;
    'types: while let Some((x, others)) = xs.split_first() {
        match ys.split_first() {
            Some((y, more)) => {
                if !ids_alike(table, *x, *y, left) {
                    return false;
                }
                xs = others;
                ys = more;
            }
            None => return false,
        }
    }
    ys.is_empty()
}

fn same_field(a: &FieldRow, b: &FieldRow) -> bool
    ensures is { result ≡ true → (a.now.name ≡ b.now.name) × (a.now.package ≡ b.now.package) × (a.now.embedded ≡ b.now.embedded) }
{
    a.name == b.name && a.package == b.package && a.embedded == b.embedded
}

#[cycle(alike)]
fn fields_alike(table: &TypeTable, a: &[FieldRow], b: &[FieldRow], left: u64) -> bool
    ensures is { let ts = places table.now in result ≡ true → untagged_fields (fields_of ts a.now) ≡ untagged_fields (fields_of ts b.now) }
{
    let mut xs = a;
    let mut ys = b;
    'fields: while let Some((x, others)) = xs.split_first() {
        match ys.split_first() {
            Some((y, more)) => {
                if !same_field(x, y) || !ids_alike(table, x.ty, y.ty, left) {
                    return false;
                }
                xs = others;
                ys = more;
            }
            None => return false,
        }
    }
    ys.is_empty()
}

fn same_name(a: &MethodSpec, b: &MethodSpec) -> bool
    ensures is { result ≡ true → (a.now.name ≡ b.now.name) × (a.now.package ≡ b.now.package) }
{
    a.name == b.name && a.package == b.package
}

#[cycle(alike)]
fn specs_alike(table: &TypeTable, a: &[MethodSpec], b: &[MethodSpec], left: u64) -> bool
    ensures is { let ts = places table.now in result ≡ true → untagged_specs (specs_of ts a.now) ≡ untagged_specs (specs_of ts b.now) }
{
    let mut xs = a;
    let mut ys = b;
    'specs: while let Some((x, others)) = xs.split_first() {
        match ys.split_first() {
            Some((y, more)) => {
                if !same_name(x, y) || !signatures_alike(table, &x.sig, &y.sig, left) {
                    return false;
                }
                xs = others;
                ys = more;
            }
            None => return false,
        }
    }
    ys.is_empty()
}

#[cycle(alike)]
fn signatures_alike(table: &TypeTable, a: &Sig, b: &Sig, left: u64) -> bool
    ensures is { let ts = places table.now in result ≡ true → (untagged_types (trees_of ts a.now.params) ≡ untagged_types (trees_of ts b.now.params)) × (untagged_types (trees_of ts a.now.results) ≡ untagged_types (trees_of ts b.now.results)) × (a.now.variadic ≡ b.now.variadic) }
{
    a.variadic == b.variadic
        && lists_alike(table, a.params.as_slice(), b.params.as_slice(), left)
        && lists_alike(table, a.results.as_slice(), b.results.as_slice(), left)
}

// Types of one level each.
#[cycle(alike)]
fn levels_alike(table: &TypeTable, a: &GoType, b: &GoType, left: u64) -> bool
    ensures is { let ts = places table.now in result ≡ true → untagged (level ts a.now) ≡ untagged (level ts b.now) }
{
    match a {
        GoType::Array(n, t) => match b {
            GoType::Array(m, u) => *n == *m && ids_alike(table, *t, *u, left),
            _ => false,
        },
        GoType::Slice(t) => match b {
            GoType::Slice(u) => ids_alike(table, *t, *u, left),
            _ => false,
        },
        GoType::Struct(fields) => match b {
            GoType::Struct(others) => fields_alike(
                table,
                fields.as_slice(),
                others.as_slice(),
                left,
            ),
            _ => false,
        },
        GoType::Pointer(t) => match b {
            GoType::Pointer(u) => ids_alike(table, *t, *u, left),
            _ => false,
        },
        GoType::Func(sig) => match b {
            GoType::Func(other) => signatures_alike(table, sig, other, left),
            _ => false,
        },
        GoType::Interface(specs) => match b {
            GoType::Interface(others) => specs_alike(
                table,
                specs.as_slice(),
                others.as_slice(),
                left,
            ),
            _ => false,
        },
        GoType::Map(k, v) => match b {
            GoType::Map(l, w) => ids_alike(table, *k, *l, left) && ids_alike(table, *v, *w, left),
            _ => false,
        },
        GoType::Chan(d, t) => match b {
            GoType::Chan(e, u) => same_dir(*d, *e) && ids_alike(table, *t, *u, left),
            _ => false,
        },
        _ => false,
    }
}

// So many levels down.
#[cycle(alike)]
fn ids_alike(table: &TypeTable, a: TypeId, b: TypeId, left: u64) -> bool
    ensures is { let ts = places table.now in result ≡ true → untagged (tree_of ts a) ≡ untagged (tree_of ts b) }
{
    if a.0 == b.0 {
        return true;
    }
    if left == 0 {
        return false;
    }
    match level_at(table, a) {
        Some(x) => match level_at(table, b) {
            Some(y) => levels_alike(table, x, y, left - 1),
            None => false,
        },
        None => false,
    }
}

/// Whether two types are identical but for tags.
pub fn are_alike(table: &TypeTable, a: TypeId, b: TypeId) -> bool
    ensures is { let ts = places table.now in result ≡ true → untagged (tree_of ts a) ≡ untagged (tree_of ts b) }
{
    ids_alike(table, a, b, table.len())
}
