//! What a type holds by value: through how many names, how many scalars, and whether these compare.
//!
//! Go, "Types", "Comparison operators". The most scalars of a type and the types of keys are own.

ghost use Rattle.std.specs.Prelude.{◌≡◌, ◌<◌, ◌≤◌, ℕ, IfSome, IfOk, Some, List, Bool, true, slice_get, length, map};
ghost use Rattle.go_type.specs.Tree as tree;
ghost use Rattle.go_type.specs.Tree.{Ty, Fields};
ghost use Rattle.go_type.specs.Named.{NamedTy};
ghost use Rattle.go_type.specs.Levels.{level, tree_of, fields_of, Below};
ghost use Rattle.go_type.specs.Table.{places, names, size, name_count};
ghost use Rattle.go_type.specs.Underlying.{under_at, underlying};
ghost use Rattle.go_type.specs.Parts.{is_leaf, compares, is_key};
ghost use Rattle.go_core.specs.Layout.{at_least_one, holds_by_value, is_comparable, is_key_type};
ghost use Rattle.go_core.specs.CoreView.{program_view};
ghost use Rattle.go_core.specs.SoundNode.{every, HasKey, IsGoodType, IsWhole};
ghost use Rattle.go_sound_parts.specs.Measures.{IsMeasured, AreMeasured, AreKnown};

use crate::levels::{level_at, under};
use gj_base::NoMemory;
use go_core::program::Program;
use go_type::TypeTable;
use go_type::types::{FieldRow, GoType, NamedId, TypeId};
use std::alloc::Global;

// The most scalars of a type (own).
const MOST: u64 = 0x10_0000;

/// What a type holds by value.
#[derive(Clone, Copy)]
pub struct Measure {
    /// Through how many names, one in the other.
    pub names: u64,
    /// How many scalars.
    pub scalars: u64,
    /// Whether its values are known to compare.
    pub compares: bool,
    /// Whether it is known to be a type of keys.
    pub is_key: bool,
}

fn is_leaf(g: &GoType) -> bool
    ensures is { result ≡ true → (ts : List Ty) → is_leaf (level ts g.now) ≡ true }
{
    match g {
        GoType::Array(_, _) => false,
        GoType::Struct(_) => false,
        GoType::Named(_) => false,
        _ => true,
    }
}

fn leaf_compares(g: &GoType) -> bool
    ensures is { result ≡ true → (ts : List Ty) → compares (level ts g.now) ≡ true }
{
    match g {
        GoType::Bool => true,
        GoType::Str => true,
        GoType::Int(_) => true,
        GoType::Untyped(_) => true,
        GoType::Pointer(_) => true,
        GoType::Chan(_, _) => true,
        GoType::Interface(_) => true,
        _ => false,
    }
}

fn leaf_is_key(g: &GoType) -> bool
    ensures is { result ≡ true → (ts : List Ty) → is_key (level ts g.now) ≡ true }
{
    match g {
        GoType::Bool => true,
        GoType::Str => true,
        GoType::Int(_) => true,
        _ => false,
    }
}

// Of a type that holds no others by value.
fn leaf(g: &GoType) -> Option<Measure>
    ensures is { (ns : List NamedTy) (ts : List Ty) → IfSome result (λ m. IsMeasured ns (level ts g.now) m) }
{
    if is_leaf(g) {
        Some(Measure {
            names: 0,
            scalars: 1,
            compares: leaf_compares(g),
            is_key: leaf_is_key(g),
        })
    } else {
        None
    }
}

// A type has at least one scalar (own).
fn at_least_one(scalars: u64) -> u64
    ensures is { result ≡ at_least_one scalars }
{
    if scalars == 0 { 1 } else { scalars }
}

fn array(count: u32, m: Measure) -> Option<Measure>
    ensures is { (ns : List NamedTy) (t : Ty) → IsMeasured ns t m → IfSome result (λ r. IsMeasured ns (tree.array count t) r) }
{
    match u64::from(count).checked_mul(m.scalars) {
        Some(scalars) => Some(Measure {
            names: m.names,
            scalars: at_least_one(scalars),
            compares: m.compares,
            is_key: m.is_key,
        }),
        None => None,
    }
}

fn named(m: Measure) -> Option<Measure>
    ensures is { IfSome result (λ r. (ns : List NamedTy) (id : ℕ) (t : Ty) → under_at ns id ≡ Some t → IsMeasured ns t m → IsMeasured ns (tree.named id) r) }
{
    match m.names.checked_add(1) {
        Some(names) => Some(Measure {
            names,
            scalars: m.scalars,
            compares: m.compares,
            is_key: m.is_key,
        }),
        None => None,
    }
}

fn both(a: bool, b: bool) -> bool
    ensures is { result ≡ true → (a ≡ true) × (b ≡ true) }
{
    a && b
}

// Of a field and those after it.
fn joined(first: Measure, rest: Measure) -> Option<Measure>
    ensures is { (ns : List NamedTy) (name home tag : List ℕ) (t : Ty) (embedded : Bool) (fs : Fields) → IsMeasured ns t first → AreMeasured ns fs rest → IfSome result (λ r. AreMeasured ns (tree.more_fields name home t embedded tag fs) r) }
{
    match first.scalars.checked_add(rest.scalars) {
        Some(scalars) => Some(Measure {
            names: first.names.max(rest.names),
            scalars,
            compares: both(first.compares, rest.compares),
            is_key: both(first.is_key, rest.is_key),
        }),
        None => None,
    }
}

/// What is known of a type.
pub fn known(measures: &[Option<Measure>], t: TypeId) -> Option<Measure>
    ensures is { IfSome result (λ m. slice_get measures.now t.0 ≡ Some (Some m)) }
{
    match measures.get(t.0 as usize) {
        Some(found) => *found,
        None => None,
    }
}

fn no_fields() -> Measure
    ensures is { (ns : List NamedTy) → AreMeasured ns tree.no_fields result }
{
    Measure {
        names: 0,
        scalars: 0,
        compares: true,
        is_key: true,
    }
}

fn fields(measures: &[Option<Measure>], rows: &[FieldRow]) -> Option<Measure>
    ensures is { (ns : List NamedTy) (ts : List Ty) → AreKnown ns ts measures.now → IfSome result (λ m. AreMeasured ns (fields_of ts rows.now) m) }
{
    match rows.split_first() {
        Some((row, others)) => match known(measures, row.ty) {
            Some(m) => match fields(measures, others) {
                Some(rest) => joined(m, rest),
                None => None,
            },
            None => None,
        },
        None => Some(no_fields()),
    }
}

fn struct_of(m: Measure) -> Measure
    ensures is { (ns : List NamedTy) (fs : Fields) → AreMeasured ns fs m → IsMeasured ns (tree.struct fs) result }
{
    Measure {
        names: m.names,
        scalars: at_least_one(m.scalars),
        compares: m.compares,
        is_key: m.is_key,
    }
}

// Of a level, where its parts are known.
fn measured(table: &TypeTable, measures: &[Option<Measure>], g: &GoType) -> Option<Measure>
    requires within { Below (size table.now) (name_count table.now) g.now }
    ensures is { AreKnown (names table.now) (places table.now) measures.now → IfSome result (λ m. IsMeasured (names table.now) (level (places table.now) g.now) m) }
{
    match g {
        GoType::Array(count, element) => match known(measures, *element) {
            Some(m) => array(*count, m),
            None => None,
        },
        GoType::Struct(rows) => match fields(measures, rows.as_slice()) {
            Some(m) => Some(struct_of(m)),
            None => None,
        },
        GoType::Named(id) => match table.under_of(*id) {
            Some(t) => match known(measures, t) {
                Some(m) => named(m),
                None => None,
            },
            None => None,
        },
        _ => leaf(g),
    }
}

// Of a type of which nothing is known yet.
fn measure_at(table: &TypeTable, measures: &[Option<Measure>], t: TypeId) -> Option<Measure>
    ensures is { AreKnown (names table.now) (places table.now) measures.now → IfSome result (λ m. IsMeasured (names table.now) (tree_of (places table.now) t) m) }
{
    if known(measures, t).is_some() {
        return None;
    }
    match level_at(table, t) {
        Some(g) => measured(table, measures, g),
        None => None,
    }
}

fn put(measures: &mut [Option<Measure>], i: usize, m: Measure)
    requires { i < length measures.old }
    ensures is { (ns : List NamedTy) (ts : List Ty) → AreKnown ns ts measures.old → IsMeasured ns (tree_of ts (record { 0 = i })) m → AreKnown ns ts measures.new }
{
    measures[i] = Some(m);
}

// A look at a type; whether more is known.
fn look(table: &TypeTable, measures: &mut [Option<Measure>], i: usize) -> bool
    requires { i < length measures.old }
    ensures is { AreKnown (names table.now) (places table.now) measures.old → AreKnown (names table.now) (places table.now) measures.new }
{
    match measure_at(table, measures, TypeId(i as u64)) {
        Some(m) => {
            put(measures, i, m);
            true
        }
        None => false,
    }
}

// One turn over the types; whether more is known.
fn turn(table: &TypeTable, measures: &mut [Option<Measure>]) -> bool
    ensures is { AreKnown (names table.now) (places table.now) measures.old → AreKnown (names table.now) (places table.now) measures.new }
{
    let mut more = false;
    'types: for i in 0..measures.len() {
        if look(table, measures, i) {
            more = true;
        }
    }
    more
}

// As many turns as more is known after.
fn all_turns(table: &TypeTable, measures: &mut [Option<Measure>])
    ensures is { AreKnown (names table.now) (places table.now) measures.old → AreKnown (names table.now) (places table.now) measures.new }
{
    'turns: for _ in 0..table.len() {
        if !turn(table, measures) {
            return;
        }
    }
}

fn nothing(alloc: Global, table: &TypeTable) -> Result<Vec<Option<Measure>>, NoMemory>
    ensures is { IfOk result (λ v. (ns : List NamedTy) (ts : List Ty) → AreKnown ns ts v.items) }
{
    let mut measures = Vec::new(alloc);
    'types: for _ in 0..table.len() {
        measures.push(None)?;
    }
    Ok(measures)
}

/// What the types of a table hold by value. Nothing is known of a type that holds itself.
pub fn measures_of(alloc: Global, table: &TypeTable) -> Result<Vec<Option<Measure>>, NoMemory>
    ensures is { IfOk result (λ v. AreKnown (names table.now) (places table.now) v.items) }
{
    let mut measures = nothing(alloc, table)?;
    all_turns(table, measures.as_mut_slice());
    Ok(measures)
}

// Whether a type is seen through no more names than there are.
fn is_seen(table: &TypeTable, m: Measure) -> bool
    ensures is { result ≡ true → m.names ≤ length (names table.now) }
{
    m.names <= table.name_len()
}

/// Whether values of the type can be compared.
pub fn is_comparable(table: &TypeTable, measures: &[Option<Measure>], t: TypeId) -> bool
    ensures is { AreKnown (names table.now) (places table.now) measures.now → result ≡ true → is_comparable (names table.now) (tree_of (places table.now) t) ≡ true }
{
    match known(measures, t) {
        Some(m) => m.compares && is_seen(table, m),
        None => false,
    }
}

fn is_key_type(table: &TypeTable, measures: &[Option<Measure>], t: TypeId) -> bool
    ensures is { AreKnown (names table.now) (places table.now) measures.now → result ≡ true → is_key_type (names table.now) (tree_of (places table.now) t) ≡ true }
{
    match known(measures, t) {
        Some(m) => m.is_key && is_seen(table, m),
        None => false,
    }
}

// Whether each named type that it holds is set, none holds itself, and it has no more scalars than
// a type may have.
fn is_whole(p: &Program, measures: &[Option<Measure>], t: TypeId) -> bool
    ensures is { AreKnown (names p.now.types) (places p.now.types) measures.now → result ≡ true → IsWhole (program_view p.now) (tree_of (places p.now.types) t) }
{
    match known(measures, t) {
        Some(m) => m.scalars <= MOST && is_seen(&p.types, m),
        None => false,
    }
}

// Whether a map has a key type of the profile.
fn has_key(p: &Program, measures: &[Option<Measure>], t: TypeId) -> bool
    ensures is { let q = program_view p.now in AreKnown (names p.now.types) (places p.now.types) measures.now → result ≡ true → HasKey q (underlying q.names (tree_of (places p.now.types) t)) }
{
    match under(&p.types, t) {
        Some(GoType::Map(key, _)) => is_key_type(&p.types, measures, *key),
        Some(_) => true,
        None => false,
    }
}

/// Whether values of the type have a size, and it is no map with other keys than the profile's.
pub fn is_good(p: &Program, measures: &[Option<Measure>], t: TypeId) -> bool
    ensures is { AreKnown (names p.now.types) (places p.now.types) measures.now → result ≡ true → IsGoodType (program_view p.now) (tree_of (places p.now.types) t) }
{
    is_whole(p, measures, t) && has_key(p, measures, t)
}

fn is_inside(table: &TypeTable, m: Measure) -> bool
    ensures is { result ≡ true → m.names < length (names table.now) }
{
    m.names < table.name_len()
}

/// Whether a named type is set, and doesn't hold itself.
pub fn is_set(table: &TypeTable, measures: &[Option<Measure>], id: NamedId) -> bool
    requires { id.0 < name_count table.now }
    ensures is { AreKnown (names table.now) (places table.now) measures.now → result ≡ true → holds_by_value every (names table.now) (tree.named id.0) ≡ true }
{
    match table.under_of(id) {
        Some(t) => match known(measures, t) {
            Some(m) => is_inside(table, m),
            None => false,
        },
        None => false,
    }
}
