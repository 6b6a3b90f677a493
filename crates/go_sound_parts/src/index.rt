//! An index of rows, as those of methods: at which place each stands.
//!
//! Go, "Method sets", "Method declarations".

ghost use Rattle.std.specs.Prelude.{◌≡◌, true};
ghost use Rattle.go_core.specs.CoreView.{program_view};
ghost use Rattle.go_sound_parts.specs.Index.{IsIndexed, OwnRows, number_in, place_in};

use gj_base::NoMemory;
use go_core::program::{MethodRow, Program};
use std::alloc::Global;
use std::collections::BTreeMap;

/// The places of rows by a number and two names. It is filled freely: what it says of a row is looked at
/// there.
#[derive(Drop)]
pub struct KeyIndex {
    /// The numbers of names, from 1 on.
    names: BTreeMap<Vec<u8>, u64>,
    /// By a number and the numbers of two names.
    places: BTreeMap<(u64, u64, u64), u64>,
}

/// The index of no row.
pub fn no_rows(alloc: Global) -> KeyIndex {
    KeyIndex {
        names: BTreeMap::new(alloc),
        places: BTreeMap::new(alloc),
    }
}

// The number of a name, a new one where it has none.
fn numbered(
    alloc: Global,
    names: &mut BTreeMap<Vec<u8>, u64>,
    name: &[u8],
) -> Result<u64, NoMemory> {
    if let Some(found) = names.get(name) {
        return Ok(*found);
    }
    let number = names.len() as u64 + 1;
    let _ = names.insert(Vec::from_slice(alloc, name)?, number)?;
    Ok(number)
}

/// Puts a row at a place.
pub fn put(
    alloc: Global,
    index: &mut KeyIndex,
    number: u64,
    name: &[u8],
    package: &[u8],
    at: u64,
) -> Result<(), NoMemory> {
    let first = numbered(alloc, &mut index.names, name)?;
    let second = numbered(alloc, &mut index.names, package)?;
    let _ = index.places.insert((number, first, second), at)?;
    Ok(())
}

fn name_number(index: &KeyIndex, name: &[u8]) -> u64
    ensures value { result ≡ number_in index.now name.now }
{
    match index.names.get(name) {
        Some(found) => *found,
        None => 0,
    }
}

/// The place that it has for a number and two names.
pub fn place_of(index: &KeyIndex, number: u64, name: &[u8], package: &[u8]) -> Option<u64>
    ensures value { result ≡ place_in index.now number name.now «package».now }
{
    let key = (
        number,
        name_number(index, name),
        name_number(index, package),
    );
    match index.places.get(&key) {
        Some(at) => Some(*at),
        None => None,
    }
}

// ---- method rows

fn put_row(alloc: Global, index: &mut KeyIndex, row: &MethodRow, at: u64) -> Result<(), NoMemory> {
    put(
        alloc,
        index,
        row.ty.0,
        row.name.as_bytes(),
        row.package.as_bytes(),
        at,
    )
}

/// The index of a program's method rows, by their types, names and packages.
pub fn row_index(alloc: Global, p: &Program) -> Result<KeyIndex, NoMemory> {
    let mut index = no_rows(alloc);
    for i in 0..p.methods.items.len() {
        put_row(alloc, &mut index, &p.methods.items[i], i as u64)?;
    }
    Ok(index)
}

// Whether it has a row at this place.
fn is_indexed(p: &Program, index: &KeyIndex, i: usize) -> bool
    ensures is { result ≡ true → IsIndexed p.now index.now i }
{
    match p.methods.items.as_slice().get(i) {
        Some(row) => match place_of(index, row.ty.0, row.name.as_bytes(), row.package.as_bytes()) {
            Some(at) => at == i as u64 && row.ty.0 < p.types.len(),
            None => false,
        },
        None => false,
    }
}

/// Whether it has each method row at its place, so that no two rows are those of one method.
pub fn has_each_row(p: &Program, index: &KeyIndex) -> bool
    ensures is { result ≡ true → OwnRows (program_view p.now) }
{
    'rows: for i in 0..p.methods.items.len() {
        if !is_indexed(p, index, i) {
            return false;
        }
    }
    true
}
