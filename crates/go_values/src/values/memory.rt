//! Storage.
//!
//! The Go Programming Language Specification (as of Go 1.17), "Variables", "Types". One list of
//! places that only grows; a place holds one scalar. A variable is a base with its type's places
//! after it.

ghost use Rattle.std.specs.Prelude.{◌≡◌, ◌+◌, List, drop, slice_set, take};
ghost use Rattle.go_type.specs.Tree.{Ty};
ghost use Rattle.go_core.specs.Memory as core;
ghost use Rattle.go_values.specs.ValuesSeen.{value_of};

use crate::values::scalar::Scalar;
use gj_base::NoMemory;

/// An entry of a map, with its birth.
#[derive(Clone, Copy)]
pub struct Entry<'a> {
    pub key: &'a [Scalar<'a>],
    pub value: &'a [Scalar<'a>],
    pub birth: u64,
}

/// A map: its entries in the order of their births, and the next birth.
#[derive(Drop)]
pub struct MapState<'a> {
    pub entries: Vec<Entry<'a>>,
    pub next_birth: u64,
}

/// A channel.
#[derive(Drop)]
pub struct Channel<'a> {
    pub capacity: u64,
    /// The values sent and not yet received, the front first.
    pub values: Vec<&'a [Scalar<'a>]>,
    pub closed: bool,
}

/// What a run has stored.
#[derive(Drop)]
pub struct Memory<'a> {
    pub cells: Vec<Scalar<'a>>,
    pub maps: Vec<MapState<'a>>,
    pub channels: Vec<Channel<'a>>,
}

fn from_on<'c, 'a>(base: u64, cells: &'c [Scalar<'a>]) -> &'c [Scalar<'a>]
    ensures value { result.now ≡ drop base cells.now }
{
    if base < cells.len() as u64 {
        &cells[base as usize..]
    } else {
        &[]
    }
}

fn at_most<'c, 'a>(count: u64, cells: &'c [Scalar<'a>]) -> &'c [Scalar<'a>]
    ensures value { result.now ≡ take count cells.now }
{
    if count < cells.len() as u64 {
        &cells[..count as usize]
    } else {
        cells
    }
}

/// So many scalars from a base on; fewer where there are no more.
pub fn read_cells<'c, 'a>(base: u64, count: u64, cells: &'c [Scalar<'a>]) -> &'c [Scalar<'a>]
    ensures value { (ts : List Ty) → value_of ts result.now ≡ core.read_cells base count (value_of ts cells.now) }
{
    at_most(count, from_on(base, cells))
}

// Writes one scalar where there is such a place.
fn write_cell<'a>(cells: &mut [Scalar<'a>], base: u64, i: usize, x: Scalar<'a>)
    ensures value { cells.new ≡ slice_set cells.old (base + i) x.entry }
{
    match base.checked_add(i as u64) {
        Some(at) if at < cells.len() as u64 => cells[at as usize] = x,
        _ => {}
    }
}

/// Writes scalars in place, from a base on; what goes past the end is lost.
pub fn write_cells<'a>(cells: &mut [Scalar<'a>], base: u64, xs: &[Scalar<'a>])
    ensures value { (ts : List Ty) → value_of ts cells.new ≡ core.written (value_of ts cells.old) base (value_of ts xs.now) }
{
    'scalars: for i in 0..xs.len() {
        write_cell(cells, base, i, xs[i]);
    }
}

impl<'a> Memory<'a> {
    ghost use Rattle.std.specs.Prelude.{◌≡◌, List, OnOk, IfOk, length};
    ghost use Rattle.go_type.specs.Tree.{Ty};
    ghost use Rattle.go_core.specs.Memory as core;
    ghost use Rattle.go_values.specs.ValuesSeen.{value_of, map_of, channel_of, memory_of};

    /// The base of the next variable.
    pub fn next_base(&self) -> u64
        ensures value { (ts : List Ty) → result ≡ core.next_base (memory_of ts self.now) }
    {
        self.cells.len() as u64
    }

    /// A fresh variable with this value.
    pub fn add_fresh(&mut self, xs: &[Scalar<'a>]) -> Result<(), NoMemory>
        ensures value { OnOk result ((ts : List Ty) → memory_of ts self.new ≡ core.with_fresh (memory_of ts self.old) (value_of ts xs.now)) }
    {
        self.cells.extend_from_slice(xs)?;
        Ok(())
    }

    /// One more map.
    pub fn add_map(&mut self, state: MapState<'a>) -> Result<(), NoMemory>
        ensures value { OnOk result ((ts : List Ty) → memory_of ts self.new ≡ core.with_map (memory_of ts self.old) (map_of ts state.entry)) }
    {
        self.maps.push(state)?;
        Ok(())
    }

    /// One more channel.
    pub fn add_channel(&mut self, state: Channel<'a>) -> Result<(), NoMemory>
        ensures value { OnOk result ((ts : List Ty) → memory_of ts self.new ≡ core.with_channel (memory_of ts self.old) (channel_of ts state.entry)) }
    {
        self.channels.push(state)?;
        Ok(())
    }
}
