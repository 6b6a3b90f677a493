//! `len` and `cap`.
//!
//! The Go Programming Language Specification (as of Go 1.17), "Length and capacity".

ghost use Rattle.std.specs.Prelude.{◌≡◌, [], ◌∷◌, List, slice_get};
ghost use Rattle.go_type.specs.Tree.{Ty};
ghost use Rattle.go_type.specs.Levels.{tree_of};
ghost use Rattle.go_type.specs.Table.{places, names};
ghost use Rattle.go_type.specs.Underlying.{underlying};
ghost use Rattle.go_core.specs.Memory as core;
ghost use Rattle.go_core.specs.StepMemory.{count_of};
ghost use Rattle.go_core.specs.StepSlices as defined;
ghost use Rattle.go_values.specs.ValuesSeen.{scalar_of, value_of, memory_of};
ghost use Rattle.go_values.specs.OperatorsSeen.{Does};

use go_type::types::{GoType, TypeId};
use go_values::operators::did::{Context, Gives, Stop, gives_one};
use go_values::values::level::{level_at, underlying};
use go_values::values::memory::Memory;
use go_values::values::scalar::Scalar;

fn number_step<'a>(c: &Context<'a>, n: u64) -> Result<Gives<'a>, Stop>
    ensures value { (ts : List Ty) (m : core.Memory) → Does ts m result (defined.number_step m n) }
{
    gives_one(c, Scalar::Whole(n as i128), 0)
}

fn entry_count(m: &Memory, name: u64) -> u64
    ensures value { (ts : List Ty) → result ≡ defined.entry_count (slice_get (memory_of ts m.now).maps name) }
{
    if name < m.maps.len() as u64 {
        m.maps[name as usize].entries.len() as u64
    } else {
        0
    }
}

fn buffered(m: &Memory, name: u64) -> u64
    ensures value { (ts : List Ty) → result ≡ defined.buffered (slice_get (memory_of ts m.now).channels name) }
{
    if name < m.channels.len() as u64 {
        m.channels[name as usize].values.len() as u64
    } else {
        0
    }
}

fn capacity_of(m: &Memory, name: u64) -> u64
    ensures value { (ts : List Ty) → result ≡ defined.capacity_of (slice_get (memory_of ts m.now).channels name) }
{
    if name < m.channels.len() as u64 {
        m.channels[name as usize].capacity
    } else {
        0
    }
}

fn scalar_length<'a>(c: &Context<'a>, x: Scalar<'a>, m: &Memory<'a>) -> Result<Gives<'a>, Stop>
    ensures value { (ts : List Ty) → Does ts (memory_of ts m.now) result (defined.scalar_length (scalar_of ts x.entry ∷ []) (memory_of ts m.now)) }
{
    match x {
        Scalar::Text(bytes) => number_step(c, bytes.len() as u64),
        Scalar::Slice {
            base: _,
            length,
            capacity: _,
        } => number_step(c, length),
        Scalar::Map(name) => number_step(c, entry_count(m, name)),
        Scalar::Channel(name) => number_step(c, buffered(m, name)),
        Scalar::Nil => number_step(c, 0),
        _ => Err(Stop::NoStep),
    }
}

fn scalar_capacity<'a>(c: &Context<'a>, x: Scalar<'a>, m: &Memory<'a>) -> Result<Gives<'a>, Stop>
    ensures value { (ts : List Ty) → Does ts (memory_of ts m.now) result (defined.scalar_capacity (scalar_of ts x.entry ∷ []) (memory_of ts m.now)) }
{
    match x {
        Scalar::Slice {
            base: _,
            length: _,
            capacity,
        } => number_step(c, capacity),
        Scalar::Channel(name) => number_step(c, capacity_of(m, name)),
        Scalar::Nil => number_step(c, 0),
        _ => Err(Stop::NoStep),
    }
}

fn value_length<'a>(c: &Context<'a>, x: &[Scalar<'a>], m: &Memory<'a>) -> Result<Gives<'a>, Stop>
    ensures value { (ts : List Ty) → Does ts (memory_of ts m.now) result (defined.scalar_length (value_of ts x.now) (memory_of ts m.now)) }
{
    match x {
        [x] => scalar_length(c, *x, m),
        _ => Err(Stop::NoStep),
    }
}

fn value_capacity<'a>(c: &Context<'a>, x: &[Scalar<'a>], m: &Memory<'a>) -> Result<Gives<'a>, Stop>
    ensures value { (ts : List Ty) → Does ts (memory_of ts m.now) result (defined.scalar_capacity (value_of ts x.now) (memory_of ts m.now)) }
{
    match x {
        [x] => scalar_capacity(c, *x, m),
        _ => Err(Stop::NoStep),
    }
}

// How many elements an array type has.
fn count_of(c: &Context, t: TypeId) -> u64
    ensures value { result ≡ count_of (tree_of (places c.now.table.now) t) }
{
    match level_at(c.table, t) {
        Some(GoType::Array(count, _)) => *count as u64,
        _ => 0,
    }
}

// Of the array type that a pointer points to.
fn count_behind(c: &Context, to: TypeId) -> u64
    ensures value { result ≡ count_of (underlying (names c.now.table.now) (tree_of (places c.now.table.now) to)) }
{
    count_of(c, underlying(c.table, to))
}

fn length_of<'a>(
    c: &Context<'a>,
    t: TypeId,
    x: &[Scalar<'a>],
    m: &Memory<'a>,
) -> Result<Gives<'a>, Stop>
    ensures value { let ts = places c.now.table.now in Does ts (memory_of ts m.now) result (defined.measured (names c.now.table.now) (tree_of ts t) defined.scalar_length (value_of ts x.now) (memory_of ts m.now)) }
{
    match level_at(c.table, t) {
        Some(GoType::Array(count, _)) => number_step(c, *count as u64),
        Some(GoType::Pointer(to)) => number_step(c, count_behind(c, *to)),
        _ => value_length(c, x, m),
    }
}

/// `len`.
pub fn len_step<'a>(
    c: &Context<'a>,
    from: TypeId,
    x: &[Scalar<'a>],
    m: &Memory<'a>,
) -> Result<Gives<'a>, Stop>
    ensures value { let ts = places c.now.table.now in Does ts (memory_of ts m.now) result (defined.len_step (names c.now.table.now) (tree_of ts from) (value_of ts x.now) (memory_of ts m.now)) }
{
    length_of(c, underlying(c.table, from), x, m)
}

fn room_of<'a>(
    c: &Context<'a>,
    t: TypeId,
    x: &[Scalar<'a>],
    m: &Memory<'a>,
) -> Result<Gives<'a>, Stop>
    ensures value { let ts = places c.now.table.now in Does ts (memory_of ts m.now) result (defined.measured (names c.now.table.now) (tree_of ts t) defined.scalar_capacity (value_of ts x.now) (memory_of ts m.now)) }
{
    match level_at(c.table, t) {
        Some(GoType::Array(count, _)) => number_step(c, *count as u64),
        Some(GoType::Pointer(to)) => number_step(c, count_behind(c, *to)),
        _ => value_capacity(c, x, m),
    }
}

/// `cap`.
pub fn cap_step<'a>(
    c: &Context<'a>,
    from: TypeId,
    x: &[Scalar<'a>],
    m: &Memory<'a>,
) -> Result<Gives<'a>, Stop>
    ensures value { let ts = places c.now.table.now in Does ts (memory_of ts m.now) result (defined.cap_step (names c.now.table.now) (tree_of ts from) (value_of ts x.now) (memory_of ts m.now)) }
{
    room_of(c, underlying(c.table, from), x, m)
}
