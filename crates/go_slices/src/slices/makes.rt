//! What `make` makes.
//!
//! The Go Programming Language Specification (as of Go 1.17), "Making slices, maps and channels".

ghost use Rattle.std.specs.Prelude.{◌≡◌, [], ◌∷◌, List};
ghost use Rattle.go_type.specs.Tree.{Ty, slice};
ghost use Rattle.go_type.specs.Levels.{tree_of};
ghost use Rattle.go_type.specs.Table.{places, names};
ghost use Rattle.go_core.specs.Layout.{shape_of};
ghost use Rattle.go_core.specs.StepSlices as defined;
ghost use Rattle.go_values.specs.ValuesSeen.{value_of, values_of, memory_of};
ghost use Rattle.go_values.specs.OperatorsSeen.{Does, Found};

use crate::slices::fresh::{fresh_slice, repeated, too_big, units_of};
use go_type::types::{GoType, TypeId};
use go_values::operators::did::{Change, Context, Gives, Stop, Values, alone, as_whole};
use go_values::operators::numbers::MOST_ELEMENTS;
use go_values::operators::places::zeros_of;
use go_values::values::level::level_at;
use go_values::values::memory::Memory;
use go_values::values::scalar::Scalar;

// A size within the limit.
fn size_in(n: i128) -> Result<u64, Stop>
    ensures value { Found (λ k. k) result (defined.on_size n) }
{
    if 0 <= n && n <= MOST_ELEMENTS as i128 {
        Ok(n as u64)
    } else {
        Err(too_big())
    }
}

// A slice with so many elements of a type, and so much capacity.
fn made_of<'a>(
    c: &Context<'a>,
    t: TypeId,
    length: u64,
    capacity: u64,
    m: &Memory<'a>,
) -> Result<Gives<'a>, Stop>
    ensures value { let ts = places c.now.table.now in Does ts (memory_of ts m.now) result (defined.made_of (shape_of (names c.now.table.now) (tree_of ts t)) length capacity (memory_of ts m.now)) }
{
    if capacity < length {
        return Err(too_big());
    }
    let zeros = zeros_of(c, t)?;
    let units = units_of(c, t, capacity)?;
    let cells = repeated(c, capacity, zeros)?;
    fresh_slice(c, length, capacity, cells, units, m)
}

fn made_with_length<'a>(
    c: &Context<'a>,
    t: TypeId,
    x: &[Scalar<'a>],
    m: &Memory<'a>,
) -> Result<Gives<'a>, Stop>
    ensures value { let ts = places c.now.table.now in Does ts (memory_of ts m.now) result (defined.make_slice_step (names c.now.table.now) (slice (tree_of ts t)) (value_of ts x.now ∷ []) (memory_of ts m.now)) }
{
    let n = as_whole(x)?;
    let length = size_in(n)?;
    made_of(c, t, length, length, m)
}

fn made_with_capacity<'a>(
    c: &Context<'a>,
    t: TypeId,
    x: &[Scalar<'a>],
    y: &[Scalar<'a>],
    m: &Memory<'a>,
) -> Result<Gives<'a>, Stop>
    ensures value { let ts = places c.now.table.now in Does ts (memory_of ts m.now) result (defined.make_slice_step (names c.now.table.now) (slice (tree_of ts t)) (value_of ts x.now ∷ value_of ts y.now ∷ []) (memory_of ts m.now)) }
{
    let n = as_whole(x)?;
    let k = as_whole(y)?;
    let length = size_in(n)?;
    let capacity = size_in(k)?;
    made_of(c, t, length, capacity, m)
}

// A slice of elements of a type.
fn made_slice_of<'a>(
    c: &Context<'a>,
    t: TypeId,
    vs: &[&'a [Scalar<'a>]],
    m: &Memory<'a>,
) -> Result<Gives<'a>, Stop>
    ensures value { let ts = places c.now.table.now in Does ts (memory_of ts m.now) result (defined.make_slice_step (names c.now.table.now) (slice (tree_of ts t)) (values_of ts vs.now) (memory_of ts m.now)) }
{
    match vs {
        [x] => made_with_length(c, t, *x, m),
        [x, y] => made_with_capacity(c, t, *x, *y, m),
        _ => Err(Stop::NoStep),
    }
}

/// The length, and the capacity where it is written; `t` is the slice's underlying type.
pub fn make_slice_step<'a>(
    c: &Context<'a>,
    t: TypeId,
    vs: &[&'a [Scalar<'a>]],
    m: &Memory<'a>,
) -> Result<Gives<'a>, Stop>
    ensures value { let ts = places c.now.table.now in Does ts (memory_of ts m.now) result (defined.make_slice_step (names c.now.table.now) (tree_of ts t) (values_of ts vs.now) (memory_of ts m.now)) }
{
    match level_at(c.table, t) {
        Some(GoType::Slice(element)) => made_slice_of(c, *element, vs, m),
        _ => Err(Stop::NoStep),
    }
}

fn made_map<'a>(c: &Context<'a>, m: &Memory<'a>) -> Result<Gives<'a>, Stop>
    ensures value { (ts : List Ty) → Does ts (memory_of ts m.now) result (defined.made_map (memory_of ts m.now)) }
{
    let map = alone(c, Scalar::Map(m.maps.len() as u64))?;
    Ok(Gives {
        values: Values::One(map),
        change: Change::AddsMap {
            entries: &[],
            next_birth: 0,
        },
        units: 1,
    })
}

fn map_of_count<'a>(c: &Context<'a>, n: i128, m: &Memory<'a>) -> Result<Gives<'a>, Stop>
    ensures value { (ts : List Ty) → Does ts (memory_of ts m.now) result (defined.map_of_count n (memory_of ts m.now)) }
{
    if n >= 0 {
        made_map(c, m)
    } else {
        Err(too_big())
    }
}

fn map_with_count<'a>(c: &Context<'a>, x: &[Scalar<'a>], m: &Memory<'a>) -> Result<Gives<'a>, Stop>
    ensures value { (ts : List Ty) → Does ts (memory_of ts m.now) result (defined.make_map_step (value_of ts x.now ∷ []) (memory_of ts m.now)) }
{
    let n = as_whole(x)?;
    map_of_count(c, n, m)
}

/// A map: a negative count panics, and a count says nothing else (own).
pub fn make_map_step<'a>(
    c: &Context<'a>,
    vs: &[&'a [Scalar<'a>]],
    m: &Memory<'a>,
) -> Result<Gives<'a>, Stop>
    ensures value { (ts : List Ty) → Does ts (memory_of ts m.now) result (defined.make_map_step (values_of ts vs.now) (memory_of ts m.now)) }
{
    match vs {
        [] => made_map(c, m),
        [x] => map_with_count(c, *x, m),
        _ => Err(Stop::NoStep),
    }
}

fn made_channel<'a>(c: &Context<'a>, capacity: u64, m: &Memory<'a>) -> Result<Gives<'a>, Stop>
    ensures value { (ts : List Ty) → Does ts (memory_of ts m.now) result (defined.made_channel (memory_of ts m.now) capacity) }
{
    let channel = alone(c, Scalar::Channel(m.channels.len() as u64))?;
    Ok(Gives {
        values: Values::One(channel),
        change: Change::AddsChannel { capacity },
        units: 1,
    })
}

fn channel_with_size<'a>(
    c: &Context<'a>,
    x: &[Scalar<'a>],
    m: &Memory<'a>,
) -> Result<Gives<'a>, Stop>
    ensures value { (ts : List Ty) → Does ts (memory_of ts m.now) result (defined.make_channel_step (value_of ts x.now ∷ []) (memory_of ts m.now)) }
{
    let n = as_whole(x)?;
    let capacity = size_in(n)?;
    made_channel(c, capacity, m)
}

/// A channel, with the capacity where it is written.
pub fn make_channel_step<'a>(
    c: &Context<'a>,
    vs: &[&'a [Scalar<'a>]],
    m: &Memory<'a>,
) -> Result<Gives<'a>, Stop>
    ensures value { (ts : List Ty) → Does ts (memory_of ts m.now) result (defined.make_channel_step (values_of ts vs.now) (memory_of ts m.now)) }
{
    match vs {
        [] => made_channel(c, 0, m),
        [x] => channel_with_size(c, *x, m),
        _ => Err(Stop::NoStep),
    }
}
