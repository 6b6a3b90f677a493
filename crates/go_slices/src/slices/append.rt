//! `append` and `copy`.
//!
//! The Go Programming Language Specification (as of Go 1.17), "Appending to and copying slices".
//! The capacity of a new array is own where Go leaves it open.

ghost use Rattle.std.specs.Prelude.{◌≡◌, ◌+◌, ◌*◌, ◌++◌, [], ◌∷◌, ℕ, List, IfOk, take};
ghost use Rattle.go_type.specs.Tree.{Ty, slice};
ghost use Rattle.go_type.specs.Levels.{tree_of};
ghost use Rattle.go_type.specs.Table.{places, names};
ghost use Rattle.go_core.specs.Layout as layout;
ghost use Rattle.go_core.specs.Layout.{shape_of, size};
ghost use Rattle.go_core.specs.Memory as core;
ghost use Rattle.go_core.specs.Did as did;
ghost use Rattle.go_core.specs.StepMemory.{repeated};
ghost use Rattle.go_core.specs.StepSlices as defined;
ghost use Rattle.go_values.specs.ValuesSeen.{scalar_of, value_of, memory_of};
ghost use Rattle.go_values.specs.OperatorsSeen.{Does};
ghost use Rattle.go_slices.specs.SlicesFound.{ElementsFound};

use crate::slices::fresh::{fresh_slice, push_repeated, too_big, units_of};
use gj_base::NoMemory;
use go_type::types::{GoType, TypeId};
use go_values::operators::convert::wholes_of_bytes;
use go_values::operators::did::{Change, Context, Gives, Stop, Values, alone, gives_one};
use go_values::operators::numbers::MOST_ELEMENTS;
use go_values::operators::places::{product, size_of, sum, weight_of, zeros_of};
use go_values::values::level::level_at;
use go_values::values::memory::{Memory, read_cells};
use go_values::values::scalar::Scalar;

/// Elements of a slice, or of the bytes of a string, as scalars.
#[derive(Clone, Copy)]
pub struct Elements<'a> {
    pub cells: &'a [Scalar<'a>],
    pub count: u64,
}

fn bytes_as_elements<'a>(c: &Context<'a>, bytes: &[u8]) -> Result<Elements<'a>, Stop>
    ensures value { (ts : List Ty) (one_size : ℕ) (m : core.Memory) → ElementsFound ts result (defined.on_elements one_size (core.text bytes.now ∷ []) m) }
{
    let cells = wholes_of_bytes(c, bytes)?;
    Ok(Elements {
        cells,
        count: bytes.len() as u64,
    })
}

// So many elements that lie at a base, where one has so many scalars.
fn elements_at<'a>(
    c: &Context<'a>,
    one_size: u64,
    base: u64,
    length: u64,
    m: &Memory<'a>,
) -> Result<Elements<'a>, Stop>
    ensures value { (ts : List Ty) (capacity : ℕ) → ElementsFound ts result (defined.on_elements one_size (core.slice base length capacity ∷ []) (memory_of ts m.now)) }
{
    let places = product(length, one_size)?;
    let read = read_cells(base, places, m.cells.as_slice());
    let cells: &'a [Scalar<'a>] = c.arena.try_alloc_slice_copy(read)?;
    Ok(Elements {
        cells,
        count: length,
    })
}

fn elements_in<'a>(
    c: &Context<'a>,
    one_size: u64,
    x: Scalar<'a>,
    m: &Memory<'a>,
) -> Result<Elements<'a>, Stop>
    ensures value { (ts : List Ty) → ElementsFound ts result (defined.on_elements one_size (scalar_of ts x.entry ∷ []) (memory_of ts m.now)) }
{
    match x {
        Scalar::Text(bytes) => bytes_as_elements(c, bytes),
        Scalar::Slice {
            base,
            length,
            capacity: _capacity,
        } => elements_at(c, one_size, base, length, m),
        Scalar::Nil => Ok(Elements {
            cells: &[],
            count: 0,
        }),
        _ => Err(Stop::NoStep),
    }
}

// The elements of a slice, or of the bytes of a string.
fn elements_of<'a>(
    c: &Context<'a>,
    one_size: u64,
    x: &[Scalar<'a>],
    m: &Memory<'a>,
) -> Result<Elements<'a>, Stop>
    ensures value { (ts : List Ty) → ElementsFound ts result (defined.on_elements one_size (value_of ts x.now) (memory_of ts m.now)) }
{
    match x {
        [x] => elements_in(c, one_size, *x, m),
        _ => Err(Stop::NoStep),
    }
}

fn new_capacity(needed: u64, wanted: u64) -> u64
    ensures value { result ≡ defined.new_capacity needed wanted }
{
    if needed <= wanted && wanted <= MOST_ELEMENTS {
        wanted
    } else {
        needed
    }
}

// The old cells, the new ones, and so many zeros of the type.
fn joined<'a>(
    c: &Context<'a>,
    t: TypeId,
    old: &[Scalar<'a>],
    more: &[Scalar<'a>],
    free: u64,
) -> Result<&'a [Scalar<'a>], NoMemory>
    ensures value { IfOk result (λ v. let ts = places c.now.table.now in value_of ts v.now ≡ value_of ts old.now ++ value_of ts more.now ++ repeated free (core.zeros (shape_of (names c.now.table.now) (tree_of ts t)))) }
{
    let zeros = zeros_of(c, t)?;
    let mut cells = Vec::new(c.alloc);
    cells.extend_from_slice(old)?;
    cells.extend_from_slice(more)?;
    push_repeated(&mut cells, free, zeros)?;
    let copy: &'a [Scalar<'a>] = c.arena.try_alloc_slice_copy(cells.as_slice())?;
    Ok(copy)
}

// Into a new array, with what is left of its capacity at zero.
fn appended_anew<'a>(
    c: &Context<'a>,
    t: TypeId,
    needed: u64,
    capacity: u64,
    old: &[Scalar<'a>],
    more: &[Scalar<'a>],
    m: &Memory<'a>,
) -> Result<Gives<'a>, Stop>
    ensures value { let ts = places c.now.table.now in Does ts (memory_of ts m.now) result (defined.appended_anew (shape_of (names c.now.table.now) (tree_of ts t)) needed capacity (value_of ts old.now) (value_of ts more.now) (memory_of ts m.now)) }
{
    let units = units_of(c, t, needed)?;
    let cells = joined(c, t, old, more, capacity.saturating_sub(needed))?;
    fresh_slice(c, needed, capacity, cells, units, m)
}

fn appended_to_nil<'a>(
    c: &Context<'a>,
    t: TypeId,
    wanted: u64,
    more: Elements<'a>,
    m: &Memory<'a>,
) -> Result<Gives<'a>, Stop>
    ensures value { let ts = places c.now.table.now in Does ts (memory_of ts m.now) result (defined.appended (shape_of (names c.now.table.now) (tree_of ts t)) wanted (core.nil ∷ []) (value_of ts more.entry.cells.now) more.entry.count (memory_of ts m.now)) }
{
    if more.count == 0 {
        return gives_one(c, Scalar::Nil, 0);
    }
    if more.count > MOST_ELEMENTS {
        return Err(too_big());
    }
    let capacity = new_capacity(more.count, wanted);
    appended_anew(c, t, more.count, capacity, &[], more.cells, m)
}

// In place; `needed` is the new length.
fn appended_in_place<'a>(
    c: &Context<'a>,
    t: TypeId,
    base: u64,
    length: u64,
    needed: u64,
    capacity: u64,
    more: Elements<'a>,
) -> Result<Gives<'a>, Stop>
    ensures value { (m : core.Memory) → let ts = places c.now.table.now in let s = shape_of (names c.now.table.now) (tree_of ts t) in Does ts m result (did.gives ((core.slice base needed capacity ∷ []) ∷ []) (core.with_written m (base + length * size s) (value_of ts more.entry.cells.now)) (more.entry.count * layout.weight s)) }
{
    let one = size_of(c, t)?;
    let offset = product(length, one)?;
    let end = sum(base, offset)?;
    let weight = weight_of(c, t)?;
    let units = product(more.count, weight)?;
    let slice = alone(
        c,
        Scalar::Slice {
            base,
            length: needed,
            capacity,
        },
    )?;
    Ok(Gives {
        values: Values::One(slice),
        change: Change::Writes {
            base: end,
            cells: more.cells,
        },
        units,
    })
}

// The elements that lie at a base, with more of them, in a new array.
fn appended_beside<'a>(
    c: &Context<'a>,
    t: TypeId,
    wanted: u64,
    base: u64,
    length: u64,
    needed: u64,
    more: Elements<'a>,
    m: &Memory<'a>,
) -> Result<Gives<'a>, Stop>
    ensures value { let ts = places c.now.table.now in let s = shape_of (names c.now.table.now) (tree_of ts t) in Does ts (memory_of ts m.now) result (defined.appended_anew s needed (defined.new_capacity needed wanted) (core.read_cells base (length * size s) (memory_of ts m.now).cells) (value_of ts more.entry.cells.now) (memory_of ts m.now)) }
{
    let one = size_of(c, t)?;
    let places = product(length, one)?;
    let old = read_cells(base, places, m.cells.as_slice());
    let capacity = new_capacity(needed, wanted);
    appended_anew(c, t, needed, capacity, old, more.cells, m)
}

fn appended_to<'a>(
    c: &Context<'a>,
    t: TypeId,
    wanted: u64,
    base: u64,
    length: u64,
    capacity: u64,
    more: Elements<'a>,
    m: &Memory<'a>,
) -> Result<Gives<'a>, Stop>
    ensures value { let ts = places c.now.table.now in Does ts (memory_of ts m.now) result (defined.appended (shape_of (names c.now.table.now) (tree_of ts t)) wanted (core.slice base length capacity ∷ []) (value_of ts more.entry.cells.now) more.entry.count (memory_of ts m.now)) }
{
    let needed = sum(length, more.count)?;
    if needed <= capacity {
        return appended_in_place(c, t, base, length, needed, capacity, more);
    }
    if needed > MOST_ELEMENTS {
        return Err(too_big());
    }
    appended_beside(c, t, wanted, base, length, needed, more, m)
}

// What goes to the end of a slice: in place where the capacity holds, else into a new array.
fn appended<'a>(
    c: &Context<'a>,
    t: TypeId,
    wanted: u64,
    x: Scalar<'a>,
    more: Elements<'a>,
    m: &Memory<'a>,
) -> Result<Gives<'a>, Stop>
    ensures value { let ts = places c.now.table.now in Does ts (memory_of ts m.now) result (defined.appended (shape_of (names c.now.table.now) (tree_of ts t)) wanted (scalar_of ts x.entry ∷ []) (value_of ts more.entry.cells.now) more.entry.count (memory_of ts m.now)) }
{
    match x {
        Scalar::Slice {
            base,
            length,
            capacity,
        } => appended_to(c, t, wanted, base, length, capacity, more, m),
        Scalar::Nil => appended_to_nil(c, t, wanted, more, m),
        _ => Err(Stop::NoStep),
    }
}

fn appended_value<'a>(
    c: &Context<'a>,
    t: TypeId,
    wanted: u64,
    x: &[Scalar<'a>],
    more: Elements<'a>,
    m: &Memory<'a>,
) -> Result<Gives<'a>, Stop>
    ensures value { let ts = places c.now.table.now in Does ts (memory_of ts m.now) result (defined.appended (shape_of (names c.now.table.now) (tree_of ts t)) wanted (value_of ts x.now) (value_of ts more.entry.cells.now) more.entry.count (memory_of ts m.now)) }
{
    match x {
        [x] => appended(c, t, wanted, *x, more, m),
        _ => Err(Stop::NoStep),
    }
}

// To a slice with elements of a type.
fn append_of<'a>(
    c: &Context<'a>,
    t: TypeId,
    wanted: u64,
    x: &[Scalar<'a>],
    y: &[Scalar<'a>],
    m: &Memory<'a>,
) -> Result<Gives<'a>, Stop>
    ensures value { let ts = places c.now.table.now in Does ts (memory_of ts m.now) result (defined.append_step (names c.now.table.now) (slice (tree_of ts t)) wanted (value_of ts x.now) (value_of ts y.now) (memory_of ts m.now)) }
{
    let one = size_of(c, t)?;
    let more = elements_of(c, one, y, m)?;
    appended_value(c, t, wanted, x, more, m)
}

/// `append`; `t` is the slice's underlying type.
pub fn append_step<'a>(
    c: &Context<'a>,
    t: TypeId,
    wanted: u64,
    x: &[Scalar<'a>],
    y: &[Scalar<'a>],
    m: &Memory<'a>,
) -> Result<Gives<'a>, Stop>
    ensures value { let ts = places c.now.table.now in Does ts (memory_of ts m.now) result (defined.append_step (names c.now.table.now) (tree_of ts t) wanted (value_of ts x.now) (value_of ts y.now) (memory_of ts m.now)) }
{
    match level_at(c.table, t) {
        Some(GoType::Slice(element)) => append_of(c, *element, wanted, x, y, m),
        _ => Err(Stop::NoStep),
    }
}

fn first_cells<'a>(count: u64, cells: &'a [Scalar<'a>]) -> &'a [Scalar<'a>]
    ensures value { (ts : List Ty) → value_of ts result.now ≡ take count (value_of ts cells.now) }
{
    read_cells(0, count, cells)
}

// As many elements as both have, to a base.
fn copied_to<'a>(
    c: &Context<'a>,
    t: TypeId,
    base: u64,
    length: u64,
    more: Elements<'a>,
) -> Result<Gives<'a>, Stop>
    ensures value { (m : core.Memory) (capacity : ℕ) → let ts = places c.now.table.now in Does ts m result (defined.copied (shape_of (names c.now.table.now) (tree_of ts t)) (core.slice base length capacity ∷ []) (value_of ts more.entry.cells.now) more.entry.count m) }
{
    let count = length.min(more.count);
    let one = size_of(c, t)?;
    let places = product(count, one)?;
    let weight = weight_of(c, t)?;
    let units = product(count, weight)?;
    let number = alone(c, Scalar::Whole(count as i128))?;
    let cells = first_cells(places, more.cells);
    Ok(Gives {
        values: Values::One(number),
        change: Change::Writes { base, cells },
        units,
    })
}

fn copied<'a>(
    c: &Context<'a>,
    t: TypeId,
    x: Scalar<'a>,
    more: Elements<'a>,
) -> Result<Gives<'a>, Stop>
    ensures value { (m : core.Memory) → let ts = places c.now.table.now in Does ts m result (defined.copied (shape_of (names c.now.table.now) (tree_of ts t)) (scalar_of ts x.entry ∷ []) (value_of ts more.entry.cells.now) more.entry.count m) }
{
    match x {
        Scalar::Slice {
            base,
            length,
            capacity: _capacity,
        } => copied_to(c, t, base, length, more),
        Scalar::Nil => gives_one(c, Scalar::Whole(0), 0),
        _ => Err(Stop::NoStep),
    }
}

fn copied_value<'a>(
    c: &Context<'a>,
    t: TypeId,
    x: &[Scalar<'a>],
    more: Elements<'a>,
) -> Result<Gives<'a>, Stop>
    ensures value { (m : core.Memory) → let ts = places c.now.table.now in Does ts m result (defined.copied (shape_of (names c.now.table.now) (tree_of ts t)) (value_of ts x.now) (value_of ts more.entry.cells.now) more.entry.count m) }
{
    match x {
        [x] => copied(c, t, *x, more),
        _ => Err(Stop::NoStep),
    }
}

// To a slice with elements of a type.
fn copy_of<'a>(
    c: &Context<'a>,
    t: TypeId,
    x: &[Scalar<'a>],
    y: &[Scalar<'a>],
    m: &Memory<'a>,
) -> Result<Gives<'a>, Stop>
    ensures value { let ts = places c.now.table.now in Does ts (memory_of ts m.now) result (defined.copy_step (names c.now.table.now) (slice (tree_of ts t)) (value_of ts x.now) (value_of ts y.now) (memory_of ts m.now)) }
{
    let one = size_of(c, t)?;
    let more = elements_of(c, one, y, m)?;
    copied_value(c, t, x, more)
}

/// `copy`; `t` is the underlying type of what is copied to.
pub fn copy_step<'a>(
    c: &Context<'a>,
    t: TypeId,
    x: &[Scalar<'a>],
    y: &[Scalar<'a>],
    m: &Memory<'a>,
) -> Result<Gives<'a>, Stop>
    ensures value { let ts = places c.now.table.now in Does ts (memory_of ts m.now) result (defined.copy_step (names c.now.table.now) (tree_of ts t) (value_of ts x.now) (value_of ts y.now) (memory_of ts m.now)) }
{
    match level_at(c.table, t) {
        Some(GoType::Slice(element)) => copy_of(c, *element, x, y, m),
        _ => Err(Stop::NoStep),
    }
}
