//! Places and what lies there.
//!
//! The Go Programming Language Specification (as of Go 1.17), "Variables", "Address operators",
//! "Selectors", "Index expressions", "Composite literals", "Allocation".

ghost use Rattle.std.specs.Prelude.{◌≡◌, ◌+◌, ◌*◌, [], ◌∷◌, List, IfOk, slice_get};
ghost use Rattle.go_type.specs.Tree.{Ty, array, slice};
ghost use Rattle.go_type.specs.Levels.{tree_of};
ghost use Rattle.go_type.specs.Table.{places, names};
ghost use Rattle.go_core.specs.CoreView.{constant_of};
ghost use Rattle.go_core.specs.Layout as layout;
ghost use Rattle.go_core.specs.Layout.{shape_of, size};
ghost use Rattle.go_core.specs.Memory as core;
ghost use Rattle.go_core.specs.Did as did;
ghost use Rattle.go_core.specs.StepMemory as defined;
ghost use Rattle.go_values.specs.ValuesSeen.{scalar_of, value_of, memory_of};
ghost use Rattle.go_values.specs.OperatorsSeen.{Does};

use crate::layouts::layout::{layout_of, offset_of, places_in, weight};
use crate::operators::did::{
    Context, Gives, Stop, alone, as_place, as_text, as_whole, gives_fresh, gives_one, gives_value,
    index_in,
};
use crate::operators::numbers::made_text;
use crate::values::level::level_at;
use crate::values::memory::{Memory, read_cells};
use crate::values::run_panic::RunPanic;
use crate::values::scalar::Scalar;
use gj_base::NoMemory;
use go_core::node::Constant;
use go_type::types::{GoType, TypeId};

/// So many places further on.
pub fn sum(m: u64, n: u64) -> Result<u64, NoMemory>
    ensures value { IfOk result (λ k. k ≡ m + n) }
{
    match m.checked_add(n) {
        Some(k) => Ok(k),
        None => Err(NoMemory),
    }
}

/// So many places each.
pub fn product(m: u64, n: u64) -> Result<u64, NoMemory>
    ensures value { IfOk result (λ k. k ≡ m * n) }
{
    match m.checked_mul(n) {
        Some(k) => Ok(k),
        None => Err(NoMemory),
    }
}

/// How many scalars a value of the type has.
pub fn size_of(c: &Context, t: TypeId) -> Result<u64, NoMemory>
    ensures value { IfOk result (λ n. n ≡ size (shape_of (names c.now.table.now) (tree_of (places c.now.table.now) t))) }
{
    let layout = layout_of(c.alloc, c.table, t)?;
    Ok(places_in(&layout))
}

/// What a value of the type takes of units.
pub fn weight_of(c: &Context, t: TypeId) -> Result<u64, NoMemory>
    ensures value { IfOk result (λ n. n ≡ layout.weight (shape_of (names c.now.table.now) (tree_of (places c.now.table.now) t))) }
{
    let layout = layout_of(c.alloc, c.table, t)?;
    let units = weight(&layout)?;
    Ok(units)
}

/// The zero of a type.
pub fn zeros_of<'a>(c: &Context<'a>, t: TypeId) -> Result<&'a [Scalar<'a>], NoMemory>
    ensures value { IfOk result (λ v. value_of (places c.now.table.now) v.now ≡ core.zeros (shape_of (names c.now.table.now) (tree_of (places c.now.table.now) t))) }
{
    let layout = layout_of(c.alloc, c.table, t)?;
    let zeros: &'a [Scalar<'a>] = c.arena.try_alloc_slice_copy(layout.zeros.as_slice())?;
    Ok(zeros)
}

/// A constant.
pub fn constant_step<'a>(c: &Context<'a>, value: &Constant) -> Result<Gives<'a>, Stop>
    ensures value { (ts : List Ty) (m : core.Memory) → Does ts m result (defined.constant_step (constant_of value.now) m) }
{
    match value {
        Constant::Bool(b) => gives_one(c, Scalar::Truth(*b), 1),
        Constant::Int(n) => gives_one(c, Scalar::Whole(*n), 1),
        Constant::Text(text) => made_text(c, text.as_bytes()),
    }
}

/// The zero of a type.
pub fn zero_step<'a>(c: &Context<'a>, t: TypeId) -> Result<Gives<'a>, Stop>
    ensures value { (m : core.Memory) → let ts = places c.now.table.now in Does ts m result (defined.zero_step (shape_of (names c.now.table.now) (tree_of ts t)) m) }
{
    let units = weight_of(c, t)?;
    let zeros = zeros_of(c, t)?;
    Ok(gives_value(zeros, units))
}

fn deref_in<'a>(c: &Context<'a>, x: Scalar<'a>) -> Result<Gives<'a>, Stop>
    ensures value { (ts : List Ty) (m : core.Memory) → Does ts m result (defined.deref_step (scalar_of ts x.entry ∷ []) m) }
{
    match x {
        Scalar::Pointer(base) => gives_one(c, Scalar::Pointer(base), 0),
        Scalar::Nil => Err(Stop::Panics {
            panic: RunPanic::NilUsed,
            units: 0,
        }),
        _ => Err(Stop::NoStep),
    }
}

/// Where a pointer points: a nil pointer points nowhere.
pub fn deref_step<'a>(c: &Context<'a>, x: &[Scalar<'a>]) -> Result<Gives<'a>, Stop>
    ensures value { (ts : List Ty) (m : core.Memory) → Does ts m result (defined.deref_step (value_of ts x.now) m) }
{
    match x {
        [x] => deref_in(c, *x),
        _ => Err(Stop::NoStep),
    }
}

/// The field of a struct at a place.
pub fn field_step<'a>(
    c: &Context<'a>,
    t: TypeId,
    number: u64,
    p: &[Scalar<'a>],
) -> Result<Gives<'a>, Stop>
    ensures value { (m : core.Memory) → let ts = places c.now.table.now in Does ts m result (defined.field_step (shape_of (names c.now.table.now) (tree_of ts t)) number (value_of ts p.now) m) }
{
    let base = as_place(p)?;
    let offset = offset_of(c.alloc, c.table, t, number)?;
    let place = sum(base, offset)?;
    gives_one(c, Scalar::Pointer(place), 0)
}

// The place of a number of values of the type further on.
fn places_on(c: &Context, base: u64, number: u64, t: TypeId) -> Result<u64, NoMemory>
    ensures value { IfOk result (λ k. k ≡ base + number * size (shape_of (names c.now.table.now) (tree_of (places c.now.table.now) t))) }
{
    let one = size_of(c, t)?;
    let offset = product(number, one)?;
    sum(base, offset)
}

// The element with an index among so many of a type, from a base on.
fn element_at<'a>(
    c: &Context<'a>,
    t: TypeId,
    base: u64,
    length: u64,
    index: i128,
) -> Result<Gives<'a>, Stop>
    ensures value { (m : core.Memory) → let ts = places c.now.table.now in Does ts m result (defined.on_index index length (λ k. did.value_of m (core.pointer (base + k * size (shape_of (names c.now.table.now) (tree_of ts t)))) 0)) }
{
    let k = index_in(index, length)?;
    let place = places_on(c, base, k, t)?;
    gives_one(c, Scalar::Pointer(place), 0)
}

// The element of an array with so many of a type.
fn elem_of<'a>(
    c: &Context<'a>,
    t: TypeId,
    count: u64,
    p: &[Scalar<'a>],
    i: &[Scalar<'a>],
) -> Result<Gives<'a>, Stop>
    ensures value { (m : core.Memory) → let ts = places c.now.table.now in Does ts m result (defined.elem_step (names c.now.table.now) (array count (tree_of ts t)) (value_of ts p.now) (value_of ts i.now) m) }
{
    let base = as_place(p)?;
    let index = as_whole(i)?;
    element_at(c, t, base, count, index)
}

/// The element of an array at a place; `t` is the array's underlying type.
pub fn elem_step<'a>(
    c: &Context<'a>,
    t: TypeId,
    p: &[Scalar<'a>],
    i: &[Scalar<'a>],
) -> Result<Gives<'a>, Stop>
    ensures value { (m : core.Memory) → let ts = places c.now.table.now in Does ts m result (defined.elem_step (names c.now.table.now) (tree_of ts t) (value_of ts p.now) (value_of ts i.now) m) }
{
    match level_at(c.table, t) {
        Some(GoType::Array(count, element)) => elem_of(c, *element, *count as u64, p, i),
        _ => Err(Stop::NoStep),
    }
}

fn slice_elem_in<'a>(
    c: &Context<'a>,
    t: TypeId,
    x: Scalar<'a>,
    index: i128,
) -> Result<Gives<'a>, Stop>
    ensures value { (m : core.Memory) → let ts = places c.now.table.now in Does ts m result (defined.slice_elem_at (size (shape_of (names c.now.table.now) (tree_of ts t))) (scalar_of ts x.entry ∷ []) index m) }
{
    match x {
        Scalar::Slice {
            base,
            length,
            capacity: _,
        } => element_at(c, t, base, length, index),
        Scalar::Nil => {
            let _none = index_in(index, 0)?;
            Err(Stop::NoStep)
        }
        _ => Err(Stop::NoStep),
    }
}

fn slice_elem_at<'a>(
    c: &Context<'a>,
    t: TypeId,
    x: &[Scalar<'a>],
    index: i128,
) -> Result<Gives<'a>, Stop>
    ensures value { (m : core.Memory) → let ts = places c.now.table.now in Does ts m result (defined.slice_elem_at (size (shape_of (names c.now.table.now) (tree_of ts t))) (value_of ts x.now) index m) }
{
    match x {
        [x] => slice_elem_in(c, t, *x, index),
        _ => Err(Stop::NoStep),
    }
}

// The element of a slice with elements of a type.
fn slice_elem_of<'a>(
    c: &Context<'a>,
    t: TypeId,
    x: &[Scalar<'a>],
    i: &[Scalar<'a>],
) -> Result<Gives<'a>, Stop>
    ensures value { (m : core.Memory) → let ts = places c.now.table.now in Does ts m result (defined.slice_elem_step (names c.now.table.now) (slice (tree_of ts t)) (value_of ts x.now) (value_of ts i.now) m) }
{
    let index = as_whole(i)?;
    slice_elem_at(c, t, x, index)
}

/// The element of a slice; `t` is the slice's underlying type.
pub fn slice_elem_step<'a>(
    c: &Context<'a>,
    t: TypeId,
    x: &[Scalar<'a>],
    i: &[Scalar<'a>],
) -> Result<Gives<'a>, Stop>
    ensures value { (m : core.Memory) → let ts = places c.now.table.now in Does ts m result (defined.slice_elem_step (names c.now.table.now) (tree_of ts t) (value_of ts x.now) (value_of ts i.now) m) }
{
    match level_at(c.table, t) {
        Some(GoType::Slice(element)) => slice_elem_of(c, *element, x, i),
        _ => Err(Stop::NoStep),
    }
}

/// What lies at a place.
pub fn read_step<'a>(
    c: &Context<'a>,
    t: TypeId,
    p: &[Scalar<'a>],
    m: &Memory<'a>,
) -> Result<Gives<'a>, Stop>
    ensures value { let ts = places c.now.table.now in Does ts (memory_of ts m.now) result (defined.read_step (shape_of (names c.now.table.now) (tree_of ts t)) (value_of ts p.now) (memory_of ts m.now)) }
{
    let base = as_place(p)?;
    let count = size_of(c, t)?;
    let units = weight_of(c, t)?;
    let cells = read_cells(base, count, m.cells.as_slice());
    let value: &'a [Scalar<'a>] = c.arena.try_alloc_slice_copy(cells)?;
    Ok(gives_value(value, units))
}

/// A byte of a string.
pub fn byte_at_step<'a>(
    c: &Context<'a>,
    x: &[Scalar<'a>],
    i: &[Scalar<'a>],
) -> Result<Gives<'a>, Stop>
    ensures value { (ts : List Ty) (m : core.Memory) → Does ts m result (defined.byte_at_step (value_of ts x.now) (value_of ts i.now) m) }
{
    let bytes = as_text(x)?;
    let index = as_whole(i)?;
    let k = index_in(index, bytes.len() as u64)?;
    byte_or_none(c, bytes, k)
}

fn byte_or_none<'a>(c: &Context<'a>, bytes: &[u8], k: u64) -> Result<Gives<'a>, Stop>
    ensures value { (ts : List Ty) (m : core.Memory) → Does ts m result (defined.byte_or_none m (slice_get bytes.now k)) }
{
    if k < bytes.len() as u64 {
        gives_one(c, Scalar::Whole(bytes[k as usize] as i128), 0)
    } else {
        Err(Stop::NoStep)
    }
}

/// The pointer to a fresh zero.
pub fn new_step<'a>(c: &Context<'a>, t: TypeId, m: &Memory<'a>) -> Result<Gives<'a>, Stop>
    ensures value { let ts = places c.now.table.now in Does ts (memory_of ts m.now) result (defined.new_step (shape_of (names c.now.table.now) (tree_of ts t)) (memory_of ts m.now)) }
{
    let units = weight_of(c, t)?;
    let zeros = zeros_of(c, t)?;
    let pointer = alone(c, Scalar::Pointer(m.next_base()))?;
    Ok(gives_fresh(pointer, zeros, units))
}
