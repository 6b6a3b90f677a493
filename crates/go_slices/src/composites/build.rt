//! Composite literals of structs, arrays and slices.
//!
//! The Go Programming Language Specification (as of Go 1.17), "Composite literals".

ghost use Rattle.std.specs.Prelude.{◌≡◌, ◌*◌, [], ◌∷◌, List, IfOk, OnOk};
ghost use Rattle.go_type.specs.Tree.{Ty};
ghost use Rattle.go_type.specs.Levels.{tree_of};
ghost use Rattle.go_type.specs.Table.{places, names};
ghost use Rattle.go_type.specs.Underlying.{underlying};
ghost use Rattle.go_core.specs.Did as did;
ghost use Rattle.go_core.specs.Layout as layout;
ghost use Rattle.go_core.specs.Layout.{shape_of, size};
ghost use Rattle.go_core.specs.Memory as core;
ghost use Rattle.go_core.specs.StepMemory as defined;
ghost use Rattle.go_values.specs.ValuesSeen.{value_of, values_of, memory_of};
ghost use Rattle.go_values.specs.OperatorsSeen.{Does};

use crate::slices::fresh::{fresh_slice, push_repeated, too_big, units_of};
use gj_base::NoMemory;
use go_type::types::{GoType, TypeId};
use go_values::layouts::layout::offset_of;
use go_values::operators::did::{Context, Gives, Stop, gives_value};
use go_values::operators::numbers::MOST_ELEMENTS;
use go_values::operators::places::{product, size_of, weight_of, zeros_of};
use go_values::values::level::{level_at, underlying};
use go_values::values::memory::{Memory, write_cells};
use go_values::values::scalar::Scalar;

// The elements of a slice, each at its place.
fn put_elements<'a>(
    cells: &mut [Scalar<'a>],
    one_size: u64,
    indexes: &[u64],
    vs: &[&'a [Scalar<'a>]],
) -> Result<(), NoMemory>
    ensures value { OnOk result ((ts : List Ty) → value_of ts cells.new ≡ defined.with_elements (λ i. i * one_size) indexes.now (values_of ts vs.now) (value_of ts cells.old)) }
{
    'elements: for i in 0..indexes.len() {
        if i >= vs.len() {
            return Ok(());
        }
        let offset = product(indexes[i], one_size)?;
        write_cells(cells, offset, vs[i]);
    }
    Ok(())
}

// The fields of a struct, or the elements of an array, each at its place.
fn put_parts<'a>(
    c: &Context<'a>,
    t: TypeId,
    cells: &mut [Scalar<'a>],
    indexes: &[u64],
    vs: &[&'a [Scalar<'a>]],
) -> Result<(), NoMemory>
    ensures value { OnOk result (let ts = places c.now.table.now in value_of ts cells.new ≡ defined.with_elements (defined.part_offset (shape_of (names c.now.table.now) (tree_of ts t))) indexes.now (values_of ts vs.now) (value_of ts cells.old)) }
{
    'parts: for i in 0..indexes.len() {
        if i >= vs.len() {
            return Ok(());
        }
        let offset = offset_of(c.alloc, c.table, t, indexes[i])?;
        write_cells(cells, offset, vs[i]);
    }
    Ok(())
}

// So many elements of a type: those that are given, and else zeros.
fn built_elements<'a>(
    c: &Context<'a>,
    t: TypeId,
    count: u64,
    indexes: &[u64],
    vs: &[&'a [Scalar<'a>]],
) -> Result<&'a [Scalar<'a>], NoMemory>
    ensures value { IfOk result (λ v. let ts = places c.now.table.now in let s = shape_of (names c.now.table.now) (tree_of ts t) in value_of ts v.now ≡ defined.with_elements (λ i. i * size s) indexes.now (values_of ts vs.now) (defined.repeated count (core.zeros s))) }
{
    let zeros = zeros_of(c, t)?;
    let one_size = size_of(c, t)?;
    let mut cells = Vec::new(c.alloc);
    push_repeated(&mut cells, count, zeros)?;
    put_elements(cells.as_mut_slice(), one_size, indexes, vs)?;
    let copy: &'a [Scalar<'a>] = c.arena.try_alloc_slice_copy(cells.as_slice())?;
    Ok(copy)
}

fn build_slice<'a>(
    c: &Context<'a>,
    t: TypeId,
    count: u64,
    indexes: &[u64],
    vs: &[&'a [Scalar<'a>]],
    m: &Memory<'a>,
) -> Result<Gives<'a>, Stop>
    ensures value { let ts = places c.now.table.now in Does ts (memory_of ts m.now) result (defined.build_slice (shape_of (names c.now.table.now) (tree_of ts t)) count indexes.now (values_of ts vs.now) (memory_of ts m.now)) }
{
    if count > MOST_ELEMENTS {
        return Err(too_big());
    }
    let units = units_of(c, t, count)?;
    let cells = built_elements(c, t, count, indexes, vs)?;
    fresh_slice(c, count, count, cells, units, m)
}

// A struct or an array: the parts that are given, and else zeros.
fn built_parts<'a>(
    c: &Context<'a>,
    t: TypeId,
    indexes: &[u64],
    vs: &[&'a [Scalar<'a>]],
) -> Result<&'a [Scalar<'a>], NoMemory>
    ensures value { IfOk result (λ v. let ts = places c.now.table.now in let s = shape_of (names c.now.table.now) (tree_of ts t) in value_of ts v.now ≡ defined.with_elements (defined.part_offset s) indexes.now (values_of ts vs.now) (core.zeros s)) }
{
    let zeros = zeros_of(c, t)?;
    let mut cells = Vec::new(c.alloc);
    cells.extend_from_slice(zeros)?;
    put_parts(c, t, cells.as_mut_slice(), indexes, vs)?;
    let copy: &'a [Scalar<'a>] = c.arena.try_alloc_slice_copy(cells.as_slice())?;
    Ok(copy)
}

fn build_value<'a>(
    c: &Context<'a>,
    t: TypeId,
    indexes: &[u64],
    vs: &[&'a [Scalar<'a>]],
) -> Result<Gives<'a>, Stop>
    ensures value { (m : core.Memory) → let ts = places c.now.table.now in let s = shape_of (names c.now.table.now) (tree_of ts t) in Does ts m result (did.gives (defined.with_elements (defined.part_offset s) indexes.now (values_of ts vs.now) (core.zeros s) ∷ []) m (layout.weight s)) }
{
    let units = weight_of(c, t)?;
    let value = built_parts(c, t, indexes, vs)?;
    Ok(gives_value(value, units))
}

/// A struct, an array, or a slice of so many elements; what no element is given for is zero.
pub fn build_step<'a>(
    c: &Context<'a>,
    t: TypeId,
    count: u64,
    indexes: &[u64],
    vs: &[&'a [Scalar<'a>]],
    m: &Memory<'a>,
) -> Result<Gives<'a>, Stop>
    ensures value { let ts = places c.now.table.now in let ns = names c.now.table.now in Does ts (memory_of ts m.now) result (defined.build_step ns (tree_of ts t) (underlying ns (tree_of ts t)) count indexes.now (values_of ts vs.now) (memory_of ts m.now)) }
{
    match level_at(c.table, underlying(c.table, t)) {
        Some(GoType::Slice(element)) => build_slice(c, *element, count, indexes, vs, m),
        _ => build_value(c, t, indexes, vs),
    }
}
