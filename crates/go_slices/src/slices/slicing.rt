//! Slice expressions.
//!
//! The Go Programming Language Specification (as of Go 1.17), "Slice expressions".

ghost use Rattle.std.specs.Prelude.{◌≡◌, [], ◌∷◌, ℤ, pos, List, take, drop, true};
ghost use Rattle.go_type.specs.Named.{NamedTy};
ghost use Rattle.go_type.specs.Tree.{Ty, array, slice, pointer, str};
ghost use Rattle.go_type.specs.Levels.{tree_of};
ghost use Rattle.go_type.specs.Table.{places, names};
ghost use Rattle.go_core.specs.Layout.{shape_of, size};
ghost use Rattle.go_core.specs.Memory as core;
ghost use Rattle.go_core.specs.Did as did;
ghost use Rattle.go_core.specs.StepSlices as defined;
ghost use Rattle.go_values.specs.ValuesSeen.{scalar_of, value_of, values_of};
ghost use Rattle.go_values.specs.OperatorsSeen.{Does, Found};
ghost use Rattle.go_slices.specs.SlicesFound.{bounds_of, bounds_by, BoundFound, NoneLeft, PartFound, part_after};

use go_type::types::{GoType, TypeId};
use go_values::operators::did::{Context, Gives, Stop, as_whole, gives_one};
use go_values::operators::numbers::made_text;
use go_values::operators::places::{product, size_of, sum};
use go_values::values::level::{level_at, underlying};
use go_values::values::run_panic::RunPanic;
use go_values::values::scalar::Scalar;

/// The bounds of a slice expression: those that are missing are 0, the length, and the capacity.
#[derive(Clone, Copy)]
pub struct Bounds {
    pub low: i128,
    pub high: i128,
    pub limit: i128,
}

/// Which bounds are written.
#[derive(Clone, Copy, Debug, PartialEq, Eq)]
pub struct Written {
    pub low: bool,
    pub high: bool,
    pub limit: bool,
}

/// A bound, and the operands after it.
#[derive(Clone, Copy)]
pub struct Bound<'c, 'a> {
    pub value: i128,
    pub rest: &'c [&'a [Scalar<'a>]],
}

// The bound that is written first.
fn first_bound<'c, 'a>(vs: &'c [&'a [Scalar<'a>]]) -> Result<Bound<'c, 'a>, Stop>
    ensures value { (ts : List Ty) (n : ℤ) → BoundFound ts result (defined.one_or true (values_of ts vs.now) n) }
{
    match vs.split_first() {
        Some((x, rest)) => {
            let value = as_whole(*x)?;
            Ok(Bound { value, rest })
        }
        None => Err(Stop::NoStep),
    }
}

fn one_or<'c, 'a>(
    is_written: bool,
    vs: &'c [&'a [Scalar<'a>]],
    default: u64,
) -> Result<Bound<'c, 'a>, Stop>
    ensures value { (ts : List Ty) → BoundFound ts result (defined.one_or is_written (values_of ts vs.now) (pos default)) }
{
    if is_written {
        first_bound(vs)
    } else {
        Ok(Bound {
            value: default as i128,
            rest: vs,
        })
    }
}

/// No operand is left.
pub fn none_left(vs: &[&[Scalar]]) -> Result<(), Stop>
    ensures value { (ts : List Ty) → NoneLeft result (did.on_none (values_of ts vs.now)) }
{
    match vs {
        [] => Ok(()),
        _ => Err(Stop::NoStep),
    }
}

// The bounds that are written, in order.
fn bounds_in<'a>(
    written: Written,
    length: u64,
    capacity: u64,
    vs: &[&'a [Scalar<'a>]],
) -> Result<Bounds, Stop>
    ensures value { (ts : List Ty) → Found bounds_of result (defined.on_bounds written.low written.high written.limit length capacity (values_of ts vs.now)) }
{
    let low = one_or(written.low, vs, 0)?;
    let high = one_or(written.high, low.rest, length)?;
    let limit = one_or(written.limit, high.rest, capacity)?;
    none_left(limit.rest)?;
    Ok(Bounds {
        low: low.value,
        high: high.value,
        limit: limit.value,
    })
}

/// The part of something that a slice expression is of.
#[derive(Clone, Copy)]
pub struct Part {
    pub low: u64,
    pub high: u64,
    pub limit: u64,
}

// 0 <= low <= high <= limit <= capacity.
fn part_in(b: Bounds, capacity: u64) -> Result<Part, Stop>
    ensures value { PartFound result (defined.in_bounds (bounds_of b) capacity) }
{
    if 0 <= b.low && b.low <= b.high && b.high <= b.limit && b.limit <= capacity as i128 {
        Ok(Part {
            low: b.low as u64,
            high: b.high as u64,
            limit: b.limit as u64,
        })
    } else {
        Err(Stop::Panics {
            panic: RunPanic::BadBounds,
            units: 0,
        })
    }
}

fn part_of(written: Written, length: u64, capacity: u64, vs: &[&[Scalar]]) -> Result<Part, Stop>
    ensures value { (ts : List Ty) → PartFound result (part_after (defined.on_bounds written.low written.high written.limit length capacity (values_of ts vs.now)) capacity) }
{
    let b = bounds_in(written, length, capacity, vs)?;
    part_in(b, capacity)
}

fn from_on(base: u64, bytes: &[u8]) -> &[u8]
    ensures value { result.now ≡ drop base bytes.now }
{
    if base < bytes.len() as u64 {
        &bytes[base as usize..]
    } else {
        &[]
    }
}

fn at_most(count: u64, bytes: &[u8]) -> &[u8]
    ensures value { result.now ≡ take count bytes.now }
{
    if count < bytes.len() as u64 {
        &bytes[..count as usize]
    } else {
        bytes
    }
}

// The part of a text.
fn text_part<'a>(c: &Context<'a>, bytes: &[u8], part: Part) -> Result<Gives<'a>, Stop>
    ensures value { (ts : List Ty) (m : core.Memory) → Does ts m result (defined.text_part m bytes.now part.low part.high) }
{
    let rest = from_on(part.low, bytes);
    let text = at_most(part.high.saturating_sub(part.low), rest);
    made_text(c, text)
}

// The part of an array that lies at a base, whose elements are of a type.
fn slice_part<'a>(c: &Context<'a>, t: TypeId, base: u64, part: Part) -> Result<Gives<'a>, Stop>
    ensures value { (m : core.Memory) → let ts = places c.now.table.now in Does ts m result (defined.slice_part m base (size (shape_of (names c.now.table.now) (tree_of ts t))) part.low part.high part.limit) }
{
    let one = size_of(c, t)?;
    let offset = product(part.low, one)?;
    let place = sum(base, offset)?;
    gives_one(
        c,
        Scalar::Slice {
            base: place,
            length: part.high.saturating_sub(part.low),
            capacity: part.limit.saturating_sub(part.low),
        },
        0,
    )
}

fn bytes_sliced<'a>(
    c: &Context<'a>,
    written: Written,
    vs: &[&'a [Scalar<'a>]],
    bytes: &[u8],
) -> Result<Gives<'a>, Stop>
    ensures value { (ts : List Ty) (ns : List NamedTy) (m : core.Memory) → Does ts m result (defined.sliced ns str (bounds_by written (values_of ts vs.now)) (core.text bytes.now ∷ []) m) }
{
    let length = bytes.len() as u64;
    let part = part_of(written, length, length, vs)?;
    text_part(c, bytes, part)
}

fn text_sliced<'a>(
    c: &Context<'a>,
    written: Written,
    vs: &[&'a [Scalar<'a>]],
    x: Scalar<'a>,
) -> Result<Gives<'a>, Stop>
    ensures value { (ts : List Ty) (ns : List NamedTy) (m : core.Memory) → Does ts m result (defined.sliced ns str (bounds_by written (values_of ts vs.now)) (scalar_of ts x.entry ∷ []) m) }
{
    match x {
        Scalar::Text(bytes) => bytes_sliced(c, written, vs, bytes),
        _ => Err(Stop::NoStep),
    }
}

fn elements_sliced<'a>(
    c: &Context<'a>,
    t: TypeId,
    written: Written,
    vs: &[&'a [Scalar<'a>]],
    base: u64,
    length: u64,
    capacity: u64,
) -> Result<Gives<'a>, Stop>
    ensures value { (m : core.Memory) → let ts = places c.now.table.now in Does ts m result (defined.sliced (names c.now.table.now) (slice (tree_of ts t)) (bounds_by written (values_of ts vs.now)) (core.slice base length capacity ∷ []) m) }
{
    let part = part_of(written, length, capacity, vs)?;
    slice_part(c, t, base, part)
}

fn nil_sliced<'a>(
    c: &Context<'a>,
    written: Written,
    vs: &[&'a [Scalar<'a>]],
) -> Result<Gives<'a>, Stop>
    ensures value { (ts : List Ty) (ns : List NamedTy) (t : Ty) (m : core.Memory) → Does ts m result (defined.sliced ns (slice t) (bounds_by written (values_of ts vs.now)) (core.nil ∷ []) m) }
{
    let _part = part_of(written, 0, 0, vs)?;
    gives_one(c, Scalar::Nil, 0)
}

fn slice_sliced<'a>(
    c: &Context<'a>,
    t: TypeId,
    written: Written,
    vs: &[&'a [Scalar<'a>]],
    x: Scalar<'a>,
) -> Result<Gives<'a>, Stop>
    ensures value { (m : core.Memory) → let ts = places c.now.table.now in Does ts m result (defined.sliced (names c.now.table.now) (slice (tree_of ts t)) (bounds_by written (values_of ts vs.now)) (scalar_of ts x.entry ∷ []) m) }
{
    match x {
        Scalar::Slice {
            base,
            length,
            capacity,
        } => elements_sliced(c, t, written, vs, base, length, capacity),
        Scalar::Nil => nil_sliced(c, written, vs),
        _ => Err(Stop::NoStep),
    }
}

// The part of the array with so many elements that lies at a base.
fn array_part<'a>(
    c: &Context<'a>,
    t: TypeId,
    length: u64,
    written: Written,
    vs: &[&'a [Scalar<'a>]],
    base: u64,
) -> Result<Gives<'a>, Stop>
    ensures value { (m : core.Memory) → let ts = places c.now.table.now in Does ts m result (defined.array_sliced (names c.now.table.now) (array length (tree_of ts t)) (bounds_by written (values_of ts vs.now)) base m) }
{
    let part = part_of(written, length, length, vs)?;
    slice_part(c, t, base, part)
}

// The part of the array that lies at a base; `t` is the array's underlying type.
fn array_sliced<'a>(
    c: &Context<'a>,
    t: TypeId,
    written: Written,
    vs: &[&'a [Scalar<'a>]],
    base: u64,
) -> Result<Gives<'a>, Stop>
    ensures value { (m : core.Memory) → let ts = places c.now.table.now in Does ts m result (defined.array_sliced (names c.now.table.now) (tree_of ts t) (bounds_by written (values_of ts vs.now)) base m) }
{
    match level_at(c.table, t) {
        Some(GoType::Array(count, element)) => array_part(
            c,
            *element,
            *count as u64,
            written,
            vs,
            base,
        ),
        _ => Err(Stop::NoStep),
    }
}

fn pointer_sliced<'a>(
    c: &Context<'a>,
    t: TypeId,
    written: Written,
    vs: &[&'a [Scalar<'a>]],
    x: Scalar<'a>,
) -> Result<Gives<'a>, Stop>
    ensures value { (m : core.Memory) → let ts = places c.now.table.now in Does ts m result (defined.sliced (names c.now.table.now) (pointer (tree_of ts t)) (bounds_by written (values_of ts vs.now)) (scalar_of ts x.entry ∷ []) m) }
{
    match x {
        Scalar::Nil => Err(Stop::Panics {
            panic: RunPanic::NilUsed,
            units: 0,
        }),
        Scalar::Pointer(base) => array_sliced(c, underlying(c.table, t), written, vs, base),
        _ => Err(Stop::NoStep),
    }
}

// Of one scalar that has the underlying type `t`.
fn sliced_one<'a>(
    c: &Context<'a>,
    t: TypeId,
    written: Written,
    vs: &[&'a [Scalar<'a>]],
    x: Scalar<'a>,
) -> Result<Gives<'a>, Stop>
    ensures value { (m : core.Memory) → let ts = places c.now.table.now in Does ts m result (defined.sliced (names c.now.table.now) (tree_of ts t) (bounds_by written (values_of ts vs.now)) (scalar_of ts x.entry ∷ []) m) }
{
    match level_at(c.table, t) {
        Some(GoType::Str) => text_sliced(c, written, vs, x),
        Some(GoType::Slice(element)) => slice_sliced(c, *element, written, vs, x),
        Some(GoType::Pointer(to)) => pointer_sliced(c, *to, written, vs, x),
        _ => Err(Stop::NoStep),
    }
}

// Of what has the underlying type `t`.
fn sliced<'a>(
    c: &Context<'a>,
    t: TypeId,
    written: Written,
    vs: &[&'a [Scalar<'a>]],
    x: &[Scalar<'a>],
) -> Result<Gives<'a>, Stop>
    ensures value { (m : core.Memory) → let ts = places c.now.table.now in Does ts m result (defined.sliced (names c.now.table.now) (tree_of ts t) (bounds_by written (values_of ts vs.now)) (value_of ts x.now) m) }
{
    if x.len() == 1 {
        return sliced_one(c, t, written, vs, x[0]);
    }
    Err(Stop::NoStep)
}

/// A part of a string, of a slice, or of the array that a pointer points to.
pub fn slice_step<'a>(
    c: &Context<'a>,
    from: TypeId,
    written: Written,
    vs: &[&'a [Scalar<'a>]],
) -> Result<Gives<'a>, Stop>
    ensures value { (m : core.Memory) → let ts = places c.now.table.now in Does ts m result (defined.slice_step (names c.now.table.now) (tree_of ts from) written.low written.high written.limit (values_of ts vs.now) m) }
{
    match vs.split_first() {
        Some((x, rest)) => sliced(c, underlying(c.table, from), written, rest, *x),
        None => Err(Stop::NoStep),
    }
}
