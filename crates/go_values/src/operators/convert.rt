//! Conversions.
//!
//! The Go Programming Language Specification (as of Go 1.17), "Conversions".

ghost use Rattle.std.specs.Prelude.{◌≡◌, ◌++◌, [], ◌∷◌, ℕ, List, IfOk, OnOk, map, flat_map};
ghost use Rattle.go_type.specs.declared.types.IntName.{IntName};
ghost use Rattle.go_type.specs.Named.{NamedTy};
ghost use Rattle.go_type.specs.Tree.{Ty, int, str, slice};
ghost use Rattle.go_type.specs.Levels.{tree_of};
ghost use Rattle.go_type.specs.Table.{places, names};
ghost use Rattle.go_core.specs.Layout as layout;
ghost use Rattle.go_core.specs.Memory as core;
ghost use Rattle.go_core.specs.StepNumbers as defined;
ghost use Rattle.go_core.specs.Text.{runes};
ghost use Rattle.go_values.specs.ValuesSeen.{scalar_of, value_of, memory_of};
ghost use Rattle.go_values.specs.OperatorsSeen.{Does};

use crate::layouts::layout::kind_of;
use crate::operators::did::{
    Context, Gives, Stop, alone, as_text, as_whole, gives_fresh, gives_one, gives_value,
    whole_slice,
};
use crate::operators::numbers::{MOST_ELEMENTS, made_text};
use crate::values::arithmetic::wrapped;
use crate::values::level::{level_at, underlying};
use crate::values::memory::{Memory, read_cells};
use crate::values::run_panic::RunPanic;
use crate::values::scalar::Scalar;
use crate::values::text::{push_encoded_number, push_runes};
use gj_base::{Kind, NoMemory};
use go_type::types::{GoType, TypeId};

// The byte that a scalar is of.
fn byte_in(x: Scalar) -> Result<u8, NoMemory>
    ensures value { IfOk result (λ b. (ts : List Ty) → b ≡ defined.number_in (scalar_of ts x.entry)) }
{
    match x {
        Scalar::Whole(n) => byte_of(n),
        _ => Ok(0),
    }
}

fn byte_of(n: i128) -> Result<u8, NoMemory>
    ensures value { IfOk result (λ b. b ≡ defined.number_in (core.whole n)) }
{
    if n < 0 {
        Ok(0)
    } else if n < 256 {
        Ok(n as u8)
    } else {
        Err(NoMemory)
    }
}

// Adds the bytes that these scalars are.
fn push_bytes(text: &mut Vec<u8>, cells: &[Scalar]) -> Result<(), NoMemory>
    ensures value { OnOk result ((ts : List Ty) → text.new.items ≡ text.old.items ++ map defined.number_in (value_of ts cells.now)) }
{
    'cells: for i in 0..cells.len() {
        let b = byte_in(cells[i])?;
        text.push(b)?;
    }
    Ok(())
}

// Adds the character whose number a scalar is.
fn push_character(text: &mut Vec<u8>, x: Scalar) -> Result<(), NoMemory>
    ensures value { OnOk result ((ts : List Ty) → text.new.items ≡ text.old.items ++ defined.character_of (scalar_of ts x.entry)) }
{
    match x {
        Scalar::Whole(n) => push_encoded_number(text, n),
        _ => Ok(()),
    }
}

// Adds the characters whose numbers these scalars are.
fn push_characters(text: &mut Vec<u8>, cells: &[Scalar]) -> Result<(), NoMemory>
    ensures value { OnOk result ((ts : List Ty) → text.new.items ≡ text.old.items ++ flat_map defined.character_of (value_of ts cells.now)) }
{
    'cells: for i in 0..cells.len() {
        push_character(text, cells[i])?;
    }
    Ok(())
}

// Adds the text of a slice whose elements are of a kind.
fn push_text_of(text: &mut Vec<u8>, kind: Kind, cells: &[Scalar]) -> Result<(), NoMemory>
    ensures value { OnOk result ((ts : List Ty) → text.new.items ≡ text.old.items ++ defined.text_of_slice kind (value_of ts cells.now)) }
{
    match kind {
        Kind::U8 => push_bytes(text, cells),
        _ => push_characters(text, cells),
    }
}

fn text_of_cells<'a>(c: &Context<'a>, kind: Kind, cells: &[Scalar]) -> Result<Gives<'a>, Stop>
    ensures value { (ts : List Ty) (m : core.Memory) → Does ts m result (defined.made_text m (defined.text_of_slice kind (value_of ts cells.now))) }
{
    let mut text = Vec::new(c.alloc);
    push_text_of(&mut text, kind, cells)?;
    made_text(c, text.as_slice())
}

fn text_of_slice<'a>(c: &Context<'a>, kind: Kind, x: Scalar, m: &Memory) -> Result<Gives<'a>, Stop>
    ensures value { (ts : List Ty) (ns : List NamedTy) (name : IntName) → kind ≡ layout.kind_of name → Does ts (memory_of ts m.now) result (defined.slice_to_text ns (int name) (scalar_of ts x.entry ∷ []) (memory_of ts m.now)) }
{
    match x {
        Scalar::Slice {
            base,
            length,
            capacity: _,
        } => text_of_cells(c, kind, read_cells(base, length, m.cells.as_slice())),
        Scalar::Nil => made_text(c, &[]),
        _ => Err(Stop::NoStep),
    }
}

fn text_of_value<'a>(
    c: &Context<'a>,
    kind: Kind,
    x: &[Scalar<'a>],
    m: &Memory<'a>,
) -> Result<Gives<'a>, Stop>
    ensures value { (ts : List Ty) (ns : List NamedTy) (name : IntName) → kind ≡ layout.kind_of name → Does ts (memory_of ts m.now) result (defined.slice_to_text ns (int name) (value_of ts x.now) (memory_of ts m.now)) }
{
    match x {
        [x] => text_of_slice(c, kind, *x, m),
        _ => Err(Stop::NoStep),
    }
}

// The text of a slice with elements of the type.
fn slice_to_text<'a>(
    c: &Context<'a>,
    t: TypeId,
    x: &[Scalar<'a>],
    m: &Memory<'a>,
) -> Result<Gives<'a>, Stop>
    ensures value { let ts = places c.now.table.now in Does ts (memory_of ts m.now) result (defined.slice_to_text (names c.now.table.now) (tree_of ts t) (value_of ts x.now) (memory_of ts m.now)) }
{
    match level_at(c.table, t) {
        Some(GoType::Int(name)) => text_of_value(c, kind_of(*name), x, m),
        _ => Err(Stop::NoStep),
    }
}

/// Bytes as scalars.
pub fn wholes_of_bytes<'a>(c: &Context<'a>, bytes: &[u8]) -> Result<&'a [Scalar<'a>], NoMemory>
    ensures value { IfOk result (λ v. (ts : List Ty) → value_of ts v.now ≡ map defined.whole_of bytes.now) }
{
    let mut cells = Vec::new(c.alloc);
    'bytes: for i in 0..bytes.len() {
        cells.push(Scalar::Whole(bytes[i] as i128))?;
    }
    let v: &'a [Scalar<'a>] = c.arena.try_alloc_slice_copy(cells.as_slice())?;
    Ok(v)
}

fn wholes_of_codes<'a>(c: &Context<'a>, codes: &[u32]) -> Result<&'a [Scalar<'a>], NoMemory>
    ensures value { IfOk result (λ v. (ts : List Ty) → value_of ts v.now ≡ map defined.whole_of codes.now) }
{
    let mut cells = Vec::new(c.alloc);
    'codes: for i in 0..codes.len() {
        cells.push(Scalar::Whole(codes[i] as i128))?;
    }
    let v: &'a [Scalar<'a>] = c.arena.try_alloc_slice_copy(cells.as_slice())?;
    Ok(v)
}

fn wholes_of_runes<'a>(c: &Context<'a>, bytes: &[u8]) -> Result<&'a [Scalar<'a>], NoMemory>
    ensures value { IfOk result (λ v. (ts : List Ty) → value_of ts v.now ≡ map defined.whole_of (runes bytes.now)) }
{
    let mut codes = Vec::new(c.alloc);
    push_runes(&mut codes, bytes)?;
    wholes_of_codes(c, codes.as_slice())
}

fn wholes_of<'a>(c: &Context<'a>, kind: Kind, bytes: &[u8]) -> Result<&'a [Scalar<'a>], NoMemory>
    ensures value { IfOk result (λ v. (ts : List Ty) → value_of ts v.now ≡ map defined.whole_of (defined.elements_of kind bytes.now)) }
{
    match kind {
        Kind::U8 => wholes_of_bytes(c, bytes),
        _ => wholes_of_runes(c, bytes),
    }
}

// The slice of all of a fresh array with these elements.
fn made_slice<'a>(
    c: &Context<'a>,
    cells: &'a [Scalar<'a>],
    m: &Memory<'a>,
) -> Result<Gives<'a>, Stop>
    ensures value { (ts : List Ty) (ns : List ℕ) → value_of ts cells.now ≡ map defined.whole_of ns → Does ts (memory_of ts m.now) result (defined.made_slice (memory_of ts m.now) ns) }
{
    let length = cells.len() as u64;
    if length > MOST_ELEMENTS {
        return Err(Stop::Panics {
            panic: RunPanic::BadSize,
            units: 0,
        });
    }
    let base = m.next_base();
    let slice = alone(c, whole_slice(base, length))?;
    if length == 0 {
        return Ok(gives_value(slice, 1));
    }
    Ok(gives_fresh(slice, cells, length))
}

fn text_to_slice<'a>(
    c: &Context<'a>,
    t: TypeId,
    x: &[Scalar<'a>],
    m: &Memory<'a>,
) -> Result<Gives<'a>, Stop>
    ensures value { let ts = places c.now.table.now in Does ts (memory_of ts m.now) result (defined.text_to_slice (tree_of ts t) (value_of ts x.now) (memory_of ts m.now)) }
{
    match level_at(c.table, t) {
        Some(GoType::Int(name)) => slice_of_text(c, kind_of(*name), x, m),
        _ => Err(Stop::NoStep),
    }
}

fn slice_of_text<'a>(
    c: &Context<'a>,
    kind: Kind,
    x: &[Scalar<'a>],
    m: &Memory<'a>,
) -> Result<Gives<'a>, Stop>
    ensures value { (ts : List Ty) (name : IntName) → kind ≡ layout.kind_of name → Does ts (memory_of ts m.now) result (defined.text_to_slice (int name) (value_of ts x.now) (memory_of ts m.now)) }
{
    let bytes = as_text(x)?;
    let cells = wholes_of(c, kind, bytes)?;
    made_slice(c, cells, m)
}

fn from_number<'a>(c: &Context<'a>, to: TypeId, x: &'a [Scalar<'a>]) -> Result<Gives<'a>, Stop>
    ensures value { (name : IntName) (m : core.Memory) → let ts = places c.now.table.now in Does ts m result (defined.converted (names c.now.table.now) (int name) (tree_of ts to) (value_of ts x.now) m) }
{
    match level_at(c.table, to) {
        Some(GoType::Int(name)) => number_to(c, kind_of(*name), x),
        Some(GoType::Str) => number_to_text(c, x),
        _ => Ok(gives_value(x, 0)),
    }
}

fn number_to<'a>(c: &Context<'a>, kind: Kind, x: &[Scalar<'a>]) -> Result<Gives<'a>, Stop>
    ensures value { (ts : List Ty) (ns : List NamedTy) (from name : IntName) (m : core.Memory) → kind ≡ layout.kind_of name → Does ts m result (defined.converted ns (int from) (int name) (value_of ts x.now) m) }
{
    let n = as_whole(x)?;
    gives_one(c, Scalar::Whole(wrapped(kind, n)), 0)
}

fn number_to_text<'a>(c: &Context<'a>, x: &[Scalar<'a>]) -> Result<Gives<'a>, Stop>
    ensures value { (ts : List Ty) (ns : List NamedTy) (from : IntName) (m : core.Memory) → Does ts m result (defined.converted ns (int from) str (value_of ts x.now) m) }
{
    let n = as_whole(x)?;
    let mut text = Vec::new(c.alloc);
    push_encoded_number(&mut text, n)?;
    made_text(c, text.as_slice())
}

fn from_slice<'a>(
    c: &Context<'a>,
    element: TypeId,
    to: TypeId,
    x: &'a [Scalar<'a>],
    m: &Memory<'a>,
) -> Result<Gives<'a>, Stop>
    ensures value { let ts = places c.now.table.now in Does ts (memory_of ts m.now) result (defined.converted (names c.now.table.now) (slice (tree_of ts element)) (tree_of ts to) (value_of ts x.now) (memory_of ts m.now)) }
{
    match level_at(c.table, to) {
        Some(GoType::Str) => slice_to_text(c, underlying(c.table, element), x, m),
        _ => Ok(gives_value(x, 0)),
    }
}

fn from_text<'a>(
    c: &Context<'a>,
    to: TypeId,
    x: &'a [Scalar<'a>],
    m: &Memory<'a>,
) -> Result<Gives<'a>, Stop>
    ensures value { let ts = places c.now.table.now in Does ts (memory_of ts m.now) result (defined.converted (names c.now.table.now) str (tree_of ts to) (value_of ts x.now) (memory_of ts m.now)) }
{
    match level_at(c.table, to) {
        Some(GoType::Slice(element)) => text_to_slice(c, underlying(c.table, *element), x, m),
        _ => Ok(gives_value(x, 0)),
    }
}

// By the underlying types.
fn converted<'a>(
    c: &Context<'a>,
    from: TypeId,
    to: TypeId,
    x: &'a [Scalar<'a>],
    m: &Memory<'a>,
) -> Result<Gives<'a>, Stop>
    ensures value { let ts = places c.now.table.now in Does ts (memory_of ts m.now) result (defined.converted (names c.now.table.now) (tree_of ts from) (tree_of ts to) (value_of ts x.now) (memory_of ts m.now)) }
{
    match level_at(c.table, from) {
        Some(GoType::Int(_)) => from_number(c, to, x),
        Some(GoType::Slice(element)) => from_slice(c, *element, to, x, m),
        Some(GoType::Str) => from_text(c, to, x, m),
        _ => Ok(gives_value(x, 0)),
    }
}

/// A value of one type as one of another.
pub fn convert_step<'a>(
    c: &Context<'a>,
    from: TypeId,
    to: TypeId,
    x: &'a [Scalar<'a>],
    m: &Memory<'a>,
) -> Result<Gives<'a>, Stop>
    ensures value { let ts = places c.now.table.now in Does ts (memory_of ts m.now) result (defined.convert_step (names c.now.table.now) (tree_of ts from) (tree_of ts to) (value_of ts x.now) (memory_of ts m.now)) }
{
    converted(c, underlying(c.table, from), underlying(c.table, to), x, m)
}
