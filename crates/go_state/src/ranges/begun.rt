//! How far a range has come before its first turn.
//!
//! The Go Programming Language Specification (as of Go 1.17), "For statements with range clause".

ghost use Rattle.std.specs.Prelude.{◌≡◌, ℕ, [], ◌∷◌, List, Option, Some, slice_get};
ghost use Rattle.go_type.specs.Tree.{Ty, array, int, mapping, pointer, slice, str};
ghost use Rattle.go_type.specs.declared.types.IntName.{IntName};
ghost use Rattle.go_type.specs.Levels.{tree_of};
ghost use Rattle.go_type.specs.Table.{places, names};
ghost use Rattle.go_core.specs.Control as control;
ghost use Rattle.go_core.specs.CoreTree.{CoreProgram};
ghost use Rattle.go_core.specs.Memory as core;
ghost use Rattle.go_core.specs.StepMemory.{count_of};
ghost use Rattle.go_values.specs.ValuesSeen.{scalar_of, value_of, memory_of};
ghost use Rattle.go_state.specs.StateSeen.{cursor_of};
ghost use Rattle.go_state.specs.RangesFound.{CursorFound};

use crate::state::frame::Cursor;
use go_type::types::{GoType, TypeId};
use go_values::operators::did::{Context, Stop};
use go_values::values::level::{level_at, underlying};
use go_values::values::memory::Memory;
use go_values::values::scalar::Scalar;

// ---- numbers

// So many numbers, none where there are less than that.
fn numbers_below<'a>(n: i128) -> Result<Cursor<'a>, Stop>
    ensures value { (ts : List Ty) (p : CoreProgram) (g : ℕ) (name : IntName) (m : core.Memory) → CursorFound ts result (control.cursor_of p g (int name) (core.whole n ∷ []) m) }
{
    if n < 0 {
        return Ok(Cursor::Numbers { next: 0, count: 0 });
    }
    if n > u64::MAX as i128 {
        return Err(Stop::NoMemory);
    }
    Ok(Cursor::Numbers {
        next: 0,
        count: n as u64,
    })
}

fn over_number<'a>(x: Scalar<'a>) -> Result<Cursor<'a>, Stop>
    ensures value { (ts : List Ty) (p : CoreProgram) (g : ℕ) (name : IntName) (m : core.Memory) → CursorFound ts result (control.cursor_of p g (int name) (scalar_of ts x.entry ∷ []) m) }
{
    match x {
        Scalar::Whole(n) => numbers_below(n),
        _ => Err(Stop::NoStep),
    }
}

fn over_numbers<'a>(x: &[Scalar<'a>]) -> Result<Cursor<'a>, Stop>
    ensures value { (ts : List Ty) (p : CoreProgram) (g : ℕ) (name : IntName) (m : core.Memory) → CursorFound ts result (control.cursor_of p g (int name) (value_of ts x.now) m) }
{
    match x {
        [x] => over_number(*x),
        _ => Err(Stop::NoStep),
    }
}

// ---- arrays and slices

// A copy of an array; the one scalar of an array without elements is none.
fn over_copy<'a>(count: u64, x: &'a [Scalar<'a>]) -> Cursor<'a>
    ensures value { (ts : List Ty) (p : CoreProgram) (g : ℕ) (t : Ty) (m : core.Memory) → control.cursor_of p g (array count t) (value_of ts x.now) m ≡ Some (cursor_of ts result) }
{
    if count == 0 {
        return Cursor::Copied { next: 0, left: &[] };
    }
    Cursor::Copied { next: 0, left: x }
}

fn array_at<'a>(count: u64, x: Scalar<'a>) -> Result<Cursor<'a>, Stop>
    ensures value { (ts : List Ty) (p : CoreProgram) (g : ℕ) (t : Ty) → CursorFound ts result (control.over_array p g (array count t) (scalar_of ts x.entry ∷ []) 0) }
{
    match x {
        Scalar::Pointer(base) => Ok(Cursor::Elements {
            next: 0,
            count,
            base,
        }),
        Scalar::Nil => Ok(Cursor::Numbers { next: 0, count: 0 }),
        _ => Err(Stop::NoStep),
    }
}

fn over_array<'a>(count: u64, x: &[Scalar<'a>]) -> Result<Cursor<'a>, Stop>
    ensures value { (ts : List Ty) (p : CoreProgram) (g : ℕ) (t : Ty) → CursorFound ts result (control.over_array p g (array count t) (value_of ts x.now) 0) }
{
    match x {
        [x] => array_at(count, *x),
        _ => Err(Stop::NoStep),
    }
}

// The array that a pointer points to; nil points to no element.
fn over_pointed<'a>(c: &Context<'a>, t: TypeId, x: &[Scalar<'a>]) -> Result<Cursor<'a>, Stop>
    ensures value { (p : CoreProgram) (g : ℕ) → let ts = places c.now.table.now in CursorFound ts result (control.over_array p g (tree_of ts t) (value_of ts x.now) 0) }
{
    match level_at(c.table, t) {
        Some(GoType::Array(count, _)) => over_array(*count as u64, x),
        _ => Err(Stop::NoStep),
    }
}

fn over_pointer<'a>(c: &Context<'a>, to: TypeId, x: &[Scalar<'a>]) -> Result<Cursor<'a>, Stop>
    ensures value { (p : CoreProgram) (g : ℕ) (m : core.Memory) → p.names ≡ names c.now.table.now → let ts = places c.now.table.now in CursorFound ts result (control.cursor_of p g (pointer (tree_of ts to)) (value_of ts x.now) m) }
{
    over_pointed(c, underlying(c.table, to), x)
}

fn slice_at<'a>(x: Scalar<'a>) -> Result<Cursor<'a>, Stop>
    ensures value { (ts : List Ty) (p : CoreProgram) (g : ℕ) (t : Ty) (m : core.Memory) → CursorFound ts result (control.cursor_of p g (slice t) (scalar_of ts x.entry ∷ []) m) }
{
    match x {
        Scalar::Slice {
            base,
            length,
            capacity: _,
        } => Ok(Cursor::Elements {
            next: 0,
            count: length,
            base,
        }),
        Scalar::Nil => Ok(Cursor::Numbers { next: 0, count: 0 }),
        _ => Err(Stop::NoStep),
    }
}

fn over_slice<'a>(x: &[Scalar<'a>]) -> Result<Cursor<'a>, Stop>
    ensures value { (ts : List Ty) (p : CoreProgram) (g : ℕ) (t : Ty) (m : core.Memory) → CursorFound ts result (control.cursor_of p g (slice t) (value_of ts x.now) m) }
{
    match x {
        [x] => slice_at(*x),
        _ => Err(Stop::NoStep),
    }
}

// ---- texts and maps

fn text_at<'a>(x: Scalar<'a>) -> Result<Cursor<'a>, Stop>
    ensures value { (ts : List Ty) (p : CoreProgram) (g : ℕ) (m : core.Memory) → CursorFound ts result (control.cursor_of p g str (scalar_of ts x.entry ∷ []) m) }
{
    match x {
        Scalar::Text(bytes) => Ok(Cursor::Characters {
            offset: 0,
            left: bytes,
        }),
        _ => Err(Stop::NoStep),
    }
}

fn over_text<'a>(x: &[Scalar<'a>]) -> Result<Cursor<'a>, Stop>
    ensures value { (ts : List Ty) (p : CoreProgram) (g : ℕ) (m : core.Memory) → CursorFound ts result (control.cursor_of p g str (value_of ts x.now) m) }
{
    match x {
        [x] => text_at(*x),
        _ => Err(Stop::NoStep),
    }
}

// A map's entries, before the first of them.
fn births_of<'a>(name: u64, m: &Memory<'a>) -> Result<Cursor<'a>, Stop>
    ensures value { (ts : List Ty) (p : CoreProgram) (g : ℕ) → CursorFound ts result (control.births_of p g name (slice_get (memory_of ts m.now).maps name)) }
{
    if name < m.maps.len() as u64 {
        Ok(Cursor::Entries {
            map: Some(name),
            produced: &[],
            since: m.maps[name as usize].next_birth,
        })
    } else {
        Err(Stop::NoStep)
    }
}

fn map_at<'a>(x: Scalar<'a>, m: &Memory<'a>) -> Result<Cursor<'a>, Stop>
    ensures value { (ts : List Ty) (p : CoreProgram) (g : ℕ) (k v : Ty) → CursorFound ts result (control.cursor_of p g (mapping k v) (scalar_of ts x.entry ∷ []) (memory_of ts m.now)) }
{
    match x {
        Scalar::Map(name) => births_of(name, m),
        Scalar::Nil => Ok(Cursor::Entries {
            map: None,
            produced: &[],
            since: 0,
        }),
        _ => Err(Stop::NoStep),
    }
}

fn over_map<'a>(x: &[Scalar<'a>], m: &Memory<'a>) -> Result<Cursor<'a>, Stop>
    ensures value { (ts : List Ty) (p : CoreProgram) (g : ℕ) (k v : Ty) → CursorFound ts result (control.cursor_of p g (mapping k v) (value_of ts x.now) (memory_of ts m.now)) }
{
    match x {
        [x] => map_at(*x, m),
        _ => Err(Stop::NoStep),
    }
}

/// How far a range over a value has come before its first turn; `t` is the underlying type of the
/// value. Of a program with these types.
pub fn begun<'a>(
    c: &Context<'a>,
    t: TypeId,
    x: &'a [Scalar<'a>],
    m: &Memory<'a>,
) -> Result<Cursor<'a>, Stop>
    ensures value { (p : CoreProgram) (g : ℕ) → p.names ≡ names c.now.table.now → let ts = places c.now.table.now in CursorFound ts result (control.cursor_of p g (tree_of ts t) (value_of ts x.now) (memory_of ts m.now)) }
{
    match level_at(c.table, t) {
        Some(GoType::Array(count, _)) => Ok(over_copy(*count as u64, x)),
        Some(GoType::Int(_)) => over_numbers(x),
        Some(GoType::Pointer(to)) => over_pointer(c, *to, x),
        Some(GoType::Slice(_)) => over_slice(x),
        Some(GoType::Str) => over_text(x),
        Some(GoType::Map(_, _)) => over_map(x, m),
        _ => Err(Stop::NoStep),
    }
}

// ---- a nil pointer to an array

// How many elements an array type has.
fn count_of(c: &Context, t: TypeId) -> u64
    ensures value { result ≡ count_of (tree_of (places c.now.table.now) t) }
{
    match level_at(c.table, t) {
        Some(GoType::Array(count, _)) => *count as u64,
        _ => 0,
    }
}

fn is_nil_at(c: &Context, to: TypeId, x: Scalar) -> bool
    ensures value { (p : CoreProgram) (g : ℕ) → p.names ≡ names c.now.table.now → let ts = places c.now.table.now in result ≡ control.is_nil_array p g (pointer (tree_of ts to)) (scalar_of ts x.entry ∷ []) }
{
    match x {
        Scalar::Nil => count_of(c, underlying(c.table, to)) != 0,
        _ => false,
    }
}

fn is_nil_to(c: &Context, to: TypeId, x: &[Scalar]) -> bool
    ensures value { (p : CoreProgram) (g : ℕ) → p.names ≡ names c.now.table.now → let ts = places c.now.table.now in result ≡ control.is_nil_array p g (pointer (tree_of ts to)) (value_of ts x.now) }
{
    match x {
        [x] => is_nil_at(c, to, *x),
        _ => false,
    }
}

/// Whether a value is a nil pointer to an array that has elements, over which no range begins; `t`
/// is the underlying type of the value.
pub fn is_nil_array(c: &Context, t: TypeId, x: &[Scalar]) -> bool
    ensures value { (p : CoreProgram) (g : ℕ) → p.names ≡ names c.now.table.now → let ts = places c.now.table.now in result ≡ control.is_nil_array p g (tree_of ts t) (value_of ts x.now) }
{
    match level_at(c.table, t) {
        Some(GoType::Pointer(to)) => is_nil_to(c, *to, x),
        _ => false,
    }
}
