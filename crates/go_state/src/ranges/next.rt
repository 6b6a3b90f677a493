//! What a range produces next.
//!
//! The Go Programming Language Specification (as of Go 1.17), "For statements with range clause".

ghost use Rattle.std.specs.Prelude.{◌≡◌, ◌+◌, ◌*◌, ℕ, List, Option, IfOk, drop, option_map, take};
ghost use Rattle.go_type.specs.Tree.{Ty};
ghost use Rattle.go_type.specs.Levels.{tree_of};
ghost use Rattle.go_type.specs.Table.{places, names};
ghost use Rattle.go_type.specs.Underlying.{underlying};
ghost use Rattle.go_core.specs.Control as control;
ghost use Rattle.go_core.specs.CoreTree.{CoreProgram};
ghost use Rattle.go_core.specs.Goroutine as defined;
ghost use Rattle.go_core.specs.Memory as core;
ghost use Rattle.go_values.specs.ValuesSeen.{entry_of, rune_of, value_of, memory_of};
ghost use Rattle.go_state.specs.StateSeen.{cursor_of};
ghost use Rattle.go_state.specs.RangesFound.{NextFound};

use crate::ranges::entries::{all_produced, entries_of, entry_born, with_birth};
use crate::state::frame::Cursor;
use gj_base::NoMemory;
use go_type::types::{GoType, TypeId};
use go_values::operators::did::{Context, Stop, alone};
use go_values::operators::places::{product, size_of, sum};
use go_values::values::level::{level_at, underlying};
use go_values::values::memory::{Entry, Memory, read_cells};
use go_values::values::scalar::Scalar;
use go_values::values::text::{Rune, rune_at};

/// The next key and value of a range, and how far it has come then.
#[derive(Clone, Copy)]
pub struct Next<'a> {
    pub key: &'a [Scalar<'a>],
    pub value: &'a [Scalar<'a>],
    pub cursor: Cursor<'a>,
}

// ---- numbers and elements

// How many scalars an element has of the array that a pointer points to.
fn target_size(c: &Context, target: TypeId) -> Result<u64, NoMemory>
    ensures value { IfOk result (λ n. (p : CoreProgram) (g : ℕ) → p.names ≡ names c.now.table.now → n ≡ control.target_size p g (tree_of (places c.now.table.now) target)) }
{
    match level_at(c.table, target) {
        Some(GoType::Array(_, element)) => size_of(c, *element),
        _ => Ok(1),
    }
}

fn pointed_size(c: &Context, to: TypeId) -> Result<u64, NoMemory>
    ensures value { IfOk result (λ n. (p : CoreProgram) (g : ℕ) → p.names ≡ names c.now.table.now → n ≡ control.target_size p g (underlying p.names (tree_of (places c.now.table.now) to))) }
{
    target_size(c, underlying(c.table, to))
}

// How many scalars an element has.
fn element_size(c: &Context, t: TypeId) -> Result<u64, NoMemory>
    ensures value { IfOk result (λ n. (p : CoreProgram) (g : ℕ) → p.names ≡ names c.now.table.now → n ≡ control.element_size p g (tree_of (places c.now.table.now) t)) }
{
    match level_at(c.table, t) {
        Some(GoType::Array(_, element)) => size_of(c, *element),
        Some(GoType::Slice(element)) => size_of(c, *element),
        Some(GoType::Pointer(to)) => pointed_size(c, *to),
        _ => Ok(1),
    }
}

fn number<'a>(c: &Context<'a>, n: u64) -> Result<&'a [Scalar<'a>], NoMemory>
    ensures value { IfOk result (λ v. (ts : List Ty) (p : CoreProgram) (g : ℕ) → value_of ts v.now ≡ control.number_value p g n) }
{
    alone(c, Scalar::Whole(n as i128))
}

fn next_number<'a>(c: &Context<'a>, next: u64, count: u64) -> Result<Option<Next<'a>>, Stop>
    ensures value { (ts : List Ty) (p : CoreProgram) (g : ℕ) (t : Ty) (birth : Option ℕ) (m : core.Memory) → NextFound p g ts result (control.next_of p g t birth (defined.numbers next count) m) }
{
    if next >= count {
        return Ok(None);
    }
    let key = number(c, next)?;
    Ok(Some(Next {
        key,
        value: key,
        cursor: Cursor::Numbers {
            next: next + 1,
            count,
        },
    }))
}

// So many scalars from the front.
fn front<'a>(count: u64, xs: &'a [Scalar<'a>]) -> &'a [Scalar<'a>]
    ensures value { result.now ≡ take count xs.now }
{
    if count < xs.len() as u64 {
        &xs[..count as usize]
    } else {
        xs
    }
}

// What comes after so many.
fn after<'a>(count: u64, xs: &'a [Scalar<'a>]) -> &'a [Scalar<'a>]
    ensures value { result.now ≡ drop count xs.now }
{
    if count < xs.len() as u64 {
        &xs[count as usize..]
    } else {
        &[]
    }
}

fn next_copied<'a>(
    c: &Context<'a>,
    t: TypeId,
    next: u64,
    left: &'a [Scalar<'a>],
) -> Result<Option<Next<'a>>, Stop>
    ensures value { (p : CoreProgram) (g : ℕ) (birth : Option ℕ) (s : core.Memory) → p.names ≡ names c.now.table.now → let ts = places c.now.table.now in NextFound p g ts result (control.next_of p g (tree_of ts t) birth (defined.copied next (value_of ts left.now)) s) }
{
    if left.len() == 0 {
        return Ok(None);
    }
    let one = element_size(c, t)?;
    let key = number(c, next)?;
    let following = sum(next, 1)?;
    Ok(Some(Next {
        key,
        value: front(one, left),
        cursor: Cursor::Copied {
            next: following,
            left: after(one, left),
        },
    }))
}

// The element at an index of those that lie from a base on.
fn element_at<'a>(
    c: &Context<'a>,
    t: TypeId,
    index: u64,
    base: u64,
    m: &Memory<'a>,
) -> Result<&'a [Scalar<'a>], NoMemory>
    ensures value { IfOk result (λ v. (p : CoreProgram) (g : ℕ) → p.names ≡ names c.now.table.now → let ts = places c.now.table.now in let one = control.element_size p g (tree_of ts t) in value_of ts v.now ≡ core.read_cells (base + index * one) one (memory_of ts m.now).cells) }
{
    let one = element_size(c, t)?;
    let offset = product(index, one)?;
    let at = sum(base, offset)?;
    let value: &'a [Scalar<'a>] = c
        .arena
        .try_alloc_slice_copy(read_cells(at, one, m.cells.as_slice()))?;
    Ok(value)
}

fn next_element<'a>(
    c: &Context<'a>,
    t: TypeId,
    next: u64,
    count: u64,
    base: u64,
    m: &Memory<'a>,
) -> Result<Option<Next<'a>>, Stop>
    ensures value { (p : CoreProgram) (g : ℕ) (birth : Option ℕ) → p.names ≡ names c.now.table.now → let ts = places c.now.table.now in NextFound p g ts result (control.next_of p g (tree_of ts t) birth (defined.elements next count base) (memory_of ts m.now)) }
{
    if next >= count {
        return Ok(None);
    }
    let key = number(c, next)?;
    let value = element_at(c, t, next, base, m)?;
    Ok(Some(Next {
        key,
        value,
        cursor: Cursor::Elements {
            next: next + 1,
            count,
            base,
        },
    }))
}

// ---- characters

// What comes after so many bytes.
fn bytes_after<'a>(count: u64, bytes: &'a [u8]) -> &'a [u8]
    ensures value { result.now ≡ drop count bytes.now }
{
    if count < bytes.len() as u64 {
        &bytes[count as usize..]
    } else {
        &[]
    }
}

// A character that was read, and what is left.
fn character<'a>(
    c: &Context<'a>,
    offset: u64,
    rune: Rune,
    left: &'a [u8],
) -> Result<Option<Next<'a>>, Stop>
    ensures value { (ts : List Ty) (p : CoreProgram) (g : ℕ) → let r = rune_of rune in NextFound p g ts result (control.next (control.number_value p g offset) (control.number_value p g r.code) (defined.characters (offset + r.width) (drop r.width left.now))) }
{
    let following = sum(offset, rune.width as u64)?;
    let key = number(c, offset)?;
    let value = number(c, rune.code as u64)?;
    Ok(Some(Next {
        key,
        value,
        cursor: Cursor::Characters {
            offset: following,
            left: bytes_after(rune.width as u64, left),
        },
    }))
}

fn next_character<'a>(
    c: &Context<'a>,
    offset: u64,
    left: &'a [u8],
) -> Result<Option<Next<'a>>, Stop>
    ensures value { (ts : List Ty) (p : CoreProgram) (g : ℕ) → NextFound p g ts result (control.next_character p g offset left.now) }
{
    match left {
        [] => Ok(None),
        [first, ..] => character(c, offset, rune_at(*first, &left[1..]), left),
    }
}

// ---- a map's entries

// Where none is chosen, the range is over, unless an entry is left.
fn entries_over<'a>(
    name: Option<u64>,
    produced: &[u64],
    since: u64,
    m: &Memory<'a>,
) -> Result<Option<Next<'a>>, Stop>
    ensures value { (ts : List Ty) (p : CoreProgram) (g : ℕ) → NextFound p g ts result (control.next_entry p g None name produced.now since (memory_of ts m.now)) }
{
    if all_produced(produced, since, entries_of(name, m)) {
        Ok(None)
    } else {
        Err(Stop::NoStep)
    }
}

// An entry of a map, where one was found.
fn entry_next<'a>(
    c: &Context<'a>,
    name: Option<u64>,
    birth: u64,
    produced: &[u64],
    since: u64,
    found: Option<Entry<'a>>,
) -> Result<Option<Next<'a>>, Stop>
    ensures value { (ts : List Ty) (p : CoreProgram) (g : ℕ) → NextFound p g ts result (control.entry_next p g name birth produced.now since (option_map (entry_of ts) found.entry)) }
{
    match found {
        Some(entry) => {
            let births = with_birth(c, birth, produced)?;
            Ok(Some(Next {
                key: entry.key,
                value: entry.value,
                cursor: Cursor::Entries {
                    map: name,
                    produced: births,
                    since,
                },
            }))
        }
        None => Err(Stop::NoStep),
    }
}

fn entry_of_birth<'a>(
    c: &Context<'a>,
    birth: u64,
    name: Option<u64>,
    produced: &[u64],
    since: u64,
    m: &Memory<'a>,
) -> Result<Option<Next<'a>>, Stop>
    ensures value { (ts : List Ty) (p : CoreProgram) (g : ℕ) → NextFound p g ts result (control.next_entry p g (Some birth) name produced.now since (memory_of ts m.now)) }
{
    let found = entry_born(birth, produced, entries_of(name, m));
    entry_next(c, name, birth, produced, since, found)
}

// The order of a map's entries is free: that of the birth comes, or the end where none is chosen.
fn next_entry<'a>(
    c: &Context<'a>,
    birth: Option<u64>,
    name: Option<u64>,
    produced: &[u64],
    since: u64,
    m: &Memory<'a>,
) -> Result<Option<Next<'a>>, Stop>
    ensures value { (ts : List Ty) (p : CoreProgram) (g : ℕ) → NextFound p g ts result (control.next_entry p g birth name produced.now since (memory_of ts m.now)) }
{
    match birth {
        Some(birth) => entry_of_birth(c, birth, name, produced, since, m),
        None => entries_over(name, produced, since, m),
    }
}

/// The next key and value of a range over a value, none where it is over; `t` is the underlying
/// type of the value, and `birth` chooses among a map's entries, whose order is free. Of a program
/// with these types.
pub fn next_of<'a>(
    c: &Context<'a>,
    t: TypeId,
    birth: Option<u64>,
    cursor: Cursor<'a>,
    m: &Memory<'a>,
) -> Result<Option<Next<'a>>, Stop>
    ensures value { (p : CoreProgram) (g : ℕ) → p.names ≡ names c.now.table.now → let ts = places c.now.table.now in NextFound p g ts result (control.next_of p g (tree_of ts t) birth (cursor_of ts cursor.entry) (memory_of ts m.now)) }
{
    match cursor {
        Cursor::Numbers { next, count } => next_number(c, next, count),
        Cursor::Copied { next, left } => next_copied(c, t, next, left),
        Cursor::Elements { next, count, base } => next_element(c, t, next, count, base, m),
        Cursor::Characters { offset, left } => next_character(c, offset, left),
        Cursor::Entries {
            map,
            produced,
            since,
        } => next_entry(c, birth, map, produced, since, m),
    }
}
