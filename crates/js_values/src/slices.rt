//! Slices: Go specification (as of Go 1.17), "Slice expressions", "Length and capacity", "Making slices,
//! maps and channels", "Appending to and copying slices". A slice is an array of the array that holds its
//! elements, the first one's index, the length and the capacity; nil is null.

use crate::places::opened;
use go_core::node::CoreExpr;
use go_type::types::{GoType, TypeId};
use js_body::slices::Parts;
use js_body::{Body, Known, Operand};
use js_facts::Held;
use js_facts::held::{element, level, parts};
use js_pool::{ExprId, Name};

/// The most elements of a slice's array.
const MOST_ELEMENTS: u64 = 67108864;

// ---- parts

/// A part of a string, of a slice, or of the array that a pointer points to: of the last four values the
/// first, with the bounds after it, where null stands for one that is left out.
pub fn slice_of(b: &mut Body<'_>, from: TypeId) {
    let limit = b.pop();
    let high = b.pop();
    let low = b.pop();
    let x = b.pop();
    if let Held::Str = b.held(from) {
        return part_of_text(b, x, low, high);
    }
    let whole = whole_slice(b, from, x);
    let items = [whole, low.e, high.e, limit.e];
    let e = b.pool.call_of(Name::Word(b"$slice"), &items);
    b.push(e);
}

// The slice that is cut: that of all elements, where a pointer to an array is.
fn whole_slice(b: &mut Body<'_>, from: TypeId, x: Operand) -> ExprId {
    match level(b.table(), from) {
        Some(GoType::Pointer(to)) => {
            b.refuse_nil(x);
            let n = parts(b.table(), *to);
            b.slice_over(x.e, n)
        }
        _ => x.e,
    }
}

fn part_of_text(b: &mut Body<'_>, s: Operand, low: Operand, high: Operand) {
    let n = b.pool.length(s.e);
    let high = if high.known == Known::Nil { n } else { high.e };
    let past = b.pool.less(n, high);
    let test = out_of_order(b, low.e, high);
    let test = b.pool.either(test, past);
    b.panic_if(test, 4);
    let e = b.pool.substring(s.e, low.e, high);
    b.push(e);
}

// Whether the first of two numbers is negative or above the other one.
fn out_of_order(b: &mut Body<'_>, low: ExprId, high: ExprId) -> ExprId {
    let none = b.pool.num(0);
    let negative = b.pool.less(low, none);
    let past = b.pool.less(high, low);
    b.pool.either(negative, past)
}

// ---- lengths and capacities

/// The length of the last value, of a type.
pub fn len(b: &mut Body<'_>, from: TypeId) {
    let x = b.pop();
    let e = count_of(b, from, x, 2, 1);
    b.push(e);
}

/// The parts of a slice whose length is asked for, where it is opened.
pub fn opened_of(b: &mut Body<'_>, from: TypeId, e: &CoreExpr) -> Option<Parts> {
    match b.held(from) {
        Held::Slice => opened(b, e),
        _ => None,
    }
}

/// The length of the last value, a slice that is opened.
pub fn opened_len(b: &mut Body<'_>, s: Parts) {
    b.pop();
    let n = b.slot(s.count);
    b.push_known(n, Known::Variable);
}

/// The capacity of the last value, of a type.
pub fn cap(b: &mut Body<'_>, from: TypeId) {
    let x = b.pop();
    let e = count_of(b, from, x, 3, 0);
    b.push(e);
}

// A count that a slice, a map or a channel has at an element.
fn count_of(b: &mut Body<'_>, from: TypeId, x: Operand, of_slice: u64, of_channel: u64) -> ExprId {
    match level(b.table(), from) {
        Some(GoType::Str) | Some(GoType::Untyped(_)) => b.pool.length(x.e),
        Some(GoType::Array(n, _)) => b.pool.num(*n as u64),
        Some(GoType::Pointer(to)) => {
            let n = parts(b.table(), *to);
            b.pool.num(n as u64)
        }
        Some(GoType::Chan(_, _)) => b.or_zero(x, of_channel),
        _ => b.or_zero(x, of_slice),
    }
}

// ---- new slices

/// A slice of a type, with the length and the capacity that are the last two values.
pub fn make_slice(b: &mut Body<'_>, t: TypeId) {
    let c = b.pop();
    let n = b.pop();
    let most = b.pool.num(MOST_ELEMENTS);
    let past = b.pool.greater(c.e, most);
    let test = out_of_order(b, n.e, c.e);
    let test = b.pool.either(test, past);
    b.panic_if(test, 6);
    let of = element(b.table(), t);
    let elements = b.zero_elements(c.e, of);
    let none = b.pool.num(0);
    let e = b.pool.array_of(&[elements, none, n.e, c.e]);
    b.push(e);
}

/// A slice of a type with the elements of another, or with the bytes of a string, after its own.
pub fn append(b: &mut Body<'_>, t: TypeId, from: TypeId) {
    let y = b.pop();
    let x = b.pop();
    let of = element(b.table(), t);
    let more = as_slice(b, from, y);
    let d = b.description(of);
    let zero = b.zero(of);
    let e = b.pool.call4(b"$append", x.e, more, d, zero);
    b.push(e);
}

// A slice, or the bytes of a string.
fn as_slice(b: &mut Body<'_>, from: TypeId, x: Operand) -> ExprId {
    match b.held(from) {
        Held::Str => b.pool.call1(b"$bytes", x.e),
        _ => x.e,
    }
}

/// Copies elements of the last value into the one before, which is a slice of a type; gives how many.
pub fn copy_elems(b: &mut Body<'_>, t: TypeId, from: TypeId) {
    let s = b.pop();
    let at = b.depth().saturating_sub(1);
    b.settle_constant();
    let s = as_slice(b, from, s);
    let s = after(b, s);
    let t_slice = b.value_at(at);
    let least = least(b, t_slice, s);
    let n = after(b, least);
    let none = b.pool.num(0);
    let some = b.pool.greater(n.e, none);
    let mark = b.pool.open();
    let call = copy_part(b, t, t_slice.e, s.e, n.e);
    b.pool.perform(call);
    let block = b.pool.close(mark);
    b.pool.when(some, block);
    b.drop_to(at);
    b.push(n.e);
}

// One more value, which is this.
fn after(b: &mut Body<'_>, e: ExprId) -> Operand {
    b.push(e);
    b.last()
}

// The least of two lengths.
fn least(b: &mut Body<'_>, t: Operand, s: Operand) -> ExprId {
    let x = b.or_zero(t, 2);
    let y = b.or_zero(s, 2);
    let fewer = b.pool.less(x, y);
    b.pool.choice(fewer, x, y)
}

fn copy_part(b: &mut Body<'_>, t: TypeId, to: ExprId, from: ExprId, n: ExprId) -> ExprId {
    let holder = b.pool.at(to, 0);
    let place = b.pool.at(to, 1);
    let other = b.pool.at(from, 0);
    let other_place = b.pool.at(from, 1);
    let tag = b.pool.num(11);
    let of = element(b.table(), t);
    let d = b.description(of);
    let d = b.pool.pair(tag, d);
    let items = [holder, place, other, other_place, n, d];
    b.pool.call_of(Name::Word(b"$copy"), &items)
}
