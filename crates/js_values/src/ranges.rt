//! Ranges: Go specification (as of Go 1.17), "For statements with range clause". What a range goes over and
//! how far it has come stand in slots.

use go_core::node::Var;
use go_type::types::{GoType, TypeId};
use js_body::Body;
use js_body::slices::parts_at;
use js_facts::Held;
use js_facts::held::{level, parts};
use js_pool::ExprId;

/// A range: what it goes over, or of a slice its elements and the first one's index; how far it goes, and how far it
/// has come.
#[derive(Clone, Copy)]
pub struct Range {
    pub from: TypeId,
    pub over: u32,
    pub first: u32,
    pub most: u32,
    pub at: u32,
    pub key: Option<Var>,
    pub value: Option<Var>,
}

/// Begins a range over the last value, of a type.
pub fn begin_range(b: &mut Body<'_>, from: TypeId, key: Option<Var>, value: Option<Var>) -> Range {
    let over = b.fresh_slots(4);
    let parts = parts_at(over);
    let r = Range {
        from,
        over,
        first: parts.first,
        most: parts.count,
        at: over.saturating_add(3),
        key,
        value,
    };
    match b.held(from) {
        Held::Slice => {
            let x = b.pop();
            b.open_slice(x.e, parts);
        }
        _ => begin_over(b, r),
    }
    let none = match b.held(from) {
        Held::Map => b.pool.null(),
        _ => b.pool.num(0),
    };
    b.begin_slot(r.at, none);
    r
}

// What isn't a slice is gone over itself.
fn begin_over(b: &mut Body<'_>, r: Range) {
    let x = b.take();
    b.begin_slot(r.over, x);
    match b.held(r.from) {
        Held::Map => {}
        _ => {
            let most = most(b, r);
            b.begin_slot(r.most, most);
        }
    }
}

// How many elements, numbers or bytes there are.
fn most(b: &mut Body<'_>, r: Range) -> ExprId {
    let over = b.slot(r.over);
    match level(b.table(), r.from) {
        Some(GoType::Array(n, _)) => b.pool.num(*n as u64),
        Some(GoType::Pointer(to)) => most_of_pointer(b, r, *to),
        Some(GoType::Str) | Some(GoType::Untyped(_)) => b.pool.length(over),
        _ => over,
    }
}

fn most_of_pointer(b: &mut Body<'_>, r: Range, to: TypeId) -> ExprId {
    let n = parts(b.table(), to);
    if n > 0 {
        let over = b.slot(r.over);
        let none = b.pool.null();
        let nil = b.pool.same(over, none);
        b.panic_if(nil, 2);
    }
    b.pool.num(n as u64)
}

/// Whether there is a next element; of a map the next entry becomes the present one.
pub fn has_next(b: &mut Body<'_>, r: Range) -> ExprId {
    let at = b.slot(r.at);
    match b.held(r.from) {
        Held::Map => {
            let over = b.slot(r.over);
            let entry = b.pool.call2(b"$mnext", over, at);
            b.set_slot(r.at, entry);
            let none = b.pool.null();
            b.pool.different(at, none)
        }
        _ => {
            let most = b.slot(r.most);
            b.pool.less(at, most)
        }
    }
}

/// Takes the next element, which is there: its variables are set, and the range is past it.
pub fn take_next(b: &mut Body<'_>, r: Range) {
    match b.held(r.from) {
        Held::Map => take_entry(b, r),
        Held::Str => take_rune(b, r),
        _ => take_counted(b, r),
    }
}

fn set_range_var(b: &mut Body<'_>, v: Option<Var>, value: ExprId) {
    if let Some(v) = v {
        let h = b.home(v.id);
        b.set_var(h, value);
    }
}

fn take_counted(b: &mut Body<'_>, r: Range) {
    let at = b.slot(r.at);
    set_range_var(b, r.key, at);
    if r.value.is_some() {
        let e = element_of(b, r, at);
        set_range_var(b, r.value, e);
    }
    let one = b.pool.num(1);
    let next = b.pool.plus(at, one);
    b.set_slot(r.at, next);
}

fn element_of(b: &mut Body<'_>, r: Range, at: ExprId) -> ExprId {
    let over = b.slot(r.over);
    match b.held(r.from) {
        Held::Slice => {
            let first = b.slot(r.first);
            let place = b.pool.plus(first, at);
            b.pool.index(over, place)
        }
        _ => b.pool.index(over, at),
    }
}

fn take_rune(b: &mut Body<'_>, r: Range) {
    let at = b.slot(r.at);
    let over = b.slot(r.over);
    let rune = b.pool.call2(b"$rune", over, at);
    let t = b.scratch(rune);
    set_range_var(b, r.key, at);
    let c = b.pool.at(t, 0);
    set_range_var(b, r.value, c);
    let width = b.pool.at(t, 1);
    let next = b.pool.plus(at, width);
    b.set_slot(r.at, next);
}

fn take_entry(b: &mut Body<'_>, r: Range) {
    let at = b.slot(r.at);
    let k = b.pool.at(at, 0);
    set_range_var(b, r.key, k);
    let v = b.pool.at(at, 1);
    set_range_var(b, r.value, v);
}
