//! Composite literals, `new`, and fresh variables in expressions: Go specification (as of Go 1.17),
//! "Composite literals", "Allocation".

use go_core::node::{CoreElement, Var, VarId};
use go_type::types::TypeId;
use js_body::Body;
use js_facts::Held;
use js_facts::held::{element, field_type, parts};
use js_pool::ExprId;

/// So many elements are built as one array.
const ELEMENTS: u32 = 64;

// How many elements the array of a literal has.
fn part_count(b: &Body<'_>, t: TypeId, count: u32) -> u32 {
    match b.held(t) {
        Held::Slice => count,
        _ => parts(b.table(), t),
    }
}

/// Whether a struct, an array or a slice of so many elements is built as one array.
pub fn is_small(b: &Body<'_>, t: TypeId, count: u32) -> bool {
    part_count(b, t, count) <= ELEMENTS
}

/// Builds a struct, an array or a slice of so many elements as one array: the elements that are given stand
/// from here on, and all others are zero.
pub fn build_small(b: &mut Body<'_>, from: usize, t: TypeId, count: u32, elements: &[CoreElement]) {
    let mark = b.pool.open_list();
    for i in 0..part_count(b, t, count) {
        let e = element_at(b, from, t, i, elements);
        b.pool.item(e);
    }
    let items = b.pool.close_list(mark);
    let e = b.pool.array(items);
    b.drop_to(from);
    b.push(e);
}

// The element with this number: where several are given, the last one.
fn element_at(
    b: &mut Body<'_>,
    from: usize,
    t: TypeId,
    i: u32,
    elements: &[CoreElement],
) -> ExprId {
    let mut at = from;
    let mut found = None;
    for el in elements {
        if el.index == i {
            found = Some(at);
        }
        at = at.saturating_add(1);
    }
    match found {
        Some(at) => b.value_at(at).e,
        None => zero_part(b, t, i),
    }
}

fn zero_part(b: &mut Body<'_>, t: TypeId, i: u32) -> ExprId {
    let of = match b.held(t) {
        Held::Struct(_) => field_type(b.table(), t, i),
        _ => element(b.table(), t),
    };
    b.zero(of)
}

/// Begins a struct, an array or a slice of so many elements: its zero.
pub fn begin_build(b: &mut Body<'_>, t: TypeId, count: u32) {
    let e = match b.held(t) {
        Held::Slice => {
            let of = element(b.table(), t);
            let n = b.pool.num(count as u64);
            b.zero_elements(n, of)
        }
        _ => b.zero(t),
    };
    b.push(e);
}

/// Sets an element of what is built to the last value.
pub fn set_element(b: &mut Body<'_>, index: u32) {
    let value = b.pop();
    let block = b.last();
    b.pool.store_at(block.e, index as u64, value.e);
}

/// Ends what is built.
pub fn end_build(b: &mut Body<'_>, t: TypeId, count: u32) {
    match b.held(t) {
        Held::Slice => {
            let block = b.pop();
            let e = b.slice_over(block.e, count);
            b.push(e);
        }
        _ => {}
    }
}

/// The pointer to a fresh zero.
pub fn new_value(b: &mut Body<'_>, t: TypeId) {
    let zero = b.zero(t);
    let e = b.pointer_to(zero, t);
    b.push(e);
}

/// Fresh variables with the values from here on.
pub fn let_in(b: &mut Body<'_>, from: usize, vars: &[Var]) {
    if let [only] = vars {
        let value = b.take();
        return let_one(b, only.id, value);
    }
    let mut n = from;
    for v in vars {
        let value = b.value_at(n);
        let_one(b, v.id, value.e);
        n = n.saturating_add(1);
    }
    b.drop_to(from);
}

fn let_one(b: &mut Body<'_>, v: VarId, value: ExprId) {
    b.keep_closed(v);
    let h = b.home(v);
    b.bind(h, value);
}
