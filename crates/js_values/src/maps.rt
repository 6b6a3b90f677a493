//! Maps: Go specification (as of Go 1.17), "Map types", "Index expressions", "Deletion of map elements".
//! The prelude's functions on maps take a description of the key's type. An entry has its value at 1.

use go_type::types::TypeId;
use js_body::Body;
use js_facts::held::{element, key as key_type};
use js_pool::ExprId;

fn new_map(b: &mut Body<'_>) -> ExprId {
    b.pool.call0(b"$map")
}

/// A fresh map; the last value is how many entries it is to hold.
pub fn make_map_sized(b: &mut Body<'_>) {
    let n = b.pop();
    let none = b.pool.num(0);
    let negative = b.pool.less(n.e, none);
    b.panic_if(negative, 6);
    make_map(b);
}

/// A fresh map.
pub fn make_map(b: &mut Body<'_>) {
    let e = new_map(b);
    b.push(e);
}

/// Sets an entry of a map of a type.
pub fn set_entry(b: &mut Body<'_>, t: TypeId, m: ExprId, key: ExprId, value: ExprId) {
    let of_key = key_type(b.table(), t);
    let d = b.description(of_key);
    let call = b.pool.call4(b"$mset", m, key, value, d);
    b.pool.perform(call);
}

/// A map of a type with the pairs that stand from here on: they are stored in order, after all have been
/// evaluated.
pub fn build_map(b: &mut Body<'_>, from: usize, t: TypeId) {
    let end = b.depth();
    make_map(b);
    let m = b.last();
    let mut at = from;
    for _ in from..end {
        if at < end {
            let key = b.value_at(at);
            let value = b.value_at(at.saturating_add(1));
            set_entry(b, t, m.e, key.e, value.e);
            at = at.saturating_add(2);
        }
    }
    b.drop_to(from);
    b.push(m.e);
}

/// The value of an entry of a map of a type, or zero; also whether it is there. The map and the key are the
/// last two values.
pub fn map_get(b: &mut Body<'_>, t: TypeId, with_ok: bool) {
    let key = b.pop();
    let m = b.pop();
    let at = b.depth();
    let of_key = key_type(b.table(), t);
    let d = b.description(of_key);
    let found = b.pool.call3(b"$mget", m.e, key.e, d);
    b.push(found);
    let entry = b.last();
    if with_ok {
        let none = b.pool.null();
        let there = b.pool.different(entry.e, none);
        b.push(there);
    }
    let of = element(b.table(), t);
    let nil = b.is_nil(entry);
    let zero = b.zero(of);
    let held = b.pool.at(entry.e, 1);
    let held = b.own(held, of);
    let e = b.pool.choice(nil, zero, held);
    b.set_value(at, e);
}

/// Deletes an entry of a map of a type: the map and the key are the last two values.
pub fn map_delete(b: &mut Body<'_>, t: TypeId) {
    let key = b.pop();
    let m = b.pop();
    let of_key = key_type(b.table(), t);
    let d = b.description(of_key);
    let call = b.pool.call3(b"$mdel", m.e, key.e, d);
    b.pool.perform(call);
}
