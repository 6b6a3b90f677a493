//! Channels and gates in expressions: Go specification (as of Go 1.17), "Receive operator", "Close". What a
//! frame was given is an array of the case that was taken and of what came with it: for a receive null where
//! the channel was closed, for a send whether it wasn't.

use go_type::types::TypeId;
use js_body::Body;
use js_facts::held::element;
use js_pool::ExprId;

/// A fresh channel with a buffer; the last value is its size.
pub fn make_chan(b: &mut Body<'_>) {
    let n = b.pop();
    let e = b.pool.call1(b"$chan", n.e);
    b.push(e);
}

/// What came with the case that was taken.
pub fn came(b: &mut Body<'_>) -> ExprId {
    let given = b.given();
    b.pool.at(given, 1)
}

/// What was received, or the zero of a type.
pub fn received(b: &mut Body<'_>, t: TypeId) -> ExprId {
    let came = came(b);
    let none = b.pool.null();
    let closed = b.pool.same(came, none);
    let zero = b.zero(t);
    let value = b.pool.at(came, 0);
    b.pool.choice(closed, zero, value)
}

/// Whether what was received was sent.
pub fn was_sent(b: &mut Body<'_>) -> ExprId {
    let came = came(b);
    let none = b.pool.null();
    b.pool.different(came, none)
}

/// A value from the last value, which is of a channel type; also whether it was sent.
pub fn receive(b: &mut Body<'_>, channel: TypeId, with_ok: bool) {
    let c = b.pop();
    let f = b.frame();
    let call = b.pool.call2(b"$recv", f, c.e);
    b.suspend_unless(call);
    let of = element(b.table(), channel);
    let value = received(b, of);
    b.push(value);
    if with_ok {
        let sent = was_sent(b);
        b.push(sent);
    }
}

/// What the panicking frame below panics with.
pub fn recover(b: &mut Body<'_>) {
    let f = b.frame();
    let e = b.pool.call1(b"$recover", f);
    b.push(e);
}

// ---- gates

/// Adds the last value to a gate, the one before.
pub fn gate_add(b: &mut Body<'_>) {
    let n = b.pop();
    let c = b.pop();
    let e = b.pool.call2(b"$gadd", c.e, n.e);
    b.push(e);
}

// A fresh gate: its value, who awaits it and who wants to take it.
fn new_gate(b: &mut Body<'_>) -> ExprId {
    let none = b.pool.null();
    let awaits = b.pool.pair(none, none);
    let takes = b.pool.pair(none, none);
    let value = b.pool.num(0);
    let holder = b.pool.array_of(&[value, awaits, takes]);
    b.pool.pair(holder, value)
}

/// The cell of the gate at the last value, a pointer to a hidden pointer; it is made where that is nil.
pub fn gate_make(b: &mut Body<'_>) {
    let p = b.last();
    b.refuse_nil(p);
    let holder = b.pool.at(p.e, 0);
    let place = b.pool.at(p.e, 1);
    let hidden = b.pool.index(holder, place);
    let none = b.pool.null();
    let nil = b.pool.same(hidden, none);
    let mark = b.pool.open();
    let fresh = new_gate(b);
    b.pool.store(holder, place, fresh);
    let block = b.pool.close(mark);
    b.pool.when(nil, block);
    b.pop();
    b.push(hidden);
}
