//! Sends, selects and gates: Go specification (as of Go 1.17), "Send statements", "Select statements".

use go_core::node::Var;
use go_core::statement::Communication;
use go_type::types::TypeId;
use js_body::Body;
use js_facts::held::element;
use js_pool::{ExprId, Mark};
use js_values::channels::{came, received, was_sent};

/// A send of the last value to the one before.
pub fn send(b: &mut Body<'_>) {
    let v = b.pop();
    let c = b.pop();
    let f = b.frame();
    let call = b.pool.call3(b"$send", f, c.e, v.e);
    b.suspend_unless(call);
    refuse_closed(b);
}

// A send that waited while its channel was closed panics.
fn refuse_closed(b: &mut Body<'_>) {
    let came = came(b);
    let no = b.pool.truth(false);
    let closed = b.pool.same(came, no);
    b.panic_if(closed, 9);
}

/// Another goroutine may go first.
pub fn yield_turn(b: &mut Body<'_>) {
    let f = b.frame();
    let call = b.pool.call1(b"$yield", f);
    b.suspend(call);
}

/// A wait for the gate that is the last value, to take it or until it is zero.
pub fn gate(b: &mut Body<'_>, word: &'static [u8]) {
    let c = b.pop();
    let f = b.frame();
    let call = b.pool.call2(word, f, c.e);
    b.suspend_unless(call);
}

// ---- select

// The array of a case, whose operands begin here.
fn case_of(b: &mut Body<'_>, c: &Communication, at: usize) -> ExprId {
    let channel = b.value_at(at);
    match c {
        Communication::Send { .. } => {
            let value = b.value_at(at.saturating_add(1));
            let sends = b.pool.truth(true);
            b.pool.array_of(&[channel.e, sends, value.e])
        }
        Communication::Receive { .. } => {
            let sends = b.pool.truth(false);
            let none = b.pool.null();
            b.pool.array_of(&[channel.e, sends, none])
        }
    }
}

/// Adds a case, whose operands begin here, to the open list; where the next one's begin.
pub fn add_case(b: &mut Body<'_>, c: &Communication, at: usize) -> usize {
    let e = case_of(b, c, at);
    b.pool.item(e);
    match c {
        Communication::Send { .. } => at.saturating_add(2),
        Communication::Receive { .. } => at.saturating_add(1),
    }
}

/// Waits for one of the cases of the open list, or takes none at once.
pub fn select(b: &mut Body<'_>, mark: Mark, has_default: bool) {
    let items = b.pool.close_list(mark);
    let list = b.pool.array(items);
    let f = b.frame();
    let other = b.pool.truth(has_default);
    let call = b.pool.call3(b"$select", f, list, other);
    b.drop_to(0);
    b.suspend_unless(call);
}

/// Control goes on at a case of the machine where the case with this number was taken.
pub fn jump_if_taken(b: &mut Body<'_>, number: u32, to: u32) {
    let given = b.given();
    let taken = b.pool.at(given, 0);
    let n = b.pool.num(number as u64);
    let test = b.pool.same(taken, n);
    b.jump_if(test, to);
}

/// What follows a communication that was done.
pub fn taken(b: &mut Body<'_>, c: &Communication) {
    match c {
        Communication::Send { .. } => refuse_closed(b),
        Communication::Receive { channel, vars, .. } => {
            let t = element(b.table(), *channel);
            receive_into(b, t, vars.items.as_slice());
        }
    }
}

fn receive_into(b: &mut Body<'_>, t: TypeId, vars: &[Var]) {
    if let [v, ..] = vars {
        let h = b.home(v.id);
        let value = received(b, t);
        b.bind(h, value);
    }
    if let [_, ok, ..] = vars {
        let h = b.home(ok.id);
        let sent = was_sent(b);
        b.bind(h, sent);
    }
}
