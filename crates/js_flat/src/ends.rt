//! The end of a frame: Go specification (as of Go 1.17), "Return statements", "Defer statements".

use js_body::Body;
use js_body::frame::{BELOW, CASE, ENDING, GIVEN, MODE};
use js_pool::{ExprId, Span};

/// A return of the values on the stack; of none where the results stay as they are.
pub fn return_values(b: &mut Body<'_>) {
    if b.defers {
        set_results(b);
        return begin_ending(b);
    }
    if b.depth() == 0 {
        return give_results(b);
    }
    let many = b.depth();
    let mark = b.pool.open_list();
    for i in 0..many {
        let o = b.value_at(i);
        b.pool.item(o.e);
    }
    let items = b.pool.close_list(mark);
    b.drop_to(0);
    give_back(b, items, many);
}

// The values on the stack become the results.
fn set_results(b: &mut Body<'_>) {
    for i in 0..b.depth() {
        if let Some(h) = b.result(i) {
            let o = b.value_at(i);
            b.set_var(h, o.e);
        }
    }
    b.drop_to(0);
}

/// The frame runs its deferred calls, and then gives its results.
pub fn begin_ending(b: &mut Body<'_>) {
    let n = b.pool.num(ENDING as u64);
    b.set_slot(CASE, n);
    let returning = b.pool.num(1);
    b.set_slot(MODE, returning);
    b.jump(ENDING);
}

/// The frame below goes on with the results as they stand.
pub fn give_results(b: &mut Body<'_>) {
    let many = b.results.len();
    let mark = b.pool.open_list();
    for i in 0..many {
        if let Some(h) = b.result(i) {
            let e = b.var(h);
            let e = b.own(e, h.ty);
            b.pool.item(e);
        }
    }
    let items = b.pool.close_list(mark);
    give_back(b, items, many);
}

// One result is given itself, several in an array.
fn give_back(b: &mut Body<'_>, items: Span, many: usize) {
    let below = b.slot(BELOW);
    if many > 0 {
        let given = match many {
            1 => only(b, items),
            _ => b.pool.array(items),
        };
        b.pool.store_at(below, GIVEN as u64, given);
    }
    let call = b.pool.call1(b"$call", below);
    b.pool.perform(call);
    b.pool.leave();
}

fn only(b: &mut Body<'_>, items: Span) -> ExprId {
    match items.of(b.pool.lists.as_slice()) {
        [e, ..] => *e,
        [] => ExprId(0),
    }
}

/// What a frame does at its end: where it has deferred calls, or panics, it goes on elsewhere.
pub fn ending(b: &mut Body<'_>) {
    let f = b.frame();
    let call = b.pool.call1(b"$unwind", f);
    if !b.defers {
        b.pool.perform(call);
        return b.pool.leave();
    }
    let mark = b.pool.open();
    b.pool.leave();
    let block = b.pool.close(mark);
    b.pool.when(call, block);
    give_results(b);
}
