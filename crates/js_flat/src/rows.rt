//! Methods by their rows: `$rJ` for the row J. It takes what is held, whose second element is the receiver,
//! as it is in an interface value and in a method value, after the frame below where it makes a frame. Go
//! specification (as of Go 1.17), "Method sets", "Method values".

use crate::frames::{begin_frame, end_frame, maker_params, operand};
use go_core::program::{Func, MethodRow};
use go_core::tree::FuncId;
use go_type::types::{GoType, TypeId};
use js_body::Body;
use js_facts::held::level;
use js_pool::{ExprId, Name};

/// Adds the function of a method's row to the script's top.
pub fn add_row(b: &mut Body<'_>, number: u32) {
    if let Some(row) = b.facts.method_row(number)
        && let Some(f) = b.facts.func(row.func)
    {
        let marked = b.facts.is_marked(row.func);
        b.begin_func(row.func, !marked);
        let mark = b.pool.open();
        if marked {
            return_frame(b, row, f);
        } else {
            return_call(b, row, f);
        }
        let body = b.pool.close(mark);
        let params = b.facts.param_count(row.func);
        let names = maker_params(b, marked, 1, params);
        b.pool.function(Name::Numbered(b"$r", number), names, body);
    }
}

fn return_frame(b: &mut Body<'_>, row: &MethodRow, f: &Func) {
    let to = receiver_type(row, f);
    if is_read(b, row.ty, to) {
        return_nil_frame(b);
    }
    let receiver = receiver(b, row.ty, to);
    let e = made_frame(b, row.func, receiver);
    b.pool.give(e);
}

// The frame that the function's maker gives: only there it is known how many slots the machine has.
fn made_frame(b: &mut Body<'_>, id: FuncId, receiver: ExprId) -> ExprId {
    let maker = b.pool.name_of(b"$a", id.0);
    let mark = b.pool.open_list();
    let below = b.pool.name(b"$u");
    b.pool.item(below);
    let none = b.pool.null();
    b.pool.item(none);
    add_operands(b, id, receiver);
    let items = b.pool.close_list(mark);
    b.pool.call(maker, items)
}

// Where the receiver is read through nil, the new frame does no more than to panic.
fn return_nil_frame(b: &mut Body<'_>) {
    let test = is_nil_receiver(b);
    let mark = b.pool.open();
    let list = begin_frame(b, Name::Word(b"$nil"));
    let e = end_frame(b, list, 0);
    b.pool.give(e);
    let block = b.pool.close(mark);
    b.pool.when(test, block);
}

fn return_call(b: &mut Body<'_>, row: &MethodRow, f: &Func) {
    let to = receiver_type(row, f);
    if is_read(b, row.ty, to) {
        let test = is_nil_receiver(b);
        b.panic_if(test, 2);
    }
    let receiver = receiver(b, row.ty, to);
    let e = plain_call(b, row.func, receiver);
    if f.sig.results.as_slice().is_empty() {
        b.pool.perform(e);
    } else {
        b.pool.give(e);
    }
}

fn plain_call(b: &mut Body<'_>, id: FuncId, receiver: ExprId) -> ExprId {
    let callee = b.pool.name_of(b"$f", id.0);
    let mark = b.pool.open_list();
    if b.facts.takes_held(id) {
        let none = b.pool.null();
        b.pool.item(none);
    }
    add_operands(b, id, receiver);
    let items = b.pool.close_list(mark);
    b.pool.call(callee, items)
}

fn add_operands(b: &mut Body<'_>, id: FuncId, receiver: ExprId) {
    b.pool.item(receiver);
    for i in 1..b.facts.param_count(id) {
        let e = operand(b, if i < 4294967295 { i as u32 } else { 0 });
        b.pool.item(e);
    }
}

// ---- receivers

fn receiver_type(row: &MethodRow, f: &Func) -> TypeId {
    match f.vars.items.as_slice() {
        [v, ..] => v.ty,
        [] => row.ty,
    }
}

fn is_pointer_to(b: &Body<'_>, t: TypeId, to: TypeId) -> bool {
    match level(b.table(), t) {
        Some(GoType::Pointer(of)) => of.0 == to.0,
        _ => false,
    }
}

fn receiver_held(b: &mut Body<'_>) -> ExprId {
    let held = b.pool.name(b"$c");
    b.pool.at(held, 1)
}

fn is_nil_receiver(b: &mut Body<'_>) -> ExprId {
    let x = receiver_held(b);
    let none = b.pool.null();
    b.pool.same(x, none)
}

// Whether a receiver is read through the pointer that a row has.
fn is_read(b: &Body<'_>, t: TypeId, to: TypeId) -> bool {
    t.0 != to.0 && is_pointer_to(b, t, to)
}

// The receiver of a method's function, from the one that its row has.
fn receiver(b: &mut Body<'_>, t: TypeId, to: TypeId) -> ExprId {
    let x = receiver_held(b);
    if t.0 == to.0 {
        return b.own(x, to);
    }
    if is_pointer_to(b, t, to) {
        return pointed(b, x, to);
    }
    let copy = b.own(x, t);
    b.pointer_to(copy, t)
}

// The value that a pointer points to.
fn pointed(b: &mut Body<'_>, x: ExprId, to: TypeId) -> ExprId {
    if b.is_block(to) {
        return b.own(x, to);
    }
    let holder = b.pool.at(x, 0);
    let place = b.pool.at(x, 1);
    b.pool.index(holder, place)
}
