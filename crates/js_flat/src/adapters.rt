//! Frames of calls of plain functions, after `go` and `defer`: `$nN` makes one for N arguments, and `$oN` is
//! its machine, which calls the function and goes on below. `$nil` is the machine of a frame whose receiver
//! is read through nil.

use crate::frames::{begin_frame, end_frame, operand};
use js_body::Body;
use js_body::frame::{BELOW, CASE, ENDING, HEAD};
use js_pool::Name;

/// Adds the makers and machines of all numbers of arguments that are needed to the script's top.
pub fn add_adapters(b: &mut Body<'_>) {
    b.begin(false);
    for n in 0..b.adapters {
        add_maker(b, n);
        add_call(b, n);
    }
    add_nil(b);
}

// `function $nil($f){if($f[1]===0){$unwind($f);return;}$panic($p2);}`
fn add_nil(b: &mut Body<'_>) {
    let mark = b.pool.open();
    leave_panicking(b);
    b.panic(2);
    let body = b.pool.close(mark);
    let names = b.pool.params(&[Name::Word(b"$f")]);
    b.pool.function(Name::Word(b"$nil"), names, body);
}

// `function $nN($u,$c,$0,..){return [$oN,1,$u,null,0,null,null,null,$c,$0,..];}`
fn add_maker(b: &mut Body<'_>, n: u32) {
    let mark = b.pool.open();
    let list = begin_frame(b, Name::Numbered(b"$o", n));
    let callee = b.pool.name(b"$c");
    b.pool.item(callee);
    for i in 0..n {
        let e = operand(b, i);
        b.pool.item(e);
    }
    let e = end_frame(b, list, 0);
    b.pool.give(e);
    let body = b.pool.close(mark);
    let params = b.pool.open_params();
    b.pool.param(Name::Word(b"$u"));
    b.pool.param(Name::Word(b"$c"));
    for i in 0..n {
        b.pool.param(Name::Numbered(b"$", i));
    }
    let names = b.pool.close_params(params);
    b.pool.function(Name::Numbered(b"$n", n), names, body);
}

// `function $oN($f){if($f[1]===0){$unwind($f);return;}$f[8]($f[9],..);$call($f[2]);}`
fn add_call(b: &mut Body<'_>, n: u32) {
    let mark = b.pool.open();
    leave_panicking(b);
    let callee = b.slot(HEAD);
    let list = b.pool.open_list();
    for i in 0..n {
        let e = b.slot(i.saturating_add(HEAD + 1));
        b.pool.item(e);
    }
    let items = b.pool.close_list(list);
    let e = b.pool.call(callee, items);
    b.pool.perform(e);
    let below = b.slot(BELOW);
    let e = b.pool.call1(b"$call", below);
    b.pool.perform(e);
    let body = b.pool.close(mark);
    let names = b.pool.params(&[Name::Word(b"$f")]);
    b.pool.function(Name::Numbered(b"$o", n), names, body);
}

fn leave_panicking(b: &mut Body<'_>) {
    let case = b.slot(CASE);
    let ending = b.pool.num(ENDING as u64);
    let test = b.pool.same(case, ending);
    let mark = b.pool.open();
    let f = b.frame();
    let call = b.pool.call1(b"$unwind", f);
    b.pool.perform(call);
    b.pool.leave();
    let block = b.pool.close(mark);
    b.pool.when(test, block);
}
