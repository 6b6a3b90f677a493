//! Machines and the makers of their frames.

use crate::ends::{begin_ending, ending, give_results};
use crate::frames::{begin_frame, end_frame, frame, maker_params};
use crate::stmt::stmts;
use go_core::program::{Func, InitStep};
use go_core::tree::FuncId;
use js_body::Body;
use js_body::frame::{BEGINNING, CASE, ENDING, HEAD};
use js_pool::{Cases, Name};
use js_values::calls::{Called, call};
use js_values::globals::initialise;

/// Adds the machine of a function and the maker of its frames to the script's top.
pub fn add_machine<'p>(b: &mut Body<'p>, id: FuncId) {
    if let Some(f) = b.facts.func(id) {
        b.begin_func(id, false);
        body(b, f);
        let cases = b.close_machine();
        finish(b, Name::Numbered(b"$m", id.0), cases);
        maker(b, id, f);
    }
}

fn body<'p>(b: &mut Body<'p>, f: &'p Func) {
    b.first_mark(ENDING);
    ending(b);
    b.mark(BEGINNING);
    stmts(b, &f.body);
    if b.defers {
        begin_ending(b);
    } else {
        give_results(b);
    }
}

// `function x($f){var $t0=0;var $p=$f[1];for(;;){switch($p){..}}}`
fn finish(b: &mut Body<'_>, x: Name, cases: Cases) {
    let mark = b.pool.open();
    for k in 0..b.temps {
        let none = b.pool.num(0);
        b.pool.declare(Name::Numbered(b"$t", k), none);
    }
    let at = b.slot(CASE);
    b.pool.declare(Name::Word(b"$p"), at);
    let inside = b.pool.open();
    let tag = b.pool.name(b"$p");
    b.pool.switch(tag, cases);
    let turn = b.pool.close(inside);
    b.pool.forever(turn);
    let body = b.pool.close(mark);
    let params = b.pool.params(&[Name::Word(b"$f")]);
    b.pool.function(x, params, body);
}

// `function $aK($u,$c,$0,$1){return [$mK,1,$u,..];}`
fn maker(b: &mut Body<'_>, id: FuncId, f: &Func) {
    let mark = b.pool.open();
    let e = frame(b, id, f);
    b.pool.give(e);
    let body = b.pool.close(mark);
    let params = b.facts.param_count(id);
    let names = maker_params(b, true, 0, params);
    b.pool.function(Name::Numbered(b"$a", id.0), names, body);
}

// ---- what comes before `main`

/// Adds the machine `$init` of what comes before `main`, of `main` itself and of the program's end, and the
/// maker `$first` of its frame.
pub fn add_init(b: &mut Body<'_>, steps: &[InitStep]) {
    b.begin(false);
    let globals = b.facts.program.globals.items.as_slice();
    for g in globals {
        b.add_homes(g.vars.items.as_slice());
    }
    b.first_mark(ENDING);
    ending(b);
    b.mark(BEGINNING);
    for step in steps {
        match step {
            InitStep::Call(id) => call(b, Called::Function(*id), 0, 0),
            InitStep::Initialise(n) => initialise(b, *n),
        }
    }
    let main = b.facts.program.main;
    call(b, Called::Function(main), 0, 0);
    end_program(b);
    let cases = b.close_machine();
    finish(b, Name::Word(b"$init"), cases);
    init_maker(b);
}

// `$end(0,"");return;`
fn end_program(b: &mut Body<'_>) {
    let code = b.pool.num(0);
    let told = b.pool.text(b"");
    let call = b.pool.call2(b"$end", code, told);
    b.pool.perform(call);
    b.pool.leave();
}

fn init_maker(b: &mut Body<'_>) {
    let empty = b.next_slot.saturating_sub(HEAD);
    let mark = b.pool.open();
    let list = begin_frame(b, Name::Word(b"$init"));
    let e = end_frame(b, list, empty);
    b.pool.give(e);
    let body = b.pool.close(mark);
    let params = b.pool.params(&[Name::Word(b"$u")]);
    b.pool.function(Name::Word(b"$first"), params, body);
}
