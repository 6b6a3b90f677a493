//! `$start`, with which a script begins.

ghost use Rattle.std.specs.Prelude.{codes};
ghost use Rattle.js_pool.specs.Stands.{Later};
ghost use Rattle.js_pool.specs.declared.pool.Pool.{Pool};
ghost use Rattle.js_emit.specs.Items.{EndsWith};

use crate::reach::Reach;
use crate::top::{fill_method, fill_predeclared, name_number, predeclared};
use gj_base::NoMemory;
use go_type::types::TypeId;
use js_body::Body;
use js_pool::{Block, ExprId, Name};

/// What a program needs that begins by turns of frames.
pub fn reach_turns(reach: &mut Reach, b: &Body<'_>) -> Result<(), NoMemory> {
    reach.need_word(&b.pool, b"$first")?;
    reach.need_word(&b.pool, b"$now")?;
    reach.need_word(&b.pool, b"$rest")?;
    reach.need_word(&b.pool, b"$turn")?;
    reach.follow(b)
}

/// What a program needs that begins by calls: of a report only where something panics.
pub fn reach_direct(reach: &mut Reach, b: &Body<'_>) -> Result<(), NoMemory> {
    reach.need_word(&b.pool, b"$init")?;
    reach.follow(b)?;
    if reach.needs.has(b"$panic") {
        reach.need_word(&b.pool, b"$thrown")?;
        reach.need_word(&b.pool, b"$report")?;
        return reach.follow(b);
    }
    Ok(())
}

/// Adds `$start`: methods are noted among those of their types, and the program begins.
pub fn add_start(b: &mut Body<'_>, reach: &Reach, direct: bool)
    ensures { (end : Pool) → Later b.new.pool end → EndsWith b.new.pool (codes "$start") }
{
    let mark = b.pool.open();
    fill_types(b, reach);
    fill_methods(b, reach);
    if direct {
        begin_directly(b, reach);
    } else {
        begin_turns(b);
    }
    let body = b.pool.close(mark);
    let params = b.pool.params(&[]);
    b.pool.function(Name::Word(b"$start"), params, body);
}

// `$now=$first($rest);$turn();`
fn begin_turns(b: &mut Body<'_>) {
    let rest = b.pool.name(b"$rest");
    let first = b.pool.call1(b"$first", rest);
    b.pool.assign(Name::Word(b"$now"), first);
    let turn = b.pool.call0(b"$turn");
    b.pool.perform(turn);
}

// `try{$init();}catch($catch){..}`, where something panics.
fn begin_directly(b: &mut Body<'_>, reach: &Reach) {
    let init = b.pool.call0(b"$init");
    if !reach.needs.has(b"$panic") {
        return b.pool.perform(init);
    }
    let mark = b.pool.open();
    b.pool.perform(init);
    let body = b.pool.close(mark);
    let mark = b.pool.open();
    throw_what_is_foreign(b);
    let caught = b.pool.name(b"$catch");
    let report = report_of(b, 1, caught);
    if reach.needs.errors {
        report_within(b, report);
    } else {
        b.pool.perform(report);
    }
    let handler = b.pool.close(mark);
    b.pool.attempt(body, handler);
}

// `if($catch!==$thrown){throw $catch;}`
fn throw_what_is_foreign(b: &mut Body<'_>) {
    let caught = b.pool.name(b"$catch");
    let thrown = b.pool.name(b"$thrown");
    let foreign = b.pool.different(caught, thrown);
    let mark = b.pool.open();
    b.pool.throw(caught);
    let block = b.pool.close(mark);
    b.pool.when(foreign, block);
}

// `$report([null,case,null,null,0,value])`
fn report_of(b: &mut Body<'_>, case: u64, value: ExprId) -> ExprId {
    let none = b.pool.null();
    let case = b.pool.num(case);
    let mode = b.pool.num(0);
    let frame = b.pool.array_of(&[none, case, none, none, mode, value]);
    b.pool.call1(b"$report", frame)
}

// The method `Error` that a report calls may panic: then it is told so.
fn report_within(b: &mut Body<'_>, report: ExprId) {
    let mark = b.pool.open();
    b.pool.perform(report);
    let body = b.pool.close(mark);
    let handler = panic_in_error(b);
    b.pool.attempt(body, handler);
}

fn panic_in_error(b: &mut Body<'_>) -> Block {
    let mark = b.pool.open();
    throw_what_is_foreign(b);
    let none = b.pool.null();
    let report = report_of(b, 0, none);
    b.pool.perform(report);
    b.pool.close(mark)
}

fn fill_types(b: &mut Body<'_>, reach: &Reach) {
    for t in 0..b.table().len() {
        let t = TypeId(t);
        if reach.has(b"$y", name_number(t.0))
            && let Some(plain) = predeclared(b, t)
        {
            fill_predeclared(b, t, plain);
        }
    }
}

fn fill_methods(b: &mut Body<'_>, reach: &Reach) {
    let rows = b.facts.program.methods.items.as_slice();
    let mut n: u32 = 0;
    for row in rows {
        if reach.has(b"$r", n) && reach.has(b"$y", name_number(row.ty.0)) {
            fill_method(b, n, row);
        }
        n = n.saturating_add(1);
    }
}
