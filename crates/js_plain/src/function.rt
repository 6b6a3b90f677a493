//! The function: its parameters, variables and temporaries.

ghost use Rattle.std.specs.Prelude.{◌≡◌, List};
ghost use Rattle.go_type.specs.Tree.{Ty};
ghost use Rattle.go_core.specs.CoreView.{stmt_view, stmts_view};
ghost use Rattle.js_pool.specs.Names.{name_bytes};
ghost use Rattle.js_body.specs.Tells.{Runs};
ghost use Rattle.js_plain.specs.Whole.{is_end, ends, func_bytes, slot_boxed, captured_begun, AddsFunction};

use crate::control::return_values;
use crate::stmt::stmts;
use go_core::program::Func;
use go_core::statement::{CoreStmt, CoreStmtForm, CoreStmts};
use go_core::tree::FuncId;
use js_body::Body;
use js_pool::{Block, Mark, Name, Names};

/// Adds the function of a function that never waits to the script's top.
pub fn add_plain<'p>(b: &mut Body<'p>, id: FuncId) {
    if let Some(f) = b.facts.func(id) {
        b.begin_func(id, true);
        let mark = b.pool.open();
        begin(b, id, f);
        stmts(b, &f.body);
        if !b.results.is_empty() && !ends(&f.body) {
            return_values(b);
        }
        let block = b.pool.close(mark);
        finish(b, id, f, block);
    }
}

// Whether nothing after a statement is come to, as it shows. Go specification (as of Go 1.17),
// "Terminating statements".
#[cycle(ends)]
fn is_end(s: &CoreStmt) -> bool
    ensures { (ts : List Ty) → result ≡ is_end (stmt_view ts s.now) }
{
    match &*s.form {
        CoreStmtForm::Return(_) => true,
        CoreStmtForm::Panic(_) => true,
        CoreStmtForm::Seq(list) => ends(list),
        CoreStmtForm::If {
            condition: _,
            when_true,
            when_false,
        } => ends(when_true) && ends(when_false),
        _ => false,
    }
}

// The same of these statements: the last one shows it.
#[cycle(ends)]
fn ends(list: &CoreStmts) -> bool
    ensures { (ts : List Ty) → result ≡ ends (stmts_view ts list.now) }
{
    match list.items.as_slice() {
        [.., last] => is_end(last),
        [] => false,
    }
}

fn var_name(n: u32) -> Name {
    Name::Numbered(b"$v", n)
}

// Parameters that are boxed get their boxes, and what is captured is at hand.
fn begin<'p>(b: &mut Body<'p>, id: FuncId, f: &'p Func) {
    let params = b.facts.param_count(id);
    let mut i: usize = 0;
    for v in f.vars.items.as_slice() {
        let h = b.home(v.id);
        if i < params && h.boxed {
            box_slot(b, h.slot);
        }
        i = i.saturating_add(1);
    }
    let mut n: u64 = 1;
    for v in f.captured.items.as_slice() {
        let h = b.home(*v);
        begin_captured(b, h.slot, n);
        n = n.saturating_add(1);
    }
}

// What stands in a slot gets a box.
fn box_slot(b: &mut Body<'_>, slot: u32)
    ensures { Runs b.old b.new (slot_boxed slot) }
{
    let held = b.slot(slot);
    let boxed = b.fresh_var(true, held);
    b.set_slot(slot, boxed);
}

// The box of a captured variable, by its place among what the function holds.
fn begin_captured(b: &mut Body<'_>, slot: u32, n: u64)
    ensures { Runs b.old b.new (captured_begun slot n) }
{
    let held = b.pool.name(b"$c");
    let e = b.pool.at(held, n);
    b.begin_slot(slot, e);
}

fn params<'p>(b: &mut Body<'p>, id: FuncId, f: &'p Func) -> Names {
    let mark = b.pool.open_params();
    if b.facts.takes_held(id) {
        b.pool.param(Name::Word(b"$c"));
    }
    let many = b.facts.param_count(id);
    let mut i: usize = 0;
    for v in f.vars.items.as_slice() {
        if i < many {
            let h = b.home(v.id);
            b.pool.param(var_name(h.slot));
        }
        i = i.saturating_add(1);
    }
    b.pool.close_params(mark)
}

// Results that are mentioned begin at zero.
fn begin_results<'p>(b: &mut Body<'p>, id: FuncId, f: &'p Func) {
    let from = b.facts.param_count(id);
    let to = from.saturating_add(b.results.len());
    let mut i: usize = 0;
    for v in f.vars.items.as_slice() {
        if i >= from && i < to {
            b.declare(v.id);
        }
        i = i.saturating_add(1);
    }
}

// `function $fK($v8,..){..}`
fn finish<'p>(b: &mut Body<'p>, id: FuncId, f: &'p Func, block: Block) {
    let names = params(b, id, f);
    let mark = b.pool.open();
    if b.mentions_results {
        begin_results(b, id, f);
    }
    add_function(b, id, names, block, mark);
}

fn func_name(id: FuncId) -> Name
    ensures { name_bytes result ≡ func_bytes id.0 }
{
    Name::Numbered(b"$f", id.0)
}

// The function does what was said since a mark, and then what the block holds.
fn add_function(b: &mut Body<'_>, id: FuncId, params: Names, block: Block, mark: Mark)
    ensures { AddsFunction b.old b.new id.0 params block mark.0 }
{
    b.pool.include(block);
    let body = b.pool.close(mark);
    b.pool.function(func_name(id), params, body);
}
