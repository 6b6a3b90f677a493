//! Programs whose initialisers, `init` functions and `main` never wait: they begin by calls, without frames.

use gj_base::NoMemory;
use go_core::node::{CoreExpr, MethodName};
use go_core::program::InitStep;
use go_core::tree::FuncId;
use go_mentions::{Mention, in_initialiser};
use js_body::Body;
use js_facts::Facts;
use js_pool::{Block, Name};
use js_values::calls::{Called, call};
use js_values::globals::initialise;
use std::alloc::Global;

/// Whether nothing waits that comes before `main` or is `main`.
pub fn is_direct(alloc: Global, facts: &Facts<'_>, steps: &[InitStep]) -> Result<bool, NoMemory> {
    if facts.is_marked(facts.program.main) || has_marked_error(facts) {
        return Ok(false);
    }
    for step in steps {
        if !step_is_direct(alloc, facts, *step)? {
            return Ok(false);
        }
    }
    Ok(true)
}

// Whether a method `Error` may wait: then a report calls it by a frame.
fn has_marked_error(facts: &Facts<'_>) -> bool {
    for row in facts.program.methods.items.as_slice() {
        if row.name.as_bytes() == b"Error".as_slice() && facts.is_marked(row.func) {
            return true;
        }
    }
    false
}

fn step_is_direct(alloc: Global, facts: &Facts<'_>, step: InitStep) -> Result<bool, NoMemory> {
    match step {
        InitStep::Call(id) => Ok(!facts.is_marked(id)),
        InitStep::Initialise(n) => match facts.program.globals.items.as_slice().get(n as usize) {
            Some(g) => match &g.initialiser {
                Some(e) => initialiser_is_direct(alloc, facts, e),
                None => Ok(true),
            },
            None => Ok(true),
        },
    }
}

fn initialiser_is_direct(alloc: Global, facts: &Facts<'_>, e: &CoreExpr) -> Result<bool, NoMemory> {
    let found = in_initialiser(alloc, facts.table(), e)?;
    for m in found.as_slice() {
        if may_wait(facts, *m) {
            return Ok(false);
        }
    }
    Ok(true)
}

fn may_wait(facts: &Facts<'_>, m: Mention<'_>) -> bool {
    match m {
        Mention::Blocks => true,
        Mention::CallsFunction(id) => facts.is_marked(id),
        Mention::CallsMethod(name) => method_may_wait(facts, name),
        Mention::CallsValue(t) => facts.is_marked_type(t),
        Mention::CallsDynamic(name, package, t) => facts.is_marked_method(t, name, package),
        _ => false,
    }
}

fn method_may_wait(facts: &Facts<'_>, name: &MethodName) -> bool {
    match facts.method_row(facts.row_of(name)) {
        Some(row) => facts.is_marked(row.func),
        None => false,
    }
}

/// Adds the plain function `$init` of what comes before `main`, of `main` itself and of the program's end.
pub fn add_direct_init(b: &mut Body<'_>, steps: &[InitStep]) {
    b.begin(true);
    let globals = b.facts.program.globals.items.as_slice();
    for g in globals {
        b.add_homes(g.vars.items.as_slice());
    }
    let mark = b.pool.open();
    for step in steps {
        match step {
            InitStep::Call(id) => call_plain(b, *id),
            InitStep::Initialise(n) => initialise(b, *n),
        }
    }
    let main = b.facts.program.main;
    call_plain(b, main);
    end_program(b);
    let block = b.pool.close(mark);
    finish(b, block);
}

fn call_plain(b: &mut Body<'_>, id: FuncId) {
    let from = b.depth();
    call(b, Called::Function(id), from, 0);
}

// `$end(0,"");`
fn end_program(b: &mut Body<'_>) {
    let code = b.pool.num(0);
    let told = b.pool.text(b"");
    let call = b.pool.call2(b"$end", code, told);
    b.pool.perform(call);
}

fn finish(b: &mut Body<'_>, block: Block) {
    let params = b.pool.params(&[]);
    b.pool.function(Name::Word(b"$init"), params, block);
}
