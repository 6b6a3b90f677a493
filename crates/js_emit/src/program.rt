//! From a program to its script.

ghost use Rattle.std.specs.Prelude.{List, IfOk, codes};
ghost use Rattle.js_tree.specs.declared.tree.JsItem.{JsItem};
ghost use Rattle.js_emit.specs.Items.{AddsKept, EndsWith, IsLast};

use crate::classes::join_tagged;
use crate::direct::{add_direct_init, is_direct};
use crate::items::add_kept;
use crate::reach::Reach;
use crate::start::{add_start, reach_direct, reach_turns};
use crate::top::{add_dynamic_types, add_globals, add_panics};
use gj_base::{NoMemory, Text};
use go_core::program::{InitStep, InitSteps, Program};
use go_core::{FuncId, FuncSet};
use js_body::Body;
use js_facts::Facts;
use js_flat::{add_adapters, add_init, add_machine, add_row};
use js_plain::add_plain;
use js_pool::{Pool, Unmade};
use js_tree::{JsItem, Script};
use std::alloc::Global;

/// Why there is no script.
#[derive(Clone, Copy, Debug, PartialEq, Eq)]
pub enum EmitRefusal {
    NoMemory,
    /// A mistake of the compiler.
    Internal,
}

impl From<NoMemory> for EmitRefusal {
    fn from(_e: NoMemory) -> EmitRefusal {
        EmitRefusal::NoMemory
    }
}

impl From<Unmade> for EmitRefusal {
    fn from(e: Unmade) -> EmitRefusal {
        match e {
            Unmade::NoMemory => EmitRefusal::NoMemory,
            Unmade::Internal => EmitRefusal::Internal,
        }
    }
}

/// The script of a program with its order of initialisation. The functions of `marks` become machines.
pub fn emit(
    alloc: Global,
    program: &Program,
    order: &InitSteps,
    marks: &FuncSet,
) -> Result<Script, EmitRefusal>
    ensures last { IfOk result (λ s. IsLast s.items.items s.start) }
{
    let mut facts = Facts::new(alloc, program, marks)?;
    join_tagged(alloc, &mut facts)?;
    let mut b = Body::new(Pool::new(alloc), facts);
    let direct = is_direct(alloc, &b.facts, order.items.as_slice())?;
    add_all(&mut b, order.items.as_slice(), direct);
    let mut reach = Reach::new(alloc, &b)?;
    if direct {
        reach_direct(&mut reach, &b)?;
    } else {
        reach_turns(&mut reach, &b)?;
    }
    add_start(&mut b, &reach, direct);
    if b.pool.failed || b.facts.failed {
        return Err(EmitRefusal::NoMemory);
    }
    script_of(alloc, &b, &reach)
}

// All that a script of the program may need.
fn add_all(b: &mut Body<'_>, order: &[InitStep], direct: bool) {
    b.add_descriptions();
    b.add_zeros();
    add_dynamic_types(b);
    add_panics(b);
    add_globals(b);
    add_functions(b);
    add_rows(b);
    if direct {
        add_direct_init(b, order);
    } else {
        add_init(b, order);
    }
    add_adapters(b);
}

fn add_functions(b: &mut Body<'_>) {
    let mut n: u32 = 0;
    for _ in 0..b.facts.program.funcs.items.len() {
        let id = FuncId(n);
        if b.facts.is_marked(id) {
            add_machine(b, id);
        } else {
            add_plain(b, id);
        }
        n = n.saturating_add(1);
    }
}

fn add_rows(b: &mut Body<'_>) {
    let mut n: u32 = 0;
    for _ in 0..b.facts.program.methods.items.len() {
        add_row(b, n);
        n = n.saturating_add(1);
    }
}

// The parts of the library, what is reached, and `$start`, which is the last item.
fn script_of(alloc: Global, b: &Body<'_>, reach: &Reach) -> Result<Script, EmitRefusal>
    ensures kept { IfOk result (λ s. (parts : List JsItem) × AddsKept b.now.pool reach.now.reached.items parts s.items.items) }
    ensures last { EndsWith b.now.pool (codes "$start") → IfOk result (λ s. IsLast s.items.items s.start) }
{
    let mut items: Vec<JsItem> = Vec::new(alloc);
    reach.needs.add_items(&mut items)?;
    add_kept(&mut items, &b.pool, reach)?;
    Ok(Script {
        items,
        start: Text::from_slice(alloc, b"$start")?,
        start_at: 0,
    })
}
