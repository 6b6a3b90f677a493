//! What is made of a script before it runs: its functions and the first values of its top-level
//! variables as code.

ghost use Rattle.std.specs.Prelude.{◌≡◌, Some, None, map, IfOk, OnOk};
ghost use Rattle.js_tree.specs.Script.{ScriptTree};
ghost use Rattle.js_tree.specs.Static.{static_fault};
ghost use Rattle.js_tree.specs.View.{expr_view, item_view};
ghost use Rattle.js_code.specs.Names.{index_in, names_of};
ghost use Rattle.js_steps.specs.Bodies.{AreNames};
ghost use Rattle.js_run.specs.Firsts.{AddsFirst, AreFirsts, IsPrepared};

use gj_base::{NoMemory, Text};
use js_code::slots::names::{Names, functions_in, globals_in};
use js_steps::bodies::{Body, bodies, value_body};
use js_tree::{JsExpr, JsItem};
use std::alloc::Global;

/// The first value of a top-level variable as code, with the slot that it is for.
#[derive(Drop)]
pub struct First<'a> {
    pub slot: u32,
    pub body: Body<'a>,
}

/// A script as code.
#[derive(Drop)]
pub struct Prepared<'a> {
    pub functions: Vec<Body<'a>>,
    /// The first values in order.
    pub firsts: Vec<First<'a>>,
    /// How many top-level variables there are.
    pub globals: usize,
    /// The name that is called in the end.
    pub start: Body<'a>,
}

// The slot of a name.
fn slot_of<'a>(names: &Names<'a>, x: &'a Text) -> Result<u32, NoMemory>
    ensures value { IfOk result (λ slot. index_in (names_of names.now.set.keys) x.now ≡ Some slot) }
{
    match names.slot(x) {
        Some(slot) => {
            if slot >= 4294967296 {
                return Err(NoMemory);
            }
            Ok(slot as u32)
        }
        None => Err(NoMemory),
    }
}

// Adds the first value of a top-level variable.
fn add_first<'a>(
    alloc: Global,
    functions: &Names<'a>,
    globals: &Names<'a>,
    made: &mut Vec<First<'a>>,
    item: &'a JsItem,
) -> Result<(), NoMemory>
    ensures value { OnOk result ((script : ScriptTree) → AreNames script (names_of functions.now.set.keys) (names_of globals.now.set.keys) → AddsFirst script (item_view item.now) made.old.items made.new.items) }
{
    match item {
        JsItem::Function(_) => Ok(()),
        JsItem::Global(x, e, _) => {
            let slot = slot_of(globals, x)?;
            let body = value_body(alloc, functions, globals, e)?;
            made.push(First { slot, body })?;
            Ok(())
        }
    }
}

fn firsts_of<'a>(
    alloc: Global,
    functions: &Names<'a>,
    globals: &Names<'a>,
    items: &'a [JsItem],
) -> Result<Vec<First<'a>>, NoMemory>
    ensures value { IfOk result (λ fs. (script : ScriptTree) → AreNames script (names_of functions.now.set.keys) (names_of globals.now.set.keys) → AreFirsts script (map item_view items.now) fs.items) }
{
    let mut made = Vec::new(alloc);
    for item in items {
        add_first(alloc, functions, globals, &mut made, item)?;
    }
    Ok(made)
}

/// A script as code, with the name that is called in the end.
pub fn prepare<'a>(
    alloc: Global,
    items: &'a [JsItem],
    start: &'a JsExpr,
) -> Result<Prepared<'a>, NoMemory>
    ensures value { IfOk result (λ p. (script : ScriptTree) → script.items ≡ map item_view items.now → static_fault script ≡ None → IsPrepared script p (expr_view start.now)) }
{
    let functions = functions_in(alloc, items)?;
    let globals = globals_in(alloc, items)?;
    let made = bodies(alloc, &functions, &globals, items)?;
    let firsts = firsts_of(alloc, &functions, &globals, items)?;
    let start = value_body(alloc, &functions, &globals, start)?;
    Ok(Prepared {
        functions: made,
        firsts,
        globals: globals.len(),
        start,
    })
}
