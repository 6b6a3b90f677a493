//! Functions and first values as code, with the marks of what has no call in it: ECMA-262 5.1,
//! 13 and 14.

ghost use Rattle.std.specs.Prelude.{◌≡◌, None, map, IfOk, OnOk};
ghost use Rattle.js_tree.specs.Script.{ScriptTree};
ghost use Rattle.js_tree.specs.Static.{static_fault};
ghost use Rattle.js_tree.specs.View.{expr_view, item_view};
ghost use Rattle.js_code.specs.Names.{names_of};
ghost use Rattle.js_steps.specs.Bodies.{AddsBody, AreNames, IsBody, IsFunctionBody, IsProgram, IsValueBody};

use crate::bodies::body::Body;
use gj_base::NoMemory;
use js_code::code::{Code, function_code, value_code};
use js_code::slots::names::Names;
use js_simple::Marks;
use js_tree::{JsExpr, JsFunction, JsItem};
use std::alloc::Global;

fn body_of<'a>(
    alloc: Global,
    functions: &Names<'a>,
    globals: &Names<'a>,
    f: &'a JsFunction,
) -> Result<Body<'a>, NoMemory>
    ensures value { IfOk result (λ b. (script : ScriptTree) → AreNames script (names_of functions.now.set.keys) (names_of globals.now.set.keys) → IsFunctionBody script b f.entry) }
{
    let made = function_code(alloc, functions, globals, f)?;
    let marks = Marks::of(alloc, &made.code)?;
    Ok(Body {
        function: Some(f),
        params: made.params,
        slots: made.slots,
        code: made.code,
        marks,
        whole: made.body,
    })
}

// The code of an item that is a function.
fn add_body<'a>(
    alloc: Global,
    functions: &Names<'a>,
    globals: &Names<'a>,
    made: &mut Vec<Body<'a>>,
    item: &'a JsItem,
) -> Result<(), NoMemory>
    ensures value { OnOk result ((script : ScriptTree) → AreNames script (names_of functions.now.set.keys) (names_of globals.now.set.keys) → AddsBody script (item_view item.now) made.old.items made.new.items) }
{
    match item {
        JsItem::Function(f) => {
            let body = body_of(alloc, functions, globals, f)?;
            made.push(body)?;
            Ok(())
        }
        JsItem::Global(_, _, _) => Ok(()),
    }
}

/// The code of the functions of a script, in order.
pub fn bodies<'a>(
    alloc: Global,
    functions: &Names<'a>,
    globals: &Names<'a>,
    items: &'a [JsItem],
) -> Result<Vec<Body<'a>>, NoMemory>
    ensures value { IfOk result (λ bs. (script : ScriptTree) → script.items ≡ map item_view items.now → static_fault script ≡ None → AreNames script (names_of functions.now.set.keys) (names_of globals.now.set.keys) → IsProgram script bs.items) }
{
    let mut made = Vec::new(alloc);
    for item in items {
        add_body(alloc, functions, globals, &mut made, item)?;
    }
    Ok(made)
}

/// The code of the first value of a top-level variable.
pub fn value_body<'a>(
    alloc: Global,
    functions: &Names<'a>,
    globals: &Names<'a>,
    e: &'a JsExpr,
) -> Result<Body<'a>, NoMemory>
    ensures value { IfOk result (λ b. (script : ScriptTree) → AreNames script (names_of functions.now.set.keys) (names_of globals.now.set.keys) → IsValueBody script b (expr_view e.now)) }
{
    let made = value_code(alloc, functions, globals, e)?;
    let marks = Marks::of(alloc, &made.code)?;
    Ok(Body {
        function: None,
        params: 0,
        slots: 0,
        code: made.code,
        marks,
        whole: made.e,
    })
}

/// The code outside functions, where no part is.
pub fn no_body<'a>(alloc: Global) -> Result<Body<'a>, NoMemory>
    ensures value { IfOk result (λ b. (script : ScriptTree) → IsBody script b) }
    ensures outside { IfOk result (λ b. b.function ≡ None) }
{
    let code = Code::new(alloc);
    let marks = Marks::of(alloc, &code)?;
    Ok(Body {
        function: None,
        params: 0,
        slots: 0,
        code,
        marks,
        whole: 0,
    })
}
