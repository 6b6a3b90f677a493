//! Functions, top-level variables and whole scripts to text: ECMA-262 5.1, 13 and 14.

ghost use Rattle.std.specs.Prelude.{◌≡◌, ◌++◌, [], map, OnOk, IfOk, codes};
ghost use Rattle.js_tree.specs.View.{function_view, item_view, script_view};
ghost use Rattle.js_tree.specs.Printed.{names_text, function_text, item_text, items_text, plain};

use super::preamble;
use super::simple::declare;
use super::stmt::block;
use crate::tree::{JsFunction, JsItem, Script};
use gj_base::{NoMemory, Text};
use std::alloc::Global;

/// Names with commas between them.
fn names(out: &mut Text, list: &[Text]) -> Result<(), NoMemory>
    ensures text { OnOk result (out.new ≡ out.old ++ names_text list.now) }
{
    let mut is_first = true;
    for x in list {
        if !is_first {
            out.push_bytes(b", ")?;
        }
        is_first = false;
        out.push_bytes(x.as_bytes())?;
    }
    Ok(())
}

fn function(alloc: Global, out: &mut Text, f: &JsFunction) -> Result<(), NoMemory>
    ensures text { OnOk result (out.new ≡ out.old ++ function_text (function_view f.now)) }
{
    out.push_bytes(b"function ")?;
    out.push_bytes(f.name.as_bytes())?;
    out.push(b'(')?;
    names(out, &f.params)?;
    out.push(b')')?;
    block(out, &Text::new(alloc), &f.body)
}

fn item(alloc: Global, out: &mut Text, x: &JsItem) -> Result<(), NoMemory>
    ensures text { OnOk result (out.new ≡ out.old ++ item_text (item_view x.now)) }
{
    match x {
        JsItem::Function(f) => function(alloc, out, f)?,
        JsItem::Global(x, e, _) => declare(out, x, e)?,
    }
    out.push(b'\n')
}

fn items(alloc: Global, out: &mut Text, list: &[JsItem]) -> Result<(), NoMemory>
    ensures text { OnOk result (out.new ≡ out.old ++ items_text (map item_view list.now)) }
{
    for x in list {
        item(alloc, out, x)?;
    }
    Ok(())
}

/// The Plain text of a script.
pub fn script(alloc: Global, script: &Script) -> Result<Text, NoMemory>
    ensures text { IfOk result (λ t. t ≡ plain (script_view script.now)) }
{
    let mut out = Text::from_slice(alloc, preamble())?;
    items(alloc, &mut out, &script.items)?;
    out.push_bytes(script.start.as_bytes())?;
    out.push_bytes(b"();\n")?;
    Ok(out)
}
