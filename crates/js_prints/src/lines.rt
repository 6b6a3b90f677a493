//! The script of a program whose `main` prints texts, each on a line of its own.

ghost use Rattle.std.specs.Prelude.{◌≡◌, IfOk, map};
ghost use Rattle.js_tree.specs.Printable.{IsPrintable};
ghost use Rattle.js_tree.specs.View.{script_view, stmt_view};
ghost use Rattle.js_prints.specs.Emitted.{AllFit, all_writes_of, script_of};
ghost use Rattle.js_prints.specs.Lines.{print_lines};

use crate::output::text_line;
use crate::script::{script_with, write};
use gj_base::{NoMemory, Text};
use js_tree::{JsStmt, Script};
use std::alloc::Global;

/// The script of a `main` that prints these texts, each on a line of its own.
pub fn script_of_lines(alloc: Global, texts: &[Text]) -> Result<Script, NoMemory>
    ensures script { IfOk result (λ s. script_view s ≡ script_of (print_lines texts.now)) }
    ensures printable { IfOk result (λ s. IsPrintable (script_view s)) }
{
    let calls = calls_of_lines(alloc, texts)?;
    script_with(alloc, calls)
}

// The calls that print these texts.
fn calls_of_lines(alloc: Global, texts: &[Text]) -> Result<Vec<JsStmt>, NoMemory>
    ensures value { IfOk result (λ calls. map stmt_view calls.items ≡ all_writes_of (print_lines texts.now)) }
    ensures printable { IfOk result (λ calls. AllFit (map stmt_view calls.items)) }
{
    let mut calls = Vec::new(alloc);
    for text in texts {
        let line = text_line(alloc, text.as_bytes())?;
        calls.push(write(alloc, line)?)?;
    }
    Ok(calls)
}
