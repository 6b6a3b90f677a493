//! The script of a program that only prints.

ghost use Rattle.std.specs.Prelude.{◌≡◌, ◌++◌, [], List, map, codes, IfOk, OnOk, IsTrue, true};
ghost use Rattle.std.specs.List.{list_all};
ghost use Rattle.go_type.specs.Tree.{Ty};
ghost use Rattle.go_type.specs.Table.{places};
ghost use Rattle.go_core.specs.CoreView.{program_view, stmts_of};
ghost use Rattle.go_core.specs.CoreView as core;
ghost use Rattle.js_tree.specs.View.{stmt_view, script_view};
ghost use Rattle.js_tree.specs.Printable.{IsPrintable, is_byte, stmt_fits};
ghost use Rattle.js_prints.specs.Faithful.{Faithful};
ghost use Rattle.js_prints.specs.Prints.{only_prints};
ghost use Rattle.js_prints.specs.Emitted.{AllFit, all_writes_of, body_of_main, script_with, write_of, writes_of};

use crate::output::printed;
use gj_base::{NoMemory, Text};
use go_core::program::Program;
use go_core::statement::{CoreStmt, CoreStmtForm};
use go_core::tree::{FuncSet, Order};
use js_tree::{ExprForm, JsExpr, JsExprs, JsFunction, JsItem, JsStmt, JsStmts, Script, StmtForm};
use std::alloc::Global;

/// A script that is faithful to the program: whatever it does, some run of the program does.
///
/// So far a program only prints, and nothing is initialised before `main`; the marks are without
/// effect while programs have no goroutines.
pub fn emit(
    alloc: Global,
    program: &Program,
    order: &Order,
    marks: &FuncSet,
) -> Result<Script, NoMemory>
    requires prints { only_prints (program_view program.now) ≡ true }
    requires order { order.now.items.items ≡ [] }
    ensures script { IfOk result (λ s. Faithful (script_view s) (program_view program.now) []) }
    ensures printable { IfOk result (λ s. IsPrintable (script_view s)) }
{
    let _ = order;
    let _ = marks;
    let calls = calls_of(alloc, body_of_main(program))?;
    script_with(alloc, calls)
}

// The statements of `main`.
fn body_of_main(program: &Program) -> &[CoreStmt]
    ensures value { stmts_of (map (core.stmt_view (places program.now.types)) result.now) ≡ body_of_main (program_view program.now) }
{
    match program.funcs.items.as_slice().get(program.main.0 as usize) {
        Some(main) => main.body.items.as_slice(),
        None => &[],
    }
}

// The calls that statements become.
fn calls_of(alloc: Global, body: &[CoreStmt]) -> Result<Vec<JsStmt>, NoMemory>
    ensures value { IfOk result (λ calls. (ts : List Ty) → map stmt_view calls.items ≡ all_writes_of (stmts_of (map (core.stmt_view ts) body.now))) }
    ensures printable { IfOk result (λ calls. AllFit (map stmt_view calls.items)) }
{
    let mut calls = Vec::new(alloc);
    for stmt in body {
        emit_stmt(alloc, stmt, &mut calls)?;
    }
    Ok(calls)
}

/// The script whose start function makes these calls.
pub fn script_with(alloc: Global, calls: Vec<JsStmt>) -> Result<Script, NoMemory>
    requires { AllFit (map stmt_view calls.items) }
    ensures value { IfOk result (λ s. script_view s ≡ script_with (map stmt_view calls.items)) }
    ensures printable { IfOk result (λ s. IsPrintable (script_view s)) }
{
    let start = JsFunction {
        name: Text::from_slice(alloc, b"$start")?,
        params: Vec::new(alloc),
        body: JsStmts { items: calls },
        at: 0,
    };
    let mut items = Vec::new(alloc);
    items.push(JsItem::Function(start))?;
    Ok(Script {
        items,
        start: Text::from_slice(alloc, b"$start")?,
        start_at: 0,
    })
}

// Adds the call that a print becomes.
fn emit_stmt(alloc: Global, stmt: &CoreStmt, calls: &mut Vec<JsStmt>) -> Result<(), NoMemory>
    ensures value { OnOk result ((ts : List Ty) → map stmt_view calls.new.items ≡ map stmt_view calls.old.items ++ writes_of (core.stmt_view ts stmt.now)) }
    ensures printable { OnOk result (AllFit (map stmt_view calls.old.items) → AllFit (map stmt_view calls.new.items)) }
{
    match &*stmt.form {
        CoreStmtForm::Print {
            operands,
            ends_line,
        } => {
            let bytes = printed(alloc, operands.items.as_slice(), *ends_line)?;
            calls.push(write(alloc, bytes)?)?;
            Ok(())
        }
        _ => Ok(()),
    }
}

/// `$write(bytes);`
pub fn write(alloc: Global, bytes: Text) -> Result<JsStmt, NoMemory>
    requires { IsTrue (list_all is_byte bytes) }
    ensures value { IfOk result (λ s. stmt_view s ≡ write_of bytes) }
    ensures printable { IfOk result (λ s. IsTrue (stmt_fits 1 (stmt_view s))) }
{
    let name = JsExpr {
        form: ExprForm::Name(Text::from_slice(alloc, b"$write")?),
        at: 0,
    };
    let bytes = JsExpr {
        form: ExprForm::Str(bytes),
        at: 0,
    };
    let mut arguments = Vec::new(alloc);
    arguments.push(bytes)?;
    let call = JsExpr {
        form: ExprForm::Call(Box::new(alloc, name)?, JsExprs { items: arguments }),
        at: 0,
    };
    Ok(JsStmt {
        form: StmtForm::Perform(call),
        at: 0,
    })
}
