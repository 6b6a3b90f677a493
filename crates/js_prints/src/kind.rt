//! Programs that only print.

ghost use Rattle.std.specs.Prelude.{◌≡◌, ◌&&◌, List, map};
ghost use Rattle.go_type.specs.Tree.{Ty};
ghost use Rattle.go_core.specs.CoreView.{expr_view, exprs_of, func_view, program_view, stmt_view, stmts_of};
ghost use Rattle.js_prints.specs.Prints.{all_print, are_texts, has_no_numbers, has_no_types, is_print, is_text, only_prints, printing};

use go_core::node::{Constant, CoreExpr, CoreForm};
use go_core::program::{Func, Program};
use go_core::statement::{CoreStmt, CoreStmtForm};

/// The most bytes that a string of a run can have.
const MOST_BYTES: usize = 268435456;

/// Whether each statement of `main` prints constant strings.
pub fn only_prints(program: &Program) -> bool
    ensures value { result ≡ only_prints (program_view program.now) }
{
    match program.funcs.items.as_slice().get(program.main.0 as usize) {
        Some(main) => printing(main),
        None => false,
    }
}

// Whether a function without results captures nothing, and only prints.
fn printing(f: &Func) -> bool
    ensures value { (ts : List Ty) → result ≡ printing (func_view ts f.now) }
{
    has_no_results(f) && prints_alone(f)
}

fn has_no_results(f: &Func) -> bool
    ensures value { (ts : List Ty) → result ≡ has_no_types (func_view ts f.now).results }
{
    match f.sig.results.as_slice() {
        [] => true,
        [_, ..] => false,
    }
}

fn captures_none(f: &Func) -> bool
    ensures value { (ts : List Ty) → result ≡ has_no_numbers (func_view ts f.now).captured }
{
    match f.captured.items.as_slice() {
        [] => true,
        [_, ..] => false,
    }
}

fn prints_alone(f: &Func) -> bool
    ensures value { (ts : List Ty) → result ≡ (has_no_numbers (func_view ts f.now).captured && all_print (func_view ts f.now).body) }
{
    captures_none(f) && all_print(f.body.items.as_slice())
}

fn all_print(stmts: &[CoreStmt]) -> bool
    ensures value { (ts : List Ty) → result ≡ all_print (stmts_of (map (stmt_view ts) stmts.now)) }
{
    for s in stmts {
        if !is_print(s) {
            return false;
        }
    }
    true
}

fn is_print(s: &CoreStmt) -> bool
    ensures value { (ts : List Ty) → result ≡ is_print (stmt_view ts s.now) }
{
    match &*s.form {
        CoreStmtForm::Print { operands, .. } => are_texts(operands.items.as_slice()),
        _ => false,
    }
}

fn are_texts(es: &[CoreExpr]) -> bool
    ensures value { (ts : List Ty) → result ≡ are_texts (exprs_of (map (expr_view ts) es.now)) }
{
    for e in es {
        if !is_text(e) {
            return false;
        }
    }
    true
}

// Whether an expression is a constant string that a run can hold.
fn is_text(e: &CoreExpr) -> bool
    ensures value { (ts : List Ty) → result ≡ is_text (expr_view ts e.now) }
{
    match &*e.form {
        CoreForm::Const {
            value: Constant::Text(text),
            ..
        } => text.as_bytes().len() <= MOST_BYTES,
        _ => false,
    }
}
