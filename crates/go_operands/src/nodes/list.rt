//! Lists of operands, calls, and what is printed.

ghost use Rattle.std.specs.Prelude.{◌≡◌, ◌∷◌, ◌++◌, [], IfOk, List};
ghost use Rattle.go_type.specs.Tree.{Ty};
ghost use Rattle.go_type.specs.Levels.{trees_of};
ghost use Rattle.go_core.specs.CoreTree as core;
ghost use Rattle.go_core.specs.CoreView.{expr_view, exprs_view, stmt_view};
ghost use Rattle.go_core.specs.declared.node.CoreExprs.{out-CoreExprs};

use crate::nodes::form::{expression, statement};
use gj_base::NoMemory;
use go_core::node::{Callee, CoreExpr, CoreExprs, CoreForm};
use go_core::statement::{CoreStmt, CoreStmtForm};
use go_core::tree::FuncId;
use go_type::Ids;
use std::alloc::Global;

/// The list of these operands; takes no memory.
pub fn exprs(items: Vec<CoreExpr>) -> CoreExprs
    ensures items { (out-CoreExprs result).items.items ≡ items.items }
{
    CoreExprs { items }
}

/// A call of a function by its number, with results of these types.
pub fn call(
    alloc: Global,
    results: Ids,
    func: FuncId,
    operands: CoreExprs,
) -> Result<CoreExpr, NoMemory>
    ensures value { IfOk result (λ e. (ts : List Ty) → expr_view ts e ≡ core.call (trees_of ts results) (core.function func.0) (exprs_view ts operands)) }
{
    let callee = Callee::Function(func);
    expression(
        alloc,
        CoreForm::Call {
            results,
            callee,
            operands,
        },
    )
}

/// `println` of the operands where it ends the line, else `print`.
pub fn print(alloc: Global, operands: CoreExprs, ends_line: bool) -> Result<CoreStmt, NoMemory>
    ensures value { IfOk result (λ s. (ts : List Ty) → stmt_view ts s ≡ core.print (exprs_view ts operands) ends_line) }
{
    statement(
        alloc,
        CoreStmtForm::Print {
            operands,
            ends_line,
        },
    )
}

/// The operands with one more at the end.
pub fn and_expr(mut items: Vec<CoreExpr>, e: CoreExpr) -> Result<Vec<CoreExpr>, NoMemory>
    ensures value { IfOk result (λ all. all.items ≡ items.items ++ e ∷ []) }
{
    items.push(e)?;
    Ok(items)
}
