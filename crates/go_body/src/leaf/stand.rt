//! A statement that isn't empty stands in its list, though it does nothing.
//!
//! Go, "Terminating statements": a list ends in a terminating statement only where the last of its
//! statements that aren't empty is one.

ghost use Rattle.std.specs.Prelude.{◌≡◌, ◌==◌, ◌∷◌, ◌++◌, [], OnOk, IfOk, List, length, map};
ghost use Rattle.go_type.specs.Tree.{Ty};
ghost use Rattle.go_core.specs.CoreTree as core;
ghost use Rattle.go_core.specs.CoreView.{stmt_view};
ghost use Rattle.go_body.specs.Standing.{stood};

use gj_base::NoMemory;
use go_core::statement::{CoreStmt, CoreStmtForm};
use go_operands::nodes::form::statement;
use go_walk::stmt_gone::more::and_stmt;
use go_walk::stmt_nodes::branch::body;
use std::alloc::Global;

// A statement that does nothing.
fn nothing(alloc: Global) -> Result<CoreStmt, NoMemory>
    ensures value { IfOk result (λ s. (ts : List Ty) → stmt_view ts s ≡ core.sequence core.no_stmts) }
{
    let form = CoreStmtForm::Seq(body(Vec::new(alloc)));
    statement(alloc, form)
}

// One that does nothing, at the end of what was done.
fn and_nothing(out: &mut Vec<CoreStmt>) -> Result<(), NoMemory>
    ensures core { OnOk result ((ts : List Ty) → map (stmt_view ts) out.new.items ≡ map (stmt_view ts) out.old.items ++ core.sequence core.no_stmts ∷ []) }
{
    match nothing(*out.allocator()) {
        Ok(whole) => {
            and_stmt(out, whole)?;
            Ok(())
        }
        Err(error) => Err(error),
    }
}

/// Where nothing has come since there were so many, one that does nothing comes.
pub fn stand(out: &mut Vec<CoreStmt>, before: usize) -> Result<(), NoMemory>
    ensures core { OnOk result ((ts : List Ty) → map (stmt_view ts) out.new.items ≡ stood (length out.old.items == before) (map (stmt_view ts) out.old.items)) }
{
    if out.len() == before {
        and_nothing(out)?;
        return Ok(());
    }
    Ok(())
}
