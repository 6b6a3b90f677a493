//! Core programs that are Sound, and next to each a change of it that isn't.
//!
//! A line for each row: whether `is_sound` accepts the program, and whether it accepts the change.
//! The first is to be `true`, the second `false`.
#![tactic(auto)]

mod base;
mod exprs;
mod maker;
mod stmts;
mod whole;

use crate::base::{program_of, types_of};
use crate::exprs::Expr;
use crate::maker::Maker;
use crate::stmts::Stmt;
use crate::whole::{Change, changed};
use gj_base::NoMemory;
use go_core::program::Program;
use go_core::statement::CoreStmt;
use go_is_sound::is_sound;
use std::alloc::Global;
use std::io;
use std::process::ExitCode;

fn main(rt: HostRuntime) -> io::Result<ExitCode> {
    let alloc = rt.alloc();
    for row in Expr::ALL {
        match of_expr(alloc, row) {
            Ok((right, wrong)) => println!(rt; "{row:?}: {right} {wrong}")?,
            Err(_) => println!(rt; "{row:?}: out of memory")?,
        }
    }
    for row in Stmt::ALL {
        match of_stmt(alloc, row) {
            Ok((right, wrong)) => println!(rt; "{row:?}: {right} {wrong}")?,
            Err(_) => println!(rt; "{row:?}: out of memory")?,
        }
    }
    for row in Change::ALL {
        match of_change(alloc, row) {
            Ok((right, wrong)) => println!(rt; "{row:?}: {right} {wrong}")?,
            Err(_) => println!(rt; "{row:?}: out of memory")?,
        }
    }
    Ok(ExitCode::SUCCESS)
}

// Programs that evaluate an expression, and drop its value.
fn of_expr(alloc: Global, row: Expr) -> Result<(bool, bool), NoMemory> {
    Ok((with_expr(alloc, row, true)?, with_expr(alloc, row, false)?))
}

fn with_expr(alloc: Global, row: Expr, right: bool) -> Result<bool, NoMemory> {
    let (table, types) = types_of(alloc)?;
    let make = Maker { alloc, types };
    let e = row.expr(&make, right)?;
    let done = make.drop_values(e, 1)?;
    is_right(alloc, program_of(&make, table, done)?)
}

// Programs that do a statement.
fn of_stmt(alloc: Global, row: Stmt) -> Result<(bool, bool), NoMemory> {
    Ok((with_stmt(alloc, row, true)?, with_stmt(alloc, row, false)?))
}

fn with_stmt(alloc: Global, row: Stmt, right: bool) -> Result<bool, NoMemory> {
    let (table, types) = types_of(alloc)?;
    let make = Maker { alloc, types };
    let s = row.stmt(&make, right)?;
    is_right(alloc, program_of(&make, table, s)?)
}

// A program, and a change of it as a whole.
fn of_change(alloc: Global, row: Change) -> Result<(bool, bool), NoMemory> {
    Ok((with_change(alloc, None)?, with_change(alloc, Some(row))?))
}

fn with_change(alloc: Global, row: Option<Change>) -> Result<bool, NoMemory> {
    let (table, types) = types_of(alloc)?;
    let make = Maker { alloc, types };
    let mut program = program_of(&make, table, small_stmt(&make)?)?;
    if let Some(row) = row {
        changed(&make, &mut program, row)?;
    }
    is_right(alloc, program)
}

fn small_stmt(make: &Maker) -> Result<CoreStmt, NoMemory> {
    let e = make.int(1)?;
    make.drop_values(e, 1)
}

fn is_right(alloc: Global, program: Program) -> Result<bool, NoMemory> {
    is_sound(alloc, &program)
}
