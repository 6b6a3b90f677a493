//! The labels of a function's body, function literals aside. Go, "Labeled statements".

use crate::frame::{Frame, LabelRow};
use gj_base::{NoMemory, Place};
use go_check_state::{BLANK, Checker, FaultCode, NONE};
use go_syntax::tree::{Block, Name, Stmt, StmtForm};

/// The labels of statements: F82 at a second one.
#[cycle(labels)]
pub fn labels_in(c: &mut Checker, f: &mut Frame, list: &Vec<Stmt>) -> Result<(), NoMemory> {
    for s in list {
        label_of(c, f, s)?;
    }
    Ok(())
}

#[cycle(labels)]
fn in_block(c: &mut Checker, f: &mut Frame, block: &Block) -> Result<(), NoMemory> {
    labels_in(c, f, &block.stmts)
}

fn add(c: &mut Checker, f: &mut Frame, name: &Name) -> Result<(), NoMemory> {
    let id = c.names.intern(name.text.as_bytes())?;
    if f.labels.iter().any(|row| row.name == id) {
        return c.fault_of(FaultCode::Redeclared, name.place, id);
    }
    f.labels.push(LabelRow {
        name: id,
        place: name.place,
        used: id == BLANK,
    })?;
    Ok(())
}

#[cycle(labels)]
fn label_of(c: &mut Checker, f: &mut Frame, s: &Stmt) -> Result<(), NoMemory> {
    match &*s.form {
        StmtForm::Labeled(name, s) => {
            add(c, f, name)?;
            label_of(c, f, s)
        }
        StmtForm::Block(block) => in_block(c, f, block),
        StmtForm::If(_, _, block, other) => {
            in_block(c, f, block)?;
            match other {
                Some(s) => label_of(c, f, s),
                None => Ok(()),
            }
        }
        StmtForm::For(_, _, _, block) => in_block(c, f, block),
        StmtForm::Range(_, _, _, block) => in_block(c, f, block),
        StmtForm::Switch(_, _, clauses) => {
            for clause in clauses {
                labels_in(c, f, &clause.body)?;
            }
            Ok(())
        }
        StmtForm::TypeSwitch(_, _, _, clauses) => {
            for clause in clauses {
                labels_in(c, f, &clause.body)?;
            }
            Ok(())
        }
        StmtForm::Select(comms) => {
            for comm in comms {
                labels_in(c, f, &comm.body)?;
            }
            Ok(())
        }
        _ => Ok(()),
    }
}

/// The place of the last label of statements, or a place where they have none.
pub fn last_label(c: &mut Checker, list: &Vec<Stmt>, before: Place) -> Result<Place, NoMemory> {
    let mut f = Frame::new(c.alloc, NONE);
    labels_in(c, &mut f, list)?;
    match f.labels.last() {
        Some(row) => Ok(row.place),
        None => Ok(before),
    }
}
