//! Labels, and the labels that branches name, in the order of the text. Those of function literals are
//! others.

ghost use Rattle.std.specs.Prelude.{◌≡◌, ◌∷◌, ◌++◌, [], OnOk, IfOk, map, option_map};
ghost use Rattle.go_syntax.specs.Tree as t;
ghost use Rattle.go_syntax.specs.View.{stmt_view, stmts_of, clause_view, comm_view, joined, maybe_stmt};
ghost use Rattle.go_typing.specs.Labels.{declared_label, name_in, labels_in, labels_in_maybe, labels_in_all, labels_in_clauses, labels_in_comms, branches_in, branches_in_maybe, branches_in_all, branches_in_clauses, branches_in_comms};
ghost use Rattle.go_walk.specs.Seen.{names_of, texts};

use crate::labels::blank::is_blank;
use gj_base::{NoMemory, Text};
use go_syntax::tree::{Clause, Comm, Name, Stmt, StmtForm};
use std::alloc::Global;

/// What was found so far.
#[derive(Drop)]
pub struct Found<'a> {
    pub labels: Vec<&'a Name>,
    /// The labels that branches name.
    pub branches: Vec<&'a Text>,
}

impl<'a> Found<'a> {
    /// Nothing; takes no memory.
    pub fn new(alloc: Global) -> Found<'a>
        ensures labels { names_of result.labels.items ≡ [] }
        ensures branches { texts result.branches.items ≡ [] }
    {
        Found {
            labels: Vec::new(alloc),
            branches: Vec::new(alloc),
        }
    }
}

// Go, "Blank identifier": `_` declares nothing.
fn label<'a>(found: &mut Found<'a>, n: &'a Name) -> Result<(), NoMemory>
    ensures labels { OnOk result (names_of found.new.labels.items ≡ names_of found.old.labels.items ++ declared_label n.now) }
    ensures branches { OnOk result (texts found.new.branches.items ≡ texts found.old.branches.items) }
{
    if is_blank(&n.text) {
        return Ok(());
    }
    found.labels.push(n)?;
    Ok(())
}

fn branch<'a>(found: &mut Found<'a>, n: &'a Option<Name>) -> Result<(), NoMemory>
    ensures labels { OnOk result (names_of found.new.labels.items ≡ names_of found.old.labels.items) }
    ensures branches { OnOk result (texts found.new.branches.items ≡ texts found.old.branches.items ++ name_in n.now) }
{
    match n {
        Some(n) => {
            found.branches.push(&n.text)?;
            Ok(())
        }
        None => Ok(()),
    }
}

/// Adds those of a statement.
#[cycle(labels)]
pub fn in_stmt<'a>(found: &mut Found<'a>, s: &'a Stmt) -> Result<(), NoMemory>
    ensures labels { OnOk result (names_of found.new.labels.items ≡ names_of found.old.labels.items ++ labels_in (stmt_view s.now)) }
    ensures branches { OnOk result (texts found.new.branches.items ≡ texts found.old.branches.items ++ branches_in (stmt_view s.now)) }
{
    match &*s.form {
        StmtForm::Break(n) => branch(found, n),
        StmtForm::Continue(n) => branch(found, n),
        StmtForm::Labeled(n, s) => {
            label(found, n)?;
            in_stmt(found, s)
        }
        StmtForm::Block(b) => in_stmts(found, b.stmts.as_slice()),
        StmtForm::If(_, _, b, other) => {
            in_stmts(found, b.stmts.as_slice())?;
            in_maybe(found, other)
        }
        StmtForm::For(_, _, _, b) => in_stmts(found, b.stmts.as_slice()),
        StmtForm::Range(_, _, _, b) => in_stmts(found, b.stmts.as_slice()),
        StmtForm::Switch(_, _, cs) => in_clauses(found, cs.as_slice()),
        StmtForm::TypeSwitch(_, _, _, cs) => in_clauses(found, cs.as_slice()),
        StmtForm::Select(cs) => in_comms(found, cs.as_slice()),
        _ => Ok(()),
    }
}

#[cycle(labels)]
fn in_maybe<'a>(found: &mut Found<'a>, s: &'a Option<Stmt>) -> Result<(), NoMemory>
    ensures labels { OnOk result (names_of found.new.labels.items ≡ names_of found.old.labels.items ++ labels_in_maybe (maybe_stmt (option_map stmt_view s.now))) }
    ensures branches { OnOk result (texts found.new.branches.items ≡ texts found.old.branches.items ++ branches_in_maybe (maybe_stmt (option_map stmt_view s.now))) }
{
    match s {
        Some(s) => in_stmt(found, s),
        None => Ok(()),
    }
}

/// Adds those of statements.
#[cycle(labels)]
pub fn in_stmts<'a>(found: &mut Found<'a>, ss: &'a [Stmt]) -> Result<(), NoMemory>
    ensures labels { OnOk result (names_of found.new.labels.items ≡ names_of found.old.labels.items ++ labels_in_all (stmts_of (map stmt_view ss.now))) }
    ensures branches { OnOk result (texts found.new.branches.items ≡ texts found.old.branches.items ++ branches_in_all (stmts_of (map stmt_view ss.now))) }
{
    for s in ss {
        in_stmt(found, s)?;
    }
    Ok(())
}

#[cycle(labels)]
fn in_clauses<'a>(found: &mut Found<'a>, cs: &'a [Clause]) -> Result<(), NoMemory>
    ensures labels { OnOk result (names_of found.new.labels.items ≡ names_of found.old.labels.items ++ labels_in_clauses (joined (map clause_view cs.now) t.NoClauses)) }
    ensures branches { OnOk result (texts found.new.branches.items ≡ texts found.old.branches.items ++ branches_in_clauses (joined (map clause_view cs.now) t.NoClauses)) }
{
    for c in cs {
        in_stmts(found, c.body.as_slice())?;
    }
    Ok(())
}

#[cycle(labels)]
fn in_comms<'a>(found: &mut Found<'a>, cs: &'a [Comm]) -> Result<(), NoMemory>
    ensures labels { OnOk result (names_of found.new.labels.items ≡ names_of found.old.labels.items ++ labels_in_comms (joined (map comm_view cs.now) t.NoComms)) }
    ensures branches { OnOk result (texts found.new.branches.items ≡ texts found.old.branches.items ++ branches_in_comms (joined (map comm_view cs.now) t.NoComms)) }
{
    for c in cs {
        in_stmts(found, c.body.as_slice())?;
    }
    Ok(())
}
