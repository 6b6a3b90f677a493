//! Fresh variables that wait: one is declared when a statement comes that needs it, or by the statement that
//! sets it.

ghost use Rattle.std.specs.Prelude.{◌≡◌, [], true};
ghost use Rattle.std.specs.List.{slice_get};
ghost use Rattle.js_body.specs.State.{State};
ghost use Rattle.js_body.specs.Tells.{Tells};
ghost use Rattle.js_plain.specs.Fresh.{waits, declared_by, all_declared, RunsVars, RunsVarAt, DeclaresLater, KeepsFresh};

use go_core::node::{PlaceForm, VarId};
use go_core::statement::{CoreStmt, Target};
use js_body::Body;
use js_pool::{Name, Node, Pool, Stmt};
use js_values::simple::simple;

/// A variable that is neither boxed nor in an array of its own is declared when a statement comes that needs it.
pub fn declare_later(b: &mut Body<'_>, fresh: &mut Vec<VarId>, v: VarId)
    ensures { DeclaresLater b.old b.new fresh.old.items fresh.new.items v }
{
    if waits(b, v) {
        keep(b, fresh, v);
    } else {
        b.declare(v);
    }
}

fn waits(b: &Body<'_>, v: VarId) -> bool
    ensures { (s : State) → Tells b.now s → result ≡ waits v s }
{
    let h = b.home(v);
    !h.boxed && !b.is_block(h.ty)
}

fn keep(b: &mut Body<'_>, fresh: &mut Vec<VarId>, v: VarId)
    ensures { KeepsFresh b.old b.new fresh.old.items fresh.new.items v }
{
    match fresh.push(v) {
        Ok(()) => {}
        Err(_) => fail(&mut b.pool),
    }
}

// Memory ran out.
fn fail(p: &mut Pool)
    ensures { p.new.failed ≡ true }
{
    p.failed = true;
}

/// All that wait are declared.
pub fn declare_all(b: &mut Body<'_>, fresh: &mut Vec<VarId>)
    ensures runs { RunsVars b.old b.new fresh.old.items (all_declared fresh.old.items) }
    ensures none { fresh.new.items ≡ [] }
{
    declare_each(b, fresh.as_slice());
    fresh.truncate(0);
}

fn declare_each(b: &mut Body<'_>, fresh: &[VarId])
    ensures { RunsVars b.old b.new fresh.now (all_declared fresh.now) }
{
    for i in 0..fresh.len() {
        let v = var_at(fresh, i);
        declare_at(b, v);
    }
}

fn var_at(fresh: &[VarId], i: usize) -> Option<VarId>
    ensures { result ≡ slice_get fresh.now i }
{
    match fresh.get(i) {
        Some(v) => Some(*v),
        None => None,
    }
}

fn declare_at(b: &mut Body<'_>, v: Option<VarId>)
    ensures { RunsVarAt b.old b.new v (declared_by v) }
{
    match v {
        Some(v) => b.declare(v),
        None => {}
    }
}

/// An assignment after fresh variables: those that it sets, and doesn't read, need no zero before.
pub fn first_store<'p>(b: &mut Body<'p>, s: &'p CoreStmt, targets: &'p [Target], fresh: &[VarId]) {
    let from = b.pool.nodes.len();
    let mark = b.pool.open();
    let begun = b.pool.lines.len();
    simple(b, s);
    let to = b.pool.nodes.len();
    let mut unset = Vec::new(b.pool.alloc);
    for v in fresh {
        if sets(targets, *v) && !is_read(b, *v, from, to) {
            declare_where_set(b, *v, begun);
        } else if unset.push(*v).is_err() {
            b.pool.failed = true;
        }
    }
    let block = b.pool.close(mark);
    declare_all(b, &mut unset);
    b.pool.include(block);
}

// The statement since these that sets a fresh variable declares it.
fn declare_where_set(b: &mut Body<'_>, v: VarId, begun: usize) {
    let slot = b.home(v).slot;
    for i in begun..b.pool.lines.len() {
        if let Some(line) = b.pool.lines.as_mut_slice().get_mut(i) {
            *line = declaring(*line, slot);
        }
    }
}

// A statement that sets the variable of a slot as its declaration.
fn declaring(line: Stmt, slot: u32) -> Stmt {
    if let Stmt::Assign(Name::Numbered(word, n), e) = line
        && n == slot
        && *word == *b"$v".as_slice()
    {
        return Stmt::Declare(Name::Numbered(word, n), e);
    }
    line
}

fn sets(targets: &[Target], v: VarId) -> bool {
    for t in targets {
        if let Target::Place { place, .. } = t
            && let PlaceForm::Local(x) = &*place.form
            && *x == v
        {
            return true;
        }
    }
    false
}

// Whether expressions with these numbers name a variable's slot.
fn is_read(b: &Body<'_>, v: VarId, from: usize, to: usize) -> bool {
    let slot = b.home(v).slot;
    for i in from..to {
        if let Some(Node::Name(Name::Numbered(word, n))) = b.pool.nodes.get(i)
            && *n == slot
            && *word == b"$v".as_slice()
        {
            return true;
        }
    }
    false
}
