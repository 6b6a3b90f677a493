//! Control: each place that a branch leads to is a case of the machine. Go specification (as of Go 1.17),
//! "If statements", "For statements", "Switch statements", "Labeled statements".

use go_core::statement::{BranchKind, Label};
use js_body::Body;

/// Control goes on at a fresh case where the last value doesn't hold.
pub fn skip(b: &mut Body<'_>) -> u32 {
    let other = b.fresh(1);
    let c = b.pop();
    b.jump_unless(c.e, other);
    other
}

/// Control goes on at a case where the last value holds.
pub fn choose(b: &mut Body<'_>, n: u32) {
    let c = b.pop();
    b.jump_if(c.e, n);
}

/// Ends the first of two blocks, of which the other begins at a case; the case after both.
pub fn begin_else(b: &mut Body<'_>, other: u32) -> u32 {
    let end = b.fresh(1);
    b.jump(end);
    b.mark(other);
    end
}

/// The cases of a loop: each turn, what follows a turn, and what comes after all.
#[derive(Clone, Copy)]
pub struct Turns {
    pub head: u32,
    pub next: u32,
    pub end: u32,
}

/// Begins a loop, at the test of a turn.
pub fn begin_loop(b: &mut Body<'_>) -> Turns {
    let head = b.fresh(3);
    b.mark(head);
    Turns {
        head,
        next: head.saturating_add(1),
        end: head.saturating_add(2),
    }
}

/// Control leaves a loop where the last value doesn't hold.
pub fn while_true(b: &mut Body<'_>, l: Turns) {
    let c = b.pop();
    b.jump_unless(c.e, l.end);
}

/// Begins the body of a loop.
pub fn begin_turn(b: &mut Body<'_>, label: Label, l: Turns) {
    b.enter_label(label, l.end, l.next);
}

/// Ends the body of a loop: what follows a turn begins here.
pub fn end_turn(b: &mut Body<'_>, l: Turns) {
    b.leave_label();
    b.mark(l.next);
}

/// Ends a loop.
pub fn end_loop(b: &mut Body<'_>, l: Turns) {
    b.jump(l.head);
    b.mark(l.end);
}

/// A branch to a label.
pub fn branch(b: &mut Body<'_>, kind: BranchKind, label: Label) {
    let exits = b.exits_of(label);
    match kind {
        BranchKind::Break => b.jump(exits.after),
        BranchKind::Continue => b.jump(exits.next),
    }
}

/// Begins statements that branches to a label leave; the case after them.
pub fn begin_labeled(b: &mut Body<'_>, label: Label) -> u32 {
    let end = b.fresh(1);
    b.enter_label(label, end, end);
    end
}

/// Ends statements that branches to a label leave.
pub fn end_labeled(b: &mut Body<'_>, end: u32) {
    b.leave_label();
    b.mark(end);
}

/// The cases of clauses: the first one's, and the one after all.
#[derive(Clone, Copy)]
pub struct Clauses {
    pub first: u32,
    pub end: u32,
}

/// Fresh cases for so many clauses.
pub fn begin_clauses(b: &mut Body<'_>, count: usize) -> Clauses {
    let end = b.fresh(1);
    let count = if count < 4294967295 { count as u32 } else { 0 };
    Clauses {
        first: b.fresh(count),
        end,
    }
}

/// No test has chosen: control goes on at the default.
pub fn choose_default(b: &mut Body<'_>, c: Clauses, default: Option<u32>) {
    match default {
        Some(n) => b.jump(c.first.saturating_add(n)),
        None => b.jump(c.end),
    }
}

/// Begins a clause by its number.
pub fn begin_clause(b: &mut Body<'_>, c: Clauses, n: u32, label: Label) {
    b.mark(c.first.saturating_add(n));
    b.enter_label(label, c.end, c.end);
}

/// Ends a clause.
pub fn end_clause(b: &mut Body<'_>, c: Clauses, falls_through: bool) {
    b.leave_label();
    if !falls_through {
        b.jump(c.end);
    }
}
