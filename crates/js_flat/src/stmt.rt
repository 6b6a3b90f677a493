//! Statements of a machine.

use crate::communication::{add_case, gate, jump_if_taken, select, send, taken, yield_turn};
use crate::control::{
    Clauses, begin_clause, begin_clauses, begin_else, begin_labeled, begin_loop, begin_turn,
    branch, choose, choose_default, end_clause, end_labeled, end_loop, end_turn, skip, while_true,
};
use crate::ends::return_values;
use go_core::statement::{
    Communication, CoreCases, CoreClauses, CoreStmt, CoreStmtForm, CoreStmts, CoreTest, Label,
};
use js_body::Body;
use js_values::calls::defer_call;
use js_values::expr::{expr, exprs};
use js_values::ranges::{begin_range, has_next, take_next};
use js_values::simple::{callee_and_operands, simple};

/// Statements, first to last.
#[cycle(stmt)]
pub fn stmts<'p>(b: &mut Body<'p>, list: &'p CoreStmts) {
    for s in &list.items {
        stmt(b, s);
    }
}

/// A statement, on an empty stack.
#[cycle(stmt)]
pub fn stmt<'p>(b: &mut Body<'p>, s: &'p CoreStmt) {
    if simple(b, s) {
        return;
    }
    match &*s.form {
        CoreStmtForm::Seq(list) => stmts(b, list),
        CoreStmtForm::If {
            condition,
            when_true,
            when_false,
        } => {
            expr(b, condition);
            let other = skip(b);
            stmts(b, when_true);
            if when_false.items.is_empty() {
                b.mark(other);
                return;
            }
            let end = begin_else(b, other);
            stmts(b, when_false);
            b.mark(end);
        }
        CoreStmtForm::Loop {
            label,
            condition,
            body,
            post,
        } => {
            let l = begin_loop(b);
            if let Some(c) = condition {
                expr(b, c);
                while_true(b, l);
            }
            begin_turn(b, *label, l);
            stmts(b, body);
            end_turn(b, l);
            stmts(b, post);
            end_loop(b, l);
        }
        CoreStmtForm::SwitchOn {
            label,
            tests,
            clauses,
            default,
        } => {
            let c = begin_clauses(b, clauses.items.len());
            choices(b, tests.items.as_slice(), c);
            choose_default(b, c, *default);
            chosen(b, clauses, *label, c);
            b.mark(c.end);
        }
        CoreStmtForm::RangeNext {
            label,
            from,
            operand,
            key,
            value,
            body,
        } => {
            expr(b, operand);
            let r = begin_range(b, *from, *key, *value);
            let l = begin_loop(b);
            let test = has_next(b, r);
            b.jump_unless(test, l.end);
            take_next(b, r);
            begin_turn(b, *label, l);
            stmts(b, body);
            end_turn(b, l);
            end_loop(b, l);
        }
        CoreStmtForm::Labeled { label, body } => {
            let end = begin_labeled(b, *label);
            stmts(b, body);
            end_labeled(b, end);
        }
        CoreStmtForm::SelectStep {
            label,
            cases,
            has_default,
            default,
        } => {
            communications(b, cases, *has_default);
            let c = begin_clauses(b, cases.items.len());
            jumps(b, cases.items.len(), c);
            b.enter_label(*label, c.end, c.end);
            stmts(b, default);
            end_clause(b, c, false);
            selected(b, cases, *label, c);
            b.mark(c.end);
        }
        _ => other(b, s),
    }
}

// The clauses of a switch.
#[cycle(stmt)]
fn chosen<'p>(b: &mut Body<'p>, clauses: &'p CoreClauses, label: Label, c: Clauses) {
    let mut n: u32 = 0;
    for clause in &clauses.items {
        begin_clause(b, c, n, label);
        stmts(b, &clause.body);
        end_clause(b, c, clause.falls_through);
        n = n.saturating_add(1);
    }
}

// The clauses of a select.
#[cycle(stmt)]
fn selected<'p>(b: &mut Body<'p>, cases: &'p CoreCases, label: Label, c: Clauses) {
    let mut n: u32 = 0;
    for case in &cases.items {
        begin_clause(b, c, n, label);
        taken(b, &case.communication);
        stmts(b, &case.body);
        end_clause(b, c, false);
        n = n.saturating_add(1);
    }
}

// ---- what holds no statements

// Each test chooses its clause.
fn choices<'p>(b: &mut Body<'p>, tests: &'p [CoreTest], c: Clauses) {
    for t in tests {
        expr(b, &t.condition);
        choose(b, c.first.saturating_add(t.clause));
    }
}

// The operands of all cases of a select, and the wait.
fn communications<'p>(b: &mut Body<'p>, cases: &'p CoreCases, has_default: bool) {
    for case in &cases.items {
        match &case.communication {
            Communication::Send { operand, value, .. } => {
                expr(b, operand);
                expr(b, value);
            }
            Communication::Receive { operand, .. } => expr(b, operand),
        }
    }
    let mark = b.pool.open_list();
    let mut at: usize = 0;
    for case in &cases.items {
        at = add_case(b, &case.communication, at);
    }
    select(b, mark, has_default);
}

fn jumps(b: &mut Body<'_>, many: usize, c: Clauses) {
    let mut n: u32 = 0;
    for _ in 0..many {
        jump_if_taken(b, n, c.first.saturating_add(n));
        n = n.saturating_add(1);
    }
}

// Statements that wait or branch.
fn other<'p>(b: &mut Body<'p>, s: &'p CoreStmt) {
    match &*s.form {
        CoreStmtForm::Branch { kind, label } => branch(b, *kind, *label),
        CoreStmtForm::Send { operand, value, .. } => {
            expr(b, operand);
            expr(b, value);
            send(b);
        }
        CoreStmtForm::GateTake(e) => {
            expr(b, e);
            gate(b, b"$take");
        }
        CoreStmtForm::GateAwait(e) => {
            expr(b, e);
            gate(b, b"$await");
        }
        CoreStmtForm::Yield => yield_turn(b),
        CoreStmtForm::DeferCall { callee, operands } => {
            let c = callee_and_operands(b, callee, operands);
            defer_call(b, c, 0);
        }
        CoreStmtForm::Return(values) => {
            exprs(b, &values.items);
            return_values(b);
        }
        _ => {}
    }
}
