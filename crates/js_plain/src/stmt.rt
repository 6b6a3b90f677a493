//! Statements of a plain function.

ghost use Rattle.std.specs.Prelude.{◌≡◌, List};
ghost use Rattle.go_type.specs.Tree.{Ty};
ghost use Rattle.go_core.specs.CoreView.{stmt_view, stmts_view};
ghost use Rattle.js_plain.specs.Whole.{is_if, is_one_if};

use crate::control::{
    Clauses, Turns, begin_choice, begin_clause, begin_if, begin_labeled, begin_loop, begin_turn,
    branch, choose, end_arm, end_choice, end_clause, end_clauses, end_if, end_labeled, end_loop,
    end_turn, leave_unless, leave_where, return_values,
};
use crate::fresh::{declare_all, declare_later, first_store};
use crate::sets::{note_sets, note_var};
use go_core::node::{CoreExpr, VarId};
use go_core::statement::{CoreClauses, CoreStmt, CoreStmtForm, CoreStmts, CoreTest, Label};
use js_body::Body;
use js_pool::ExprId;
use js_values::expr::{expr, exprs};
use js_values::ranges::{Range, begin_range, has_next, take_next};
use js_values::simple::simple;

/// Statements, first to last.
#[cycle(stmt)]
pub fn stmts<'p>(b: &mut Body<'p>, list: &'p CoreStmts) {
    let mut fresh: Vec<VarId> = Vec::new(b.pool.alloc);
    for s in &list.items {
        match &*s.form {
            CoreStmtForm::Declare(var) => declare_later(b, &mut fresh, var.id),
            CoreStmtForm::Store { targets, .. } => {
                first_store(b, s, targets.items.as_slice(), fresh.as_slice());
                fresh.truncate(0);
            }
            _ => {
                declare_all(b, &mut fresh);
                stmt(b, s, None);
            }
        }
    }
    declare_all(b, &mut fresh);
}

/// A statement, on an empty stack. An `if` of a chain of `if` and `else if` leaves the block around the chain
/// after its arm, so that chains don't nest.
#[cycle(stmt)]
pub fn stmt<'p>(b: &mut Body<'p>, s: &'p CoreStmt, around: Option<u32>) {
    if simple(b, s) {
        return;
    }
    match &*s.form {
        CoreStmtForm::Seq(list) => stmts(b, list),
        CoreStmtForm::If {
            condition,
            when_true,
            when_false,
        } => {
            let c = begin_if(b, around, is_one_if(when_false));
            expr(b, condition);
            let test = b.take();
            let mark = b.pool.open();
            stmts(b, when_true);
            let arm = end_arm(b, c, test, mark);
            let mark = b.pool.open();
            if is_one_if(when_false) {
                for other in &when_false.items {
                    stmt(b, other, c.end);
                }
            } else {
                stmts(b, when_false);
            }
            end_if(b, c, test, arm, mark);
        }
        CoreStmtForm::Loop {
            label,
            condition,
            body,
            post,
        } => {
            let l = begin_loop(b, !post.items.is_empty());
            note_sets(b, body);
            note_sets(b, post);
            test_turn(b, condition, l);
            let mark = begin_turn(b, *label, l);
            stmts(b, body);
            end_turn(b, l, mark);
            stmts(b, post);
            end_loop(b, l);
        }
        CoreStmtForm::SwitchOn {
            label,
            tests,
            clauses,
            default,
        } => {
            let c = begin_choice(b, clauses.items.len());
            choices(b, tests.items.as_slice(), c);
            let tag = end_choice(b, c, *default);
            chosen(b, clauses, *label, c, tag);
        }
        CoreStmtForm::RangeNext {
            label,
            from,
            operand,
            key,
            value,
            body,
        } => {
            expr(b, operand);
            let r = begin_range(b, *from, *key, *value);
            range_turns(b, r, *label, body);
        }
        CoreStmtForm::Labeled { label, body } => labeled(b, *label, body),
        _ => other(b, s),
    }
}

// The turns of a range.
#[cycle(stmt)]
fn range_turns<'p>(b: &mut Body<'p>, r: Range, label: Label, body: &'p CoreStmts) {
    let l = begin_loop(b, false);
    note_var(b, r.key);
    note_var(b, r.value);
    note_sets(b, body);
    let test = has_next(b, r);
    let test = b.pool.not(test);
    leave_where(b, test, l.end);
    take_next(b, r);
    let mark = begin_turn(b, label, l);
    stmts(b, body);
    end_turn(b, l, mark);
    end_loop(b, l);
}

// The clauses of a switch.
#[cycle(stmt)]
fn chosen<'p>(b: &mut Body<'p>, clauses: &'p CoreClauses, label: Label, c: Clauses, tag: ExprId) {
    let cases = b.pool.open_cases();
    let mut n: u32 = 0;
    for clause in &clauses.items {
        let mark = begin_clause(b, c, label);
        stmts(b, &clause.body);
        end_clause(b, c, n, clause.falls_through, mark);
        n = n.saturating_add(1);
    }
    end_clauses(b, c, tag, cases);
}

// A statement that `break` can leave.
#[cycle(stmt)]
fn labeled<'p>(b: &mut Body<'p>, label: Label, body: &'p CoreStmts) {
    let l = begin_labeled(b, label);
    stmts(b, body);
    end_labeled(b, l);
}

// ---- what holds no statements

fn is_if(s: &CoreStmt) -> bool
    ensures { (ts : List Ty) → result ≡ is_if (stmt_view ts s.now) }
{
    match &*s.form {
        CoreStmtForm::If {
            condition: _,
            when_true: _,
            when_false: _,
        } => true,
        _ => false,
    }
}

fn is_one_if(list: &CoreStmts) -> bool
    ensures { (ts : List Ty) → result ≡ is_one_if (stmts_view ts list.now) }
{
    match list.items.as_slice() {
        [only] => is_if(only),
        _ => false,
    }
}

// Statements that leave others.
fn other<'p>(b: &mut Body<'p>, s: &'p CoreStmt) {
    match &*s.form {
        CoreStmtForm::Branch { kind, label } => branch(b, *kind, *label),
        CoreStmtForm::Return(values) => {
            exprs(b, &values.items);
            return_values(b);
        }
        _ => {}
    }
}

// A loop is left where its condition doesn't hold.
fn test_turn<'p>(b: &mut Body<'p>, condition: &'p Option<CoreExpr>, l: Turns) {
    if let Some(c) = condition {
        expr(b, c);
        leave_unless(b, l.end);
    }
}

// Each test chooses its clause.
fn choices<'p>(b: &mut Body<'p>, tests: &'p [CoreTest], c: Clauses) {
    for t in tests {
        expr(b, &t.condition);
        choose(b, c, t.clause);
    }
}
