//! Terminating statements: after which control doesn't come to the end of a body.
//!
//! Go, "Terminating statements".

ghost use Rattle.std.specs.Prelude.{◌≡◌};
ghost use Rattle.go_type.specs.Table.{places};
ghost use Rattle.go_core.specs.CoreView.{stmt_view, stmts_view};
ghost use Rattle.go_core.specs.Terminating.{is_terminating, ends_terminating, all_terminating, cases_terminating};
ghost use Rattle.go_is_sound.specs.ClauseView.{clauses_view, cases_view};

use crate::breaks::{any_breaks, case_breaks, clause_breaks};
use go_core::statement::{CoreCases, CoreClauses, CoreStmt, CoreStmtForm, CoreStmts};
use go_type::TypeTable;

// Whether control doesn't come to the end of a statement.
#[cycle(ends)]
fn is_terminating(table: &TypeTable, s: &CoreStmt) -> bool
    ensures value { result ≡ is_terminating (stmt_view (places table.now) s.now) }
{
    match &*s.form {
        CoreStmtForm::Seq(list) => ends_terminating(table, list),
        CoreStmtForm::If {
            condition: _,
            when_true,
            when_false,
        } => ends_terminating(table, when_true) && ends_terminating(table, when_false),
        CoreStmtForm::Loop {
            label,
            condition,
            body,
            post: _,
        } => condition.is_none() && !any_breaks(table, *label, body),
        CoreStmtForm::SwitchOn {
            label,
            tests: _,
            clauses,
            default,
        } => default.is_some()
            && all_terminating(table, clauses)
            && !clause_breaks(table, *label, clauses),
        CoreStmtForm::Labeled { label, body } => ends_terminating(table, body)
            && !any_breaks(table, *label, body),
        CoreStmtForm::SelectStep {
            label,
            cases,
            has_default,
            default,
        } => {
            if !*has_default {
                return cases_terminating(table, cases) && !case_breaks(table, *label, cases);
            }
            if !cases_terminating(table, cases) || !ends_terminating(table, default) {
                return false;
            }
            !case_breaks(table, *label, cases) && !any_breaks(table, *label, default)
        }
        CoreStmtForm::Return(_) => true,
        CoreStmtForm::Panic(_) => true,
        _ => false,
    }
}

/// Whether control doesn't come to the end of these: the last statement decides.
#[cycle(ends)]
pub fn ends_terminating(table: &TypeTable, list: &CoreStmts) -> bool
    ensures value { result ≡ ends_terminating (stmts_view (places table.now) list.now) }
{
    match list.items.as_slice() {
        [] => false,
        [.., last] => is_terminating(table, last),
    }
}

// Whether control comes to the end of no clause: each of them ends so, or falls through.
#[cycle(ends)]
fn all_terminating(table: &TypeTable, list: &CoreClauses) -> bool
    ensures value { result ≡ all_terminating (clauses_view (places table.now) list.now) }
{
    for c in &list.items {
        if !c.falls_through && !ends_terminating(table, &c.body) {
            return false;
        }
    }
    true
}

// The same of the cases of a `select`.
#[cycle(ends)]
fn cases_terminating(table: &TypeTable, list: &CoreCases) -> bool
    ensures value { result ≡ cases_terminating (cases_view (places table.now) list.now) }
{
    for c in &list.items {
        if !ends_terminating(table, &c.body) {
            return false;
        }
    }
    true
}
