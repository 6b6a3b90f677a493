//! Whether a `break` to a label stands in statements.
//!
//! Go, "Terminating statements".

ghost use Rattle.std.specs.Prelude.{◌≡◌};
ghost use Rattle.go_type.specs.Table.{places};
ghost use Rattle.go_core.specs.CoreView.{stmt_view, stmts_view, branch_of};
ghost use Rattle.go_core.specs.Terminating.{is_break, breaks, any_breaks, clause_breaks, case_breaks};
ghost use Rattle.go_is_sound.specs.ClauseView.{clauses_view, cases_view};

use go_core::statement::{
    BranchKind, CoreCases, CoreClauses, CoreStmt, CoreStmtForm, CoreStmts, Label,
};
use go_type::TypeTable;

fn is_break(kind: BranchKind) -> bool
    ensures value { result ≡ is_break (branch_of kind) }
{
    match kind {
        BranchKind::Break => true,
        BranchKind::Continue => false,
    }
}

// Whether a `break` to this label stands in a statement.
#[cycle(breaks)]
fn breaks(table: &TypeTable, label: Label, s: &CoreStmt) -> bool
    ensures value { result ≡ breaks label.0 (stmt_view (places table.now) s.now) }
{
    match &*s.form {
        CoreStmtForm::Seq(list) => any_breaks(table, label, list),
        CoreStmtForm::If {
            condition: _,
            when_true,
            when_false,
        } => any_breaks(table, label, when_true) || any_breaks(table, label, when_false),
        CoreStmtForm::Loop {
            label: _,
            condition: _,
            body,
            post,
        } => any_breaks(table, label, body) || any_breaks(table, label, post),
        CoreStmtForm::SwitchOn {
            label: _,
            tests: _,
            clauses,
            default: _,
        } => clause_breaks(table, label, clauses),
        CoreStmtForm::RangeNext {
            label: _,
            from: _,
            operand: _,
            key: _,
            value: _,
            body,
        } => any_breaks(table, label, body),
        CoreStmtForm::Labeled { label: _, body } => any_breaks(table, label, body),
        CoreStmtForm::Branch { kind, label: to } => is_break(*kind) && to.0 == label.0,
        CoreStmtForm::SelectStep {
            label: _,
            cases,
            has_default: _,
            default,
        } => case_breaks(table, label, cases) || any_breaks(table, label, default),
        _ => false,
    }
}

/// Whether one stands in some of these statements.
#[cycle(breaks)]
pub fn any_breaks(table: &TypeTable, label: Label, list: &CoreStmts) -> bool
    ensures value { result ≡ any_breaks label.0 (stmts_view (places table.now) list.now) }
{
    for s in &list.items {
        if breaks(table, label, s) {
            return true;
        }
    }
    false
}

/// Whether one stands in some of these clauses.
#[cycle(breaks)]
pub fn clause_breaks(table: &TypeTable, label: Label, list: &CoreClauses) -> bool
    ensures value { result ≡ clause_breaks label.0 (clauses_view (places table.now) list.now) }
{
    for c in &list.items {
        if any_breaks(table, label, &c.body) {
            return true;
        }
    }
    false
}

/// Whether one stands in some of these cases.
#[cycle(breaks)]
pub fn case_breaks(table: &TypeTable, label: Label, list: &CoreCases) -> bool
    ensures value { result ≡ case_breaks label.0 (cases_view (places table.now) list.now) }
{
    for c in &list.items {
        if any_breaks(table, label, &c.body) {
            return true;
        }
    }
    false
}
