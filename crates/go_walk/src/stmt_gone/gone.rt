//! What is let go, each list one by one.

use go_core::node::CoreExpr;
use go_core::statement::{CoreClause, CoreStmt, CoreTest, Target};
use go_operands::nodes::gone::gone_expr;

#[derive(Drop)]
struct LostStmt {
    _core: CoreStmt,
}

#[derive(Drop)]
struct LostClause {
    _core: CoreClause,
}

#[derive(Drop)]
struct LostTarget {
    _core: Target,
}

fn lost_stmt(_lost: LostStmt) {}

fn lost_clause(_lost: LostClause) {}

fn lost_target(_lost: LostTarget) {}

/// Lets a statement go.
pub fn gone_stmt(core: CoreStmt) {
    lost_stmt(LostStmt { _core: core });
}

/// Lets statements go.
pub fn gone_stmts(mut items: Vec<CoreStmt>) {
    while let Some(core) = items.pop() {
        gone_stmt(core);
    }
    items.destroy_empty();
}

/// Lets clauses go.
pub fn gone_clauses(mut items: Vec<CoreClause>) {
    while let Some(core) = items.pop() {
        lost_clause(LostClause { _core: core });
    }
    items.destroy_empty();
}

/// Lets tests go.
pub fn gone_tests(mut items: Vec<CoreTest>) {
    while let Some(test) = items.pop() {
        let CoreTest {
            condition,
            clause: _clause,
        } = test;
        gone_expr(condition);
    }
    items.destroy_empty();
}

/// Lets a left side go.
pub fn gone_target(core: Target) {
    lost_target(LostTarget { _core: core });
}

/// Lets left sides go.
pub fn gone_targets(mut items: Vec<Target>) {
    while let Some(core) = items.pop() {
        gone_target(core);
    }
    items.destroy_empty();
}

/// Lets values go.
pub fn gone_values(mut items: Vec<CoreExpr>) {
    while let Some(core) = items.pop() {
        gone_expr(core);
    }
    items.destroy_empty();
}
