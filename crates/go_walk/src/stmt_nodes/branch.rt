//! Statements with statements in them.

ghost use Rattle.std.specs.Prelude.{◌≡◌, IfOk, List, map, option_map};
ghost use Rattle.go_type.specs.Tree.{Ty};
ghost use Rattle.go_core.specs.CoreTree as core;
ghost use Rattle.go_core.specs.CoreView.{expr_view, bound_of, stmt_view, stmts_view, stmts_of, tests_of, clauses_of};
ghost use Rattle.go_walk.specs.ClauseView.{clause_view, clauses_view};

use gj_base::NoMemory;
use go_core::node::CoreExpr;
use go_core::statement::{
    CoreClause, CoreClauses, CoreStmt, CoreStmtForm, CoreStmts, CoreTest, CoreTests, Label,
};
use go_operands::nodes::form::statement;
use std::alloc::Global;

/// These statements, in order; takes no memory.
pub fn body(items: Vec<CoreStmt>) -> CoreStmts
    ensures value { (ts : List Ty) → stmts_view ts result ≡ stmts_of (map (stmt_view ts) items.items) }
{
    CoreStmts { items }
}

/// `if`, with what is done where the condition holds and where it doesn't.
pub fn choose(
    alloc: Global,
    condition: CoreExpr,
    when_true: CoreStmts,
    when_false: CoreStmts,
) -> Result<CoreStmt, NoMemory>
    ensures value { IfOk result (λ s. (ts : List Ty) → stmt_view ts s ≡ core.if_ (expr_view ts condition) (stmts_view ts when_true) (stmts_view ts when_false)) }
{
    let form = CoreStmtForm::If {
        condition,
        when_true,
        when_false,
    };
    statement(alloc, form)
}

/// `for`, by its condition if it has one, and what is done after each turn.
pub fn turn(
    alloc: Global,
    label: Label,
    condition: Option<CoreExpr>,
    body: CoreStmts,
    post: CoreStmts,
) -> Result<CoreStmt, NoMemory>
    ensures value { IfOk result (λ s. (ts : List Ty) → stmt_view ts s ≡ core.loop label.0 (bound_of (option_map (expr_view ts) condition)) (stmts_view ts body) (stmts_view ts post)) }
{
    let form = CoreStmtForm::Loop {
        label,
        condition,
        body,
        post,
    };
    statement(alloc, form)
}

/// A condition with the number of the clause that it chooses; takes no memory.
pub fn test(condition: CoreExpr, clause: u32) -> CoreTest
    ensures condition { (ts : List Ty) → expr_view ts result.condition ≡ expr_view ts condition }
    ensures clause { result.clause ≡ clause }
{
    CoreTest { condition, clause }
}

/// A clause of a `switch`, from which control goes on to the next one where it falls through; takes no
/// memory.
pub fn clause(body: CoreStmts, falls_through: bool) -> CoreClause
    ensures value { (ts : List Ty) → clause_view ts result ≡ core.clause (stmts_view ts body) falls_through }
{
    CoreClause {
        body,
        falls_through,
    }
}

/// These clauses, by number; takes no memory.
pub fn clauses(items: Vec<CoreClause>) -> CoreClauses
    ensures value { (ts : List Ty) → clauses_view ts result ≡ clauses_of (map (clause_view ts) items.items) }
{
    CoreClauses { items }
}

/// `switch`: tests in order, clauses, and the number of the default one if there is one.
pub fn switch_on(
    alloc: Global,
    label: Label,
    tests: Vec<CoreTest>,
    clauses: CoreClauses,
    default: Option<u32>,
) -> Result<CoreStmt, NoMemory>
    ensures value { IfOk result (λ s. (ts : List Ty) → stmt_view ts s ≡ core.switch_on label.0 (tests_of ts tests.items) (clauses_view ts clauses) default) }
{
    let tests = CoreTests { items: tests };
    let form = CoreStmtForm::SwitchOn {
        label,
        tests,
        clauses,
        default,
    };
    statement(alloc, form)
}
