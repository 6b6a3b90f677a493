//! Statements, opened one level.
//!
//! The Go Programming Language Specification (as of Go 1.17), "Statements".

ghost use Rattle.std.specs.Prelude.{◌≡◌, ◌<◌, ◌+◌, List, slice_get};
ghost use Rattle.go_type.specs.Tree.{Ty};
ghost use Rattle.go_core.specs.Goroutine as task;
ghost use Rattle.go_core.specs.Opened.{loop_opened, tests_opened, clause_opened};
ghost use Rattle.go_core.specs.CoreView.{stmts_view};
ghost use Rattle.go_state.specs.TasksSeen.{pieces_first, opened_at, stmts_listed, condition_of, tests_from, clauses_from};
ghost use Rattle.go_state.specs.Weight.{pieces_weight, stmt_weight_at, bound_weight, tests_weight, clauses_weight};

use crate::tasks::task::ExprTask::Evaluate;
use crate::tasks::task::Task::{All, Expr, Leave, Nothing, Run};
use crate::tasks::task::{Loop, LoopTask, Pieces, Switch, SwitchTask, Task};
use go_core::statement::{CoreClauses, CoreStmtForm, CoreStmts};

/// The one statement at a place: its operands, and then what it does itself.
pub fn open_one<'p>(list: &'p CoreStmts, at: usize) -> Pieces<'p>
    ensures value { (ts : List Ty) (rest : List task.Task) → pieces_first ts result rest ≡ opened_at (slice_get (stmts_listed ts list.now) at) rest }
    ensures smaller { (ts : List Ty) → pieces_weight ts result < stmt_weight_at (slice_get (stmts_listed ts list.now) at) }
{
    if at >= list.items.len() {
        return Pieces(Nothing, Nothing, Nothing);
    }
    let own = Task::Do(list, at);
    match &*list.items[at].form {
        CoreStmtForm::Seq(ss) => Pieces(Run(ss, 0), Nothing, Nothing),
        CoreStmtForm::Perform { operand, .. } => Pieces(Expr(Evaluate, operand), own, Nothing),
        CoreStmtForm::Declare(_) => Pieces(own, Nothing, Nothing),
        CoreStmtForm::Store { targets, values } => Pieces(
            Task::Targets(targets, 0),
            All(values, 0),
            own,
        ),
        CoreStmtForm::MapDelete { operand, key, .. } => Pieces(
            Expr(Evaluate, operand),
            Expr(Evaluate, key),
            own,
        ),
        CoreStmtForm::If { condition, .. } => Pieces(Expr(Evaluate, condition), own, Nothing),
        CoreStmtForm::Loop {
            label,
            condition,
            body,
            post,
        } => {
            let parts = Loop {
                label: *label,
                condition,
                body,
                post,
            };
            Pieces(Task::Loop(LoopTask::Begin, parts), Nothing, Nothing)
        }
        CoreStmtForm::SwitchOn {
            label,
            tests,
            clauses,
            default,
        } => {
            let parts = Switch {
                tests,
                from: 0,
                clauses,
                default: *default,
            };
            Pieces(
                Task::Switch(SwitchTask::Test, parts),
                Leave(*label),
                Nothing,
            )
        }
        CoreStmtForm::RangeNext { operand, .. } => Pieces(Expr(Evaluate, operand), own, Nothing),
        CoreStmtForm::Labeled { label, body } => Pieces(Run(body, 0), Leave(*label), Nothing),
        CoreStmtForm::Branch { .. } => Pieces(own, Nothing, Nothing),
        CoreStmtForm::Send { operand, value, .. } => Pieces(
            Expr(Evaluate, operand),
            Expr(Evaluate, value),
            own,
        ),
        CoreStmtForm::Close(e) => Pieces(Expr(Evaluate, e), own, Nothing),
        CoreStmtForm::SelectStep { label, cases, .. } => Pieces(
            Task::Cases(cases, 0),
            own,
            Leave(*label),
        ),
        CoreStmtForm::GateTake(e) => Pieces(Expr(Evaluate, e), own, Nothing),
        CoreStmtForm::GateAwait(e) => Pieces(Expr(Evaluate, e), own, Nothing),
        CoreStmtForm::Yield => Pieces(own, Nothing, Nothing),
        CoreStmtForm::GoCall { callee, operands } => Pieces(
            Task::Callee(callee),
            All(operands, 0),
            own,
        ),
        CoreStmtForm::DeferCall { callee, operands } => Pieces(
            Task::Callee(callee),
            All(operands, 0),
            own,
        ),
        CoreStmtForm::Return(es) => Pieces(All(es, 0), own, Nothing),
        CoreStmtForm::Panic(e) => Pieces(Expr(Evaluate, e), own, Nothing),
        CoreStmtForm::Print { operands, .. } => Pieces(All(operands, 0), own, Nothing),
        CoreStmtForm::Exit(e) => Pieces(Expr(Evaluate, e), own, Nothing),
        CoreStmtForm::Fatal(e) => Pieces(Expr(Evaluate, e), own, Nothing),
    }
}

/// The condition of a loop, if there is one, and then its turn.
pub fn begin_loop<'p>(parts: Loop<'p>) -> Pieces<'p>
    ensures value { (ts : List Ty) (rest : List task.Task) → pieces_first ts result rest ≡ loop_opened parts.entry.label.0 (condition_of ts parts.entry) (stmts_view ts parts.entry.body.now) (stmts_view ts parts.entry.post.now) rest }
    ensures smaller { (ts : List Ty) → pieces_weight ts result < bound_weight (condition_of ts parts.entry) + 1 }
{
    let turn = Task::Loop(LoopTask::Turn, parts);
    match parts.condition {
        Some(e) => Pieces(Expr(Evaluate, e), turn, Nothing),
        None => Pieces(turn, Nothing, Nothing),
    }
}

/// The next test of a switch, if there is one, and then the choice.
pub fn next_test<'p>(parts: Switch<'p>) -> Pieces<'p>
    ensures value { (ts : List Ty) (rest : List task.Task) → pieces_first ts result rest ≡ tests_opened (tests_from ts parts.entry.tests.now parts.entry.from) (clauses_from ts parts.entry.clauses.now 0) parts.entry.default rest }
    ensures smaller { (ts : List Ty) → pieces_weight ts result < tests_weight (tests_from ts parts.entry.tests.now parts.entry.from) }
{
    let choice = Task::Switch(SwitchTask::Choose, parts);
    if parts.from >= parts.tests.items.len() {
        return Pieces(choice, Nothing, Nothing);
    }
    Pieces(
        Expr(Evaluate, &parts.tests.items[parts.from].condition),
        choice,
        Nothing,
    )
}

/// The body of the clause at a place, and of those that it falls through to.
pub fn open_clause<'p>(clauses: &'p CoreClauses, at: usize) -> Pieces<'p>
    ensures value { (ts : List Ty) (rest : List task.Task) → pieces_first ts result rest ≡ clause_opened (clauses_from ts clauses.now at) 0 rest }
    ensures smaller { (ts : List Ty) → pieces_weight ts result < clauses_weight (clauses_from ts clauses.now at) }
{
    if at >= clauses.items.len() {
        return Pieces(Nothing, Nothing, Nothing);
    }
    let clause = &clauses.items[at];
    let body = Run(&clause.body, 0);
    if clause.falls_through {
        return Pieces(body, Task::Clause(clauses, at + 1), Nothing);
    }
    Pieces(body, Nothing, Nothing)
}
