//! Lists of nodes, of which the next one is opened.
//!
//! The Go Programming Language Specification (as of Go 1.17), "Order of evaluation": own: strictly
//! from left to right.

ghost use Rattle.std.specs.Prelude.{◌≡◌, ◌<◌, List};
ghost use Rattle.go_type.specs.Tree.{Ty};
ghost use Rattle.go_core.specs.Goroutine as task;
ghost use Rattle.go_core.specs.Opened.{all_evaluated, elements_first, pairs_first, targets_first, cases_first, all_opened};
ghost use Rattle.go_state.specs.TasksSeen.{pieces_first, exprs_from, elements_from, pairs_from, targets_from, cases_from, stmts_from};
ghost use Rattle.go_state.specs.Weight.{pieces_weight, exprs_weight, elements_weight, pairs_weight, targets_weight, cases_weight, stmts_weight};

use crate::tasks::task::{ExprTask, Pieces, PlaceTask, Task};
use go_core::node::{CoreElements, CoreExprs, CorePairs};
use go_core::statement::{Communication, CoreCases, CoreStmts, Target, Targets};

/// Expressions.
pub fn open_all<'p>(list: &'p CoreExprs, at: usize) -> Pieces<'p>
    ensures value { (ts : List Ty) (rest : List task.Task) → pieces_first ts result rest ≡ all_evaluated (exprs_from ts list.now at) rest }
    ensures smaller { (ts : List Ty) → pieces_weight ts result < exprs_weight (exprs_from ts list.now at) }
{
    if at >= list.items.len() {
        return Pieces(Task::Nothing, Task::Nothing, Task::Nothing);
    }
    Pieces(
        Task::Expr(ExprTask::Evaluate, &list.items[at]),
        Task::All(list, at + 1),
        Task::Nothing,
    )
}

/// Elements.
pub fn open_elements<'p>(list: &'p CoreElements, at: usize) -> Pieces<'p>
    ensures value { (ts : List Ty) (rest : List task.Task) → pieces_first ts result rest ≡ elements_first (elements_from ts list.now at) rest }
    ensures smaller { (ts : List Ty) → pieces_weight ts result < elements_weight (elements_from ts list.now at) }
{
    if at >= list.items.len() {
        return Pieces(Task::Nothing, Task::Nothing, Task::Nothing);
    }
    Pieces(
        Task::Expr(ExprTask::Evaluate, &list.items[at].value),
        Task::Elements(list, at + 1),
        Task::Nothing,
    )
}

/// Keys and values.
pub fn open_pairs<'p>(list: &'p CorePairs, at: usize) -> Pieces<'p>
    ensures value { (ts : List Ty) (rest : List task.Task) → pieces_first ts result rest ≡ pairs_first (pairs_from ts list.now at) rest }
    ensures smaller { (ts : List Ty) → pieces_weight ts result < pairs_weight (pairs_from ts list.now at) }
{
    if at >= list.items.len() {
        return Pieces(Task::Nothing, Task::Nothing, Task::Nothing);
    }
    let pair = &list.items[at];
    Pieces(
        Task::Expr(ExprTask::Evaluate, &pair.key),
        Task::Expr(ExprTask::Evaluate, &pair.value),
        Task::Pairs(list, at + 1),
    )
}

/// Left sides: their operands.
pub fn open_targets<'p>(list: &'p Targets, at: usize) -> Pieces<'p>
    ensures value { (ts : List Ty) (rest : List task.Task) → pieces_first ts result rest ≡ targets_first (targets_from ts list.now at) rest }
    ensures smaller { (ts : List Ty) → pieces_weight ts result < targets_weight (targets_from ts list.now at) }
{
    if at >= list.items.len() {
        return Pieces(Task::Nothing, Task::Nothing, Task::Nothing);
    }
    let others = Task::Targets(list, at + 1);
    match &list.items[at] {
        Target::Blank => Pieces(others, Task::Nothing, Task::Nothing),
        Target::Place { ty: _, place } => Pieces(
            Task::Place(PlaceTask::Operands, place),
            others,
            Task::Nothing,
        ),
        Target::Entry {
            map_type: _,
            operand,
            key,
        } => Pieces(
            Task::Expr(ExprTask::Evaluate, operand),
            Task::Expr(ExprTask::Evaluate, key),
            others,
        ),
    }
}

/// Clauses of a select: channels and values to be sent.
pub fn open_cases<'p>(list: &'p CoreCases, at: usize) -> Pieces<'p>
    ensures value { (ts : List Ty) (rest : List task.Task) → pieces_first ts result rest ≡ cases_first (cases_from ts list.now at) rest }
    ensures smaller { (ts : List Ty) → pieces_weight ts result < cases_weight (cases_from ts list.now at) }
{
    if at >= list.items.len() {
        return Pieces(Task::Nothing, Task::Nothing, Task::Nothing);
    }
    let others = Task::Cases(list, at + 1);
    match &list.items[at].communication {
        Communication::Send {
            channel: _,
            operand,
            value,
        } => Pieces(
            Task::Expr(ExprTask::Evaluate, operand),
            Task::Expr(ExprTask::Evaluate, value),
            others,
        ),
        Communication::Receive {
            channel: _,
            operand,
            vars: _,
        } => Pieces(
            Task::Expr(ExprTask::Evaluate, operand),
            others,
            Task::Nothing,
        ),
    }
}

/// Statements.
pub fn open_run<'p>(list: &'p CoreStmts, at: usize) -> Pieces<'p>
    ensures value { (ts : List Ty) (rest : List task.Task) → pieces_first ts result rest ≡ all_opened (stmts_from ts list.now at) rest }
    ensures smaller { (ts : List Ty) → pieces_weight ts result < stmts_weight (stmts_from ts list.now at) }
{
    if at >= list.items.len() {
        return Pieces(Task::Nothing, Task::Nothing, Task::Nothing);
    }
    Pieces(Task::One(list, at), Task::Run(list, at + 1), Task::Nothing)
}
