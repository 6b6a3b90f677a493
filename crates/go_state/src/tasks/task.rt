//! Tasks as they lie in a frame.

use go_core::node::{Callee, CoreElements, CoreExpr, CoreExprs, CorePairs, CorePlace};
use go_core::statement::{CoreCases, CoreClauses, CoreStmts, CoreTests, Label, Targets};

/// The parts of a loop.
#[derive(Clone, Copy)]
pub struct Loop<'p> {
    pub label: Label,
    pub condition: &'p Option<CoreExpr>,
    pub body: &'p CoreStmts,
    pub post: &'p CoreStmts,
}

/// The parts of a switch, after so many tests.
#[derive(Clone, Copy)]
pub struct Switch<'p> {
    pub tests: &'p CoreTests,
    pub from: usize,
    pub clauses: &'p CoreClauses,
    pub default: Option<u32>,
}

/// What of an expression is still to be done.
#[derive(Clone, Copy)]
pub enum ExprTask {
    /// All of it.
    Evaluate,
    /// The low bound, the high bound and the limit of a slice expression.
    Bounds,
    /// What it does once its operands have been evaluated.
    Apply,
}

/// What of a place is still to be done.
#[derive(Clone, Copy)]
pub enum PlaceTask {
    /// All of it.
    Find,
    /// The operands of a left side.
    Operands,
    /// What it does once its operands have been evaluated.
    Apply,
}

/// What of a loop is still to be done.
#[derive(Clone, Copy)]
pub enum LoopTask {
    /// The condition, and then the turn.
    Begin,
    /// The condition has been evaluated.
    Turn,
    /// A turn is done.
    Again,
}

/// What of a switch is still to be done.
#[derive(Clone, Copy)]
pub enum SwitchTask {
    /// The next test.
    Test,
    /// That test has been evaluated, or there is none.
    Choose,
}

/// What a frame has to do next, as far as the program's text says it. A number is a place in a
/// list, from which on nodes are meant.
#[derive(Clone, Copy)]
pub enum Task<'p> {
    Nothing,
    Expr(ExprTask, &'p CoreExpr),
    Place(PlaceTask, &'p CorePlace),
    /// The value that is called, if any.
    Callee(&'p Callee),
    /// The values of expressions.
    All(&'p CoreExprs, usize),
    /// The values of elements.
    Elements(&'p CoreElements, usize),
    /// Keys and values.
    Pairs(&'p CorePairs, usize),
    /// The operands of left sides.
    Targets(&'p Targets, usize),
    /// Channels and values to be sent, of a select.
    Cases(&'p CoreCases, usize),
    /// The one statement at a place.
    One(&'p CoreStmts, usize),
    /// Statements.
    Run(&'p CoreStmts, usize),
    /// What the one statement at a place does once its operands have been evaluated.
    Do(&'p CoreStmts, usize),
    Loop(LoopTask, Loop<'p>),
    Switch(SwitchTask, Switch<'p>),
    /// The body of the clause at a place, and of those that it falls through to.
    Clause(&'p CoreClauses, usize),
    /// Where a `break` leads.
    Leave(Label),
}

/// Three tasks, the first one next.
#[derive(Clone, Copy)]
pub struct Pieces<'p>(pub Task<'p>, pub Task<'p>, pub Task<'p>);
