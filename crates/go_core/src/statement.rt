//! The core tree of statements.
//!
//! The Go Programming Language Specification (as of Go 1.17), "Statements". A statement too is a box
//! with the form.

use crate::node::{Callee, CoreExpr, CoreExprs, CorePlace, Var, Vars};
use go_type::types::TypeId;

/// A left side.
#[derive(Drop)]
pub enum Target {
    Blank,
    Place {
        ty: TypeId,
        place: CorePlace,
    },
    Entry {
        map_type: TypeId,
        operand: CoreExpr,
        key: CoreExpr,
    },
}

/// Left sides, in order.
#[derive(Drop)]
pub struct Targets {
    pub items: Vec<Target>,
}

/// A label of a function, by its number.
#[derive(Clone, Copy, Debug, PartialEq, Eq)]
pub struct Label(pub u32);

/// Whether a branch leaves a statement, or goes on with the next turn of a loop.
#[derive(Clone, Copy, Debug, PartialEq, Eq)]
pub enum BranchKind {
    Break,
    Continue,
}

/// A communication of a `select`.
#[derive(Drop)]
pub enum Communication {
    Send {
        channel: TypeId,
        operand: CoreExpr,
        value: CoreExpr,
    },
    /// What was received, and whether it was sent, go to fresh variables, as many as there are.
    Receive {
        channel: TypeId,
        operand: CoreExpr,
        vars: Vars,
    },
}

/// A statement.
#[cycle(statement)]
#[derive(Drop)]
pub struct CoreStmt {
    pub form: Box<CoreStmtForm>,
}

/// The form of a statement.
#[cycle(statement)]
#[derive(Drop)]
pub enum CoreStmtForm {
    Seq(CoreStmts),
    /// An expression whose values, so many, are dropped.
    Perform {
        operand: CoreExpr,
        values: u32,
    },
    Declare(Var),
    /// Operands of the left, then the right sides, then one assignment after another.
    Store {
        targets: Targets,
        values: CoreExprs,
    },
    MapDelete {
        map_type: TypeId,
        operand: CoreExpr,
        key: CoreExpr,
    },
    If {
        condition: CoreExpr,
        when_true: CoreStmts,
        when_false: CoreStmts,
    },
    Loop {
        label: Label,
        condition: Option<CoreExpr>,
        body: CoreStmts,
        post: CoreStmts,
    },
    /// Tests in order; the first that holds chooses a clause, else the default does.
    SwitchOn {
        label: Label,
        tests: CoreTests,
        clauses: CoreClauses,
        default: Option<u32>,
    },
    /// Over an array, the array of a pointer, a slice, a string, a map, or so many numbers.
    RangeNext {
        label: Label,
        from: TypeId,
        operand: CoreExpr,
        key: Option<Var>,
        value: Option<Var>,
        body: CoreStmts,
    },
    /// A statement that `break` can leave.
    Labeled {
        label: Label,
        body: CoreStmts,
    },
    Branch {
        kind: BranchKind,
        label: Label,
    },
    Send {
        channel: TypeId,
        operand: CoreExpr,
        value: CoreExpr,
    },
    Close(CoreExpr),
    SelectStep {
        label: Label,
        cases: CoreCases,
        has_default: bool,
        default: CoreStmts,
    },
    GateTake(CoreExpr),
    GateAwait(CoreExpr),
    Yield,
    GoCall {
        callee: Callee,
        operands: CoreExprs,
    },
    DeferCall {
        callee: Callee,
        operands: CoreExprs,
    },
    Return(CoreExprs),
    Panic(CoreExpr),
    /// `println` of the operands where it ends the line, else `print`.
    Print {
        operands: CoreExprs,
        ends_line: bool,
    },
    Exit(CoreExpr),
    Fatal(CoreExpr),
}

/// Statements, first to last.
#[cycle(statement)]
#[derive(Drop)]
pub struct CoreStmts {
    pub items: Vec<CoreStmt>,
}

/// A condition, and the number of the clause that it chooses.
#[derive(Drop)]
pub struct CoreTest {
    pub condition: CoreExpr,
    pub clause: u32,
}

/// Tests, in order.
#[derive(Drop)]
pub struct CoreTests {
    pub items: Vec<CoreTest>,
}

/// A clause of a switch. From one that falls through control goes on to the next one.
#[cycle(statement)]
#[derive(Drop)]
pub struct CoreClause {
    pub body: CoreStmts,
    pub falls_through: bool,
}

/// Clauses, by number.
#[cycle(statement)]
#[derive(Drop)]
pub struct CoreClauses {
    pub items: Vec<CoreClause>,
}

/// A clause of a select.
#[cycle(statement)]
#[derive(Drop)]
pub struct CoreCase {
    pub communication: Communication,
    pub body: CoreStmts,
}

/// Clauses of a select, in the order of the text.
#[cycle(statement)]
#[derive(Drop)]
pub struct CoreCases {
    pub items: Vec<CoreCase>,
}
