//! What a task of the text does, as one of the definitions' tasks that are steps.
//!
//! Own: which tasks there are.

use go_core::node::{Callee, CoreExpr, Var, VarId};
use go_core::statement::{BranchKind, CoreClauses, CoreStmts, Label, Targets};
use go_core::tree::FuncId;
use go_slices::composites::operator::Operator;
use go_state::frame_steps::parts::{Build, Select};
use go_state::state::frame::Range;
use go_state::tasks::task::{Loop, Switch};
use go_type::types::TypeId;

/// A task that is a step. A number beside it says how many values it takes from the stack.
#[derive(Clone, Copy)]
pub enum Doing<'p> {
    Operate(Operator<'p>, usize),
    Build(Build<'p>),
    AtLocal(VarId),
    MakeClosure(FuncId),
    /// The right side only where the left one is true.
    OnlyWhereTrue(&'p CoreExpr),
    OnlyWhereFalse(&'p CoreExpr),
    BindVars(&'p [Var]),
    DeclareVar(Var),
    Assign(&'p Targets, usize),
    Choose(&'p CoreStmts, &'p CoreStmts),
    /// The condition of a loop has been evaluated.
    Turn(Loop<'p>),
    TurnAgain(Loop<'p>),
    /// A test of a switch has been evaluated; the switch goes on with the next one.
    ChooseClause(u32, Switch<'p>),
    ChooseDefault(&'p CoreClauses, Option<u32>),
    BeginRange(Range<'p>),
    BranchTo(BranchKind, Label),
    Call(&'p Callee, usize),
    Go(&'p Callee, usize),
    Defer(&'p Callee, usize),
    Return(usize),
    Panic,
    Recover,
    SendTo(TypeId),
    ReceiveFrom(TypeId, bool),
    Close,
    SelectFrom(Select<'p>),
    TakeGate,
    AddToGate,
    AwaitGate,
    Yield,
    Print(usize, bool),
    Exit,
    Fatal,
}
