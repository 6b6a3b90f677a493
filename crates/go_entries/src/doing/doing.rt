//! Which step a task is.
//!
//! The Go Programming Language Specification (as of Go 1.17), "Order of evaluation", "Statements".

ghost use Rattle.std.specs.Prelude.{◌≡◌, ◌∷◌, List, Some, IfOk, false, map, option_map, slice_get};
ghost use Rattle.go_type.specs.Tree.{Ty};
ghost use Rattle.go_type.specs.Levels.{tree_of};
ghost use Rattle.go_core.specs.CoreTree as core;
ghost use Rattle.go_core.specs.Goroutine as defined;
ghost use Rattle.go_core.specs.Opened as opened;
ghost use Rattle.go_core.specs.CoreView.{expr_view, exprs_view, place_view, callee_view, target_view, stmt_view, stmts_view, bound_of};
ghost use Rattle.go_state.specs.Last.{applied, place_applied, done};
ghost use Rattle.go_state.specs.TasksSeen.{elements_view, pairs_view, cases_view, first_of, is_opened, done_at, stmts_listed, chosen, tests_from, clauses_from};
ghost use Rattle.go_entries.specs.DoingSeen.{doing_of, IsDone};

use crate::doing::counts::{call_count, cases_count, has, more, one_if, values_of};
use crate::doing::task::Doing;
use gj_base::NoMemory;
use go_core::node::{
    Callee, CoreElements, CoreExpr, CoreExprs, CoreForm, CorePairs, CorePlace, PlaceForm,
};
use go_core::statement::{CoreCases, CoreStmt, CoreStmtForm, CoreStmts, Label, Targets};
use go_slices::composites::operator::Operator;
use go_slices::slices::slicing::Written;
use go_state::frame_steps::parts::{Build, Select};
use go_state::state::frame::Range;
use go_state::tasks::task::{ExprTask, LoopTask, PlaceTask, Switch, SwitchTask, Task};
use go_type::types::TypeId;

// ---- expressions

// A part of a value, as its bounds are written.
fn slicing<'p>(
    from: TypeId,
    low: &Option<CoreExpr>,
    high: &Option<CoreExpr>,
    limit: &Option<CoreExpr>,
) -> Doing<'p>
    ensures value { (ts : List Ty) (t : Ty) (e : core.Expr) (rest : List defined.Task) → applied (core.slice_of (tree_of ts from) t e (bound_of (option_map (expr_view ts) low.now)) (bound_of (option_map (expr_view ts) high.now)) (bound_of (option_map (expr_view ts) limit.now))) rest ≡ doing_of ts result ∷ rest }
{
    let l = has(low);
    let h = has(high);
    let m = has(limit);
    let a = one_if(low);
    let b = one_if(high);
    let c = one_if(limit);
    let written = Written {
        low: l,
        high: h,
        limit: m,
    };
    let count = 1 + a + b + c;
    Doing::Operate(Operator::ToSlice { from, written }, count)
}

// A struct, an array or a slice of so many elements.
fn building<'p>(ty: TypeId, count: u32, elements: &'p CoreElements) -> Doing<'p>
    ensures value { (ts : List Ty) (rest : List defined.Task) → applied (core.build (tree_of ts ty) count (elements_view ts elements.now)) rest ≡ doing_of ts result ∷ rest }
{
    Doing::Build(Build {
        ty,
        count: count as u64,
        elements,
    })
}

// A map of so many pairs.
fn mapping<'p>(ty: TypeId, pairs: &'p CorePairs) -> Result<Doing<'p>, NoMemory>
    ensures value { IfOk result (λ d. (ts : List Ty) (rest : List defined.Task) → applied (core.build_map (tree_of ts ty) (pairs_view ts pairs.now)) rest ≡ doing_of ts d ∷ rest) }
{
    let count = more(pairs.items.len(), pairs.items.len())?;
    Ok(Doing::Operate(Operator::ToBuiltMap(ty), count))
}

// A call.
fn calling<'p>(callee: &'p Callee, operands: &CoreExprs) -> Result<Doing<'p>, NoMemory>
    ensures value { IfOk result (λ d. (ts : List Ty) → doing_of ts d ≡ defined.call_with (opened.called_of (callee_view ts callee.now)) (opened.call_count (callee_view ts callee.now) (exprs_view ts operands.now))) }
{
    let count = call_count(callee, operands)?;
    Ok(Doing::Call(callee, count))
}

// What an expression does once its operands have been evaluated.
fn expr_doing<'p>(e: &'p CoreExpr) -> Result<Doing<'p>, NoMemory>
    ensures value { IfOk result (λ d. (ts : List Ty) (rest : List defined.Task) → applied (expr_view ts e.now) rest ≡ doing_of ts d ∷ rest) }
{
    match &*e.form {
        CoreForm::Const { value, .. } => Ok(Doing::Operate(Operator::GiveConstant(value), 0)),
        CoreForm::Zero { ty } => Ok(Doing::Operate(Operator::GiveZero(*ty), 0)),
        CoreForm::Read { ty, .. } => Ok(Doing::Operate(Operator::ReadPlace(*ty), 1)),
        CoreForm::Address { .. } => Ok(Doing::Operate(Operator::ToAddress, 1)),
        CoreForm::Unary { op, ty, .. } => Ok(Doing::Operate(Operator::ToUnary(*op, *ty), 1)),
        CoreForm::Binary { op, ty, .. } => Ok(Doing::Operate(Operator::ToBinary(*op, *ty), 2)),
        CoreForm::Concat { .. } => Ok(Doing::Operate(Operator::ToConcat, 2)),
        CoreForm::Equal {
            negated,
            operands,
            ..
        } => Ok(Doing::Operate(
            Operator::ToEqual {
                negated: *negated,
                operands: *operands,
            },
            2,
        )),
        CoreForm::Less { op, operands, .. } => Ok(Doing::Operate(
            Operator::ToLess {
                op: *op,
                operands: *operands,
            },
            2,
        )),
        CoreForm::AndThen { right, .. } => Ok(Doing::OnlyWhereTrue(right)),
        CoreForm::OrElse { right, .. } => Ok(Doing::OnlyWhereFalse(right)),
        CoreForm::Not { .. } => Ok(Doing::Operate(Operator::ToNot, 1)),
        CoreForm::Convert { from, ty, .. } => Ok(Doing::Operate(
            Operator::ToConverted {
                from: *from,
                to: *ty,
            },
            1,
        )),
        CoreForm::ByteAt { .. } => Ok(Doing::Operate(Operator::ToByte, 2)),
        CoreForm::SliceOf {
            from,
            low,
            high,
            limit,
            ..
        } => Ok(slicing(*from, low, high, limit)),
        CoreForm::Build {
            ty,
            count,
            elements,
        } => Ok(building(*ty, *count, elements)),
        CoreForm::BuildMap { ty, pairs } => mapping(*ty, pairs),
        CoreForm::Closure { func, .. } => Ok(Doing::MakeClosure(*func)),
        CoreForm::Bind { method, .. } => Ok(Doing::Operate(Operator::ToBound(method), 1)),
        CoreForm::BindDynamic { name, package, .. } => Ok(Doing::Operate(
            Operator::ToBoundDynamic { name, package },
            1,
        )),
        CoreForm::Call {
            callee,
            operands,
            ..
        } => calling(callee, operands),
        CoreForm::MapGet {
            map_type,
            with_ok,
            ..
        } => Ok(Doing::Operate(
            Operator::GetEntry {
                map_type: *map_type,
                ok: *with_ok,
            },
            2,
        )),
        CoreForm::Len { from, .. } => Ok(Doing::Operate(Operator::ToLen(*from), 1)),
        CoreForm::Cap { from, .. } => Ok(Doing::Operate(Operator::ToCap(*from), 1)),
        CoreForm::Append { ty, .. } => Ok(Doing::Operate(Operator::ToAppended(*ty), 2)),
        CoreForm::CopyElems { ty, .. } => Ok(Doing::Operate(Operator::ToCopied(*ty), 2)),
        CoreForm::MakeSlice { ty, capacity, .. } => {
            Ok(Doing::Operate(Operator::ToNewSlice(*ty), 1 + one_if(capacity)))
        }
        CoreForm::MakeMap { count, .. } => Ok(Doing::Operate(Operator::ToNewMap, one_if(count))),
        CoreForm::MakeChan { capacity, .. } => Ok(Doing::Operate(
            Operator::ToNewChannel,
            one_if(capacity),
        )),
        CoreForm::New { ty } => Ok(Doing::Operate(Operator::ToNew(*ty), 0)),
        CoreForm::Wrap { from, .. } => Ok(Doing::Operate(Operator::ToInterface(*from), 1)),
        CoreForm::Assert { ty, with_ok, .. } => Ok(Doing::Operate(
            Operator::ToAsserted {
                ty: *ty,
                ok: *with_ok,
            },
            1,
        )),
        CoreForm::Basic { .. } => Ok(Doing::Operate(Operator::ToBasic, 1)),
        CoreForm::Receive {
            channel,
            with_ok,
            ..
        } => Ok(Doing::ReceiveFrom(*channel, *with_ok)),
        CoreForm::Recover { .. } => Ok(Doing::Recover),
        CoreForm::GateMake { .. } => Ok(Doing::Operate(Operator::ToGate, 1)),
        CoreForm::GateAdd { .. } => Ok(Doing::AddToGate),
        CoreForm::Let { vars, .. } => Ok(Doing::BindVars(vars.items.as_slice())),
    }
}

// What a place does once its operands have been evaluated.
fn place_doing<'p>(place: &'p CorePlace) -> Doing<'p>
    ensures value { (ts : List Ty) (rest : List defined.Task) → place_applied (place_view ts place.now) rest ≡ doing_of ts result ∷ rest }
{
    match &*place.form {
        PlaceForm::Local(var) => Doing::AtLocal(*var),
        PlaceForm::Global(global) => Doing::Operate(Operator::AtGlobal(global.0), 0),
        PlaceForm::Deref(_) => Doing::Operate(Operator::AtPointer, 1),
        PlaceForm::Field {
            struct_type,
            number,
            ..
        } => Doing::Operate(
            Operator::AtField {
                struct_type: *struct_type,
                number: *number as u64,
            },
            1,
        ),
        PlaceForm::Elem { array_type, .. } => Doing::Operate(Operator::AtElem(*array_type), 2),
        PlaceForm::SliceElem { slice_type, .. } => {
            Doing::Operate(Operator::AtSliceElem(*slice_type), 2)
        }
    }
}

// ---- statements

fn storing<'p>(targets: &'p Targets, es: &CoreExprs) -> Result<Option<Doing<'p>>, NoMemory>
    ensures value { IfOk result (λ r. (ts : List Ty) → IsDone ts r (done (core.store (map (target_view ts) targets.now.items.items) (exprs_view ts es.now)))) }
{
    let count = values_of(es)?;
    Ok(Some(Doing::Assign(targets, count)))
}

fn starting<'p>(callee: &'p Callee, es: &CoreExprs) -> Result<Option<Doing<'p>>, NoMemory>
    ensures value { IfOk result (λ r. (ts : List Ty) → IsDone ts r (done (core.go_call (callee_view ts callee.now) (exprs_view ts es.now)))) }
{
    let count = call_count(callee, es)?;
    Ok(Some(Doing::Go(callee, count)))
}

fn deferring<'p>(callee: &'p Callee, es: &CoreExprs) -> Result<Option<Doing<'p>>, NoMemory>
    ensures value { IfOk result (λ r. (ts : List Ty) → IsDone ts r (done (core.defer_call (callee_view ts callee.now) (exprs_view ts es.now)))) }
{
    let count = call_count(callee, es)?;
    Ok(Some(Doing::Defer(callee, count)))
}

fn returning<'p>(es: &CoreExprs) -> Result<Option<Doing<'p>>, NoMemory>
    ensures value { IfOk result (λ r. (ts : List Ty) → IsDone ts r (done (core.return_ (exprs_view ts es.now)))) }
{
    let count = values_of(es)?;
    Ok(Some(Doing::Return(count)))
}

fn printing<'p>(es: &CoreExprs, ends_line: bool) -> Result<Option<Doing<'p>>, NoMemory>
    ensures value { IfOk result (λ r. (ts : List Ty) → IsDone ts r (done (core.print (exprs_view ts es.now) ends_line))) }
{
    let count = values_of(es)?;
    Ok(Some(Doing::Print(count, ends_line)))
}

fn selecting<'p>(
    label: Label,
    cases: &'p CoreCases,
    has_default: bool,
    default: &'p CoreStmts,
) -> Result<Option<Doing<'p>>, NoMemory>
    ensures value { IfOk result (λ r. (ts : List Ty) → IsDone ts r (done (core.select_step label.0 (cases_view ts cases.now) has_default (stmts_view ts default.now)))) }
{
    let count = cases_count(cases)?;
    Ok(Some(Doing::SelectFrom(Select {
        label,
        cases,
        count,
        has_default,
        default,
    })))
}

// What a statement does once its operands have been evaluated.
fn stmt_doing<'p>(s: &'p CoreStmt) -> Result<Option<Doing<'p>>, NoMemory>
    ensures value { IfOk result (λ r. (ts : List Ty) → IsDone ts r (done (stmt_view ts s.now))) }
{
    match &*s.form {
        CoreStmtForm::Seq(_) => Ok(None),
        CoreStmtForm::Perform { .. } => Ok(None),
        CoreStmtForm::Declare(var) => Ok(Some(Doing::DeclareVar(*var))),
        CoreStmtForm::Store { targets, values } => storing(targets, values),
        CoreStmtForm::MapDelete { map_type, .. } => {
            Ok(Some(Doing::Operate(Operator::DeleteEntry(*map_type), 2)))
        }
        CoreStmtForm::If {
            when_true,
            when_false,
            ..
        } => Ok(Some(Doing::Choose(when_true, when_false))),
        CoreStmtForm::Loop { .. } => Ok(None),
        CoreStmtForm::SwitchOn { .. } => Ok(None),
        CoreStmtForm::RangeNext {
            label,
            from,
            key,
            value,
            body,
            ..
        } => Ok(Some(Doing::BeginRange(Range {
            label: *label,
            from: *from,
            key: *key,
            value: *value,
            body,
        }))),
        CoreStmtForm::Labeled { .. } => Ok(None),
        CoreStmtForm::Branch { kind, label } => Ok(Some(Doing::BranchTo(*kind, *label))),
        CoreStmtForm::Send { channel, .. } => Ok(Some(Doing::SendTo(*channel))),
        CoreStmtForm::Close(_) => Ok(Some(Doing::Close)),
        CoreStmtForm::SelectStep {
            label,
            cases,
            has_default,
            default,
        } => selecting(*label, cases, *has_default, default),
        CoreStmtForm::GateTake(_) => Ok(Some(Doing::TakeGate)),
        CoreStmtForm::GateAwait(_) => Ok(Some(Doing::AwaitGate)),
        CoreStmtForm::Yield => Ok(Some(Doing::Yield)),
        CoreStmtForm::GoCall { callee, operands } => starting(callee, operands),
        CoreStmtForm::DeferCall { callee, operands } => deferring(callee, operands),
        CoreStmtForm::Return(es) => returning(es),
        CoreStmtForm::Panic(_) => Ok(Some(Doing::Panic)),
        CoreStmtForm::Print {
            operands,
            ends_line,
        } => printing(operands, *ends_line),
        CoreStmtForm::Exit(_) => Ok(Some(Doing::Exit)),
        CoreStmtForm::Fatal(_) => Ok(Some(Doing::Fatal)),
    }
}

fn stmt_at<'p>(list: &'p CoreStmts, at: usize) -> Result<Option<Doing<'p>>, NoMemory>
    ensures value { IfOk result (λ r. (ts : List Ty) → IsDone ts r (done_at (slice_get (stmts_listed ts list.now) at))) }
{
    if at >= list.items.len() {
        return Ok(None);
    }
    stmt_doing(&list.items[at])
}

// ---- the rest

// The next test of a switch, or its default where there is none.
fn switch_doing<'p>(parts: Switch<'p>) -> Doing<'p>
    ensures value { (ts : List Ty) (rest : List defined.Task) → chosen (tests_from ts parts.entry.tests.now parts.entry.from) (clauses_from ts parts.entry.clauses.now 0) parts.entry.default rest ≡ doing_of ts result ∷ rest }
{
    if parts.from >= parts.tests.items.len() {
        return Doing::ChooseDefault(parts.clauses, parts.default);
    }
    let clause = parts.tests.items[parts.from].clause;
    let others = Switch {
        tests: parts.tests,
        from: parts.from + 1,
        clauses: parts.clauses,
        default: parts.default,
    };
    Doing::ChooseClause(clause, others)
}

/// The step that a task is; none where it is none.
pub fn doing<'p>(task: Task<'p>) -> Result<Option<Doing<'p>>, NoMemory>
    requires step { is_opened task ≡ false }
    ensures value { IfOk result (λ r. (ts : List Ty) → IsDone ts r (first_of ts task.entry)) }
{
    match task {
        Task::Nothing => Ok(None),
        Task::Expr(what, e) => match what {
            ExprTask::Evaluate => Ok(None),
            ExprTask::Bounds => Ok(None),
            ExprTask::Apply => {
                let doing = expr_doing(e)?;
                Ok(Some(doing))
            }
        },
        Task::Place(what, place) => match what {
            PlaceTask::Find => Ok(None),
            PlaceTask::Operands => Ok(None),
            PlaceTask::Apply => Ok(Some(place_doing(place))),
        },
        Task::Do(list, at) => stmt_at(list, at),
        Task::Loop(what, parts) => match what {
            LoopTask::Begin => Ok(None),
            LoopTask::Turn => Ok(Some(Doing::Turn(parts))),
            LoopTask::Again => Ok(Some(Doing::TurnAgain(parts))),
        },
        Task::Switch(what, parts) => match what {
            SwitchTask::Test => Ok(None),
            SwitchTask::Choose => Ok(Some(switch_doing(parts))),
        },
        Task::Callee(_) => Ok(None),
        Task::All(_, _) => Ok(None),
        Task::Elements(_, _) => Ok(None),
        Task::Pairs(_, _) => Ok(None),
        Task::Targets(_, _) => Ok(None),
        Task::Cases(_, _) => Ok(None),
        Task::One(_, _) => Ok(None),
        Task::Run(_, _) => Ok(None),
        Task::Clause(_, _) => Ok(None),
        Task::Leave(_) => Ok(None),
    }
}
