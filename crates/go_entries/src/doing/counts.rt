//! How many values expressions give.
//!
//! The Go Programming Language Specification (as of Go 1.17), "Order of evaluation".

ghost use Rattle.std.specs.Prelude.{◌≡◌, ◌+◌, ◌<◌, List, IfOk, option_map};
ghost use Rattle.go_type.specs.Tree.{Ty};
ghost use Rattle.go_core.specs.CoreView.{expr_view, exprs_view, callee_view, communication_view, bound_of};
ghost use Rattle.go_core.specs.Opened as opened;
ghost use Rattle.go_state.specs.TasksSeen.{cases_view};

use gj_base::NoMemory;
use go_core::node::{Callee, CoreExpr, CoreExprs, CoreForm};
use go_core::statement::{Communication, CoreCases};

/// One, or two where it is also told whether.
pub fn one_or_two(ok: bool) -> usize
    ensures value { result ≡ opened.one_or_two ok }
{
    if ok { 2 } else { 1 }
}

/// Whether an operand is there.
pub fn has(bound: &Option<CoreExpr>) -> bool
    ensures value { (ts : List Ty) → result ≡ opened.has (bound_of (option_map (expr_view ts) bound.now)) }
{
    match bound {
        Some(_) => true,
        None => false,
    }
}

/// One for an operand that is there.
pub fn one_if(bound: &Option<CoreExpr>) -> usize
    ensures small { result < 2 }
    ensures value { (ts : List Ty) → result ≡ opened.one_if (bound_of (option_map (expr_view ts) bound.now)) }
{
    match bound {
        Some(_) => 1,
        None => 0,
    }
}

/// So many more.
pub fn more(m: usize, n: usize) -> Result<usize, NoMemory>
    ensures value { IfOk result (λ k. k ≡ m + n) }
{
    match m.checked_add(n) {
        Some(k) => Ok(k),
        None => Err(NoMemory),
    }
}

/// How many values an expression gives.
pub fn value_count(e: &CoreExpr) -> usize
    ensures value { (ts : List Ty) → result ≡ opened.value_count (expr_view ts e.now) }
{
    match &*e.form {
        CoreForm::Call { results, .. } => results.as_slice().len(),
        CoreForm::MapGet { with_ok, .. } => one_or_two(*with_ok),
        CoreForm::Assert { with_ok, .. } => one_or_two(*with_ok),
        CoreForm::Receive { with_ok, .. } => one_or_two(*with_ok),
        CoreForm::Let { body, .. } => value_count(body),
        CoreForm::Const { .. } => 1,
        CoreForm::Zero { .. } => 1,
        CoreForm::Read { .. } => 1,
        CoreForm::Address { .. } => 1,
        CoreForm::Unary { .. } => 1,
        CoreForm::Binary { .. } => 1,
        CoreForm::Concat { .. } => 1,
        CoreForm::Equal { .. } => 1,
        CoreForm::Less { .. } => 1,
        CoreForm::AndThen { .. } => 1,
        CoreForm::OrElse { .. } => 1,
        CoreForm::Not { .. } => 1,
        CoreForm::Convert { .. } => 1,
        CoreForm::ByteAt { .. } => 1,
        CoreForm::SliceOf { .. } => 1,
        CoreForm::Build { .. } => 1,
        CoreForm::BuildMap { .. } => 1,
        CoreForm::Closure { .. } => 1,
        CoreForm::Bind { .. } => 1,
        CoreForm::BindDynamic { .. } => 1,
        CoreForm::Len { .. } => 1,
        CoreForm::Cap { .. } => 1,
        CoreForm::Append { .. } => 1,
        CoreForm::CopyElems { .. } => 1,
        CoreForm::MakeSlice { .. } => 1,
        CoreForm::MakeMap { .. } => 1,
        CoreForm::MakeChan { .. } => 1,
        CoreForm::New { .. } => 1,
        CoreForm::Wrap { .. } => 1,
        CoreForm::Basic { .. } => 1,
        CoreForm::Recover { .. } => 1,
        CoreForm::GateMake { .. } => 1,
        CoreForm::GateAdd { .. } => 1,
    }
}

/// How many values expressions give.
pub fn values_of(es: &CoreExprs) -> Result<usize, NoMemory>
    ensures value { IfOk result (λ n. (ts : List Ty) → n ≡ opened.values_of (exprs_view ts es.now)) }
{
    let mut count = 0;
    'operands: for i in 0..es.items.len() {
        count = more(count, value_count(&es.items[i]))?;
    }
    Ok(count)
}

fn callee_count(callee: &Callee) -> usize
    ensures value { (ts : List Ty) → result ≡ opened.callee_count (callee_view ts callee.now) }
{
    match callee {
        Callee::Function(_) => 0,
        Callee::Method(_) => 0,
        Callee::Value(_) => 1,
        Callee::Dynamic { .. } => 1,
    }
}

/// How many operands a call takes.
pub fn call_count(callee: &Callee, es: &CoreExprs) -> Result<usize, NoMemory>
    ensures value { IfOk result (λ n. (ts : List Ty) → n ≡ opened.call_count (callee_view ts callee.now) (exprs_view ts es.now)) }
{
    let values = values_of(es)?;
    more(callee_count(callee), values)
}

fn communication_count(communication: &Communication) -> usize
    ensures value { (ts : List Ty) → result ≡ opened.communication_count (communication_view ts communication.now) }
{
    match communication {
        Communication::Send { .. } => 2,
        Communication::Receive { .. } => 1,
    }
}

/// How many operands the clauses of a select take.
pub fn cases_count(cases: &CoreCases) -> Result<usize, NoMemory>
    ensures value { IfOk result (λ n. (ts : List Ty) → n ≡ opened.cases_count (cases_view ts cases.now)) }
{
    let mut count = 0;
    'clauses: for i in 0..cases.items.len() {
        count = more(count, communication_count(&cases.items[i].communication))?;
    }
    Ok(count)
}
