//! The types of an expression's values, where the core tree doesn't say them.

use crate::held::element;
use go_core::node::{CoreExpr, CoreForm};
use go_type::types::{IntName, TypeId};
use go_type::{BOOL, TypeTable, int_id};

/// The type of an expression's value; of several values that of the first.
pub fn type_of(table: &TypeTable, e: &CoreExpr) -> TypeId {
    match &*e.form {
        CoreForm::Const { ty, .. }
        | CoreForm::Zero { ty }
        | CoreForm::Read { ty, .. }
        | CoreForm::Address { ty, .. }
        | CoreForm::Unary { ty, .. }
        | CoreForm::Binary { ty, .. }
        | CoreForm::Concat { ty, .. }
        | CoreForm::Equal { ty, .. }
        | CoreForm::Less { ty, .. }
        | CoreForm::AndThen { ty, .. }
        | CoreForm::OrElse { ty, .. }
        | CoreForm::Not { ty, .. }
        | CoreForm::Convert { ty, .. }
        | CoreForm::SliceOf { ty, .. }
        | CoreForm::Build { ty, .. }
        | CoreForm::BuildMap { ty, .. }
        | CoreForm::Closure { ty, .. }
        | CoreForm::Bind { ty, .. }
        | CoreForm::BindDynamic { ty, .. }
        | CoreForm::Append { ty, .. }
        | CoreForm::MakeSlice { ty, .. }
        | CoreForm::MakeMap { ty, .. }
        | CoreForm::MakeChan { ty, .. }
        | CoreForm::New { ty }
        | CoreForm::Wrap { ty, .. }
        | CoreForm::Assert { ty, .. }
        | CoreForm::Basic { ty, .. }
        | CoreForm::Recover { ty } => *ty,
        CoreForm::ByteAt { .. } => int_id(IntName::Uint8),
        CoreForm::Len { .. }
        | CoreForm::Cap { .. }
        | CoreForm::CopyElems { .. }
        | CoreForm::GateAdd { .. } => int_id(IntName::Int),
        CoreForm::Call { results, .. } => first(results.as_slice()),
        CoreForm::MapGet { map_type, .. } => element(table, *map_type),
        CoreForm::Receive { channel, .. } => element(table, *channel),
        CoreForm::GateMake { pointer } => element(table, type_of(table, pointer)),
        CoreForm::Let { body, .. } => type_of(table, body),
    }
}

fn first(ids: &[TypeId]) -> TypeId {
    match ids {
        [t, ..] => *t,
        [] => BOOL,
    }
}

/// The type of what a pointer points to.
pub fn pointed(table: &TypeTable, e: &CoreExpr) -> TypeId {
    match &*e.form {
        CoreForm::New { ty } => *ty,
        CoreForm::GateMake { .. } => int_id(IntName::Int),
        CoreForm::Let { body, .. } => pointed(table, body),
        _ => element(table, type_of(table, e)),
    }
}

/// How many values an expression gives.
pub fn value_count(e: &CoreExpr) -> usize {
    match &*e.form {
        CoreForm::Call { results, .. } => results.as_slice().len(),
        CoreForm::MapGet { with_ok, .. }
        | CoreForm::Assert { with_ok, .. }
        | CoreForm::Receive { with_ok, .. } => { if *with_ok { 2 } else { 1 } }
        CoreForm::Let { body, .. } => value_count(body),
        _ => 1,
    }
}

/// Whether an expression gives a value and whether it is there; these are of the first one's type and
/// boolean.
pub fn has_ok(e: &CoreExpr) -> bool {
    match &*e.form {
        CoreForm::MapGet { with_ok, .. }
        | CoreForm::Assert { with_ok, .. }
        | CoreForm::Receive { with_ok, .. } => *with_ok,
        CoreForm::Let { body, .. } => has_ok(body),
        _ => false,
    }
}

/// The types of a call's results; none where an expression is no call.
pub fn results(e: &CoreExpr) -> &[TypeId] {
    match &*e.form {
        CoreForm::Call { results, .. } => results.as_slice(),
        CoreForm::Let { body, .. } => results(body),
        _ => &[],
    }
}
