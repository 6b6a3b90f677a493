//! The types of values, where the core tree doesn't say them.

use go_core::node::{CoreExpr, CoreForm};
use go_type::types::{GoType, IntName, TypeId};
use go_type::{BOOL, TypeTable, int_id};

/// The type of an expression's value; of several values that of the first.
pub fn type_of(table: &TypeTable, e: &CoreExpr) -> TypeId {
    match &*e.form {
        CoreForm::Const { ty, .. }
        | CoreForm::Zero { ty }
        | CoreForm::Read { ty, .. }
        | CoreForm::Address { ty, .. }
        | CoreForm::Unary { ty, .. }
        | CoreForm::Binary { ty, .. }
        | CoreForm::Concat { ty, .. }
        | CoreForm::Equal { ty, .. }
        | CoreForm::Less { ty, .. }
        | CoreForm::AndThen { ty, .. }
        | CoreForm::OrElse { ty, .. }
        | CoreForm::Not { ty, .. }
        | CoreForm::Convert { ty, .. }
        | CoreForm::SliceOf { ty, .. }
        | CoreForm::Build { ty, .. }
        | CoreForm::BuildMap { ty, .. }
        | CoreForm::Closure { ty, .. }
        | CoreForm::Bind { ty, .. }
        | CoreForm::BindDynamic { ty, .. }
        | CoreForm::Append { ty, .. }
        | CoreForm::MakeSlice { ty, .. }
        | CoreForm::MakeMap { ty, .. }
        | CoreForm::MakeChan { ty, .. }
        | CoreForm::New { ty }
        | CoreForm::Wrap { ty, .. }
        | CoreForm::Assert { ty, .. }
        | CoreForm::Basic { ty, .. }
        | CoreForm::Recover { ty } => *ty,
        CoreForm::ByteAt { .. } => int_id(IntName::Uint8),
        CoreForm::Len { .. }
        | CoreForm::Cap { .. }
        | CoreForm::CopyElems { .. }
        | CoreForm::GateMake { .. }
        | CoreForm::GateAdd { .. } => int_id(IntName::Int),
        CoreForm::Call { results, .. } => first(results.as_slice()),
        CoreForm::MapGet { map_type, .. } => element(table, *map_type),
        CoreForm::Receive { channel, .. } => element(table, *channel),
        CoreForm::Let { body, .. } => type_of(table, body),
    }
}

fn first(ids: &[TypeId]) -> TypeId {
    match ids {
        [t, ..] => *t,
        [] => BOOL,
    }
}

/// One level of the underlying type, where the table has the type.
pub fn level(table: &TypeTable, t: TypeId) -> Option<&GoType> {
    if t.0 < table.len() {
        return Some(table.get(table.underlying(t)));
    }
    None
}

fn element(table: &TypeTable, t: TypeId) -> TypeId {
    match level(table, t) {
        Some(GoType::Map(_, value)) => *value,
        Some(GoType::Chan(_, e)) => *e,
        _ => BOOL,
    }
}
