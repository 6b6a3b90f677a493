//! Indexes, slice bounds and sizes. Go, "Index expressions", "Slice expressions".

use crate::assignment::single_value;
use crate::untyped::convert_untyped;
use gj_base::NoMemory;
use go_check_state::{Checker, FaultCode, Operand};
use go_type::predeclared::int_id;
use go_type::types::IntName;

/// An index: an untyped one takes `int` (own). F73 of `nil`; F65 where it is no integer, or a constant that is
/// negative, past `int`, or at the limit.
pub fn index(
    c: &mut Checker,
    x: Operand,
    limit: Option<i128>,
    code: FaultCode,
) -> Result<Operand, NoMemory> {
    let x = single_value(c, x)?;
    if x.is_unknown() {
        return Ok(x);
    }
    if x.is_nil() {
        return refuse(c, x, FaultCode::UntypedNil);
    }
    if !c.is_integer(x.ty) {
        return refuse(c, x, code);
    }
    if let Some(id) = x.constant() {
        if !is_below(c.number_of(id), limit) {
            return refuse(c, x, code);
        }
    }
    if c.is_untyped(x.ty) {
        return convert_untyped(c, x, int_id(IntName::Int), code);
    }
    Ok(x)
}

fn refuse(c: &mut Checker, x: Operand, code: FaultCode) -> Result<Operand, NoMemory> {
    c.fail(code, x.place)
}

// Whether a constant is from 0 to below the limit, and an `int`.
fn is_below(x: Option<i128>, limit: Option<i128>) -> bool {
    match (x, limit) {
        (Some(x), Some(limit)) => x >= 0 && x < limit && x <= 2147483647,
        (Some(x), None) => x >= 0 && x <= 2147483647,
        _ => false,
    }
}
