//! Statements that neither branch nor wait: Go specification (as of Go 1.17), "Statements".

use crate::calls::{callee_of, go_call};
use crate::expr::{expr, exprs};
use crate::maps::map_delete;
use crate::numbers::low_bits;
use crate::output::print;
use crate::stores::store;
use go_core::node::{Callee, CoreExpr, CoreExprs};
use go_core::statement::{CoreStmt, CoreStmtForm};
use js_body::Body;
use js_facts::types::type_of;

/// Does a statement that neither branches nor waits; false where it is no such one.
pub fn simple<'p>(b: &mut Body<'p>, s: &'p CoreStmt) -> bool {
    match &*s.form {
        CoreStmtForm::Perform { operand, .. } => {
            expr(b, operand);
            b.drop_to(0);
        }
        CoreStmtForm::Declare(var) => b.declare(var.id),
        CoreStmtForm::Store { targets, values } => {
            store(b, targets.items.as_slice(), &values.items);
        }
        CoreStmtForm::MapDelete {
            map_type,
            operand,
            key,
        } => {
            expr(b, operand);
            expr(b, key);
            map_delete(b, *map_type);
        }
        CoreStmtForm::Print {
            operands,
            ends_line,
        } => {
            exprs(b, &operands.items);
            print(b, operands.items.as_slice(), *ends_line);
        }
        CoreStmtForm::GoCall { callee, operands } => {
            let c = callee_and_operands(b, callee, operands);
            go_call(b, c, 0);
        }
        _ => return ends(b, s),
    }
    true
}

// What ends more than a statement: Go specification (as of Go 1.17), "Close", "Handling panics".
fn ends<'p>(b: &mut Body<'p>, s: &'p CoreStmt) -> bool {
    match &*s.form {
        CoreStmtForm::Close(e) => {
            expr(b, e);
            let c = b.pop();
            let call = b.pool.call1(b"$close", c.e);
            b.pool.perform(call);
        }
        CoreStmtForm::Panic(e) => {
            expr(b, e);
            let v = b.pop();
            b.panic_with(v.e);
        }
        CoreStmtForm::Exit(e) => exit(b, e),
        CoreStmtForm::Fatal(e) => fatal(b, e),
        _ => return false,
    }
    true
}

/// Evaluates what is called, where it is a value, and the operands, on an empty stack.
pub fn callee_and_operands<'p>(
    b: &mut Body<'p>,
    callee: &'p Callee,
    operands: &'p CoreExprs,
) -> crate::calls::Called {
    match callee {
        Callee::Value(f) => expr(b, f),
        Callee::Dynamic { receiver, .. } => expr(b, receiver),
        _ => {}
    }
    exprs(b, &operands.items);
    callee_of(b, callee)
}

fn exit<'p>(b: &mut Body<'p>, e: &'p CoreExpr) {
    expr(b, e);
    let v = b.pop();
    let t = type_of(b.table(), e);
    let n = low_bits(b, v, t);
    let most = b.pool.num(255);
    let code = b.pool.bit_and(n, most);
    let told = b.pool.text(b"");
    let call = b.pool.call2(b"$end", code, told);
    b.pool.perform(call);
}

fn fatal<'p>(b: &mut Body<'p>, e: &'p CoreExpr) {
    expr(b, e);
    let v = b.pop();
    let told = b.pool.text(b"fatal error: ");
    let told = b.pool.plus(told, v.e);
    let end = b.pool.text(b"\n");
    let told = b.pool.plus(told, end);
    let code = b.pool.num(2);
    let call = b.pool.call2(b"$end", code, told);
    b.pool.perform(call);
}
