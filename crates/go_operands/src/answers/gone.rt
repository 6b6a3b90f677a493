//! What is let go.

use crate::answers::answer::{Answer, Found, Operand, Pending};
use crate::nodes::gone::gone_expr;
use go_core::node::CoreExprs;

#[derive(Drop)]
struct LostNumber {
    _number: Pending,
}

fn gone(_lost: LostNumber) {}

/// Lets an untyped number go.
pub fn gone_pending(p: Pending) {
    gone(LostNumber { _number: p });
}

/// Lets a value go.
pub fn gone_found(found: Found) {
    let Found {
        core,
        ty: _ty,
        value: _value,
    } = found;
    gone_expr(core);
}

fn gone_exprs(operands: CoreExprs) {
    let CoreExprs { mut items } = operands;
    while let Some(e) = items.pop() {
        gone_expr(e);
    }
    items.destroy_empty();
}

/// Lets an operand go.
pub fn gone_operand(operand: Operand) {
    match operand {
        Operand::Typed(found) => gone_found(found),
        Operand::Constant(_k) => {}
        Operand::Truth(core) => gone_expr(core),
        Operand::Pending(p, _basis) => gone_pending(p),
        Operand::Nil => {}
    }
}

/// Lets an answer go.
pub fn gone_answer(answer: Answer) {
    match answer {
        Answer::Value(found) => gone_found(found),
        Answer::Constant(_k) => {}
        Answer::Truth(core) => gone_expr(core),
        Answer::Nil => {}
        Answer::Pending(p, _basis) => gone_pending(p),
        Answer::Type(_ty) => {}
        Answer::Package(_path) => {}
        Answer::BuiltIn(_function) => {}
        Answer::Blank => {}
        Answer::Prints {
            operands,
            ends_line: _ends_line,
        } => gone_exprs(operands),
        Answer::Wrong(_flaws) => {}
        Answer::Unknown => {}
    }
}
