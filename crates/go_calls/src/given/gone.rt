//! What is let go.

use crate::given::kinds::{Given, Passing, Placed};
use go_core::node::CoreExpr;
use go_operands::answers::gone::{gone_found, gone_operand};
use go_operands::nodes::gone::gone_expr;
use go_operands::operands::part::{Part, gone_part};

/// Lets an operand go.
pub fn gone_placed(placed: Placed) {
    let Placed {
        place: _place,
        value,
    } = placed;
    gone_operand(value);
}

/// Lets operands go.
pub fn gone_all(operands: Vec<Placed>) {
    let mut operands = operands;
    while let Some(operand) = operands.pop() {
        gone_placed(operand);
    }
    operands.destroy_empty();
}

/// Lets parts go.
pub fn gone_parts(parts: Vec<Part>) {
    let mut parts = parts;
    while let Some(part) = parts.pop() {
        gone_part(part);
    }
    parts.destroy_empty();
}

/// Lets values go.
pub fn gone_exprs(values: Vec<CoreExpr>) {
    let mut values = values;
    while let Some(value) = values.pop() {
        gone_expr(value);
    }
    values.destroy_empty();
}

/// Lets what a call is given go.
pub fn gone_given(given: Given) {
    match given {
        Given::Each(operands) => gone_all(operands),
        Given::Several(_place, found) => gone_found(found),
        Given::Refused(_flaws) => {}
        Given::Unknown => {}
    }
}

/// Lets values and faults go.
pub fn gone_passing(passing: Passing) {
    let Passing {
        values,
        flaws: _flaws,
    } = passing;
    gone_exprs(values);
}
