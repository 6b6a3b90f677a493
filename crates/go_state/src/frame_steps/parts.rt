//! What a select, a literal and an assignment wait with.
//!
//! The Go Programming Language Specification (as of Go 1.17), "Select statements",
//! "Composite literals", "Assignments".

use go_core::node::CoreElements;
use go_core::statement::{CoreCases, CoreStmts, Label, Targets};
use go_type::types::TypeId;
use go_values::values::scalar::Scalar;

/// A select, of which so many operands have been evaluated.
#[derive(Clone, Copy)]
pub struct Select<'p> {
    pub label: Label,
    pub cases: &'p CoreCases,
    pub count: usize,
    pub has_default: bool,
    pub default: &'p CoreStmts,
}

/// A composite literal of so many elements.
#[derive(Clone, Copy)]
pub struct Build<'p> {
    pub ty: TypeId,
    pub count: u64,
    pub elements: &'p CoreElements,
}

/// What is left of an assignment: the left sides from a place on, the operands of theirs, and the
/// values that they take.
#[derive(Clone, Copy)]
pub struct Rest<'p, 'a> {
    pub targets: &'p Targets,
    pub from: usize,
    pub operands: &'a [&'a [Scalar<'a>]],
    pub values: &'a [&'a [Scalar<'a>]],
}
