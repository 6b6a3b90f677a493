//! Expressions with two operands.

use crate::lower::making::Making;
use gj_base::NoMemory;
use go_check_state::node::Node;
use go_core::node::CoreForm;
use go_type::predeclared::BOOL;

impl<'a> Making<'a> {
    /// An operator or a comparison.
    pub fn make_two(&mut self, node: Node) -> Result<(), NoMemory> {
        let last = self.take()?;
        let first = self.take()?;
        let left = first.core;
        let right = last.core;
        let form = match node {
            Node::Binary { op, ty, .. } => CoreForm::Binary {
                op,
                ty,
                left,
                right,
            },
            Node::Concat { ty, .. } => CoreForm::Concat { ty, left, right },
            Node::Equal {
                negated,
                operands,
                ty,
                ..
            } => CoreForm::Equal {
                negated,
                operands,
                ty,
                left,
                right,
            },
            Node::Less {
                op,
                operands,
                ty,
                ..
            } => CoreForm::Less {
                op,
                operands,
                ty,
                left,
                right,
            },
            Node::AndThen { ty, .. } => CoreForm::AndThen { ty, left, right },
            Node::OrElse { ty, .. } => CoreForm::OrElse { ty, left, right },
            _ => CoreForm::AndThen {
                ty: BOOL,
                left,
                right,
            },
        };
        self.give(form)
    }

    /// Two operands of another kind.
    pub fn make_both(&mut self, node: Node) -> Result<(), NoMemory> {
        let last = self.take()?;
        let first = self.take()?;
        let a = first.core;
        let b = last.core;
        let form = match node {
            Node::MapGet {
                map_type,
                with_ok,
                ..
            } => CoreForm::MapGet {
                map_type,
                with_ok,
                operand: a,
                key: b,
            },
            Node::Append { ty, from, .. } => CoreForm::Append {
                ty,
                from,
                operand: a,
                elements: b,
            },
            Node::CopyElems { ty, from, .. } => CoreForm::CopyElems {
                ty,
                from,
                target: a,
                source: b,
            },
            Node::GateAdd { .. } => CoreForm::GateAdd { cell: a, number: b },
            _ => CoreForm::ByteAt { text: a, index: b },
        };
        self.give(form)
    }
}
