//! The parts of an expression, which are looked at before it is made.

use crate::lower::making::{Making, Task};
use gj_base::NoMemory;
use go_check_state::node::{Callee, Node, NodeId, PlaceId, PlaceNode, Span};

impl<'a> Making<'a> {
    /// Looks at an expression: its parts come first, from left to right, then it is made.
    pub fn visit(&mut self, id: NodeId) -> Result<(), NoMemory> {
        self.todo(Task::MakeExpr(id))?;
        match self.c.nodes.get(id) {
            Node::Invalid
            | Node::Const { .. }
            | Node::Zero { .. }
            | Node::Closure { .. }
            | Node::New { .. }
            | Node::Recover { .. }
            | Node::Do(_) => Ok(()),
            Node::Read { place, .. } | Node::Address { place, .. } => {
                self.todo(Task::Place(place))
            }
            node => self.visit_operands(node),
        }
    }

    fn visit_operands(&mut self, node: Node) -> Result<(), NoMemory> {
        match node {
            Node::Unary { operand, .. }
            | Node::Not { operand, .. }
            | Node::Convert { operand, .. }
            | Node::Len { operand, .. }
            | Node::Cap { operand, .. }
            | Node::Wrap { operand, .. }
            | Node::Assert { operand, .. }
            | Node::Basic { operand, .. }
            | Node::Receive { operand, .. } => self.todo(Task::Expr(operand)),
            Node::Bind { receiver, .. } | Node::BindDynamic { receiver, .. } => {
                self.todo(Task::Expr(receiver))
            }
            Node::GateMake { pointer } => self.todo(Task::Expr(pointer)),
            Node::Binary { left, right, .. }
            | Node::Concat { left, right, .. }
            | Node::Equal { left, right, .. }
            | Node::Less { left, right, .. }
            | Node::AndThen { left, right, .. }
            | Node::OrElse { left, right, .. } => self.two(left, right),
            Node::ByteAt { text, index } => self.two(text, index),
            Node::MapGet { operand, key, .. } => self.two(operand, key),
            Node::Append {
                operand,
                elements,
                ..
            } => self.two(operand, elements),
            Node::CopyElems { target, source, .. } => self.two(target, source),
            Node::GateAdd { cell, number } => self.two(cell, number),
            node => self.visit_more(node),
        }
    }

    fn visit_more(&mut self, node: Node) -> Result<(), NoMemory> {
        match node {
            Node::SliceOf {
                operand,
                low,
                high,
                limit,
                ..
            } => {
                self.maybe(limit)?;
                self.maybe(high)?;
                self.maybe(low)?;
                self.todo(Task::Expr(operand))
            }
            Node::Build { elements, .. } => self.every_other(elements),
            Node::BuildMap { pairs, .. } => self.all(pairs),
            Node::Call {
                callee,
                operands,
                ..
            } => {
                self.all(operands)?;
                self.visit_callee(callee)
            }
            Node::MakeSlice {
                length,
                capacity,
                ..
            } => {
                self.maybe(capacity)?;
                self.todo(Task::Expr(length))
            }
            Node::MakeMap { count, .. } => self.maybe(count),
            Node::MakeChan { capacity, .. } => self.maybe(capacity),
            Node::Let { values, body, .. } => {
                self.todo(Task::Expr(body))?;
                self.all(values)
            }
            _ => Ok(()),
        }
    }

    /// The expression of what is called, if it has one.
    pub fn visit_callee(&mut self, callee: Callee) -> Result<(), NoMemory> {
        match callee {
            Callee::Function(_) | Callee::Method { .. } => Ok(()),
            Callee::Value(e) => self.todo(Task::Expr(e)),
            Callee::Dynamic { receiver, .. } => self.todo(Task::Expr(receiver)),
        }
    }

    /// Two operands.
    pub fn two(&mut self, left: NodeId, right: NodeId) -> Result<(), NoMemory> {
        self.todo(Task::Expr(right))?;
        self.todo(Task::Expr(left))
    }

    /// An operand that may be missing.
    pub fn maybe(&mut self, operand: Option<NodeId>) -> Result<(), NoMemory> {
        match operand {
            Some(e) => self.todo(Task::Expr(e)),
            None => Ok(()),
        }
    }

    /// The expressions of a list.
    pub fn all(&mut self, list: Span) -> Result<(), NoMemory> {
        for number in (0..list.len).rev() {
            let id = NodeId(self.c.nodes.item(list, number));
            self.todo(Task::Expr(id))?;
        }
        Ok(())
    }

    // The values of a list of indexes and values.
    fn every_other(&mut self, list: Span) -> Result<(), NoMemory> {
        for number in (0..list.len / 2).rev() {
            let id = NodeId(
                self.c
                    .nodes
                    .item(list, number.saturating_mul(2).saturating_add(1)),
            );
            self.todo(Task::Expr(id))?;
        }
        Ok(())
    }

    /// Looks at a place.
    pub fn visit_place(&mut self, id: PlaceId) -> Result<(), NoMemory> {
        self.todo(Task::MakePlace(id))?;
        match self.c.nodes.places.get(id.0 as usize).copied() {
            Some(PlaceNode::Deref(e)) => self.todo(Task::Expr(e)),
            Some(PlaceNode::Field { place, .. }) => self.todo(Task::Place(place)),
            Some(PlaceNode::Elem { place, index, .. }) => {
                self.todo(Task::Expr(index))?;
                self.todo(Task::Place(place))
            }
            Some(PlaceNode::SliceElem { operand, index, .. }) => self.two(operand, index),
            _ => Ok(()),
        }
    }
}
