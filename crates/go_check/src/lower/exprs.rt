//! Expressions from their parts.

use crate::lower::making::Making;
use gj_base::NoMemory;
use go_check_state::node::{Node, NodeId, Span, VarRef};
use go_core::node::{CoreElement, CoreElements, CoreExprs, CoreForm, CorePair, CorePairs, Vars};
use go_type::types::TypeId;

impl<'a> Making<'a> {
    /// An expression whose parts are on the stacks.
    pub fn make(&mut self, id: NodeId) -> Result<(), NoMemory> {
        let node = self.c.nodes.get(id);
        match node {
            Node::Invalid
            | Node::Const { .. }
            | Node::Zero { .. }
            | Node::Closure { .. }
            | Node::New { .. }
            | Node::Recover { .. }
            | Node::Do(_) => self.make_leaf(node),
            Node::Read { .. } | Node::Address { .. } => self.make_access(node),
            Node::Unary { .. }
            | Node::Not { .. }
            | Node::Convert { .. }
            | Node::Len { .. }
            | Node::Cap { .. }
            | Node::Wrap { .. }
            | Node::Assert { .. }
            | Node::Basic { .. }
            | Node::GateMake { .. }
            | Node::Receive { .. } => self.make_one(node),
            Node::Bind { .. } | Node::BindDynamic { .. } => self.make_bind(node),
            Node::Binary { .. }
            | Node::Concat { .. }
            | Node::Equal { .. }
            | Node::Less { .. }
            | Node::AndThen { .. }
            | Node::OrElse { .. } => self.make_two(node),
            Node::ByteAt { .. }
            | Node::MapGet { .. }
            | Node::Append { .. }
            | Node::CopyElems { .. }
            | Node::GateAdd { .. } => self.make_both(node),
            _ => self.make_more(node),
        }
    }

    fn make_more(&mut self, node: Node) -> Result<(), NoMemory> {
        match node {
            Node::SliceOf {
                from,
                ty,
                low,
                high,
                limit,
                ..
            } => self.make_slice(from, ty, low.is_some(), high.is_some(), limit.is_some()),
            Node::Build {
                ty,
                count,
                elements,
            } => self.make_build(ty, count, elements),
            Node::BuildMap { ty, pairs } => self.make_map(ty, pairs),
            Node::Call {
                sig,
                callee,
                operands,
            } => self.make_call(sig, callee, operands),
            Node::MakeSlice { ty, capacity, .. } => {
                let capacity = self.take_if(capacity.is_some())?;
                let length = self.take()?;
                self.give(CoreForm::MakeSlice {
                    ty,
                    length: length.core,
                    capacity,
                })
            }
            Node::MakeMap { ty, count } => {
                let count = self.take_if(count.is_some())?;
                self.give(CoreForm::MakeMap { ty, count })
            }
            Node::MakeChan { ty, capacity } => {
                let capacity = self.take_if(capacity.is_some())?;
                self.give(CoreForm::MakeChan { ty, capacity })
            }
            Node::Let { vars, values, .. } => self.make_let(vars, values),
            _ => Ok(()),
        }
    }

    fn make_slice(
        &mut self,
        from: TypeId,
        ty: TypeId,
        has_low: bool,
        has_high: bool,
        has_limit: bool,
    ) -> Result<(), NoMemory> {
        let limit = self.take_if(has_limit)?;
        let high = self.take_if(has_high)?;
        let low = self.take_if(has_low)?;
        let operand = self.take()?;
        self.give(CoreForm::SliceOf {
            from,
            ty,
            operand: operand.core,
            low,
            high,
            limit,
        })
    }

    fn make_build(&mut self, ty: TypeId, count: u32, elements: Span) -> Result<(), NoMemory> {
        let many = elements.len / 2;
        let values = self.take_all(many)?;
        let mut items: Vec<CoreElement> = Vec::new(self.alloc);
        let mut number = 0u32;
        for value in values.items {
            let index = self.c.nodes.item(elements, number.saturating_mul(2));
            items.push(CoreElement { index, value })?;
            number = number.saturating_add(1);
        }
        self.give(CoreForm::Build {
            ty,
            count,
            elements: CoreElements { items },
        })
    }

    // Pairs, from the last one on.
    fn make_map(&mut self, ty: TypeId, pairs: Span) -> Result<(), NoMemory> {
        let mut items: Vec<CorePair> = Vec::new(self.alloc);
        for _ in 0..pairs.len / 2 {
            let value = self.take()?;
            let key = self.take()?;
            items.push(CorePair {
                key: key.core,
                value: value.core,
            })?;
        }
        items.reverse();
        self.give(CoreForm::BuildMap {
            ty,
            pairs: CorePairs { items },
        })
    }

    // The body is the last one, the values stand before it.
    fn make_let(&mut self, vars: Span, values: Span) -> Result<(), NoMemory> {
        let body = self.take()?;
        let vars = self.variables(vars)?;
        let values: CoreExprs = self.take_all(values.len)?;
        self.give(CoreForm::Let {
            vars,
            values,
            body: body.core,
        })
    }

    /// The variables of a list, which are declared here.
    pub fn variables(&mut self, list: Span) -> Result<Vars, NoMemory> {
        let mut items = Vec::new(self.alloc);
        for number in 0..list.len {
            let var = VarRef(self.c.nodes.item(list, number));
            items.push(self.declared(var)?)?;
        }
        Ok(Vars { items })
    }
}
