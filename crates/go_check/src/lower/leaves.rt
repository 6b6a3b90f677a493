//! Expressions without parts, or with one.

use crate::lower::making::Making;
use gj_base::NoMemory;
use go_check_state::node::{ConstId, Node};
use go_const::Const;
use go_core::node::{Constant, CoreForm};
use go_type::predeclared::BOOL;
use go_type::types::TypeId;

impl<'a> Making<'a> {
    /// An expression without operands.
    pub fn make_leaf(&mut self, node: Node) -> Result<(), NoMemory> {
        match node {
            Node::Const { ty, value } => self.constant(ty, value),
            Node::Zero { ty } => self.give(CoreForm::Zero { ty }),
            Node::Closure { ty, func } => {
                let func = self.func(func.0);
                self.give(CoreForm::Closure { ty, func })
            }
            Node::New { ty } => self.give(CoreForm::New { ty }),
            Node::Recover { ty } => self.give(CoreForm::Recover { ty }),
            _ => self.give(CoreForm::Zero { ty: BOOL }),
        }
    }

    fn constant(&mut self, ty: TypeId, value: ConstId) -> Result<(), NoMemory> {
        let value = match self.c.constant(value) {
            Some(Const::Bool(x)) => Constant::Bool(*x),
            Some(Const::Int(x)) | Some(Const::Rune(x)) => Constant::Int(*x),
            Some(Const::Text(text)) => Constant::Text(text.clone()?),
            None => Constant::Bool(false),
        };
        self.give(CoreForm::Const { ty, value })
    }

    /// An expression with a place.
    pub fn make_access(&mut self, node: Node) -> Result<(), NoMemory> {
        let place = self.take_place()?;
        match node {
            Node::Address { ty, .. } => self.give(CoreForm::Address {
                ty,
                place: place.core,
            }),
            Node::Read { ty, .. } => self.give(CoreForm::Read {
                ty,
                place: place.core,
            }),
            _ => Ok(()),
        }
    }

    /// An expression with one operand.
    pub fn make_one(&mut self, node: Node) -> Result<(), NoMemory> {
        let held = self.take()?;
        let operand = held.core;
        let form = match node {
            Node::Unary { op, ty, .. } => CoreForm::Unary { op, ty, operand },
            Node::Not { ty, .. } => CoreForm::Not { ty, operand },
            Node::Convert { from, ty, .. } => CoreForm::Convert { from, ty, operand },
            Node::Len { from, .. } => CoreForm::Len { from, operand },
            Node::Cap { from, .. } => CoreForm::Cap { from, operand },
            Node::Wrap { from, ty, .. } => CoreForm::Wrap { from, ty, operand },
            Node::Assert { ty, with_ok, .. } => CoreForm::Assert {
                ty,
                with_ok,
                operand,
            },
            Node::Receive {
                channel,
                with_ok,
                ..
            } => CoreForm::Receive {
                channel,
                with_ok,
                operand,
            },
            Node::GateMake { .. } => CoreForm::GateMake { pointer: operand },
            Node::Basic { ty, .. } => CoreForm::Basic { ty, operand },
            _ => CoreForm::Basic { ty: BOOL, operand },
        };
        self.give(form)
    }
}
