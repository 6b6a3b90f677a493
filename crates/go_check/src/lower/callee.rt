//! Calls, and what is called.

use crate::lower::making::Making;
use gj_base::NoMemory;
use go_check_state::node::{Callee, Node, Span};
use go_core::node::{Callee as CoreCallee, CoreExprs, CoreForm, MethodName};
use go_type::Ids;
use go_type::types::TypeId;

impl<'a> Making<'a> {
    /// What is called; its expression is the last one.
    pub fn callee(&mut self, callee: Callee) -> Result<CoreCallee, NoMemory> {
        match callee {
            Callee::Function(func) => Ok(CoreCallee::Function(self.func(func.0))),
            Callee::Method { ty, name, package } => {
                let name = self.text(name)?;
                let package = self.text(package)?;
                Ok(CoreCallee::Method(MethodName { ty, name, package }))
            }
            Callee::Value(_) => {
                let value = self.take()?;
                Ok(CoreCallee::Value(value.core))
            }
            Callee::Dynamic { name, package, .. } => {
                let name = self.text(name)?;
                let package = self.text(package)?;
                let receiver = self.take()?;
                Ok(CoreCallee::Dynamic {
                    name,
                    package,
                    receiver: receiver.core,
                })
            }
        }
    }

    /// The types of a signature's results.
    pub fn results(&self, sig: TypeId) -> Result<Ids, NoMemory> {
        match self.c.sig_copy(sig)? {
            Some(sig) => Ok(sig.results),
            None => Ok(Ids::new(self.alloc)),
        }
    }

    /// A call whose parts are on the stack.
    pub fn make_call(
        &mut self,
        sig: TypeId,
        callee: Callee,
        operands: Span,
    ) -> Result<(), NoMemory> {
        let results = self.results(sig)?;
        let operands = self.take_all(operands.len)?;
        self.called(results, callee, operands)
    }

    fn called(
        &mut self,
        results: Ids,
        callee: Callee,
        operands: CoreExprs,
    ) -> Result<(), NoMemory> {
        let callee = self.callee(callee)?;
        self.give(CoreForm::Call {
            results,
            callee,
            operands,
        })
    }

    /// A method value.
    pub fn make_bind(&mut self, node: Node) -> Result<(), NoMemory> {
        match node {
            Node::Bind {
                ty,
                of,
                name,
                package,
                ..
            } => {
                let name = self.text(name)?;
                let package = self.text(package)?;
                let receiver = self.take()?;
                self.give(CoreForm::Bind {
                    ty,
                    method: MethodName {
                        ty: of,
                        name,
                        package,
                    },
                    receiver: receiver.core,
                })
            }
            Node::BindDynamic {
                ty,
                name,
                package,
                ..
            } => {
                let name = self.text(name)?;
                let package = self.text(package)?;
                let receiver = self.take()?;
                self.give(CoreForm::BindDynamic {
                    ty,
                    name,
                    package,
                    receiver: receiver.core,
                })
            }
            _ => Ok(()),
        }
    }
}
