//! Statements from their parts.

use crate::lower::making::Making;
use gj_base::NoMemory;
use go_check_state::node::{Callee, Span, StmtId, StmtNode, Target as TargetNode, VarRef};
use go_core::node::CoreExprs;
use go_core::statement::{
    BranchKind, Communication, CoreCase, CoreCases, CoreClause, CoreClauses, CoreStmtForm,
    CoreTest, CoreTests, Label, Target, Targets,
};
use go_type::types::TypeId;

impl<'a> Making<'a> {
    /// A statement whose parts are on the stacks.
    pub fn make_stmt(&mut self, id: StmtId) -> Result<(), NoMemory> {
        let node = self.stmt(id);
        match node {
            StmtNode::Perform { values, .. } => {
                let operand = self.take()?;
                self.give_stmt(CoreStmtForm::Perform {
                    operand: operand.core,
                    values,
                })
            }
            StmtNode::Declare(var) => {
                let var = self.declared(var)?;
                self.give_stmt(CoreStmtForm::Declare(var))
            }
            StmtNode::Store { targets, values } => self.make_store(targets, values),
            StmtNode::Close(_)
            | StmtNode::GateTake(_)
            | StmtNode::GateAwait(_)
            | StmtNode::Panic(_)
            | StmtNode::Exit(_)
            | StmtNode::Fatal(_) => self.make_with(node),
            StmtNode::MapDelete { map_type, .. } => {
                let key = self.take()?;
                let operand = self.take()?;
                self.give_stmt(CoreStmtForm::MapDelete {
                    map_type,
                    operand: operand.core,
                    key: key.core,
                })
            }
            StmtNode::Send { channel, .. } => {
                let value = self.take()?;
                let operand = self.take()?;
                self.give_stmt(CoreStmtForm::Send {
                    channel,
                    operand: operand.core,
                    value: value.core,
                })
            }
            StmtNode::Return(list) => {
                let values = self.take_all(list.len)?;
                self.give_stmt(CoreStmtForm::Return(values))
            }
            StmtNode::Print {
                operands,
                ends_line,
            } => {
                let operands = self.take_all(operands.len)?;
                self.give_stmt(CoreStmtForm::Print {
                    operands,
                    ends_line,
                })
            }
            StmtNode::GoCall { callee, operands } => self.make_start(callee, operands, false),
            StmtNode::DeferCall { callee, operands } => self.make_start(callee, operands, true),
            StmtNode::Yield => self.give_stmt(CoreStmtForm::Yield),
            StmtNode::Break(label) => self.branch(BranchKind::Break, label),
            StmtNode::Continue(label) => self.branch(BranchKind::Continue, label),
            node => self.make_control(node),
        }
    }

    fn branch(&mut self, kind: BranchKind, label: u32) -> Result<(), NoMemory> {
        self.give_stmt(CoreStmtForm::Branch {
            kind,
            label: Label(label),
        })
    }

    // A statement with one operand.
    fn make_with(&mut self, node: StmtNode) -> Result<(), NoMemory> {
        let held = self.take()?;
        let e = held.core;
        let form = match node {
            StmtNode::Close(_) => CoreStmtForm::Close(e),
            StmtNode::GateTake(_) => CoreStmtForm::GateTake(e),
            StmtNode::GateAwait(_) => CoreStmtForm::GateAwait(e),
            StmtNode::Exit(_) => CoreStmtForm::Exit(e),
            StmtNode::Fatal(_) => CoreStmtForm::Fatal(e),
            _ => CoreStmtForm::Panic(e),
        };
        self.give_stmt(form)
    }

    fn make_start(&mut self, callee: Callee, operands: Span, defers: bool) -> Result<(), NoMemory> {
        let operands = self.take_all(operands.len)?;
        self.started(callee, operands, defers)
    }

    fn started(
        &mut self,
        callee: Callee,
        operands: CoreExprs,
        defers: bool,
    ) -> Result<(), NoMemory> {
        let callee = self.callee(callee)?;
        let form = if defers {
            CoreStmtForm::DeferCall { callee, operands }
        } else {
            CoreStmtForm::GoCall { callee, operands }
        };
        self.give_stmt(form)
    }

    fn make_store(&mut self, targets: Span, values: Span) -> Result<(), NoMemory> {
        let values = self.take_all(values.len)?;
        let targets = self.take_targets(targets)?;
        self.give_stmt(CoreStmtForm::Store { targets, values })
    }

    // Left sides, from the last one on.
    fn take_targets(&mut self, targets: Span) -> Result<Targets, NoMemory> {
        let mut items: Vec<Target> = Vec::new(self.alloc);
        for number in (0..targets.len).rev() {
            let target = self.target(targets, number);
            items.push(self.take_target(target)?)?;
        }
        items.reverse();
        Ok(Targets { items })
    }

    fn take_target(&mut self, target: TargetNode) -> Result<Target, NoMemory> {
        match target {
            TargetNode::Blank => Ok(Target::Blank),
            TargetNode::Place { ty, .. } => {
                let place = self.take_place()?;
                Ok(Target::Place {
                    ty,
                    place: place.core,
                })
            }
            TargetNode::Entry { map_type, .. } => {
                let key = self.take()?;
                let operand = self.take()?;
                Ok(Target::Entry {
                    map_type,
                    operand: operand.core,
                    key: key.core,
                })
            }
        }
    }

    fn make_control(&mut self, node: StmtNode) -> Result<(), NoMemory> {
        match node {
            StmtNode::If { when_false, .. } => {
                let when_false = self.take_block_if(when_false.is_some());
                let when_true = self.take_block();
                let condition = self.take()?;
                self.give_stmt(CoreStmtForm::If {
                    condition: condition.core,
                    when_true,
                    when_false,
                })
            }
            StmtNode::Loop {
                label,
                condition,
                post,
                ..
            } => {
                let post = self.take_block_if(post.is_some());
                let body = self.take_block();
                let condition = self.take_if(condition.is_some())?;
                self.give_stmt(CoreStmtForm::Loop {
                    label: Label(label),
                    condition,
                    body,
                    post,
                })
            }
            StmtNode::RangeNext {
                label,
                from,
                key,
                value,
                ..
            } => self.make_range(label, from, key, value),
            StmtNode::Labeled { label, .. } => {
                let body = self.take_block();
                self.give_stmt(CoreStmtForm::Labeled {
                    label: Label(label),
                    body,
                })
            }
            StmtNode::SwitchOn {
                label,
                tests,
                clauses,
                default,
            } => self.make_switch(label, tests, clauses, default),
            StmtNode::SelectStep {
                label,
                cases,
                default,
            } => self.make_select(label, cases, default.is_some()),
            _ => Ok(()),
        }
    }

    fn make_range(
        &mut self,
        label: u32,
        from: TypeId,
        key: Option<VarRef>,
        value: Option<VarRef>,
    ) -> Result<(), NoMemory> {
        let body = self.take_block();
        let operand = self.take()?;
        let key = match key {
            Some(var) => Some(self.var(var)),
            None => None,
        };
        let value = match value {
            Some(var) => Some(self.var(var)),
            None => None,
        };
        self.give_stmt(CoreStmtForm::RangeNext {
            label: Label(label),
            from,
            operand: operand.core,
            key,
            value,
            body,
        })
    }

    fn make_switch(
        &mut self,
        label: u32,
        tests: Span,
        clauses: Span,
        default: Option<u32>,
    ) -> Result<(), NoMemory> {
        let clauses = self.take_clauses(clauses)?;
        let tests = self.take_tests(tests)?;
        self.give_stmt(CoreStmtForm::SwitchOn {
            label: Label(label),
            tests,
            clauses,
            default,
        })
    }

    fn take_clauses(&mut self, clauses: Span) -> Result<CoreClauses, NoMemory> {
        let mut items: Vec<CoreClause> = Vec::new(self.alloc);
        for number in (0..clauses.len / 2).rev() {
            let body = self.take_block();
            let falls_through = self
                .c
                .nodes
                .item(clauses, number.saturating_mul(2).saturating_add(1))
                == 1;
            items.push(CoreClause {
                body,
                falls_through,
            })?;
        }
        items.reverse();
        Ok(CoreClauses { items })
    }

    fn take_tests(&mut self, tests: Span) -> Result<CoreTests, NoMemory> {
        let mut items: Vec<CoreTest> = Vec::new(self.alloc);
        for number in (0..tests.len / 2).rev() {
            let clause = self
                .c
                .nodes
                .item(tests, number.saturating_mul(2).saturating_add(1));
            let condition = self.take()?;
            items.push(CoreTest {
                condition: condition.core,
                clause,
            })?;
        }
        items.reverse();
        Ok(CoreTests { items })
    }

    fn make_select(&mut self, label: u32, cases: Span, has_default: bool) -> Result<(), NoMemory> {
        let default = self.take_block_if(has_default);
        let cases = self.take_cases(cases)?;
        self.give_stmt(CoreStmtForm::SelectStep {
            label: Label(label),
            cases,
            has_default,
            default,
        })
    }

    fn take_cases(&mut self, cases: Span) -> Result<CoreCases, NoMemory> {
        let mut items: Vec<CoreCase> = Vec::new(self.alloc);
        for number in (0..cases.len / 2).rev() {
            let id = StmtId(self.c.nodes.item(cases, number.saturating_mul(2)));
            let communication = self.take_communication(id)?;
            let body = self.take_block();
            items.push(CoreCase {
                communication,
                body,
            })?;
        }
        items.reverse();
        Ok(CoreCases { items })
    }

    fn take_communication(&mut self, id: StmtId) -> Result<Communication, NoMemory> {
        match self.stmt(id) {
            StmtNode::Send { channel, .. } => {
                let value = self.take()?;
                let operand = self.take()?;
                Ok(Communication::Send {
                    channel,
                    operand: operand.core,
                    value: value.core,
                })
            }
            StmtNode::Received { channel, vars, .. } => {
                let vars = self.variables(vars)?;
                let operand = self.take()?;
                Ok(Communication::Receive {
                    channel,
                    operand: operand.core,
                    vars,
                })
            }
            _ => {
                let operand = self.take()?;
                let vars = self.variables(Span { start: 0, len: 0 })?;
                Ok(Communication::Receive {
                    channel: go_check_state::NONE,
                    operand: operand.core,
                    vars,
                })
            }
        }
    }
}
