//! The parts of a statement, which are looked at before it is made.

use crate::lower::making::{Making, Task};
use gj_base::NoMemory;
use go_check_state::node::{NodeId, Span, StmtId, StmtNode, Target};

impl<'a> Making<'a> {
    /// The statement with a number.
    pub fn stmt(&self, id: StmtId) -> StmtNode {
        match self.c.nodes.stmts.get(id.0 as usize) {
            Some(node) => *node,
            None => StmtNode::Seq(Span { start: 0, len: 0 }),
        }
    }

    /// Looks at a statement of a list.
    pub fn visit_stmt(&mut self, id: StmtId) -> Result<(), NoMemory> {
        let node = self.stmt(id);
        if let StmtNode::Seq(list) = node {
            for number in (0..list.len).rev() {
                let part = StmtId(self.c.nodes.item(list, number));
                self.todo(Task::Stmt(part))?;
            }
            return Ok(());
        }
        self.todo(Task::MakeStmt(id))?;
        self.visit_parts(node)
    }

    fn visit_parts(&mut self, node: StmtNode) -> Result<(), NoMemory> {
        match node {
            StmtNode::Perform { operand, .. } => self.todo(Task::Expr(operand)),
            StmtNode::Close(e)
            | StmtNode::GateTake(e)
            | StmtNode::GateAwait(e)
            | StmtNode::Panic(e)
            | StmtNode::Exit(e)
            | StmtNode::Fatal(e) => self.todo(Task::Expr(e)),
            StmtNode::MapDelete { operand, key, .. } => self.two(operand, key),
            StmtNode::Send { operand, value, .. } => self.two(operand, value),
            StmtNode::Received { operand, .. } => self.todo(Task::Expr(operand)),
            StmtNode::Return(list) => self.all(list),
            StmtNode::Print { operands, .. } => self.all(operands),
            StmtNode::GoCall { callee, operands } | StmtNode::DeferCall { callee, operands } => {
                self.all(operands)?;
                self.visit_callee(callee)
            }
            StmtNode::Store { targets, values } => {
                self.all(values)?;
                self.visit_targets(targets)
            }
            node => self.visit_control(node),
        }
    }

    fn visit_control(&mut self, node: StmtNode) -> Result<(), NoMemory> {
        match node {
            StmtNode::If {
                condition,
                when_true,
                when_false,
            } => {
                self.open_if(when_false)?;
                self.todo(Task::Open(when_true))?;
                self.todo(Task::Expr(condition))
            }
            StmtNode::Loop {
                condition,
                body,
                post,
                ..
            } => {
                self.open_if(post)?;
                self.todo(Task::Open(body))?;
                self.maybe(condition)
            }
            StmtNode::RangeNext { operand, body, .. } => {
                self.todo(Task::Open(body))?;
                self.todo(Task::Expr(operand))
            }
            StmtNode::Labeled { body, .. } => self.todo(Task::Open(body)),
            StmtNode::SwitchOn { tests, clauses, .. } => {
                self.open_each(clauses, 0)?;
                for number in (0..tests.len / 2).rev() {
                    let test = NodeId(self.c.nodes.item(tests, number.saturating_mul(2)));
                    self.todo(Task::Expr(test))?;
                }
                Ok(())
            }
            StmtNode::SelectStep { cases, default, .. } => {
                self.open_if(default)?;
                self.open_each(cases, 1)?;
                self.visit_cases(cases)
            }
            _ => Ok(()),
        }
    }

    fn open_if(&mut self, body: Option<StmtId>) -> Result<(), NoMemory> {
        match body {
            Some(body) => self.todo(Task::Open(body)),
            None => Ok(()),
        }
    }

    // The bodies in a list of pairs, each at a place of its pair.
    fn open_each(&mut self, pairs: Span, at: u32) -> Result<(), NoMemory> {
        for number in (0..pairs.len / 2).rev() {
            let item = number.saturating_mul(2).saturating_add(at);
            let body = StmtId(self.c.nodes.item(pairs, item));
            self.todo(Task::Open(body))?;
        }
        Ok(())
    }

    // The operands of communications.
    fn visit_cases(&mut self, cases: Span) -> Result<(), NoMemory> {
        for number in (0..cases.len / 2).rev() {
            let id = StmtId(self.c.nodes.item(cases, number.saturating_mul(2)));
            match self.stmt(id) {
                StmtNode::Send { operand, value, .. } => self.two(operand, value)?,
                StmtNode::Received { operand, .. } => self.todo(Task::Expr(operand))?,
                _ => {}
            }
        }
        Ok(())
    }

    // The operands of left sides.
    fn visit_targets(&mut self, targets: Span) -> Result<(), NoMemory> {
        for number in (0..targets.len).rev() {
            match self.target(targets, number) {
                Target::Place { place, .. } => self.todo(Task::Place(place))?,
                Target::Entry { operand, key, .. } => self.two(operand, key)?,
                Target::Blank => {}
            }
        }
        Ok(())
    }

    /// A left side of a list.
    pub fn target(&self, targets: Span, number: u32) -> Target {
        let id = self.c.nodes.item(targets, number);
        match self.c.nodes.targets.get(id as usize) {
            Some(target) => *target,
            None => Target::Blank,
        }
    }

    /// A statement becomes a list of its own.
    pub fn open(&mut self, id: StmtId) -> Result<(), NoMemory> {
        let height = self.stmts.len();
        self.todo(Task::Close(height))?;
        self.todo(Task::Stmt(id))
    }
}
