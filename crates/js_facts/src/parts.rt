//! The parts of a program's nodes, in no order that matters: each part is looked at once.

use crate::facts::Facts;
use go_core::node::{Callee, CoreExpr, CoreForm, CorePlace, PlaceForm};
use go_core::statement::{Communication, CoreCase, CoreStmt, CoreStmtForm, CoreStmts, Target};

/// A part that hasn't been looked at yet.
#[derive(Clone, Copy)]
pub enum Part<'p> {
    Expr(&'p CoreExpr),
    Place(&'p CorePlace),
    Stmt(&'p CoreStmt),
}

impl<'p> Facts<'p> {
    /// Looks at all parts of a body.
    pub fn visit_body(&mut self, body: &'p CoreStmts, func: usize) {
        self.push_stmts(body);
        self.visit(func);
    }

    /// Looks at all parts of an initialiser.
    pub fn visit_initialiser(&mut self, e: &'p CoreExpr) {
        self.push_expr(e);
        let none = self.program.funcs.items.len();
        self.visit(none);
    }

    // Looks at what there is to be looked at, which stands in a function.
    fn visit(&mut self, func: usize) {
        for _ in 0..u64::MAX {
            let Some(part) = self.work.pop() else {
                return;
            };
            match part {
                Part::Expr(e) => self.visit_expr(e),
                Part::Place(p) => self.visit_place(p),
                Part::Stmt(s) => self.visit_stmt(s, func),
            }
        }
    }

    fn push(&mut self, part: Part<'p>) {
        if self.work.push(part).is_err() {
            self.failed = true;
        }
    }

    fn push_expr(&mut self, e: &'p CoreExpr) {
        self.push(Part::Expr(e));
    }

    fn push_two(&mut self, a: &'p CoreExpr, b: &'p CoreExpr) {
        self.push(Part::Expr(a));
        self.push(Part::Expr(b));
    }

    fn push_bound(&mut self, e: &'p Option<CoreExpr>) {
        if let Some(e) = e {
            self.push(Part::Expr(e));
        }
    }

    fn push_exprs(&mut self, es: &'p [CoreExpr]) {
        for e in es {
            self.push(Part::Expr(e));
        }
    }

    fn push_stmts(&mut self, list: &'p CoreStmts) {
        for s in list.items.as_slice() {
            self.push(Part::Stmt(s));
        }
    }

    fn push_callee(&mut self, c: &'p Callee) {
        match c {
            Callee::Function(_) | Callee::Method(_) => {}
            Callee::Value(e) => self.push_expr(e),
            Callee::Dynamic { receiver, .. } => self.push_expr(receiver),
        }
    }

    // ---- places

    fn visit_place(&mut self, p: &'p CorePlace) {
        match &*p.form {
            PlaceForm::Local(_) | PlaceForm::Global(_) => {}
            PlaceForm::Deref(e) => self.push_expr(e),
            PlaceForm::Field { place, .. } => self.push(Part::Place(place)),
            PlaceForm::Elem { place, index, .. } => {
                self.push(Part::Place(place));
                self.push_expr(index);
            }
            PlaceForm::SliceElem { operand, index, .. } => self.push_two(operand, index),
        }
    }

    fn visit_address(&mut self, p: &'p CorePlace) {
        match &*p.form {
            PlaceForm::Local(v) => self.set_boxed(*v),
            _ => self.push(Part::Place(p)),
        }
    }

    // ---- expressions

    fn visit_expr(&mut self, e: &'p CoreExpr) {
        match &*e.form {
            CoreForm::Read { place, .. } => self.push(Part::Place(place)),
            CoreForm::Address { place, .. } => self.visit_address(place),
            CoreForm::Unary { operand, .. }
            | CoreForm::Not { operand, .. }
            | CoreForm::Convert { operand, .. }
            | CoreForm::Len { operand, .. }
            | CoreForm::Cap { operand, .. }
            | CoreForm::Receive { operand, .. } => self.push_expr(operand),
            CoreForm::Binary { left, right, .. }
            | CoreForm::Concat { left, right, .. }
            | CoreForm::Equal { left, right, .. }
            | CoreForm::Less { left, right, .. }
            | CoreForm::AndThen { left, right, .. }
            | CoreForm::OrElse { left, right, .. } => self.push_two(left, right),
            CoreForm::Call {
                callee,
                operands,
                ..
            } => {
                self.push_callee(callee);
                self.push_exprs(operands.items.as_slice());
            }
            CoreForm::Let { values, body, .. } => {
                self.push_exprs(values.items.as_slice());
                self.push_expr(body);
            }
            _ => self.visit_memory(e),
        }
    }

    fn visit_memory(&mut self, e: &'p CoreExpr) {
        match &*e.form {
            CoreForm::ByteAt { text, index } => self.push_two(text, index),
            CoreForm::SliceOf {
                operand,
                low,
                high,
                limit,
                ..
            } => {
                self.push_expr(operand);
                self.push_bound(low);
                self.push_bound(high);
                self.push_bound(limit);
            }
            CoreForm::Build { elements, .. } => {
                for e in elements.items.as_slice() {
                    self.push_expr(&e.value);
                }
            }
            CoreForm::BuildMap { pairs, .. } => {
                for p in pairs.items.as_slice() {
                    self.push_two(&p.key, &p.value);
                }
            }
            CoreForm::MapGet { operand, key, .. } => self.push_two(operand, key),
            CoreForm::Append {
                operand,
                elements,
                ..
            } => self.push_two(operand, elements),
            CoreForm::CopyElems { target, source, .. } => self.push_two(target, source),
            CoreForm::MakeSlice {
                length,
                capacity,
                ..
            } => {
                self.push_expr(length);
                self.push_bound(capacity);
            }
            CoreForm::MakeMap { count, .. } => self.push_bound(count),
            CoreForm::MakeChan { capacity, .. } => self.push_bound(capacity),
            _ => self.visit_dynamic(e),
        }
    }

    fn visit_dynamic(&mut self, e: &'p CoreExpr) {
        match &*e.form {
            CoreForm::Closure { ty, func } => self.take_function(*ty, *func),
            CoreForm::Bind {
                ty,
                method,
                receiver,
            } => {
                self.take_method(*ty, method);
                self.push_expr(receiver);
            }
            CoreForm::BindDynamic {
                ty,
                name,
                package,
                receiver,
            } => {
                self.take_dynamic(*ty, name, package, receiver);
                self.push_expr(receiver);
            }
            CoreForm::Wrap { from, operand, .. } => {
                self.set_dynamic(*from);
                self.push_expr(operand);
            }
            CoreForm::Assert { ty, operand, .. } => {
                self.set_dynamic(*ty);
                self.push_expr(operand);
            }
            CoreForm::Basic { operand, .. } => self.push_expr(operand),
            CoreForm::GateMake { pointer } => self.push_expr(pointer),
            CoreForm::GateAdd { cell, number } => self.push_two(cell, number),
            _ => {}
        }
    }

    // ---- statements

    fn visit_stmt(&mut self, s: &'p CoreStmt, func: usize) {
        match &*s.form {
            CoreStmtForm::Seq(list) => self.push_stmts(list),
            CoreStmtForm::Perform { operand, .. } => self.push_expr(operand),
            CoreStmtForm::Store { targets, values } => {
                for t in targets.items.as_slice() {
                    self.visit_target(t);
                }
                self.push_exprs(values.items.as_slice());
            }
            CoreStmtForm::MapDelete { operand, key, .. } => self.push_two(operand, key),
            CoreStmtForm::Return(values) => self.push_exprs(values.items.as_slice()),
            CoreStmtForm::Print { operands, .. } => self.push_exprs(operands.items.as_slice()),
            CoreStmtForm::Send { operand, value, .. } => self.push_two(operand, value),
            CoreStmtForm::GoCall { callee, operands } => {
                self.push_callee(callee);
                self.push_exprs(operands.items.as_slice());
            }
            CoreStmtForm::DeferCall { callee, operands } => {
                self.set_defers(func);
                self.push_callee(callee);
                self.push_exprs(operands.items.as_slice());
            }
            CoreStmtForm::Close(e)
            | CoreStmtForm::GateTake(e)
            | CoreStmtForm::GateAwait(e)
            | CoreStmtForm::Panic(e)
            | CoreStmtForm::Exit(e)
            | CoreStmtForm::Fatal(e) => self.push_expr(e),
            _ => self.visit_control(s),
        }
    }

    fn visit_control(&mut self, s: &'p CoreStmt) {
        match &*s.form {
            CoreStmtForm::If {
                condition,
                when_true,
                when_false,
            } => {
                self.push_expr(condition);
                self.push_stmts(when_true);
                self.push_stmts(when_false);
            }
            CoreStmtForm::Loop {
                condition,
                body,
                post,
                ..
            } => {
                self.push_bound(condition);
                self.push_stmts(body);
                self.push_stmts(post);
            }
            CoreStmtForm::SwitchOn { tests, clauses, .. } => {
                for t in tests.items.as_slice() {
                    self.push_expr(&t.condition);
                }
                for c in clauses.items.as_slice() {
                    self.push_stmts(&c.body);
                }
            }
            CoreStmtForm::RangeNext { operand, body, .. } => {
                self.push_expr(operand);
                self.push_stmts(body);
            }
            CoreStmtForm::Labeled { body, .. } => self.push_stmts(body),
            CoreStmtForm::SelectStep { cases, default, .. } => {
                for c in cases.items.as_slice() {
                    self.visit_case(c);
                }
                self.push_stmts(default);
            }
            _ => {}
        }
    }

    fn visit_case(&mut self, c: &'p CoreCase) {
        match &c.communication {
            Communication::Send { operand, value, .. } => self.push_two(operand, value),
            Communication::Receive { operand, .. } => self.push_expr(operand),
        }
        self.push_stmts(&c.body);
    }

    fn visit_target(&mut self, t: &'p Target) {
        match t {
            Target::Blank => {}
            Target::Place { place, .. } => self.push(Part::Place(place)),
            Target::Entry { operand, key, .. } => self.push_two(operand, key),
        }
    }
}
