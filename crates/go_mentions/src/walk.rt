//! The walk over the parts of a body or an initialiser.

use crate::mention::Mention;
use crate::types::type_of;
use gj_base::NoMemory;
use go_core::node::{Callee, CoreExpr, CoreForm, CorePlace, PlaceForm};
use go_core::statement::{Communication, CoreCase, CoreStmt, CoreStmtForm, CoreStmts, Target};
use go_type::TypeTable;
use std::alloc::Global;

/// A part that hasn't been looked at yet.
#[derive(Clone, Copy)]
enum Part<'p> {
    Expr(&'p CoreExpr),
    Place(&'p CorePlace),
    Stmt(&'p CoreStmt),
}

/// A walk: what is left, and what was found. It remembers that memory ran out.
#[derive(Drop)]
struct Walk<'p> {
    table: &'p TypeTable,
    work: Vec<Part<'p>>,
    found: Vec<Mention<'p>>,
    failed: bool,
}

/// What statements mention. The body of a literal is its own.
pub fn in_body<'p>(
    alloc: Global,
    table: &'p TypeTable,
    body: &'p CoreStmts,
) -> Result<Vec<Mention<'p>>, NoMemory> {
    let mut walk = begin(alloc, table);
    walk.stmts(body);
    walk.finish()
}

/// What an initialiser mentions.
pub fn in_initialiser<'p>(
    alloc: Global,
    table: &'p TypeTable,
    e: &'p CoreExpr,
) -> Result<Vec<Mention<'p>>, NoMemory> {
    let mut walk = begin(alloc, table);
    walk.expr(e);
    walk.finish()
}

fn begin<'p>(alloc: Global, table: &'p TypeTable) -> Walk<'p> {
    Walk {
        table,
        work: Vec::new(alloc),
        found: Vec::new(alloc),
        failed: false,
    }
}

impl<'p> Walk<'p> {
    fn finish(self) -> Result<Vec<Mention<'p>>, NoMemory> {
        let mut walk = self;
        walk.go();
        let Walk { found, failed, .. } = walk;
        if failed {
            return Err(NoMemory);
        }
        Ok(found)
    }

    fn go(&mut self) {
        for _ in 0..u64::MAX {
            let Some(part) = self.work.pop() else {
                return;
            };
            match part {
                Part::Expr(e) => self.look_at_expr(e),
                Part::Place(p) => self.look_at_place(p),
                Part::Stmt(s) => self.look_at_stmt(s),
            }
        }
    }

    fn find(&mut self, m: Mention<'p>) {
        if self.found.push(m).is_err() {
            self.failed = true;
        }
    }

    fn push(&mut self, part: Part<'p>) {
        if self.work.push(part).is_err() {
            self.failed = true;
        }
    }

    fn expr(&mut self, e: &'p CoreExpr) {
        self.push(Part::Expr(e));
    }

    fn two(&mut self, a: &'p CoreExpr, b: &'p CoreExpr) {
        self.push(Part::Expr(a));
        self.push(Part::Expr(b));
    }

    fn bound(&mut self, e: &'p Option<CoreExpr>) {
        if let Some(e) = e {
            self.push(Part::Expr(e));
        }
    }

    fn exprs(&mut self, es: &'p [CoreExpr]) {
        for e in es {
            self.push(Part::Expr(e));
        }
    }

    fn stmts(&mut self, list: &'p CoreStmts) {
        for s in list.items.as_slice() {
            self.push(Part::Stmt(s));
        }
    }

    // ---- what is called

    fn called(&mut self, callee: &'p Callee) {
        match callee {
            Callee::Function(f) => self.find(Mention::CallsFunction(*f)),
            Callee::Method(name) => self.find(Mention::CallsMethod(name)),
            Callee::Value(e) => {
                let t = type_of(self.table, e);
                self.find(Mention::CallsValue(t));
                self.expr(e);
            }
            Callee::Dynamic {
                name,
                package,
                receiver,
            } => {
                let t = type_of(self.table, receiver);
                self.find(Mention::CallsDynamic(name, package, t));
                self.expr(receiver);
            }
        }
    }

    fn started(&mut self, callee: &'p Callee) {
        match callee {
            Callee::Function(f) => self.find(Mention::StartsFunction(*f)),
            Callee::Method(name) => self.find(Mention::StartsMethod(name)),
            Callee::Value(e) => self.expr(e),
            Callee::Dynamic { receiver, .. } => self.expr(receiver),
        }
    }

    // ---- places

    fn look_at_place(&mut self, p: &'p CorePlace) {
        match &*p.form {
            PlaceForm::Local(_) => {}
            PlaceForm::Global(n) => self.find(Mention::NamesGlobal(*n)),
            PlaceForm::Deref(e) => self.expr(e),
            PlaceForm::Field { place, .. } => self.push(Part::Place(place)),
            PlaceForm::Elem { place, index, .. } => {
                self.push(Part::Place(place));
                self.expr(index);
            }
            PlaceForm::SliceElem { operand, index, .. } => self.two(operand, index),
        }
    }

    fn address(&mut self, p: &'p CorePlace) {
        self.variable(p);
        self.push(Part::Place(p));
    }

    // The variable that a place is, or is a part of.
    fn variable(&mut self, p: &'p CorePlace) {
        match &*p.form {
            PlaceForm::Local(v) => self.find(Mention::TakesAddress(*v)),
            PlaceForm::Field { place, .. } | PlaceForm::Elem { place, .. } => self.variable(place),
            _ => {}
        }
    }

    // ---- expressions

    fn look_at_expr(&mut self, e: &'p CoreExpr) {
        match &*e.form {
            CoreForm::Read { place, .. } => self.push(Part::Place(place)),
            CoreForm::Address { place, .. } => self.address(place),
            CoreForm::Unary { operand, .. }
            | CoreForm::Not { operand, .. }
            | CoreForm::Convert { operand, .. }
            | CoreForm::Len { operand, .. }
            | CoreForm::Cap { operand, .. }
            | CoreForm::Wrap { operand, .. }
            | CoreForm::Assert { operand, .. }
            | CoreForm::Basic { operand, .. } => self.expr(operand),
            CoreForm::Binary { left, right, .. }
            | CoreForm::Concat { left, right, .. }
            | CoreForm::Equal { left, right, .. }
            | CoreForm::Less { left, right, .. }
            | CoreForm::AndThen { left, right, .. }
            | CoreForm::OrElse { left, right, .. } => self.two(left, right),
            CoreForm::Call {
                callee,
                operands,
                ..
            } => {
                self.called(callee);
                self.exprs(operands.items.as_slice());
            }
            CoreForm::Let { values, body, .. } => {
                self.exprs(values.items.as_slice());
                self.expr(body);
            }
            _ => self.look_at_memory(e),
        }
    }

    fn look_at_memory(&mut self, e: &'p CoreExpr) {
        match &*e.form {
            CoreForm::ByteAt { text, index } => self.two(text, index),
            CoreForm::SliceOf {
                operand,
                low,
                high,
                limit,
                ..
            } => {
                self.expr(operand);
                self.bound(low);
                self.bound(high);
                self.bound(limit);
            }
            CoreForm::Build { elements, .. } => {
                for e in elements.items.as_slice() {
                    self.expr(&e.value);
                }
            }
            CoreForm::BuildMap { pairs, .. } => {
                for p in pairs.items.as_slice() {
                    self.two(&p.key, &p.value);
                }
            }
            CoreForm::MapGet { operand, key, .. } => self.two(operand, key),
            CoreForm::Append {
                operand,
                elements,
                ..
            } => self.two(operand, elements),
            CoreForm::CopyElems { target, source, .. } => self.two(target, source),
            CoreForm::MakeSlice {
                length,
                capacity,
                ..
            } => {
                self.expr(length);
                self.bound(capacity);
            }
            CoreForm::MakeMap { count, .. } => self.bound(count),
            CoreForm::MakeChan { capacity, .. } => self.bound(capacity),
            _ => self.look_at_dynamic(e),
        }
    }

    fn look_at_dynamic(&mut self, e: &'p CoreExpr) {
        match &*e.form {
            CoreForm::Closure { func, .. } => self.find(Mention::TakesFunction(*func)),
            CoreForm::Bind {
                method,
                receiver,
                ..
            } => {
                self.find(Mention::TakesMethod(method));
                self.expr(receiver);
            }
            CoreForm::BindDynamic {
                name,
                package,
                receiver,
                ..
            } => {
                let t = type_of(self.table, receiver);
                self.find(Mention::TakesDynamic(name, package, t));
                self.expr(receiver);
            }
            CoreForm::Receive { operand, .. } => {
                self.find(Mention::Blocks);
                self.expr(operand);
            }
            CoreForm::Recover { .. } => self.find(Mention::Blocks),
            CoreForm::GateMake { pointer } => self.expr(pointer),
            CoreForm::GateAdd { cell, number } => {
                self.find(Mention::Blocks);
                self.two(cell, number);
            }
            _ => {}
        }
    }

    // ---- statements

    fn look_at_stmt(&mut self, s: &'p CoreStmt) {
        match &*s.form {
            CoreStmtForm::Seq(list) => self.stmts(list),
            CoreStmtForm::Perform { operand, .. } => self.expr(operand),
            CoreStmtForm::Store { targets, values } => {
                for t in targets.items.as_slice() {
                    self.target(t);
                }
                self.exprs(values.items.as_slice());
            }
            CoreStmtForm::MapDelete { operand, key, .. } => self.two(operand, key),
            CoreStmtForm::Return(values) => self.exprs(values.items.as_slice()),
            CoreStmtForm::Print { operands, .. } => self.exprs(operands.items.as_slice()),
            CoreStmtForm::Close(e)
            | CoreStmtForm::Panic(e)
            | CoreStmtForm::Exit(e)
            | CoreStmtForm::Fatal(e) => self.expr(e),
            CoreStmtForm::GoCall { callee, operands } => {
                self.started(callee);
                self.exprs(operands.items.as_slice());
            }
            CoreStmtForm::DeferCall { callee, operands } => {
                self.find(Mention::Blocks);
                self.called(callee);
                self.exprs(operands.items.as_slice());
            }
            _ => self.look_at_control(s),
        }
    }

    fn look_at_control(&mut self, s: &'p CoreStmt) {
        match &*s.form {
            CoreStmtForm::If {
                condition,
                when_true,
                when_false,
            } => {
                self.expr(condition);
                self.stmts(when_true);
                self.stmts(when_false);
            }
            CoreStmtForm::Loop {
                condition,
                body,
                post,
                ..
            } => {
                self.bound(condition);
                self.stmts(body);
                self.stmts(post);
            }
            CoreStmtForm::SwitchOn { tests, clauses, .. } => {
                for t in tests.items.as_slice() {
                    self.expr(&t.condition);
                }
                for c in clauses.items.as_slice() {
                    self.stmts(&c.body);
                }
            }
            CoreStmtForm::RangeNext { operand, body, .. } => {
                self.expr(operand);
                self.stmts(body);
            }
            CoreStmtForm::Labeled { body, .. } => self.stmts(body),
            _ => self.look_at_talk(s),
        }
    }

    fn look_at_talk(&mut self, s: &'p CoreStmt) {
        match &*s.form {
            CoreStmtForm::Send { operand, value, .. } => {
                self.find(Mention::Blocks);
                self.two(operand, value);
            }
            CoreStmtForm::SelectStep { cases, default, .. } => {
                self.find(Mention::Blocks);
                for c in cases.items.as_slice() {
                    self.case(c);
                }
                self.stmts(default);
            }
            CoreStmtForm::GateTake(e) | CoreStmtForm::GateAwait(e) => {
                self.find(Mention::Blocks);
                self.expr(e);
            }
            CoreStmtForm::Yield => self.find(Mention::Blocks),
            _ => {}
        }
    }

    fn case(&mut self, c: &'p CoreCase) {
        match &c.communication {
            Communication::Send { operand, value, .. } => self.two(operand, value),
            Communication::Receive { operand, .. } => self.expr(operand),
        }
        self.stmts(&c.body);
    }

    fn target(&mut self, t: &'p Target) {
        match t {
            Target::Blank => {}
            Target::Place { place, .. } => self.push(Part::Place(place)),
            Target::Entry { operand, key, .. } => self.two(operand, key),
        }
    }
}
