//! Statements, each added to the innermost open block. ECMA-262 5.1, 12.

ghost use Rattle.std.specs.Prelude.{None, Some};
ghost use Rattle.js_tree.specs.Script as script;
ghost use Rattle.js_pool.specs.Tree as tree;
ghost use Rattle.js_pool.specs.Names.{name_bytes};
ghost use Rattle.js_pool.specs.Says.{AddsLine, AddsWith, AddsBody};
ghost use Rattle.js_pool.specs.declared.node.Stmt.TheVariants as line;
ghost use Rattle.js_pool.specs.declared.node.Else.TheVariants as tail;

use crate::name::Name;
use crate::node::{Block, Cases, Else, ExprId, Stmt};
use crate::pool::Pool;

impl Pool {
    // ---- simple statements

    /// `var x = e;`
    pub fn declare(&mut self, x: Name, e: ExprId)
        ensures { AddsLine self.old self.new (line.Declare x e) }
    {
        self.say(Stmt::Declare(x, e));
    }

    /// `x = e;`
    pub fn assign(&mut self, x: Name, e: ExprId)
        ensures { AddsLine self.old self.new (line.Assign x e) }
    {
        self.say(Stmt::Assign(x, e));
    }

    /// `a[i] = e;`
    pub fn store(&mut self, a: ExprId, i: ExprId, e: ExprId)
        ensures { AddsLine self.old self.new (line.Store a i e) }
    {
        self.say(Stmt::Store(a, i, e));
    }

    /// `a[i] = e;` at the element with a number.
    pub fn store_at(&mut self, a: ExprId, i: u64, e: ExprId)
        ensures { AddsWith self.old self.new (λ j. line.Store a j e) (tree.number i) }
    {
        let i = self.num(i);
        self.store(a, i, e);
    }

    /// `e;`, where the expression is a call or `.pop()`.
    pub fn perform(&mut self, e: ExprId)
        ensures { AddsLine self.old self.new (line.Perform e) }
    {
        self.say(Stmt::Perform(e));
    }

    /// `a.push(e);`
    pub fn push(&mut self, a: ExprId, e: ExprId)
        ensures { AddsLine self.old self.new (line.Push a e) }
    {
        self.say(Stmt::Push(a, e));
    }

    /// `delete a[k];`
    pub fn delete(&mut self, a: ExprId, k: ExprId)
        ensures { AddsLine self.old self.new (line.Delete a k) }
    {
        self.say(Stmt::Delete(a, k));
    }

    /// `return e;`
    pub fn give(&mut self, e: ExprId)
        ensures { AddsLine self.old self.new (line.Return (Some e)) }
    {
        self.say(Stmt::Return(Some(e)));
    }

    /// `return;`
    pub fn leave(&mut self)
        ensures { AddsLine self.old self.new (line.Return None) }
    {
        self.say(Stmt::Return(None));
    }

    /// `throw e;`
    pub fn throw(&mut self, e: ExprId)
        ensures { AddsLine self.old self.new (line.Throw e) }
    {
        self.say(Stmt::Throw(e));
    }

    /// `break;`
    pub fn stop(&mut self)
        ensures { AddsLine self.old self.new (line.Break None) }
    {
        self.say(Stmt::Break(None));
    }

    /// `break x;`
    pub fn stop_at(&mut self, x: Name)
        ensures { AddsLine self.old self.new (line.Break (Some x)) }
    {
        self.say(Stmt::Break(Some(x)));
    }

    /// `continue;`
    pub fn again(&mut self)
        ensures { AddsLine self.old self.new (line.Continue None) }
    {
        self.say(Stmt::Continue(None));
    }

    /// `continue x;`
    pub fn again_at(&mut self, x: Name)
        ensures { AddsLine self.old self.new (line.Continue (Some x)) }
    {
        self.say(Stmt::Continue(Some(x)));
    }

    // ---- statements with blocks

    /// `if (test) { .. }`
    pub fn when(&mut self, test: ExprId, body: Block)
        ensures { AddsLine self.old self.new (line.If test body tail.Nothing) }
    {
        self.say(Stmt::If(test, body, Else::Nothing));
    }

    /// `if (test) { .. } else { .. }`, and `else if` where the other block is one `if`.
    pub fn when_else(&mut self, test: ExprId, body: Block, other: Block)
        ensures { AddsLine self.old self.new (line.If test body (tail.Block other)) }
    {
        self.say(Stmt::If(test, body, Else::Block(other)));
    }

    /// `while (test) { .. }`
    pub fn repeat(&mut self, test: ExprId, body: Block)
        ensures { AddsLine self.old self.new (line.While None test body) }
    {
        self.say(Stmt::While(None, test, body));
    }

    /// `x: while (test) { .. }`
    pub fn repeat_at(&mut self, x: Name, test: ExprId, body: Block)
        ensures { AddsLine self.old self.new (line.While (Some x) test body) }
    {
        self.say(Stmt::While(Some(x), test, body));
    }

    /// `for (;;) { .. }`
    pub fn forever(&mut self, body: Block)
        ensures { AddsLine self.old self.new (line.Forever None body) }
    {
        self.say(Stmt::Forever(None, body));
    }

    /// `x: for (;;) { .. }`
    pub fn forever_at(&mut self, x: Name, body: Block)
        ensures { AddsLine self.old self.new (line.Forever (Some x) body) }
    {
        self.say(Stmt::Forever(Some(x), body));
    }

    /// `switch (tag) { .. }`
    pub fn switch(&mut self, tag: ExprId, cases: Cases)
        ensures { AddsLine self.old self.new (line.Switch None tag cases None) }
    {
        self.say(Stmt::Switch(None, tag, cases, None));
    }

    /// `x: switch (tag) { .. }`
    pub fn switch_at(&mut self, x: Name, tag: ExprId, cases: Cases)
        ensures { AddsLine self.old self.new (line.Switch (Some x) tag cases None) }
    {
        self.say(Stmt::Switch(Some(x), tag, cases, None));
    }

    /// `switch (tag) { .. default: .. }`
    pub fn switch_default(&mut self, tag: ExprId, cases: Cases, other: Block)
        ensures { AddsLine self.old self.new (line.Switch None tag cases (Some other)) }
    {
        self.say(Stmt::Switch(None, tag, cases, Some(other)));
    }

    /// `x: switch (0) { case 0: .. }`, which `break x` leaves.
    pub fn block_at(&mut self, x: Name, body: Block)
        ensures { AddsBody self.old self.new body (λ ss. script.switch 0 (Some (name_bytes x)) (tree.number 0) (script.case 0 ss script.no_cases)) }
    {
        let mark = self.open_cases();
        self.case(0, body);
        let cases = self.close_cases(mark);
        let tag = self.num(0);
        self.switch_at(x, tag, cases);
    }

    /// `try { .. } catch ($catch) { .. }`
    pub fn attempt(&mut self, body: Block, caught: Block)
        ensures { AddsLine self.old self.new (line.Try body caught) }
    {
        self.say(Stmt::Try(body, caught));
    }
}
