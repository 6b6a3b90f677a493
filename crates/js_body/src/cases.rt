//! Cases of a machine, and suspensions: what a frame keeps while it waits.

ghost use Rattle.js_pool.specs.Stands.{Grows};

use crate::body::{Body, Known};
use crate::frame::{CASE, GIVEN, LEFT};
use js_pool::{Block, ExprId, Name};

impl<'p> Body<'p> {
    // ---- cases

    /// Begins the first case of a machine.
    pub fn first_mark(&mut self, n: u32)
        ensures { Grows self.old.pool self.new.pool }
    {
        self.open_case = n;
        self.open_lines = self.pool.open();
    }

    /// The case with this number begins here.
    pub fn mark(&mut self, n: u32)
        ensures { Grows self.old.pool self.new.pool }
    {
        self.close_case();
        self.first_mark(n);
    }

    /// The case that is open is done.
    pub fn close_case(&mut self)
        ensures { Grows self.old.pool self.new.pool }
    {
        let block = self.pool.close(self.open_lines);
        self.pool.case(self.open_case, block);
    }

    /// Control goes on at a case.
    pub fn jump(&mut self, n: u32)
        ensures { Grows self.old.pool self.new.pool }
    {
        let n = self.pool.num(n as u64);
        self.pool.assign(Name::Word(b"$p"), n);
        self.pool.again();
    }

    fn jump_block(&mut self, n: u32) -> Block
        ensures { Grows self.old.pool self.new.pool }
    {
        let mark = self.pool.open();
        self.jump(n);
        self.pool.close(mark)
    }

    /// Control goes on at a case where a test holds.
    pub fn jump_if(&mut self, test: ExprId, n: u32)
        ensures { Grows self.old.pool self.new.pool }
    {
        let block = self.jump_block(n);
        self.pool.when(test, block);
    }

    /// Control goes on at a case where a test doesn't hold.
    pub fn jump_unless(&mut self, test: ExprId, n: u32)
        ensures { Grows self.old.pool self.new.pool }
    {
        let test = self.pool.not(test);
        self.jump_if(test, n);
    }

    // ---- suspensions

    // The temporaries on the stack are left in the frame.
    fn save(&mut self)
        ensures { Grows self.old.pool self.new.pool }
    {
        let mark = self.pool.open_list();
        let mut some = false;
        for i in 0..self.depth() {
            let o = self.value_at(i);
            if o.known == Known::Nothing {
                self.pool.item(o.e);
                some = true;
            }
        }
        let items = self.pool.close_list(mark);
        if some {
            let e = self.pool.array(items);
            self.set_slot(LEFT, e);
        }
    }

    fn restore(&mut self)
        ensures { Grows self.old.pool self.new.pool }
    {
        let mut n: u64 = 0;
        for i in 0..self.depth() {
            if self.value_at(i).known == Known::Nothing {
                let left = self.slot(LEFT);
                let e = self.pool.at(left, n);
                self.set_value(i, e);
                n = n.saturating_add(1);
            }
        }
    }

    fn goes_on_at(&mut self) -> u32
        ensures { Grows self.old.pool self.new.pool }
    {
        self.save();
        let n = self.fresh(1);
        let e = self.pool.num(n as u64);
        self.set_slot(CASE, e);
        n
    }

    /// The frame is left by a call, and goes on at a new case.
    pub fn suspend(&mut self, call: ExprId)
        ensures { Grows self.old.pool self.new.pool }
    {
        let n = self.goes_on_at();
        self.pool.perform(call);
        self.pool.leave();
        self.mark(n);
        self.restore();
    }

    /// The same, where the call tells whether the frame goes on at once.
    pub fn suspend_unless(&mut self, call: ExprId)
        ensures { Grows self.old.pool self.new.pool }
    {
        let n = self.goes_on_at();
        let test = self.pool.not(call);
        let mark = self.pool.open();
        self.pool.leave();
        let block = self.pool.close(mark);
        self.pool.when(test, block);
        self.mark(n);
        self.restore();
    }

    /// What the frame was given.
    pub fn given(&mut self) -> ExprId
        ensures { Grows self.old.pool self.new.pool }
    {
        self.slot(GIVEN)
    }
}
