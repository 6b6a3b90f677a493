//! Variables: their values, and fresh ones.

ghost use Rattle.js_pool.specs.Stands.{Grows};
ghost use Rattle.js_body.specs.State.{var_tree, fresh_tree, bound, slot_read, home_of, var_declared};
ghost use Rattle.js_body.specs.Tells.{Runs1, Gives, Gives1, RunsScalar};

use crate::body::{Body, Home};
use go_core::node::VarId;
use js_pool::ExprId;

impl<'p> Body<'p> {
    /// The value of a variable, or the array in which a struct or an array is.
    pub fn var(&mut self, h: Home) -> ExprId
        ensures { Gives self.old self.new result (var_tree h) (slot_read h.slot) }
    {
        let slot = self.slot(h.slot);
        if h.boxed { self.pool.at(slot, 0) } else { slot }
    }

    /// What stands in the slot of a fresh variable with this value, which nothing else holds.
    pub fn fresh_var(&mut self, boxed: bool, value: ExprId) -> ExprId
        ensures { Gives1 self.old self.new value result (λ t s. fresh_tree boxed t) (λ t s. s) }
    {
        if boxed {
            self.pool.single(value)
        } else {
            value
        }
    }

    /// A fresh variable with this value, which nothing else holds.
    pub fn bind(&mut self, h: Home, value: ExprId)
        ensures { Runs1 self.old self.new value (bound h) }
    {
        let e = self.fresh_var(h.boxed, value);
        self.begin_slot(h.slot, e);
    }

    /// A fresh variable at zero.
    pub fn declare(&mut self, v: VarId)
        ensures { RunsScalar self.old self.new (λ s. (home_of v s).ty) (var_declared v) }
    {
        let h = self.home(v);
        let zero = self.zero(h.ty);
        self.bind(h, zero);
    }

    /// Stores in a variable.
    pub fn set_var(&mut self, h: Home, value: ExprId)
        ensures { Grows self.old.pool self.new.pool }
    {
        let slot = self.slot(h.slot);
        if self.is_block(h.ty) {
            self.copy_over(slot, value, h.ty);
        } else if h.boxed {
            self.pool.store_at(slot, 0, value);
        } else {
            self.set_slot(h.slot, value);
        }
    }
}
