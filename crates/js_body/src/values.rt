//! Values of types: how they are held, and copies of structs and arrays.

ghost use Rattle.std.specs.Prelude.{◌≡◌};
ghost use Rattle.js_facts.specs.Held.{how, is_block, kind_held};
ghost use Rattle.js_pool.specs.Stands.{Grows};
ghost use Rattle.js_body.specs.State.{State, held_type, pushed_known, truth_pushed, nil_pushed, number_pushed};
ghost use Rattle.js_body.specs.Tells.{Tells, Runs, OwnsScalar};

use crate::body::{Body, Known, Operand};
use gj_base::Kind;
use go_type::types::TypeId;
use js_facts::Held;
use js_facts::held::{held_as, int_kind, is_block, parts};
use js_pool::{ExprId, Name};

impl<'p> Body<'p> {
    /// How values of a type are held.
    pub fn held(&self, t: TypeId) -> Held
        ensures { (s : State) → Tells self.now s → how result ≡ held_type t s }
    {
        held_as(self.table(), t)
    }

    /// Whether values of a type are arrays that are written in place.
    pub fn is_block(&self, t: TypeId) -> bool
        ensures { (s : State) → Tells self.now s → result ≡ is_block (held_type t s) }
    {
        is_block(self.table(), t)
    }

    /// The kind of an integer type.
    pub fn int_kind(&self, t: TypeId) -> Kind
        ensures { (s : State) → Tells self.now s → result ≡ kind_held (held_type t s) }
    {
        int_kind(self.table(), t)
    }

    // ---- copies

    // `$copy(target,0,source,0,n,d)`
    fn copy_call(&mut self, target: ExprId, source: ExprId, t: TypeId) -> ExprId
        ensures { Grows self.old.pool self.new.pool }
    {
        let none = self.pool.num(0);
        let n = parts(self.table(), t);
        let n = self.pool.num(n as u64);
        let d = self.description(t);
        let items = [target, none, source, none, n, d];
        self.pool.call_of(Name::Word(b"$copy"), &items)
    }

    /// A fresh copy of a struct or an array.
    pub fn copied(&mut self, source: ExprId, t: TypeId) -> ExprId
        ensures { Grows self.old.pool self.new.pool }
    {
        let none = self.pool.null();
        self.copy_call(none, source, t)
    }

    /// A value that nothing else holds: a copy of a struct or an array, any other value itself.
    pub fn own(&mut self, source: ExprId, t: TypeId) -> ExprId
        ensures { OwnsScalar self.old self.new t source result }
    {
        if self.is_block(t) {
            return self.copied(source, t);
        }
        source
    }

    /// Copies a struct or an array over another one.
    pub fn copy_over(&mut self, target: ExprId, source: ExprId, t: TypeId)
        ensures { Grows self.old.pool self.new.pool }
    {
        let call = self.copy_call(target, source, t);
        self.pool.perform(call);
    }

    // ---- what values are made of

    /// The slice of all elements of an array, which are so many.
    pub fn slice_over(&mut self, elements: ExprId, count: u32) -> ExprId
        ensures { Grows self.old.pool self.new.pool }
    {
        let none = self.pool.num(0);
        let n = self.pool.num(count as u64);
        self.pool.array_of(&[elements, none, n, n])
    }

    /// The pointer to a fresh variable with this value, which nothing else holds.
    pub fn pointer_to(&mut self, value: ExprId, t: TypeId) -> ExprId
        ensures { Grows self.old.pool self.new.pool }
    {
        if self.is_block(t) {
            return value;
        }
        let holder = self.pool.single(value);
        let none = self.pool.num(0);
        self.pool.pair(holder, none)
    }

    /// A truth value as one more value.
    pub fn push_truth(&mut self, b: bool)
        ensures { Runs self.old self.new (truth_pushed b) }
    {
        let e = self.pool.truth(b);
        self.push_known(e, Known::Constant);
    }

    /// `null` as one more value.
    pub fn push_nil(&mut self)
        ensures { Runs self.old self.new nil_pushed }
    {
        let e = self.pool.null();
        self.push_known(e, Known::Nil);
    }

    /// A number of up to 32 bits as one more value.
    pub fn push_number(&mut self, n: i64)
        ensures { Runs self.old self.new (number_pushed n) }
    {
        let e = self.pool.whole(n);
        self.push_known(e, Known::Number(n));
    }

    /// Whether a value is null.
    pub fn is_nil(&mut self, o: Operand) -> ExprId
        ensures { Grows self.old.pool self.new.pool }
    {
        let none = self.pool.null();
        self.pool.same(o.e, none)
    }

    /// What stands at an element of an array, or 0 where it is null.
    pub fn or_zero(&mut self, o: Operand, i: u64) -> ExprId
        ensures { Grows self.old.pool self.new.pool }
    {
        let nil = self.is_nil(o);
        let none = self.pool.num(0);
        let n = self.pool.at(o.e, i);
        self.pool.choice(nil, none, n)
    }
}
