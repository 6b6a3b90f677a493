//! Run-time panics: the values `$p1` to `$p12` stand at the script's top, and `$panic` throws one.

ghost use Rattle.js_pool.specs.Stands.{Builds1, Builds2};
ghost use Rattle.js_body.specs.State.{panicked, panicked_if, panic_tree, nil_refused, told_tree, wide_outside_tree, signed_outside_tree, outside_tree, within_tree, index_told, index_panicked_if, index_refused};
ghost use Rattle.js_body.specs.Tells.{Runs, Runs1, Runs2, Runs3, Gives1, Gives2};

use crate::body::{Body, Operand};
use gj_base::Kind;
use js_facts::held::{is_signed, is_wide};
use js_pool::{ExprId, Pool};

// The decimal text of a number.
fn told(p: &mut Pool, kind: Kind, e: ExprId) -> ExprId
    ensures { Builds1 p.old p.new result e (told_tree kind) }
{
    if is_wide(kind) {
        let sign = p.truth(is_signed(kind));
        return p.call2(b"$str64", e, sign);
    }
    p.decimal(e)
}

fn wide_outside(p: &mut Pool, i: ExprId, n: ExprId) -> ExprId
    ensures { Builds2 p.old p.new result i n wide_outside_tree }
{
    let none = p.num(0);
    let high = p.at(i, 0);
    let high = p.different(high, none);
    let low = p.at(i, 1);
    let low = p.greater_equal(low, n);
    p.either(high, low)
}

fn signed_outside(p: &mut Pool, i: ExprId, n: ExprId) -> ExprId
    ensures { Builds2 p.old p.new result i n signed_outside_tree }
{
    let none = p.num(0);
    let i = p.shift_right_unsigned(i, none);
    p.greater_equal(i, n)
}

// Whether an index isn't below a length.
fn is_outside(p: &mut Pool, kind: Kind, i: ExprId, n: ExprId) -> ExprId
    ensures { Builds2 p.old p.new result i n (outside_tree kind) }
{
    if is_wide(kind) {
        return wide_outside(p, i, n);
    }
    if is_signed(kind) {
        return signed_outside(p, i, n);
    }
    p.greater_equal(i, n)
}

// The number that an index is, which is below a length.
fn inside(p: &mut Pool, kind: Kind, i: ExprId) -> ExprId
    ensures { Builds1 p.old p.new result i (within_tree kind) }
{
    if is_wide(kind) {
        return p.at(i, 1);
    }
    i
}

impl<'p> Body<'p> {
    /// Throws a value as a panic.
    pub fn panic_with(&mut self, value: ExprId)
        ensures { Runs1 self.old self.new value panicked }
    {
        let call = self.pool.call1(b"$panic", value);
        self.pool.perform(call);
    }

    /// The run-time panic with this number.
    pub fn panic(&mut self, number: u32)
        ensures { Runs self.old self.new (panicked (panic_tree number)) }
    {
        let value = self.pool.name_of(b"$p", number);
        self.panic_with(value);
    }

    /// The run-time panic with this number where a test holds.
    pub fn panic_if(&mut self, test: ExprId, number: u32)
        ensures { Runs1 self.old self.new test (panicked_if number) }
    {
        let mark = self.pool.open();
        self.panic(number);
        let block = self.pool.close(mark);
        self.pool.when(test, block);
    }

    /// A panic where a pointer, a function or an interface value is nil.
    pub fn refuse_nil(&mut self, o: Operand)
        ensures { Runs1 self.old self.new o.e nil_refused }
    {
        let null = self.pool.null();
        let test = self.pool.same(o.e, null);
        self.panic_if(test, 2);
    }

    // The panic of an index that isn't below a length.
    fn index_panic(&mut self, kind: Kind, i: ExprId, n: ExprId)
        ensures { Runs2 self.old self.new i n (index_told kind) }
    {
        let told = told(&mut self.pool, kind, i);
        let call = self.pool.call2(b"$index", told, n);
        self.pool.perform(call);
    }

    /// The decimal text of a number.
    pub fn told(&mut self, kind: Kind, e: ExprId) -> ExprId
        ensures { Gives1 self.old self.new e result (λ t s. told_tree kind t) (λ t s. s) }
    {
        told(&mut self.pool, kind, e)
    }

    /// A panic where a test holds that an index isn't below a length.
    pub fn index_panic_if(&mut self, test: ExprId, kind: Kind, i: ExprId, n: ExprId)
        ensures { Runs3 self.old self.new test i n (index_panicked_if kind) }
    {
        let mark = self.pool.open();
        self.index_panic(kind, i, n);
        let block = self.pool.close(mark);
        self.pool.when(test, block);
    }

    fn refuse_outside(&mut self, kind: Kind, i: ExprId, n: ExprId)
        ensures { Runs2 self.old self.new i n (index_refused kind) }
    {
        let test = is_outside(&mut self.pool, kind, i, n);
        self.index_panic_if(test, kind, i, n);
    }

    /// Panics where an index isn't below a length, and gives the number that it is.
    pub fn within(&mut self, kind: Kind, i: Operand, n: ExprId) -> ExprId
        ensures { Gives2 self.old self.new i.e n result (λ t u s. within_tree kind t) (λ t u s. index_refused kind t u s) }
    {
        self.refuse_outside(kind, i.e, n);
        inside(&mut self.pool, kind, i.e)
    }
}
