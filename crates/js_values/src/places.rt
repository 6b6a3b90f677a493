//! Places: what denotes storage, as an array and an element of it, or as the array of a struct or an array.
//! Go specification (as of Go 1.17), "Address operators", "Selectors", "Index expressions".
//!
//! The operands of a place stay on the stack until it has been read or addressed: nothing that is evaluated
//! later changes which place it is.

ghost use Rattle.std.specs.Prelude.{◌≡◌, ◌||◌, not};
ghost use Rattle.js_pool.specs.Stands.{Grows};
ghost use Rattle.js_body.specs.State.{State, held_type, home_of};
ghost use Rattle.js_body.specs.Tells.{Tells, Runs, Runs1};
ghost use Rattle.js_values.specs.Steps.{is_scalar, RunsWhen};
ghost use Rattle.js_values.specs.Exprs.{scalar_pushed, scalar_read};

use gj_base::Kind;
use go_core::node::{CoreExpr, CoreForm, PlaceForm, VarId};
use go_type::types::TypeId;
use js_body::slices::Parts;
use js_body::{Body, Home, Known, Operand};
use js_facts::held::{element, field_type, parts};
use js_pool::ExprId;

/// A place.
#[derive(Clone, Copy)]
pub enum Spot {
    /// The array of a struct or an array.
    Block(ExprId),
    /// An element of an array.
    Cell(ExprId, ExprId),
    /// A variable that isn't boxed, by its slot.
    Var(u32),
}

/// A local variable.
pub fn local_spot(b: &mut Body<'_>, v: VarId) -> Spot {
    let h = b.home(v);
    if b.is_block(h.ty) {
        return Spot::Block(b.slot(h.slot));
    }
    if h.boxed {
        let none = b.pool.num(0);
        return Spot::Cell(b.slot(h.slot), none);
    }
    Spot::Var(h.slot)
}

/// A package variable.
pub fn global_spot(b: &mut Body<'_>, n: u64) -> Spot {
    let number = if n < 4294967295 { n as u32 } else { 4294967295 };
    let x = b.pool.name_of(b"$g", number);
    if is_global_block(b, number) {
        return Spot::Block(x);
    }
    let none = b.pool.num(0);
    Spot::Cell(x, none)
}

fn is_global_block(b: &Body<'_>, n: u32) -> bool {
    match b.facts.program.globals.items.as_slice().get(n as usize) {
        Some(v) => b.is_block(v.ty),
        None => false,
    }
}

/// What a pointer to a type points to.
pub fn deref_spot(b: &mut Body<'_>, t: TypeId, o: Operand) -> Spot {
    b.refuse_nil(o);
    if b.is_block(t) {
        return Spot::Block(o.e);
    }
    let holder = b.pool.at(o.e, 0);
    Spot::Cell(holder, b.pool.at(o.e, 1))
}

/// A field of a struct.
pub fn field_spot(b: &mut Body<'_>, t: TypeId, number: u32, base: Spot) -> Spot {
    let ty = field_type(b.table(), t, number);
    let block = block_of(b, base);
    let n = b.pool.num(number as u64);
    part(b, block, n, ty)
}

/// An element of an array at an index of this kind.
pub fn elem_spot(b: &mut Body<'_>, t: TypeId, base: Spot, kind: Kind, i: Operand) -> Spot {
    let ty = element(b.table(), t);
    let count = parts(b.table(), t);
    let i = within_array(b, kind, i, count);
    let block = block_of(b, base);
    part(b, block, i, ty)
}

// A constant that is known to be below the length needs no test.
fn within_array(b: &mut Body<'_>, kind: Kind, i: Operand, count: u32) -> ExprId {
    match i.known {
        Known::Number(k) if k >= 0 && k < count as i64 => i.e,
        _ => {
            let n = b.pool.num(count as u64);
            b.within(kind, i, n)
        }
    }
}

/// The parts of a slice, where it is a variable that is opened before a loop around.
pub fn opened(b: &mut Body<'_>, slice: &CoreExpr) -> Option<Parts> {
    if let CoreForm::Read { place, .. } = &*slice.form
        && let PlaceForm::Local(v) = &*place.form
    {
        return b.opened(*v);
    }
    None
}

/// An element of a slice whose parts stand in slots, at an index of this kind.
pub fn opened_elem_spot(b: &mut Body<'_>, t: TypeId, s: Parts, kind: Kind, i: Operand) -> Spot {
    let ty = element(b.table(), t);
    let n = b.slot(s.count);
    let i = b.within(kind, i, n);
    let from = b.slot(s.first);
    let place = b.pool.plus(from, i);
    let holder = b.slot(s.elements);
    part(b, holder, place, ty)
}

/// An element of a slice at an index of this kind.
pub fn slice_elem_spot(b: &mut Body<'_>, t: TypeId, s: Operand, kind: Kind, i: Operand) -> Spot {
    let ty = element(b.table(), t);
    let i = within_slice(b, kind, s, i);
    let from = b.pool.at(s.e, 1);
    let place = b.pool.plus(from, i);
    let holder = b.pool.at(s.e, 0);
    part(b, holder, place, ty)
}

// A nil slice has no elements.
fn within_slice(b: &mut Body<'_>, kind: Kind, s: Operand, i: Operand) -> ExprId {
    let nil = b.is_nil(s);
    let none = b.pool.num(0);
    b.index_panic_if(nil, kind, i.e, none);
    let n = b.pool.at(s.e, 2);
    b.within(kind, i, n)
}

// ---- parts

// The array of a struct or an array in a place.
fn block_of(b: &mut Body<'_>, spot: Spot) -> ExprId {
    match spot {
        Spot::Block(e) => e,
        Spot::Cell(a, i) => b.pool.index(a, i),
        Spot::Var(n) => b.slot(n),
    }
}

fn part(b: &mut Body<'_>, block: ExprId, i: ExprId, t: TypeId) -> Spot {
    if b.is_block(t) {
        return Spot::Block(b.pool.index(block, i));
    }
    Spot::Cell(block, i)
}

// ---- reads and pointers

/// What stands at a place whose operands begin here: a struct or an array is copied.
pub fn read(b: &mut Body<'_>, from: usize, spot: Spot, t: TypeId) {
    b.drop_to(from);
    let e = match spot {
        Spot::Block(block) => b.copied(block, t),
        Spot::Cell(a, i) => b.pool.index(a, i),
        Spot::Var(n) => {
            let e = b.slot(n);
            if b.plain {
                return b.push_known(e, Known::Variable);
            }
            e
        }
    };
    b.push(e);
}

/// The value of a local variable of a type: a struct or an array is copied.
pub fn read_local(b: &mut Body<'_>, v: VarId, t: TypeId)
    ensures { RunsWhen b.old b.new (λ s. is_scalar (held_type t s)) (λ s. scalar_read (home_of v s) s) }
{
    let h = b.home(v);
    if b.is_block(t) {
        read_block(b, h, t);
    } else {
        read_scalar(b, h);
    }
}

fn read_block(b: &mut Body<'_>, h: Home, t: TypeId)
    ensures { Grows b.old.pool b.new.pool }
{
    let x = b.slot(h.slot);
    let e = b.copied(x, t);
    b.push(e);
}

fn read_scalar(b: &mut Body<'_>, h: Home)
    ensures { Runs b.old b.new (scalar_read h) }
{
    let e = b.var(h);
    push_scalar(b, h, e);
}

// One more value, which is what a variable holds.
fn push_scalar(b: &mut Body<'_>, h: Home, e: ExprId)
    ensures { Runs1 b.old b.new e (scalar_pushed h) }
{
    if is_set_later(b, h) {
        b.push(e);
    } else {
        b.push_known(e, Known::Variable);
    }
}

// Whether what a variable holds may change by more than a statement's assignments.
fn is_set_later(b: &Body<'_>, h: Home) -> bool
    ensures { (s : State) → Tells b.now s → result ≡ (h.boxed || not s.around.plain) }
{
    h.boxed || !b.plain
}

/// The pointer to a place whose operands begin here. A variable that is addressed is boxed.
pub fn address(b: &mut Body<'_>, from: usize, spot: Spot) {
    b.drop_to(from);
    let e = match spot {
        Spot::Block(block) => block,
        Spot::Cell(a, i) => b.pool.pair(a, i),
        Spot::Var(n) => b.slot(n),
    };
    b.push(e);
}
