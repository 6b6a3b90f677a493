//! Comparisons: Go specification (as of Go 1.17), "Comparison operators".

ghost use Rattle.std.specs.Prelude.{◌≡◌, true, false};
ghost use Rattle.js_pool.specs.Stands.{Grows, Builds1, Builds2};
ghost use Rattle.js_facts.specs.Held.{how};
ghost use Rattle.js_body.specs.Tells.{Runs};
ghost use Rattle.js_body.specs.State.{held_type};
ghost use Rattle.js_values.specs.Steps.{on_two, is_scalar, RunsWhen};
ghost use Rattle.js_values.specs.Values.{denied_tree, order_tree, same_tree, equality, equal_done, less_done, denied};

use crate::numbers::{lowered, number_kind};
use gj_base::Op;
use go_type::types::TypeId;
use js_body::Body;
use js_facts::Held;
use js_pool::{ExprId, Pool};

/// Whether the last two values, of a type, are equal; or, where it is negated, aren't.
pub fn equal(b: &mut Body<'_>, negated: bool, t: TypeId)
    ensures { RunsWhen b.old b.new (λ s. is_scalar (held_type t s)) (λ s. equal_done negated (held_type t s) s) }
{
    let held = b.held(t);
    let number = number_kind(held);
    match number {
        Some(kind) => lowered(b, equality(negated), kind),
        None => equal_other(b, negated, held, t),
    }
}

fn equal_other(b: &mut Body<'_>, negated: bool, held: Held, t: TypeId)
    ensures { RunsWhen b.old b.new (λ s. is_scalar (how held)) (on_two (same_tree negated)) }
{
    if is_described(held) {
        alike(b, negated, t);
    } else {
        identical(b, negated);
    }
}

// Whether values are compared by the description of their type.
fn is_described(held: Held) -> bool
    ensures { is_scalar (how held) ≡ true → result ≡ false }
{
    match held {
        Held::Pointer | Held::Interface | Held::Struct(_) | Held::Array(_, _) => true,
        _ => false,
    }
}

fn equality(negated: bool) -> Op
    ensures { result ≡ equality negated }
{
    if negated { Op::Ne } else { Op::Eq }
}

// By the description of the type.
fn alike(b: &mut Body<'_>, negated: bool, t: TypeId)
    ensures { Grows b.old.pool b.new.pool }
{
    let y = b.pop();
    let x = b.pop();
    let d = b.description(t);
    let call = b.pool.call3(b"$same", x.e, y.e, d);
    let e = denied_if(&mut b.pool, negated, call);
    b.push(e);
}

fn denied_if(p: &mut Pool, negated: bool, e: ExprId) -> ExprId
    ensures { Builds1 p.old p.new result e (denied_tree negated) }
{
    if negated { p.not(e) } else { e }
}

fn identical(b: &mut Body<'_>, negated: bool)
    ensures { Runs b.old b.new (on_two (same_tree negated)) }
{
    let y = b.pop();
    let x = b.pop();
    let e = same(&mut b.pool, negated, x.e, y.e);
    b.push(e);
}

fn same(p: &mut Pool, negated: bool, x: ExprId, y: ExprId) -> ExprId
    ensures { Builds2 p.old p.new result x y (same_tree negated) }
{
    if negated {
        p.different(x, y)
    } else {
        p.same(x, y)
    }
}

/// `<`, `<=`, `>` or `>=` of the last two values, of a type.
pub fn less(b: &mut Body<'_>, op: Op, t: TypeId)
    ensures { Runs b.old b.new (λ s. less_done op (held_type t s) s) }
{
    let held = b.held(t);
    let number = number_kind(held);
    match number {
        Some(kind) => lowered(b, op, kind),
        None => text_less(b, op),
    }
}

fn text_less(b: &mut Body<'_>, op: Op)
    ensures { Runs b.old b.new (on_two (order_tree op)) }
{
    let y = b.pop();
    let x = b.pop();
    let e = in_order(&mut b.pool, op, x.e, y.e);
    b.push(e);
}

fn in_order(p: &mut Pool, op: Op, x: ExprId, y: ExprId) -> ExprId
    ensures { Builds2 p.old p.new result x y (order_tree op) }
{
    match op {
        Op::Lt => p.less(x, y),
        Op::Le => p.less_equal(x, y),
        Op::Gt => p.greater(x, y),
        _ => p.greater_equal(x, y),
    }
}

/// The last value negated.
pub fn not(b: &mut Body<'_>)
    ensures { Runs b.old b.new denied }
{
    let x = b.pop();
    let e = b.pool.not(x.e);
    b.push(e);
}
