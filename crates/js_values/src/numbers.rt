//! Integers: Go specification (as of Go 1.17), "Arithmetic operators", "Conversions".

ghost use Rattle.std.specs.Prelude.{◌≡◌, true, false, List, ◌&&◌, if◌then◌else◌};
ghost use Rattle.go_type.specs.Tree.{Ty};
ghost use Rattle.go_core.specs.CoreTree as core;
ghost use Rattle.go_core.specs.CoreView.{constant_of, expr_view};
ghost use Rattle.js_pool.specs.Tree as tree;
ghost use Rattle.js_pool.specs.Stands.{Builds1, Builds2};
ghost use Rattle.js_facts.specs.Held.{how};
ghost use Rattle.js_body.specs.State.{held_type};
ghost use Rattle.js_body.specs.Tells.{Runs, Gives1};
ghost use Rattle.js_values.specs.Steps.{type_kind, kind_in, is_scalar, RunsWhen};
ghost use Rattle.js_values.specs.Values.{is_text, character_encoded, number_converted, converted};
ghost use Rattle.js_values.specs.Numbers.{constant_count, lowered, unary_done, binary_done, is_division, guarded, is_nonzero, half_is_zero, zero_test, zero_refused, counted, negative_test, negative_refused, low_or, count_cut, past_tree, size_tree, sized, low_tree, int_converted};

use crate::strings::{encode, encode_wide, join, split};
use gj_base::{Kind, Op};
use go_core::node::{Constant, CoreExpr, CoreForm};
use go_type::types::TypeId;
use js_body::{Body, Known, Operand};
use js_facts::Held;
use js_int::{is_signed, is_wide};
use js_pool::{ExprId, Pool};

/// The most that a count of a shift needs to be.
const MOST_COUNT: i64 = 4294967295;

/// An operation on the last two values.
pub fn lowered(b: &mut Body<'_>, op: Op, kind: Kind)
    ensures { Runs b.old b.new (lowered op kind) }
{
    let y = b.pop();
    let x = b.pop();
    let e = js_int::binary(&mut b.pool, op, kind, x.e, y.e);
    b.push(e);
}

/// An operation on the last value.
pub fn unary(b: &mut Body<'_>, op: Op, t: TypeId)
    ensures { Runs b.old b.new (λ s. unary_done op (type_kind t s) s) }
{
    let kind = b.int_kind(t);
    unary_of(b, op, kind);
}

fn unary_of(b: &mut Body<'_>, op: Op, kind: Kind)
    ensures { Runs b.old b.new (unary_done op kind) }
{
    let x = b.pop();
    let e = js_int::unary(&mut b.pool, op, kind, x.e);
    b.push(e);
}

/// An operation on the last two values; of a shift the second is its count, a number of 32 bits.
pub fn binary(b: &mut Body<'_>, op: Op, t: TypeId)
    ensures { Runs b.old b.new (λ s. binary_done op (type_kind t s) s) }
{
    let kind = b.int_kind(t);
    binary_of(b, op, kind);
}

fn binary_of(b: &mut Body<'_>, op: Op, kind: Kind)
    ensures { Runs b.old b.new (binary_done op kind) }
{
    guard(b, op, kind);
    lowered(b, op, kind);
}

// ---- divisors

fn is_division(op: Op) -> bool
    ensures { result ≡ is_division op }
{
    match op {
        Op::Div | Op::Rem => true,
        _ => false,
    }
}

// A divisor isn't zero.
fn guard(b: &mut Body<'_>, op: Op, kind: Kind)
    ensures { Runs b.old b.new (guarded op kind) }
{
    if is_division(op) {
        refuse_zero(b, kind);
    }
}

// Whether a value is a constant other than zero.
fn is_nonzero(known: Known) -> bool
    ensures { result ≡ is_nonzero known }
{
    match known {
        Known::Number(n) => n != 0,
        _ => false,
    }
}

// A panic where the last value is zero.
fn refuse_zero(b: &mut Body<'_>, kind: Kind)
    ensures { Runs b.old b.new (zero_refused kind) }
{
    let y = b.last();
    if !is_nonzero(y.known) {
        let test = is_zero(&mut b.pool, kind, y.e);
        b.panic_if(test, 1);
    }
}

fn is_zero(p: &mut Pool, kind: Kind, e: ExprId) -> ExprId
    ensures { Builds1 p.old p.new result e (zero_test kind) }
{
    if is_wide(kind) {
        let high = half_is_zero(p, e, 0);
        let low = half_is_zero(p, e, 1);
        p.both(high, low)
    } else {
        let none = p.num(0);
        p.same(e, none)
    }
}

fn half_is_zero(p: &mut Pool, e: ExprId, i: u64) -> ExprId
    ensures { Builds1 p.old p.new result e (half_is_zero i) }
{
    let none = p.num(0);
    let half = p.at(e, i);
    p.same(half, none)
}

// ---- counts of shifts

/// The count of a shift that is a constant, cut to 32 bits; none where it is negative or no constant.
pub fn constant_count(e: &CoreExpr) -> Option<i64>
    ensures { (ts : List Ty) → result ≡ constant_count (expr_view ts e.now) }
{
    match &*e.form {
        CoreForm::Const { value, .. } => count_in(value),
        _ => None,
    }
}

fn count_in(value: &Constant) -> Option<i64>
    ensures { (t : Ty) → result ≡ constant_count (core.constant t (constant_of value.now)) }
{
    match value {
        Constant::Int(n) => cut_to_32(*n),
        _ => None,
    }
}

fn cut_to_32(n: i128) -> Option<i64>
    ensures { (t : Ty) → result ≡ constant_count (core.constant t (core.whole_constant n)) }
{
    if n < 0 {
        None
    } else if n > 4294967295 {
        Some(MOST_COUNT)
    } else {
        Some(n as i64)
    }
}

/// The last value as the count of a shift, a number of 32 bits: a negative one panics, a greater one is cut.
pub fn count(b: &mut Body<'_>, t: TypeId)
    ensures { Runs b.old b.new (λ s. counted (type_kind t s) s) }
{
    let kind = b.int_kind(t);
    count_of(b, kind);
}

fn count_of(b: &mut Body<'_>, kind: Kind)
    ensures { Runs b.old b.new (counted kind) }
{
    refuse_negative(b, kind);
    cut_count(b, kind);
}

// A panic where the last value is negative.
fn refuse_negative(b: &mut Body<'_>, kind: Kind)
    ensures { Runs b.old b.new (negative_refused kind) }
{
    if is_signed(kind) {
        let y = b.last();
        let test = is_negative(&mut b.pool, kind, y.e);
        b.panic_if(test, 5);
    }
}

fn is_negative(p: &mut Pool, kind: Kind, e: ExprId) -> ExprId
    ensures { Builds1 p.old p.new result e (negative_test kind) }
{
    if is_wide(kind) {
        let high = p.at(e, 0);
        let least = p.num(2147483648);
        p.greater_equal(high, least)
    } else {
        let none = p.num(0);
        p.less(e, none)
    }
}

fn cut_count(b: &mut Body<'_>, kind: Kind)
    ensures { Runs b.old b.new (count_cut kind) }
{
    if is_wide(kind) {
        let y = b.pop();
        let e = cut(&mut b.pool, y.e);
        b.push(e);
    }
}

fn cut(p: &mut Pool, e: ExprId) -> ExprId
    ensures { Builds1 p.old p.new result e (low_or (tree.number 4294967295)) }
{
    let most = p.num(4294967295);
    low_or(p, e, most)
}

// The low half, or something else where the high one isn't zero.
pub(crate) fn low_or(p: &mut Pool, e: ExprId, other: ExprId) -> ExprId
    ensures { Builds2 p.old p.new result e other (λ t u. low_or u t) }
{
    let few = half_is_zero(p, e, 0);
    let low = p.at(e, 1);
    p.choice(few, low, other)
}

// ---- sizes and bounds

/// The last value, of a type, as a number: one of 64 bits that passes 32 is one past each limit, or -1 where
/// it is negative.
pub fn size(b: &mut Body<'_>, t: TypeId)
    ensures { Runs b.old b.new (λ s. sized (type_kind t s) s) }
{
    let kind = b.int_kind(t);
    size_of(b, kind);
}

fn size_of(b: &mut Body<'_>, kind: Kind)
    ensures { Runs b.old b.new (sized kind) }
{
    if is_wide(kind) {
        let x = b.pop();
        let e = small_size(&mut b.pool, kind, x.e);
        b.push(e);
    }
}

fn small_size(p: &mut Pool, kind: Kind, e: ExprId) -> ExprId
    ensures { Builds1 p.old p.new result e (size_tree kind) }
{
    let far = past(p, kind, e);
    low_or(p, e, far)
}

fn past(p: &mut Pool, kind: Kind, e: ExprId) -> ExprId
    ensures { Builds1 p.old p.new result e (past_tree kind) }
{
    let past = p.num(4294967296);
    if is_signed(kind) {
        let negative = is_negative(p, kind, e);
        let before = p.whole(-1);
        p.choice(negative, before, past)
    } else {
        past
    }
}

/// The low 32 bits of an operand.
pub fn low_bits(b: &mut Body<'_>, o: Operand, t: TypeId) -> ExprId
    ensures { Gives1 b.old b.new o.e result (λ u s. low_tree (type_kind t s) u) (λ u s. s) }
{
    let kind = b.int_kind(t);
    low_part(&mut b.pool, kind, o.e)
}

fn low_part(p: &mut Pool, kind: Kind, e: ExprId) -> ExprId
    ensures { Builds1 p.old p.new result e (low_tree kind) }
{
    if is_wide(kind) { p.at(e, 1) } else { e }
}

// ---- conversions

/// The kind of numbers that are held so.
pub(crate) fn number_kind(held: Held) -> Option<Kind>
    ensures { result ≡ kind_in (how held) }
{
    match held {
        Held::Small(kind) => Some(kind),
        Held::Wide(kind) => Some(kind),
        _ => None,
    }
}

fn is_text(held: Held) -> bool
    ensures { result ≡ is_text (how held) }
{
    match held {
        Held::Str => true,
        _ => false,
    }
}

/// The last value, of a type, as one of another.
pub fn convert(b: &mut Body<'_>, from: TypeId, to: TypeId)
    ensures { RunsWhen b.old b.new (λ s. is_scalar (held_type from s) && is_scalar (held_type to s)) (λ s. converted (held_type from s) (held_type to s) s) }
{
    let x = b.held(from);
    let y = b.held(to);
    let number = number_kind(x);
    match number {
        Some(kind) => convert_number(b, kind, y),
        None => convert_other(b, x, y, from, to),
    }
}

fn convert_number(b: &mut Body<'_>, from: Kind, to: Held)
    ensures { Runs b.old b.new (number_converted from (how to)) }
{
    let number = number_kind(to);
    match number {
        Some(kind) => convert_int(b, from, kind),
        None => encode_to(b, from, to),
    }
}

fn encode_to(b: &mut Body<'_>, from: Kind, to: Held)
    ensures { Runs b.old b.new (λ s. if is_text (how to) then character_encoded from s else s) }
{
    if is_text(to) {
        encode_number(b, from);
    }
}

fn encode_number(b: &mut Body<'_>, from: Kind)
    ensures { Runs b.old b.new (character_encoded from) }
{
    if is_wide(from) {
        encode_wide(b);
    } else {
        encode(b);
    }
}

// A string and a slice of its bytes or runes are made of each other; any other value stays what it is.
fn convert_other(b: &mut Body<'_>, x: Held, y: Held, from: TypeId, to: TypeId)
    ensures { RunsWhen b.old b.new (λ s. is_scalar (how x) && is_scalar (how y)) (λ s. s) }
{
    if is_split(x, y) {
        split(b, to);
    } else {
        join_slice(b, x, y, from);
    }
}

fn join_slice(b: &mut Body<'_>, x: Held, y: Held, from: TypeId)
    ensures { RunsWhen b.old b.new (λ s. is_scalar (how x) && is_scalar (how y)) (λ s. s) }
{
    if is_split(y, x) {
        join(b, from);
    }
}

// Whether these are a string and a slice.
fn is_split(text: Held, slice: Held) -> bool
    ensures { is_scalar (how slice) ≡ true → result ≡ false }
{
    is_text(text) && is_slice(slice)
}

fn is_slice(held: Held) -> bool
    ensures { is_scalar (how held) ≡ true → result ≡ false }
{
    match held {
        Held::Slice => true,
        _ => false,
    }
}

fn convert_int(b: &mut Body<'_>, from: Kind, to: Kind)
    ensures { Runs b.old b.new (int_converted from to) }
{
    let x = b.pop();
    let e = js_int::convert::convert(&mut b.pool, from, to, x.e);
    b.push(e);
}
