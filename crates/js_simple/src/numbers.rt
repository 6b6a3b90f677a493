//! Numbers, truths and places of expressions that change nothing, found without values on the way:
//! ECMA-262 5.1, 11. Where nothing is found here, there may still be a value.

ghost use Rattle.std.specs.Prelude.{◌≡◌, ℕ, List, Some, Ok, IfSome, option_map, slice_get};
ghost use Rattle.js_tree.specs.Operation as defined;
ghost use Rattle.js_tree.specs.Script as form;
ghost use Rattle.js_tree.specs.Value as run;
ghost use Rattle.js_code.specs.Slots as slotted;
ghost use Rattle.js_code.specs.Held.{part_of};
ghost use Rattle.js_value.specs.ValueSeen.{whole_of};
ghost use Rattle.js_value.specs.HeapSeen.{value_of, values_of, object_of, objects_of};
ghost use Rattle.js_simple.specs.Seen.{Does, slots_in};
ghost use Rattle.js_simple.specs.PartDoes.{eval_at, eval_part, expr_in, value_does};

use crate::state::{Context, Slot};
use js_code::code::Part;
use js_tree::BinaryOp;
use js_value::heap::heap::Object;
use js_value::heap::value::Value;
use js_value::value::arithmetic::{
    bit_and, bit_or, bit_xor, difference, natural, product, quotient, remainder, shifted_left,
    shifted_right, shifted_right_unsigned, sum,
};
use js_value::value::number::Number;

// The number that a slot holds.
fn number_held<'a>(slot: &Slot<'a>) -> Option<Number>
    ensures value { IfSome result (λ n. option_map value_of slot.now ≡ Some (whole_of n)) }
{
    match slot {
        Some(v) => number_in(v),
        None => None,
    }
}

fn number_in<'a>(v: &Value<'a>) -> Option<Number>
    ensures value { IfSome result (λ n. value_of v.now ≡ whole_of n) }
{
    match v {
        Value::Whole(n) => Some(*n),
        _ => None,
    }
}

fn object_in<'a>(v: &Value<'a>) -> Option<u32>
    ensures value { IfSome result (λ id. value_of v.now ≡ run.object id) }
{
    match v {
        Value::Object(id) => Some(*id),
        _ => None,
    }
}

fn object_held<'a>(slot: &Slot<'a>) -> Option<u32>
    ensures value { IfSome result (λ id. option_map value_of slot.now ≡ Some (run.object id)) }
{
    match slot {
        Some(v) => object_in(v),
        None => None,
    }
}

fn slot_number<'a>(slots: &[Slot<'a>], slot: u32) -> Option<Number>
    ensures value { IfSome result (λ n. slotted.slot_value (slots_in slots.now) slot ≡ Some (whole_of n)) }
{
    match slots.get(slot as usize) {
        Some(held) => number_held(held),
        None => None,
    }
}

fn slot_object<'a>(slots: &[Slot<'a>], slot: u32) -> Option<u32>
    ensures value { IfSome result (λ id. slotted.slot_value (slots_in slots.now) slot ≡ Some (run.object id)) }
{
    match slots.get(slot as usize) {
        Some(held) => object_held(held),
        None => None,
    }
}

// The element of an array that is a number.
fn number_among<'a>(items: &[Value<'a>], i: usize) -> Option<Number>
    ensures value { IfSome result (λ n. slice_get (values_of items.now) i ≡ Some (whole_of n)) }
{
    match items.get(i) {
        Some(v) => number_in(v),
        None => None,
    }
}

fn object_among<'a>(items: &[Value<'a>], i: usize) -> Option<u32>
    ensures value { IfSome result (λ id. slice_get (values_of items.now) i ≡ Some (run.object id)) }
{
    match items.get(i) {
        Some(v) => object_in(v),
        None => None,
    }
}

fn number_item<'a>(object: &Object<'a>, i: Number) -> Option<Number>
    ensures value { IfSome result (λ n. defined.element_in (Some (object_of object.now)) (run.whole i.n) ≡ Some (whole_of n)) }
{
    match object {
        Object::Items(items) if i.n >= 0 => number_among(items.as_slice(), i.n as usize),
        _ => None,
    }
}

fn object_item<'a>(object: &Object<'a>, i: Number) -> Option<u32>
    ensures value { IfSome result (λ id. defined.element_in (Some (object_of object.now)) (run.whole i.n) ≡ Some (run.object id)) }
{
    match object {
        Object::Items(items) if i.n >= 0 => object_among(items.as_slice(), i.n as usize),
        _ => None,
    }
}

fn number_element<'a>(objects: &[Object<'a>], id: u32, i: Number) -> Option<Number>
    ensures value { IfSome result (λ n. defined.element (objects_of objects.now) (run.object id) (run.whole i.n) ≡ Some (whole_of n)) }
{
    match objects.get(id as usize) {
        Some(object) => number_item(object, i),
        None => None,
    }
}

fn object_element<'a>(objects: &[Object<'a>], id: u32, i: Number) -> Option<u32>
    ensures value { IfSome result (λ k. defined.element (objects_of objects.now) (run.object id) (run.whole i.n) ≡ Some (run.object k)) }
{
    match objects.get(id as usize) {
        Some(object) => object_item(object, i),
        None => None,
    }
}

// An operator between numbers that gives a number.
fn computed(op: BinaryOp, x: Number, y: Number) -> Option<Number>
    ensures value { (os : List run.Object) → IfSome result (λ n. defined.binary_value os op (run.whole x.n) (run.whole y.n) ≡ Some (whole_of n)) }
{
    match op {
        BinaryOp::Add => sum(x, y),
        BinaryOp::Subtract => difference(x, y),
        BinaryOp::Multiply => product(x, y),
        BinaryOp::Divide => quotient(x, y),
        BinaryOp::Remainder => remainder(x, y),
        BinaryOp::BitOr => Some(bit_or(x, y)),
        BinaryOp::BitAnd => Some(bit_and(x, y)),
        BinaryOp::BitXor => Some(bit_xor(x, y)),
        BinaryOp::ShiftLeft => Some(shifted_left(x, y)),
        BinaryOp::ShiftRight => Some(shifted_right(x, y)),
        BinaryOp::ShiftRightUnsigned => Some(shifted_right_unsigned(x, y)),
        _ => None,
    }
}

// One that compares them.
fn compared(op: BinaryOp, x: Number, y: Number) -> Option<bool>
    ensures value { (os : List run.Object) → IfSome result (λ b. defined.binary_value os op (run.whole x.n) (run.whole y.n) ≡ Some (run.truth b)) }
{
    match op {
        BinaryOp::Less => Some(x.n < y.n),
        BinaryOp::LessEqual => Some(x.n <= y.n),
        BinaryOp::Greater => Some(y.n < x.n),
        BinaryOp::GreaterEqual => Some(y.n <= x.n),
        BinaryOp::Same => Some(x.n == y.n),
        BinaryOp::Different => Some(x.n != y.n),
        _ => None,
    }
}

/// The number that an expression without a call gives, whose nodes are nested at most so deep.
#[cycle(number_at)]
pub fn number_at<'a>(
    c: &Context<'_, 'a>,
    objects: &[Object<'a>],
    depth: u32,
    i: u32,
) -> Option<Number>
    ensures value { IfSome result (λ n. Does c.now whole_of (Ok n) objects.now objects.now (eval_at c.now i)) }
{
    if depth == 0 {
        return None;
    }
    match c.code.get(i) {
        Some(part) => part_number(c, objects, depth - 1, part),
        None => None,
    }
}

#[cycle(number_at)]
fn part_number<'a>(
    c: &Context<'_, 'a>,
    objects: &[Object<'a>],
    depth: u32,
    part: Part<'a>,
) -> Option<Number>
    ensures value { (i : ℕ) → slice_get c.now.code.now i ≡ Some (part_of part.entry) → IfSome result (λ n. Does c.now whole_of (Ok n) objects.now objects.now (eval_part c.now part.entry)) }
{
    match part {
        Part::Number { n, .. } => natural(n),
        Part::Local { slot, .. } => slot_number(c.locals, slot),
        Part::Global { slot, .. } => slot_number(c.globals, slot),
        Part::Binary {
            op,
            left,
            right,
            ..
        } => number_of(c, objects, depth, op, left, right),
        Part::Index { e, i, .. } => item_number(c, objects, depth, e, i),
        _ => None,
    }
}

/// The number that an operator gives between the numbers of two expressions.
#[cycle(number_at)]
pub fn number_of<'a>(
    c: &Context<'_, 'a>,
    objects: &[Object<'a>],
    depth: u32,
    op: BinaryOp,
    left: u32,
    right: u32,
) -> Option<Number>
    ensures value { IfSome result (λ n. (at : ℕ) → Does c.now whole_of (Ok n) objects.now objects.now (value_does (form.binary at op (expr_in c.now left) (expr_in c.now right)))) }
{
    match number_at(c, objects, depth, right) {
        Some(y) => match number_at(c, objects, depth, left) {
            Some(x) => computed(op, x, y),
            None => None,
        },
        None => None,
    }
}

#[cycle(number_at)]
fn item_number<'a>(
    c: &Context<'_, 'a>,
    objects: &[Object<'a>],
    depth: u32,
    e: u32,
    i: u32,
) -> Option<Number>
    ensures value { IfSome result (λ n. (at : ℕ) → Does c.now whole_of (Ok n) objects.now objects.now (value_does (form.index at (expr_in c.now e) (expr_in c.now i)))) }
{
    match number_at(c, objects, depth, i) {
        Some(n) => match array_at(c, objects, depth, e) {
            Some(id) => number_element(objects, id, n),
            None => None,
        },
        None => None,
    }
}

// The place of the array that an expression gives.
#[cycle(number_at)]
fn array_at<'a>(c: &Context<'_, 'a>, objects: &[Object<'a>], depth: u32, i: u32) -> Option<u32>
    ensures value { IfSome result (λ id. Does c.now run.object (Ok id) objects.now objects.now (eval_at c.now i)) }
{
    if depth == 0 {
        return None;
    }
    match c.code.get(i) {
        Some(part) => part_array(c, objects, depth - 1, part),
        None => None,
    }
}

#[cycle(number_at)]
fn part_array<'a>(
    c: &Context<'_, 'a>,
    objects: &[Object<'a>],
    depth: u32,
    part: Part<'a>,
) -> Option<u32>
    ensures value { (i : ℕ) → slice_get c.now.code.now i ≡ Some (part_of part.entry) → IfSome result (λ id. Does c.now run.object (Ok id) objects.now objects.now (eval_part c.now part.entry)) }
{
    match part {
        Part::Local { slot, .. } => slot_object(c.locals, slot),
        Part::Global { slot, .. } => slot_object(c.globals, slot),
        Part::Index { e, i, .. } => item_array(c, objects, depth, e, i),
        _ => None,
    }
}

#[cycle(number_at)]
fn item_array<'a>(
    c: &Context<'_, 'a>,
    objects: &[Object<'a>],
    depth: u32,
    e: u32,
    i: u32,
) -> Option<u32>
    ensures value { IfSome result (λ id. (at : ℕ) → Does c.now run.object (Ok id) objects.now objects.now (value_does (form.index at (expr_in c.now e) (expr_in c.now i)))) }
{
    match number_at(c, objects, depth, i) {
        Some(n) => match array_at(c, objects, depth, e) {
            Some(id) => object_element(objects, id, n),
            None => None,
        },
        None => None,
    }
}

/// Whether a comparison holds between the numbers of two expressions.
pub fn truth_of_numbers<'a>(
    c: &Context<'_, 'a>,
    objects: &[Object<'a>],
    depth: u32,
    op: BinaryOp,
    left: u32,
    right: u32,
) -> Option<bool>
    ensures value { IfSome result (λ b. (at : ℕ) → Does c.now run.truth (Ok b) objects.now objects.now (value_does (form.binary at op (expr_in c.now left) (expr_in c.now right)))) }
{
    match number_at(c, objects, depth, right) {
        Some(y) => match number_at(c, objects, depth, left) {
            Some(x) => compared(op, x, y),
            None => None,
        },
        None => None,
    }
}

// Whether an operator compares.
fn is_comparison(op: BinaryOp) -> bool {
    match op {
        BinaryOp::Less => true,
        BinaryOp::LessEqual => true,
        BinaryOp::Greater => true,
        BinaryOp::GreaterEqual => true,
        BinaryOp::Same => true,
        BinaryOp::Different => true,
        _ => false,
    }
}

fn part_truth<'a>(
    c: &Context<'_, 'a>,
    objects: &[Object<'a>],
    depth: u32,
    part: Part<'a>,
) -> Option<bool>
    ensures value { IfSome result (λ b. Does c.now run.truth (Ok b) objects.now objects.now (eval_part c.now part.entry)) }
{
    match part {
        Part::Binary {
            op,
            left,
            right,
            ..
        } => truth_of_numbers(c, objects, depth, op, left, right),
        _ => None,
    }
}

/// Whether an expression without a call holds that compares numbers.
pub fn truth_at<'a>(c: &Context<'_, 'a>, objects: &[Object<'a>], depth: u32, i: u32) -> Option<bool>
    ensures value { IfSome result (λ b. Does c.now run.truth (Ok b) objects.now objects.now (eval_at c.now i)) }
{
    match c.code.get(i) {
        Some(part) => part_truth(c, objects, depth, part),
        None => None,
    }
}

/// The value that an operator gives between the numbers of two expressions.
pub fn value_of_numbers<'a>(
    c: &Context<'_, 'a>,
    objects: &[Object<'a>],
    depth: u32,
    op: BinaryOp,
    left: u32,
    right: u32,
) -> Option<Value<'a>>
    ensures value { IfSome result (λ v. (at : ℕ) → Does c.now value_of (Ok v) objects.now objects.now (value_does (form.binary at op (expr_in c.now left) (expr_in c.now right)))) }
{
    if is_comparison(op) {
        return match truth_of_numbers(c, objects, depth, op, left, right) {
            Some(b) => Some(Value::Truth(b)),
            None => None,
        };
    }
    match number_of(c, objects, depth, op, left, right) {
        Some(n) => Some(Value::Whole(n)),
        None => None,
    }
}
