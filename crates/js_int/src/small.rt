//! Numbers of up to 32 bits.

ghost use Rattle.std.specs.Prelude.{◌≡◌};
ghost use Rattle.js_tree.specs.Script.{Expr};
ghost use Rattle.js_pool.specs.Stands.{Stands, Builds1, Builds2, Sees1, Sees2};
ghost use Rattle.js_int.specs.Small.{wrapped_tree, masked_tree, centred_tree, product_tree, times_tree, multiplied_tree, quotient_tree, bits_tree, bits_of_tree, bitwise_tree, constant_of, shifted_left_tree, left_tree, left_by_tree, left_test_tree, right_tree, right_signed_tree, right_unsigned_tree, right_by_tree, right_test_tree, at_most_31_tree, compared_tree, small_binary_tree, small_unary_tree, small_not_tree};

use crate::kinds::is_signed;
use gj_base::{Kind, Op};
use js_pool::{ExprId, Node, Pool};
use js_tree::BinaryOp;

/// A number modulo the kind's width.
pub fn wrapped(p: &mut Pool, kind: Kind, z: ExprId) -> ExprId
    ensures { Builds1 p.old p.new result z (wrapped_tree kind) }
{
    match kind {
        Kind::I8 => centred(p, z, 128, 255),
        Kind::I16 => centred(p, z, 32768, 65535),
        Kind::U8 => masked(p, z, 255),
        Kind::U16 => masked(p, z, 65535),
        Kind::U32 => {
            let none = p.num(0);
            p.shift_right_unsigned(z, none)
        }
        _ => {
            let none = p.num(0);
            p.bit_or(z, none)
        }
    }
}

fn masked(p: &mut Pool, z: ExprId, mask: u64) -> ExprId
    ensures { Builds1 p.old p.new result z (masked_tree mask) }
{
    let mask = p.num(mask);
    p.bit_and(z, mask)
}

// `((z + middle) & mask) - middle`
fn centred(p: &mut Pool, z: ExprId, middle: u64, mask: u64) -> ExprId
    ensures { Builds1 p.old p.new result z (centred_tree middle mask) }
{
    let m = p.num(middle);
    let up = p.plus(z, m);
    let low = masked(p, up, mask);
    p.sub(low, m)
}

// A product of 32 bits, modulo the width: each product of digits is below `2 ^ 32`.
fn product(p: &mut Pool, x: ExprId, y: ExprId) -> ExprId
    ensures { Builds2 p.old p.new result x y product_tree }
{
    let a = masked(p, x, 65535);
    let b = masked(p, y, 65535);
    let width = p.num(16);
    let c = p.shift_right_unsigned(x, width);
    let d = p.shift_right_unsigned(y, width);
    let low = p.mul(a, b);
    let one = p.mul(c, b);
    let other = p.mul(a, d);
    let high = p.plus(one, other);
    let high = p.shift_left(high, width);
    p.plus(low, high)
}

fn times(p: &mut Pool, kind: Kind, x: ExprId, y: ExprId) -> ExprId
    ensures { Builds2 p.old p.new result x y (times_tree kind) }
{
    let z = multiplied(p, kind, x, y);
    wrapped(p, kind, z)
}

fn multiplied(p: &mut Pool, kind: Kind, x: ExprId, y: ExprId) -> ExprId
    ensures { Builds2 p.old p.new result x y (multiplied_tree kind) }
{
    match kind {
        Kind::I32 | Kind::U32 => product(p, x, y),
        _ => p.mul(x, y),
    }
}

// `(x - x % y) / y`, which wraps at the least number by -1.
fn quotient(p: &mut Pool, kind: Kind, x: ExprId, y: ExprId) -> ExprId
    ensures { Builds2 p.old p.new result x y (quotient_tree kind) }
{
    let rest = p.rem(x, y);
    let whole = p.sub(x, rest);
    let z = p.div(whole, y);
    if is_signed(kind) {
        return wrapped(p, kind, z);
    }
    z
}

// Bits of two numbers: only those of `U32` can lose their sign.
fn bits(p: &mut Pool, kind: Kind, z: ExprId) -> ExprId
    ensures { Builds1 p.old p.new result z (bits_tree kind) }
{
    match kind {
        Kind::U32 => wrapped(p, kind, z),
        _ => z,
    }
}

fn bits_of(p: &mut Pool, op: Op, kind: Kind, x: ExprId, y: ExprId) -> ExprId
    ensures { Builds2 p.old p.new result x y (bits_of_tree op kind) }
{
    let z = bitwise(p, op, x, y);
    bits(p, kind, z)
}

fn bitwise(p: &mut Pool, op: Op, x: ExprId, y: ExprId) -> ExprId
    ensures { Builds2 p.old p.new result x y (bitwise_tree op) }
{
    match op {
        Op::And => p.bit_and(x, y),
        Op::Or => p.bit_or(x, y),
        Op::Xor => p.bit_xor(x, y),
        _ => {
            let y = p.complement(y);
            p.bit_and(x, y)
        }
    }
}

// ---- shifts

// The number that a constant operand is.
fn constant(p: &Pool, e: ExprId) -> Option<u64>
    ensures { (t : Expr) → Stands p.now e t → result ≡ constant_of t }
{
    match p.node(e) {
        Node::Number(n) => Some(n),
        _ => None,
    }
}

fn shifted_left(p: &mut Pool, kind: Kind, x: ExprId, y: ExprId) -> ExprId
    ensures { Builds2 p.old p.new result x y (shifted_left_tree kind) }
{
    let z = p.shift_left(x, y);
    wrapped(p, kind, z)
}

// To the left nothing is left past the width.
fn left(p: &mut Pool, kind: Kind, x: ExprId, y: ExprId) -> ExprId
    ensures { Sees2 p.old p.new result x y (left_tree kind) }
{
    match constant(p, y) {
        Some(n) => left_by(p, kind, x, y, n),
        None => left_test(p, kind, x, y),
    }
}

fn left_test(p: &mut Pool, kind: Kind, x: ExprId, y: ExprId) -> ExprId
    ensures { Builds2 p.old p.new result x y (left_test_tree kind) }
{
    let width = p.num(32);
    let few = p.less(y, width);
    let z = shifted_left(p, kind, x, y);
    let none = p.num(0);
    p.choice(few, z, none)
}

fn left_by(p: &mut Pool, kind: Kind, x: ExprId, y: ExprId, n: u64) -> ExprId
    ensures { Builds2 p.old p.new result x y (left_by_tree kind n) }
{
    if n < 32 {
        return shifted_left(p, kind, x, y);
    }
    p.num(0)
}

// To the right the sign is left past the width, or nothing.
fn right(p: &mut Pool, kind: Kind, x: ExprId, y: ExprId) -> ExprId
    ensures { Sees2 p.old p.new result x y (right_tree kind) }
{
    if is_signed(kind) {
        return right_signed(p, x, y);
    }
    right_unsigned(p, x, y)
}

fn right_signed(p: &mut Pool, x: ExprId, y: ExprId) -> ExprId
    ensures { Sees2 p.old p.new result x y right_signed_tree }
{
    let by = at_most_31(p, y);
    p.shift_right(x, by)
}

fn right_unsigned(p: &mut Pool, x: ExprId, y: ExprId) -> ExprId
    ensures { Sees2 p.old p.new result x y right_unsigned_tree }
{
    match constant(p, y) {
        Some(n) => right_by(p, x, y, n),
        None => right_test(p, x, y),
    }
}

fn right_test(p: &mut Pool, x: ExprId, y: ExprId) -> ExprId
    ensures { Builds2 p.old p.new result x y right_test_tree }
{
    let width = p.num(32);
    let few = p.less(y, width);
    let z = p.shift_right_unsigned(x, y);
    let none = p.num(0);
    p.choice(few, z, none)
}

fn right_by(p: &mut Pool, x: ExprId, y: ExprId, n: u64) -> ExprId
    ensures { Builds2 p.old p.new result x y (right_by_tree n) }
{
    if n < 32 {
        return p.shift_right_unsigned(x, y);
    }
    p.num(0)
}

fn at_most_31(p: &mut Pool, y: ExprId) -> ExprId
    ensures { Sees1 p.old p.new result y at_most_31_tree }
{
    match constant(p, y) {
        Some(n) => p.num(n.min(31)),
        None => {
            let width = p.num(32);
            let few = p.less(y, width);
            let most = p.num(31);
            p.choice(few, y, most)
        }
    }
}

// ---- all operations

/// An operation on two numbers.
pub fn binary(p: &mut Pool, op: Op, kind: Kind, x: ExprId, y: ExprId) -> ExprId
    ensures { Sees2 p.old p.new result x y (small_binary_tree op kind) }
{
    match op {
        Op::Add => {
            let z = p.plus(x, y);
            wrapped(p, kind, z)
        }
        Op::Sub => {
            let z = p.sub(x, y);
            wrapped(p, kind, z)
        }
        Op::Mul => times(p, kind, x, y),
        Op::Div => quotient(p, kind, x, y),
        Op::Rem => p.rem(x, y),
        Op::And => bits_of(p, Op::And, kind, x, y),
        Op::Or => bits_of(p, Op::Or, kind, x, y),
        Op::Xor => bits_of(p, Op::Xor, kind, x, y),
        Op::AndNot => bits_of(p, Op::AndNot, kind, x, y),
        Op::Shl => left(p, kind, x, y),
        Op::Shr => right(p, kind, x, y),
        _ => compared(p, op, x, y),
    }
}

/// A comparison of two numbers or two strings.
pub fn compared(p: &mut Pool, op: Op, x: ExprId, y: ExprId) -> ExprId
    ensures { Builds2 p.old p.new result x y (compared_tree op) }
{
    match op {
        Op::Eq => p.same(x, y),
        Op::Ne => p.different(x, y),
        Op::Lt => p.less(x, y),
        Op::Le => p.less_equal(x, y),
        Op::Gt => p.greater(x, y),
        Op::Ge => p.greater_equal(x, y),
        _ => x,
    }
}

/// An operation on one number.
pub fn unary(p: &mut Pool, op: Op, kind: Kind, x: ExprId) -> ExprId
    ensures { Builds1 p.old p.new result x (small_unary_tree op kind) }
{
    match op {
        Op::Neg => {
            let z = p.opposite(x);
            wrapped(p, kind, z)
        }
        Op::Compl => not_bits(p, kind, x),
        _ => x,
    }
}

fn not_bits(p: &mut Pool, kind: Kind, x: ExprId) -> ExprId
    ensures { Builds1 p.old p.new result x (small_not_tree kind) }
{
    let z = p.complement(x);
    if is_signed(kind) {
        return z;
    }
    wrapped(p, kind, z)
}
