//! Numbers of 64 bits: an array of the high half and the low one.

ghost use Rattle.js_pool.specs.Stands.{Builds1, Builds2};
ghost use Rattle.js_int.specs.Wide.{half_tree, bits_at_tree, half_bits_tree, wide_bits_tree, compared_at_tree, equal_tree, unequal_tree, ordered_tree, wide_compared_tree, signed_call_tree, wide_binary_tree, wide_unary_tree, wide_not_tree, not_at_tree};

use crate::kinds::is_signed;
use gj_base::{Kind, Op};
use js_pool::{ExprId, Pool};
use js_tree::BinaryOp;

// Bits as a half.
fn half(p: &mut Pool, z: ExprId) -> ExprId
    ensures { Builds1 p.old p.new result z half_tree }
{
    let none = p.num(0);
    p.shift_right_unsigned(z, none)
}

fn bits_at(p: &mut Pool, op: Op, x: ExprId, y: ExprId, i: u64) -> ExprId
    ensures { Builds2 p.old p.new result x y (bits_at_tree op i) }
{
    let a = p.at(x, i);
    let b = p.at(y, i);
    let z = half_bits(p, op, a, b);
    half(p, z)
}

fn half_bits(p: &mut Pool, op: Op, a: ExprId, b: ExprId) -> ExprId
    ensures { Builds2 p.old p.new result a b (half_bits_tree op) }
{
    match op {
        Op::And => p.bit_and(a, b),
        Op::Or => p.bit_or(a, b),
        Op::Xor => p.bit_xor(a, b),
        Op::AndNot => {
            let b = p.complement(b);
            p.bit_and(a, b)
        }
        _ => a,
    }
}

fn bits(p: &mut Pool, op: Op, x: ExprId, y: ExprId) -> ExprId
    ensures { Builds2 p.old p.new result x y (wide_bits_tree op) }
{
    let high = bits_at(p, op, x, y, 0);
    let low = bits_at(p, op, x, y, 1);
    p.pair(high, low)
}

fn compared_at(p: &mut Pool, op: BinaryOp, x: ExprId, y: ExprId, i: u64) -> ExprId
    ensures { Builds2 p.old p.new result x y (compared_at_tree op i) }
{
    let a = p.at(x, i);
    let b = p.at(y, i);
    p.two(op, a, b)
}

fn equal(p: &mut Pool, x: ExprId, y: ExprId) -> ExprId
    ensures { Builds2 p.old p.new result x y equal_tree }
{
    let low = compared_at(p, BinaryOp::Same, x, y, 1);
    let high = compared_at(p, BinaryOp::Same, x, y, 0);
    p.both(low, high)
}

fn unequal(p: &mut Pool, x: ExprId, y: ExprId) -> ExprId
    ensures { Builds2 p.old p.new result x y unequal_tree }
{
    let low = compared_at(p, BinaryOp::Different, x, y, 1);
    let high = compared_at(p, BinaryOp::Different, x, y, 0);
    p.either(low, high)
}

fn ordered(p: &mut Pool, op: BinaryOp, kind: Kind, x: ExprId, y: ExprId) -> ExprId
    ensures { Builds2 p.old p.new result x y (ordered_tree op kind) }
{
    let sign = p.truth(is_signed(kind));
    let order = p.call3(b"$cmp64", x, y, sign);
    let none = p.num(0);
    p.two(op, order, none)
}

fn compared(p: &mut Pool, op: Op, kind: Kind, x: ExprId, y: ExprId) -> ExprId
    ensures { Builds2 p.old p.new result x y (wide_compared_tree op kind) }
{
    match op {
        Op::Eq => equal(p, x, y),
        Op::Ne => unequal(p, x, y),
        Op::Lt => ordered(p, BinaryOp::Less, kind, x, y),
        Op::Le => ordered(p, BinaryOp::LessEqual, kind, x, y),
        Op::Gt => ordered(p, BinaryOp::Greater, kind, x, y),
        _ => ordered(p, BinaryOp::GreaterEqual, kind, x, y),
    }
}

// A call of a function that must know whether numbers have a sign.
fn signed_call(p: &mut Pool, word: &'static [u8], kind: Kind, x: ExprId, y: ExprId) -> ExprId
    ensures { Builds2 p.old p.new result x y (signed_call_tree word.now kind) }
{
    let sign = p.truth(is_signed(kind));
    p.call3(word, x, y, sign)
}

/// An operation on two numbers; the count of a shift has 32 bits.
pub fn binary(p: &mut Pool, op: Op, kind: Kind, x: ExprId, y: ExprId) -> ExprId
    ensures { Builds2 p.old p.new result x y (wide_binary_tree op kind) }
{
    match op {
        Op::Add => p.call2(b"$add64", x, y),
        Op::Sub => p.call2(b"$sub64", x, y),
        Op::Mul => p.call2(b"$mul64", x, y),
        Op::Div => signed_call(p, b"$div64", kind, x, y),
        Op::Rem => signed_call(p, b"$mod64", kind, x, y),
        Op::Shl => p.call2(b"$shl64", x, y),
        Op::Shr => signed_call(p, b"$shr64", kind, x, y),
        Op::And => bits(p, Op::And, x, y),
        Op::Or => bits(p, Op::Or, x, y),
        Op::Xor => bits(p, Op::Xor, x, y),
        Op::AndNot => bits(p, Op::AndNot, x, y),
        _ => compared(p, op, kind, x, y),
    }
}

/// An operation on one number.
pub fn unary(p: &mut Pool, op: Op, x: ExprId) -> ExprId
    ensures { Builds1 p.old p.new result x (wide_unary_tree op) }
{
    match op {
        Op::Neg => {
            let none = p.num(0);
            let none = p.pair(none, none);
            p.call2(b"$sub64", none, x)
        }
        Op::Compl => not_bits(p, x),
        _ => x,
    }
}

fn not_bits(p: &mut Pool, x: ExprId) -> ExprId
    ensures { Builds1 p.old p.new result x wide_not_tree }
{
    let high = not_bits_at(p, x, 0);
    let low = not_bits_at(p, x, 1);
    p.pair(high, low)
}

fn not_bits_at(p: &mut Pool, x: ExprId, i: u64) -> ExprId
    ensures { Builds1 p.old p.new result x (not_at_tree i) }
{
    let z = p.at(x, i);
    let z = p.complement(z);
    half(p, z)
}
