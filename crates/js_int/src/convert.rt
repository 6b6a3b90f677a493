//! Conversions between kinds of integers. Go specification, "Conversions between numeric types".

ghost use Rattle.js_pool.specs.Stands.{Builds1};
ghost use Rattle.js_int.specs.Convert.{widened_tree, narrowed_tree, convert_tree};

use crate::kinds::{is_signed, is_wide, lies_in};
use crate::small::wrapped;
use gj_base::Kind;
use js_pool::{ExprId, Pool};

// The halves of a number of up to 32 bits.
fn widened(p: &mut Pool, from: Kind, x: ExprId) -> ExprId
    ensures { Builds1 p.old p.new result x (widened_tree «from») }
{
    let none = p.num(0);
    if !is_signed(from) {
        return p.pair(none, x);
    }
    let ones = p.num(4294967295);
    let negative = p.less(x, none);
    let high = p.choice(negative, ones, none);
    let low = p.shift_right_unsigned(x, none);
    p.pair(high, low)
}

// The low half of a number of 64 bits, modulo the width.
fn narrowed(p: &mut Pool, to: Kind, x: ExprId) -> ExprId
    ensures { Builds1 p.old p.new result x (narrowed_tree to) }
{
    let low = p.at(x, 1);
    match to {
        Kind::U32 => low,
        _ => wrapped(p, to, low),
    }
}

/// A number of one kind as one of another.
pub fn convert(p: &mut Pool, from: Kind, to: Kind, x: ExprId) -> ExprId
    ensures { Builds1 p.old p.new result x (convert_tree «from» to) }
{
    if is_wide(from) {
        if is_wide(to) {
            return x;
        }
        return narrowed(p, to, x);
    }
    if is_wide(to) {
        return widened(p, from, x);
    }
    if lies_in(from, to) {
        return x;
    }
    wrapped(p, to, x)
}
