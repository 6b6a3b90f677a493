//! Shifts.

ghost use Rattle.std.specs.Prelude.{◌≡◌, ◌*ℤ◌, ◌^◌, ◌<ℤ◌, ◌≤ℤ◌, ◌≤◌, pos, IsTrue, SomeIff, ℤ, ℕ, IfOk, IfErr};
ghost use Rattle.std.specs.Int.{w128, int_shr};
ghost use Rattle.std.specs.Int.RustNames.{FitsSigned};
ghost use Rattle.go_const.specs.Representability.{IsHeld};
ghost use Rattle.go_const.specs.Operation.{is_shift, whole_of, IsWhole, HasShift, IsShiftResult, ShiftFault};
ghost use Rattle.go_const.specs.Answer.{settled_of, shift_answer, shifted_of, shifted_by, shift_of};

use crate::constant::{Const, ConstRefusal};
use crate::range::settled;
use gj_base::{Kind, Op};

// 2 to the power n.
fn power(n: u32) -> i128
    requires { n ≤ 64 }
    ensures { result ≡ pos (2 ^ n) }
{
    1 << n
}

// `x` times 2 to the power `count`, or none where that has more than 128 bits. 2 to the power 127
// has 129 bits with its sign, so it goes in two halves.
fn left(x: i128, count: u128) -> Option<i128>
    ensures { SomeIff result (FitsSigned w128 (x *ℤ pos (2 ^ count))) (x *ℤ pos (2 ^ count)) }
{
    if x == 0 {
        return Some(0);
    }
    if count >= 128 {
        return None;
    }
    let count = count as u32;
    let half = count / 2;
    match x.checked_mul(power(half)) {
        Some(part) => part.checked_mul(power(count - half)),
        None => None,
    }
}

// `x` divided by 2 to the power `count`, rounded down. No number has a bit past the 127th but its sign.
fn right(x: i128, count: u128) -> i128
    ensures { result ≡ int_shr x count }
{
    if count >= 127 {
        return x >> 127;
    }
    x >> (count as u32)
}

// The exact value of `x` shifted, or none where it has more than 128 bits.
fn exact(op: Op, x: i128, count: u128) -> Option<i128>
    requires { IsTrue (is_shift op) }
    ensures { SomeIff result (FitsSigned w128 (shifted_of op x count)) (shifted_of op x count) }
{
    match op {
        Op::Shl => left(x, count),
        Op::Shr => Some(right(x, count)),
        _ => unreachable!(),
    }
}

#[tactic(auto, using(crate::proofs::RangeLemmas::settled_exact))]
fn within(
    op: Op,
    x: i128,
    count: u128,
    rune: bool,
    kind: Option<Kind>,
) -> Result<Const, ConstRefusal>
    requires { IsTrue (is_shift op) }
    ensures { result ≡ settled_of kind rune (shifted_of op x count) }
{
    settled(kind, rune, exact(op, x, count))
}

// A whole number shifted by a whole number.
fn shift_number(
    op: Op,
    x: i128,
    count: i128,
    rune: bool,
    kind: Option<Kind>,
) -> Result<Const, ConstRefusal>
    requires { IsTrue (is_shift op) }
    ensures { result ≡ shift_answer op kind rune x count }
{
    if count < 0 {
        return Err(ConstRefusal::Code(33));
    }
    within(op, x, count as u128, rune, kind)
}

fn shift_by(
    op: Op,
    x: i128,
    count: &Const,
    rune: bool,
    kind: Option<Kind>,
) -> Result<Const, ConstRefusal>
    requires shift { IsTrue (is_shift op) }
    requires whole { IsWhole count.now }
    ensures { result ≡ shifted_by op kind rune x (whole_of count.now) }
{
    match count {
        Const::Int(n) | Const::Rune(n) => shift_number(op, x, *n, rune, kind),
        _ => unreachable!(),
    }
}

fn shift_form(op: Op, x: &Const, count: &Const, kind: Option<Kind>) -> Result<Const, ConstRefusal>
    requires { HasShift op x.now count.now }
    ensures { result ≡ shift_of op kind x.now count.now }
{
    match x {
        Const::Int(x) => shift_by(op, *x, count, false, kind),
        Const::Rune(x) => shift_by(op, *x, count, true, kind),
        _ => unreachable!(),
    }
}

/// `x` shifted by the count, for a constant of the kind, or an untyped one where there is none: the
/// exact value, code 33 for a negative count, or code 31 or 32 where the range doesn't hold the
/// value. A rune stays a rune (own). Takes no memory.
///
/// Go, "Operators", "Arithmetic operators", "Constant expressions".
pub fn shift(op: Op, x: &Const, count: &Const, kind: Option<Kind>) -> Result<Const, ConstRefusal>
    requires { HasShift op x.now count.now }
    ensures value { IfOk result (λ c. IsShiftResult op kind x.now count.now c × IsHeld kind c) }
    ensures fault { IfErr result (ShiftFault op kind x.now count.now) }

    // The same by computing.
    ensures answer { result ≡ shift_of op kind x.now count.now }
{
    shift_form(op, x, count, kind)
}
