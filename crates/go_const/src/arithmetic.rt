//! Arithmetic on whole numbers, exactly.

ghost use Rattle.std.specs.Prelude.{◌≡◌, ◌≢◌, IsTrue, SomeIff, false};
ghost use Rattle.std.specs.Int.{w128};
ghost use Rattle.std.specs.Int.RustNames.{FitsSigned};
ghost use Rattle.go_const.specs.Bits.{int_and, int_or, int_xor, int_not, int_and_not};
ghost use Rattle.go_const.specs.Operation.{is_arithmetic};
ghost use Rattle.go_const.specs.Answer.{arithmetic_of, arithmetic_answer, settled_of, zero_division};

use crate::constant::{Const, ConstRefusal};
use crate::range::settled;
use gj_base::{Kind, Op};

/// The number whose bits are 1 where those of both are.
pub fn and(x: i128, y: i128) -> i128
    ensures { result ≡ int_and x y }
{
    x & y
}

/// The number whose bits are 1 where those of one of the two are.
pub fn or(x: i128, y: i128) -> i128
    ensures { result ≡ int_or x y }
{
    x | y
}

/// The number whose bits are 1 where the two differ.
pub fn xor(x: i128, y: i128) -> i128
    ensures { result ≡ int_xor x y }
{
    x ^ y
}

// The number whose bits are 1 where those of the other are 0.
fn not(x: i128) -> i128
    ensures { result ≡ int_not x }
{
    !x
}

// The number whose bits are 1 where those of the first are and those of the second aren't.
fn and_not(x: i128, y: i128) -> i128
    ensures { result ≡ int_and_not x y }
{
    and(x, not(y))
}

// The exact value of `x op y`, or none where it has more than 128 bits.
fn exact(op: Op, x: i128, y: i128) -> Option<i128>
    requires arithmetic { IsTrue (is_arithmetic op) }
    requires divisor { zero_division op y ≡ false }
    ensures { SomeIff result (FitsSigned w128 (arithmetic_of op x y)) (arithmetic_of op x y) }
{
    match op {
        Op::Add => x.checked_add(y),
        Op::Sub => x.checked_sub(y),
        Op::Mul => x.checked_mul(y),
        Op::Div => x.checked_div(y),
        // The remainder of the least number and -1 is 0, though the quotient has 129 bits.
        Op::Rem if y == -1 => Some(0),
        Op::Rem => x.checked_rem(y),
        Op::And => Some(and(x, y)),
        Op::Or => Some(or(x, y)),
        Op::Xor => Some(xor(x, y)),
        Op::AndNot => Some(and_not(x, y)),
        _ => unreachable!(),
    }
}

fn is_zero_division(op: Op, y: i128) -> bool
    ensures { result ≡ zero_division op y }
{
    match op {
        Op::Div | Op::Rem => y == 0,
        _ => false,
    }
}

// The range's part: the answer for the exact value.
#[tactic(auto, using(crate::proofs::RangeLemmas::settled_exact))]
fn within(op: Op, x: i128, y: i128, rune: bool, kind: Option<Kind>) -> Result<Const, ConstRefusal>
    requires arithmetic { IsTrue (is_arithmetic op) }
    requires divisor { zero_division op y ≡ false }
    ensures { result ≡ settled_of kind rune (arithmetic_of op x y) }
{
    settled(kind, rune, exact(op, x, y))
}

/// `x op y`, or the fault of a zero divisor, or that of the range.
pub fn arithmetic(
    op: Op,
    x: i128,
    y: i128,
    rune: bool,
    kind: Option<Kind>,
) -> Result<Const, ConstRefusal>
    requires { IsTrue (is_arithmetic op) }
    ensures { result ≡ arithmetic_answer op kind rune x y }
{
    if is_zero_division(op, y) {
        return Err(ConstRefusal::Code(30));
    }
    within(op, x, y, rune, kind)
}
