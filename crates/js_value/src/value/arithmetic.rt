//! The operators between numbers: ECMA-262 5.1, 9.5, 9.6 and 11.

ghost use Rattle.std.specs.Prelude.{◌≡◌, ◌≤◌, ◌<◌, ◌+◌, ◌-◌, ◌*◌, ◌/◌, ◌%◌, ◌^◌, nat_abs, ℤ, pos, negsuc, ◌+ℤ◌, ◌-ℤ◌, ◌*ℤ◌, neg_ℤ, int_lt, int_le, option_map};
ghost use Rattle.std.specs.Prelude as nat;
ghost use Rattle.js_tree.specs.Operation.{in_range, uint32, signed32, int32, shift_count, shifted_right, quotient_of, remainder_of};
ghost use Rattle.js_value.specs.ValueSeen.{whole_of};

use crate::value::number::Number;

const BOUND: u64 = 9007199254740992;

/// A number, where it is within the bounds.
pub fn in_range(n: i64) -> Option<Number>
    ensures value { option_map whole_of result ≡ in_range n }
{
    if n.unsigned_abs() <= BOUND {
        Some(Number { n })
    } else {
        None
    }
}

/// A number without sign, where it is within the bounds.
pub fn natural(n: u64) -> Option<Number>
    ensures value { option_map whole_of result ≡ in_range (pos n) }
{
    if n <= BOUND {
        Some(Number { n: n as i64 })
    } else {
        None
    }
}

/// The sum, where it is a number.
pub fn sum(x: Number, y: Number) -> Option<Number>
    ensures value { option_map whole_of result ≡ in_range (x.n +ℤ y.n) }
{
    in_range(x.n + y.n)
}

/// The difference, where it is a number.
pub fn difference(x: Number, y: Number) -> Option<Number>
    ensures value { option_map whole_of result ≡ in_range (x.n -ℤ y.n) }
{
    in_range(x.n - y.n)
}

/// The product, where it is a number.
pub fn product(x: Number, y: Number) -> Option<Number>
    ensures value { option_map whole_of result ≡ in_range (x.n *ℤ y.n) }
{
    match x.n.checked_mul(y.n) {
        Some(n) => in_range(n),
        None => None,
    }
}

/// The quotient, where it is exact: 11.5.2.
pub fn quotient(x: Number, y: Number) -> Option<Number>
    ensures value { option_map whole_of result ≡ quotient_of x.n y.n }
{
    if y.n == 0 || x.n % y.n != 0 {
        return None;
    }
    in_range(x.n / y.n)
}

/// The remainder with the sign of the dividend, where the divisor isn't 0: 11.5.3.
pub fn remainder(x: Number, y: Number) -> Option<Number>
    ensures value { option_map whole_of result ≡ remainder_of x.n y.n }
{
    if y.n == 0 {
        return None;
    }
    Some(Number { n: x.n % y.n })
}

/// The negated number: 11.4.7.
pub fn negated(x: Number) -> Number
    ensures value { result.n ≡ neg_ℤ x.n }
{
    Number { n: -x.n }
}

// ToUint32: 9.6.
fn uint32(x: Number) -> u32
    ensures value { result ≡ uint32 x.n }
{
    if x.n >= 0 {
        (x.n as u64 % 4294967296) as u32
    } else {
        4294967295 - ((-(x.n + 1)) as u64 % 4294967296) as u32
    }
}

// The number of 32 bits with a sign: 9.5.
fn signed32(n: u32) -> Number
    ensures value { result.n ≡ signed32 n }
{
    if n < 2147483648 {
        Number { n: n as i64 }
    } else {
        Number {
            n: -((4294967296 - n as u64) as i64),
        }
    }
}

fn shift_count(x: Number) -> u32
    ensures value { result ≡ shift_count x.n }
    ensures within { result < 32 }
{
    uint32(x) % 32
}

/// `|`
pub fn bit_or(x: Number, y: Number) -> Number
    ensures value { result.n ≡ signed32 (nat.bit_or (uint32 x.n) (uint32 y.n)) }
{
    signed32(uint32(x) | uint32(y))
}

/// `&`
pub fn bit_and(x: Number, y: Number) -> Number
    ensures value { result.n ≡ signed32 (nat.bit_and (uint32 x.n) (uint32 y.n)) }
{
    signed32(uint32(x) & uint32(y))
}

/// `^`
pub fn bit_xor(x: Number, y: Number) -> Number
    ensures value { result.n ≡ signed32 (nat.bit_xor (uint32 x.n) (uint32 y.n)) }
{
    signed32(uint32(x) ^ uint32(y))
}

/// `~`: 11.4.8.
pub fn complement(x: Number) -> Number
    ensures value { result.n ≡ signed32 (2 ^ 32 - 1 - uint32 x.n) }
{
    signed32(4294967295 - uint32(x))
}

/// `<<`: 11.7.1.
pub fn shifted_left(x: Number, y: Number) -> Number
    ensures value { result.n ≡ signed32 (uint32 x.n * 2 ^ shift_count y.n % 2 ^ 32) }
{
    let wide = (uint32(x) as u64) << shift_count(y);
    signed32((wide % 4294967296) as u32)
}

/// `>>`, which keeps the sign: 11.7.2.
pub fn shifted_right(x: Number, y: Number) -> Number
    ensures value { result.n ≡ shifted_right (int32 x.n) (shift_count y.n) }
{
    let n = uint32(x);
    let k = shift_count(y);
    if n < 2147483648 {
        Number { n: (n >> k) as i64 }
    } else {
        shifted_below(4294967295 - n, k)
    }
}

// A number below 0 by what it is below -1, shifted to the right.
fn shifted_below(below: u32, k: u32) -> Number
    requires { k < 32 }
    ensures value { result.n ≡ negsuc (below / 2 ^ k) }
{
    Number {
        n: -((below >> k) as i64) - 1,
    }
}

/// `>>>`: 11.7.3.
pub fn shifted_right_unsigned(x: Number, y: Number) -> Number
    ensures value { result.n ≡ pos (uint32 x.n / 2 ^ shift_count y.n) }
{
    Number {
        n: (uint32(x) >> shift_count(y)) as i64,
    }
}
