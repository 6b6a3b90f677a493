//! Numbers.

ghost use Rattle.std.specs.Prelude.{◌≡◌, ◌<◌, ◌≤◌, length, true, false};
ghost use Rattle.go_lexer.specs.Numbers as numbers;

use crate::chars::byte_at;
use crate::escape::digit_value;
use crate::run::{Class, run_len};

/// 2^127: integer literals stay below it.
pub(crate) const LIMIT: u128 = 0x8000_0000_0000_0000_0000_0000_0000_0000;

fn base_of_letter(b: u8) -> u8
    ensures value { result ≡ numbers.base_of_letter b }
    ensures letter { 0 < result → 0 < b }
{
    if b == b'x' || b == b'X' {
        16
    } else if b == b'b' || b == b'B' {
        2
    } else if b == b'o' || b == b'O' {
        8
    } else {
        0
    }
}

/// The base of a number that begins with these two bytes.
#[tactic(auto, unfolding(crate::specs::Numbers::base_of))]
pub(crate) fn base_of(a: u8, b: u8) -> u8
    ensures value { result ≡ numbers.base_of a b }
    ensures within { result ≤ 16 }
{
    if a == b'0' {
        let base = base_of_letter(b);
        if base == 0 { 8 } else { base }
    } else {
        10
    }
}

/// How many bytes stand before its digits.
#[tactic(auto, unfolding(crate::specs::Numbers::prefix_of))]
pub(crate) fn prefix_of(a: u8, b: u8) -> usize
    ensures value { result ≡ numbers.prefix_of a b }
    ensures within { result ≤ 2 }
    ensures second { 0 < result → 0 < b }
{
    if a == b'0' {
        if base_of_letter(b) == 0 { 0 } else { 2 }
    } else {
        0
    }
}

/// How many bytes its digits have, `_` and wrong digits included.
pub(crate) fn digits_len(base: u8, text: &[u8]) -> usize
    ensures value { result ≡ numbers.digits_len base 0 text.now }
    ensures within { result ≤ length text.now }
{
    if base == 16 {
        run_len(Class::Hex, text)
    } else {
        run_len(Class::Decimal, text)
    }
}

fn grown(base: u8, value: u128, digit: u8) -> u128
    ensures { result ≡ numbers.grown base value digit }
{
    match value.checked_mul(base as u128) {
        None => LIMIT,
        Some(product) => product.saturating_add(digit as u128).min(LIMIT),
    }
}

/// The value of digits, cut at 2^127, where each is one of the base and each `_` stands between them.
pub(crate) fn value_of(base: u8, digits: &[u8]) -> Option<u128>
    ensures { result ≡ numbers.value_from base 0 true false digits.now }
{
    let mut value: u128 = 0;
    let mut may_separate = true;
    let mut may_end = false;
    for b in digits {
        if *b == b'_' {
            if !may_separate {
                return None;
            }
            may_separate = false;
            may_end = false;
        } else {
            let digit = digit_value(*b);
            if digit >= base {
                return None;
            }
            value = grown(base, value, digit);
            may_separate = true;
            may_end = true;
        }
    }
    if may_end { Some(value) } else { None }
}

/// Whether a byte makes a number a float or an imaginary number: a point, an exponent or `i`.
#[tactic(auto, unfolding(crate::specs::Numbers::is_beyond))]
pub(crate) fn is_beyond(b: u8) -> bool
    ensures { result ≡ numbers.is_beyond b }
{
    b == b'.' || b == b'e' || b == b'E' || b == b'p' || b == b'P' || b == b'i'
}
