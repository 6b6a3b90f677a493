//! Literals of numbers, runes and strings. Go, "Integer literals", "Rune literals".

use gj_base::{NoMemory, Place, Text};
use go_check_state::{Checker, Operand};
use go_const::Const;
use go_type::predeclared::untyped_id;
use go_type::types::Basis;

// The value of a digit.
fn digit(byte: u8) -> Option<i128> {
    match byte {
        b'0'..=b'9' => Some((byte - b'0') as i128),
        b'a'..=b'f' => Some((byte - b'a') as i128 + 10),
        b'A'..=b'F' => Some((byte - b'A') as i128 + 10),
        _ => None,
    }
}

// The number of the digits in the base, `_` aside.
fn number(bytes: &[u8], base: i128) -> i128 {
    let mut value: i128 = 0;
    for byte in bytes {
        if let Some(d) = digit(*byte) {
            if let Some(high) = value.checked_mul(base) {
                if let Some(sum) = high.checked_add(d) {
                    value = sum;
                }
            }
        }
    }
    value
}

/// The value of an integer literal.
pub fn int_value(bytes: &[u8]) -> i128 {
    match bytes {
        [b'0', b'x', rest @ ..] | [b'0', b'X', rest @ ..] => number(rest, 16),
        [b'0', b'b', rest @ ..] | [b'0', b'B', rest @ ..] => number(rest, 2),
        [b'0', b'o', rest @ ..] | [b'0', b'O', rest @ ..] => number(rest, 8),
        [b'0', rest @ ..] => number(rest, 8),
        _ => number(bytes, 10),
    }
}

/// The character whose UTF-8 the bytes are.
pub fn rune_value(bytes: &[u8]) -> i128 {
    match std::str::from_utf8(bytes) {
        Ok(text) => match text.chars().next() {
            Some(x) => x as u32 as i128,
            None => 0,
        },
        Err(_) => 0,
    }
}

/// An integer literal.
pub fn int(c: &mut Checker, place: Place, text: &Text) -> Result<Operand, NoMemory> {
    let value = c.add_const(Const::Int(int_value(text.as_bytes())))?;
    c.constant_operand(place, untyped_id(Basis::Int), value)
}

/// A rune literal.
pub fn rune(c: &mut Checker, place: Place, text: &Text) -> Result<Operand, NoMemory> {
    let value = c.add_const(Const::Rune(rune_value(text.as_bytes())))?;
    c.constant_operand(place, untyped_id(Basis::Rune), value)
}

/// A string literal.
pub fn string(c: &mut Checker, place: Place, text: &Text) -> Result<Operand, NoMemory> {
    let value = c.add_const(Const::Text(text.clone()?))?;
    c.constant_operand(place, untyped_id(Basis::Str), value)
}
