//! Operators that look at no array and no dictionary: ECMA-262 5.1, 11.

ghost use Rattle.std.specs.Prelude.{◌≡◌, ◌++◌, ◌-◌, ◌&&◌, if◌then◌else◌, nat_le, length, take, drop, Some, None, IfOk, option_map, slice_get, pos};
ghost use Rattle.js_tree.specs.Operation.{on_numbers, on_strings, on_values, unary_value, char_code, part_of, decimal_text, one_byte};
ghost use Rattle.js_tree.specs.Value as run;
ghost use Rattle.js_value.specs.ValueSeen.{whole_of};
ghost use Rattle.js_value.specs.HeapSeen.{value_of};

use crate::heap::value::{Value, kept, made};
use crate::value::arithmetic::{
    bit_and, bit_or, bit_xor, complement, difference, negated, product, quotient, remainder,
    shifted_left, shifted_right, shifted_right_unsigned, sum,
};
use crate::value::number::Number;
use crate::value::operate::string_less;
use bumpalo::Bump;
use bumpalo::collections::into_bump_slice;
use gj_base::NoMemory;
use itoa::Buffer;
use js_tree::{BinaryOp, UnaryOp};

fn whole<'a>(n: Option<Number>) -> Option<Value<'a>>
    ensures value { option_map value_of result ≡ option_map whole_of n }
{
    match n {
        Some(n) => Some(Value::Whole(n)),
        None => None,
    }
}

/// An operator between two numbers.
pub fn on_numbers<'a>(op: BinaryOp, x: Number, y: Number) -> Option<Value<'a>>
    ensures value { option_map value_of result ≡ on_numbers op x.n y.n }
{
    match op {
        BinaryOp::Add => whole(sum(x, y)),
        BinaryOp::Subtract => whole(difference(x, y)),
        BinaryOp::Multiply => whole(product(x, y)),
        BinaryOp::Divide => whole(quotient(x, y)),
        BinaryOp::Remainder => whole(remainder(x, y)),
        BinaryOp::BitOr => Some(Value::Whole(bit_or(x, y))),
        BinaryOp::BitAnd => Some(Value::Whole(bit_and(x, y))),
        BinaryOp::BitXor => Some(Value::Whole(bit_xor(x, y))),
        BinaryOp::ShiftLeft => Some(Value::Whole(shifted_left(x, y))),
        BinaryOp::ShiftRight => Some(Value::Whole(shifted_right(x, y))),
        BinaryOp::ShiftRightUnsigned => Some(Value::Whole(shifted_right_unsigned(x, y))),
        BinaryOp::Less => Some(Value::Truth(x.n < y.n)),
        BinaryOp::LessEqual => Some(Value::Truth(x.n <= y.n)),
        BinaryOp::Greater => Some(Value::Truth(y.n < x.n)),
        BinaryOp::GreaterEqual => Some(Value::Truth(y.n <= x.n)),
        BinaryOp::Same | BinaryOp::Different | BinaryOp::In => None,
    }
}

fn joined<'a>(arena: &'a Bump, s: &[u8], t: &[u8]) -> Result<Value<'a>, NoMemory>
    ensures value { IfOk result (λ v. value_of v ≡ run.bytes (s.now ++ t.now)) }
{
    let mut bytes = Vec::with_capacity(arena, s.len() + t.len())?;
    bytes.extend_from_slice(s)?;
    bytes.extend_from_slice(t)?;
    let bytes = into_bump_slice(bytes);
    kept(arena, bytes)
}

/// An operator between two strings.
pub fn on_strings<'a>(
    arena: &'a Bump,
    op: BinaryOp,
    s: &[u8],
    t: &[u8],
) -> Result<Option<Value<'a>>, NoMemory>
    ensures value { IfOk result (λ v. option_map value_of v ≡ on_strings op s.now t.now) }
{
    match op {
        BinaryOp::Add => {
            let text = joined(arena, s, t)?;
            Ok(Some(text))
        }
        BinaryOp::Less => Ok(Some(Value::Truth(string_less(s, t)))),
        BinaryOp::LessEqual => Ok(Some(Value::Truth(!string_less(t, s)))),
        BinaryOp::Greater => Ok(Some(Value::Truth(string_less(t, s)))),
        BinaryOp::GreaterEqual => Ok(Some(Value::Truth(!string_less(s, t)))),
        _ => Ok(None),
    }
}

/// An operator between two values: numbers or strings.
pub fn on_values<'a>(
    arena: &'a Bump,
    op: BinaryOp,
    a: Value<'a>,
    b: Value<'a>,
) -> Result<Option<Value<'a>>, NoMemory>
    ensures value { IfOk result (λ v. option_map value_of v ≡ on_values op (value_of a.entry) (value_of b.entry)) }
{
    match (a, b) {
        (Value::Whole(x), Value::Whole(y)) => Ok(on_numbers(op, x, y)),
        (Value::Literal(s), Value::Literal(t)) => on_strings(arena, op, s.as_bytes(), t.as_bytes()),
        (Value::Literal(s), Value::Made(t)) => on_strings(arena, op, s.as_bytes(), *t.bytes),
        (Value::Made(s), Value::Literal(t)) => on_strings(arena, op, *s.bytes, t.as_bytes()),
        (Value::Made(s), Value::Made(t)) => on_strings(arena, op, *s.bytes, *t.bytes),
        _ => Ok(None),
    }
}

/// An operator before a value: 11.4.7 to 11.4.9.
pub fn unary_value<'a>(op: UnaryOp, a: Value<'a>) -> Option<Value<'a>>
    ensures value { option_map value_of result ≡ unary_value op (value_of a.entry) }
{
    match (op, a) {
        (UnaryOp::Negate, Value::Whole(n)) => Some(Value::Whole(negated(n))),
        (UnaryOp::Complement, Value::Whole(n)) => Some(Value::Whole(complement(n))),
        (UnaryOp::Not, Value::Truth(b)) => Some(Value::Truth(!b)),
        _ => None,
    }
}

fn byte_at<'a>(s: &[u8], i: usize) -> Option<Value<'a>>
    ensures value { option_map value_of result ≡ option_map (λ c. run.whole (pos c)) (slice_get s.now i) }
{
    match s.get(i) {
        Some(c) => Some(Value::Whole(Number { n: *c as i64 })),
        None => None,
    }
}

/// The byte of a string at an index below its length: 15.5.4.5.
pub fn char_code<'a>(s: Value<'a>, i: Value<'a>) -> Option<Value<'a>>
    ensures value { option_map value_of result ≡ char_code (value_of s.entry) (value_of i.entry) }
{
    match (s, i) {
        (Value::Literal(s), Value::Whole(i)) if i.n >= 0 => byte_at(s.as_bytes(), i.n as usize),
        (Value::Made(s), Value::Whole(i)) if i.n >= 0 => byte_at(*s.bytes, i.n as usize),
        _ => None,
    }
}

fn part<'a>(arena: &'a Bump, s: &[u8], i: usize, j: usize) -> Result<Option<Value<'a>>, NoMemory>
    ensures value { IfOk result (λ v. option_map value_of v ≡ (if nat_le i j && nat_le j (length s.now) then Some (run.bytes (take (j - i) (drop i s.now))) else None)) }
{
    if i <= j && j <= s.len() {
        let text = made(arena, &s[i..j])?;
        return Ok(Some(text));
    }
    Ok(None)
}

/// The part of a string between two indices in order: 15.5.4.15.
pub fn part_of<'a>(
    arena: &'a Bump,
    s: Value<'a>,
    i: Value<'a>,
    j: Value<'a>,
) -> Result<Option<Value<'a>>, NoMemory>
    ensures value { IfOk result (λ v. option_map value_of v ≡ part_of (value_of s.entry) (value_of i.entry) (value_of j.entry)) }
{
    match (s, i, j) {
        (Value::Literal(s), Value::Whole(i), Value::Whole(j)) if i.n >= 0 && j.n >= 0 => {
            part(arena, s.as_bytes(), i.n as usize, j.n as usize)
        }
        (Value::Made(s), Value::Whole(i), Value::Whole(j)) if i.n >= 0 && j.n >= 0 => {
            part(arena, *s.bytes, i.n as usize, j.n as usize)
        }
        _ => Ok(None),
    }
}

/// The decimal text of a number: 9.8.1.
pub fn decimal_text<'a>(arena: &'a Bump, a: Value<'a>) -> Result<Option<Value<'a>>, NoMemory>
    ensures value { IfOk result (λ v. option_map value_of v ≡ decimal_text (value_of a.entry)) }
{
    match a {
        Value::Whole(n) => {
            let mut buffer = Buffer::new();
            let digits = buffer.format(n.n);
            let text = made(arena, digits.as_bytes())?;
            Ok(Some(text))
        }
        _ => Ok(None),
    }
}

/// The string of one byte: 15.5.3.2.
pub fn one_byte<'a>(arena: &'a Bump, a: Value<'a>) -> Result<Option<Value<'a>>, NoMemory>
    ensures value { IfOk result (λ v. option_map value_of v ≡ one_byte (value_of a.entry)) }
{
    match a {
        Value::Whole(n) if n.n >= 0 && n.n < 256 => {
            let text = made(arena, &[n.n as u8])?;
            Ok(Some(text))
        }
        _ => Ok(None),
    }
}
