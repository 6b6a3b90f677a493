//! Operators that look at no array and no dictionary: ECMA-262 5.1, 11.

ghost use Rattle.std.specs.Prelude.{◌≡◌, ◌++◌, ◌-◌, ◌&&◌, if◌then◌else◌, nat_le, length, take, drop, Some, None, IfOk, option_map, true, not};
ghost use Rattle.js_tree.specs.Operation.{on_numbers, on_strings, string_less, on_values, unary_value, char_code, part_of, decimal_text, one_byte};
ghost use Rattle.js_tree.specs.Value.{bytes};
ghost use Rattle.js_value.specs.ValueSeen.{str_bytes, value_of, whole_of};

use crate::value::arithmetic::{
    bit_and, bit_or, bit_xor, complement, difference, negated, product, quotient, remainder,
    shifted_left, shifted_right, shifted_right_unsigned, sum,
};
use crate::value::number::Number;
use crate::value::value::{Str, Value};
use gj_base::{NoMemory, Text};
use itoa::Buffer;
use js_tree::{BinaryOp, UnaryOp};
use std::alloc::Global;
use std::rc::Rc;

fn whole<'a>(n: Option<Number>) -> Option<Value<'a>>
    ensures value { option_map value_of result ≡ option_map whole_of n }
{
    match n {
        Some(n) => Some(Value::Whole(n)),
        None => None,
    }
}

/// An operator between two numbers.
pub fn on_numbers<'a>(op: BinaryOp, x: Number, y: Number) -> Option<Value<'a>>
    ensures value { option_map value_of result ≡ on_numbers op x.n y.n }
{
    match op {
        BinaryOp::Add => whole(sum(x, y)),
        BinaryOp::Subtract => whole(difference(x, y)),
        BinaryOp::Multiply => whole(product(x, y)),
        BinaryOp::Divide => whole(quotient(x, y)),
        BinaryOp::Remainder => whole(remainder(x, y)),
        BinaryOp::BitOr => Some(Value::Whole(bit_or(x, y))),
        BinaryOp::BitAnd => Some(Value::Whole(bit_and(x, y))),
        BinaryOp::BitXor => Some(Value::Whole(bit_xor(x, y))),
        BinaryOp::ShiftLeft => Some(Value::Whole(shifted_left(x, y))),
        BinaryOp::ShiftRight => Some(Value::Whole(shifted_right(x, y))),
        BinaryOp::ShiftRightUnsigned => Some(Value::Whole(shifted_right_unsigned(x, y))),
        BinaryOp::Less => Some(Value::Truth(x.n < y.n)),
        BinaryOp::LessEqual => Some(Value::Truth(x.n <= y.n)),
        BinaryOp::Greater => Some(Value::Truth(y.n < x.n)),
        BinaryOp::GreaterEqual => Some(Value::Truth(y.n <= x.n)),
        BinaryOp::Same | BinaryOp::Different | BinaryOp::In => None,
    }
}

/// The order of strings, by their first difference: 11.8.5.
pub fn string_less(s: &[u8], t: &[u8]) -> bool
    ensures value { result ≡ string_less s.now t.now }
{
    s.cmp(t).is_lt()
}

fn made<'a>(alloc: Global, text: Text) -> Result<Value<'a>, NoMemory>
    ensures value { IfOk result (λ v. value_of v ≡ bytes text) }
{
    let text = Rc::new(alloc, text)?;
    Ok(Value::Bytes(Str::Made(text)))
}

fn joined<'a>(alloc: Global, s: &[u8], t: &[u8]) -> Result<Value<'a>, NoMemory>
    ensures value { IfOk result (λ v. value_of v ≡ bytes (s.now ++ t.now)) }
{
    let mut bytes = Vec::with_capacity(alloc, s.len() + t.len())?;
    bytes.extend_from_slice(s)?;
    bytes.extend_from_slice(t)?;
    made(alloc, Text::from_vec(bytes))
}

/// An operator between two strings.
pub fn on_strings<'a>(
    alloc: Global,
    op: BinaryOp,
    s: &[u8],
    t: &[u8],
) -> Result<Option<Value<'a>>, NoMemory>
    ensures value { IfOk result (λ v. option_map value_of v ≡ on_strings op s.now t.now) }
{
    match op {
        BinaryOp::Add => {
            let text = joined(alloc, s, t)?;
            Ok(Some(text))
        }
        BinaryOp::Less => Ok(Some(Value::Truth(string_less(s, t)))),
        BinaryOp::LessEqual => Ok(Some(Value::Truth(!string_less(t, s)))),
        BinaryOp::Greater => Ok(Some(Value::Truth(string_less(t, s)))),
        BinaryOp::GreaterEqual => Ok(Some(Value::Truth(!string_less(s, t)))),
        _ => Ok(None),
    }
}

/// An operator between two values: numbers or strings.
pub fn on_values<'a>(
    alloc: Global,
    op: BinaryOp,
    a: &Value<'a>,
    b: &Value<'a>,
) -> Result<Option<Value<'a>>, NoMemory>
    ensures value { IfOk result (λ v. option_map value_of v ≡ on_values op (value_of a.now) (value_of b.now)) }
{
    match (a, b) {
        (Value::Whole(x), Value::Whole(y)) => Ok(on_numbers(op, *x, *y)),
        (Value::Bytes(s), Value::Bytes(t)) => on_strings(alloc, op, s.as_bytes(), t.as_bytes()),
        _ => Ok(None),
    }
}

/// An operator before a value: 11.4.7 to 11.4.9.
pub fn unary_value<'a>(op: UnaryOp, a: &Value<'a>) -> Option<Value<'a>>
    ensures value { option_map value_of result ≡ unary_value op (value_of a.now) }
{
    match (op, a) {
        (UnaryOp::Negate, Value::Whole(n)) => Some(Value::Whole(negated(*n))),
        (UnaryOp::Complement, Value::Whole(n)) => Some(Value::Whole(complement(*n))),
        (UnaryOp::Not, Value::Truth(b)) => Some(Value::Truth(!*b)),
        _ => None,
    }
}

/// The byte of a string at an index below its length: 15.5.4.5.
pub fn char_code<'a>(s: &Value<'a>, i: &Value<'a>) -> Option<Value<'a>>
    ensures value { option_map value_of result ≡ char_code (value_of s.now) (value_of i.now) }
{
    match (s, i) {
        (Value::Bytes(s), Value::Whole(i)) if i.n >= 0 => match s.as_bytes().get(i.n as usize) {
            Some(c) => Some(Value::Whole(Number { n: *c as i64 })),
            None => None,
        },
        _ => None,
    }
}

fn part<'a>(alloc: Global, s: &[u8], i: usize, j: usize) -> Result<Option<Value<'a>>, NoMemory>
    ensures value { IfOk result (λ v. option_map value_of v ≡ (if nat_le i j && nat_le j (length s.now) then Some (bytes (take (j - i) (drop i s.now))) else None)) }
{
    if i <= j && j <= s.len() {
        let text = Text::from_slice(alloc, &s[i..j])?;
        let text = made(alloc, text)?;
        return Ok(Some(text));
    }
    Ok(None)
}

/// The part of a string between two indices in order: 15.5.4.15.
pub fn part_of<'a>(
    alloc: Global,
    s: &Value<'a>,
    i: &Value<'a>,
    j: &Value<'a>,
) -> Result<Option<Value<'a>>, NoMemory>
    ensures value { IfOk result (λ v. option_map value_of v ≡ part_of (value_of s.now) (value_of i.now) (value_of j.now)) }
{
    match (s, i, j) {
        (Value::Bytes(s), Value::Whole(i), Value::Whole(j)) if i.n >= 0 && j.n >= 0 => {
            part(alloc, s.as_bytes(), i.n as usize, j.n as usize)
        }
        _ => Ok(None),
    }
}

/// The decimal text of a number: 9.8.1.
pub fn decimal_text<'a>(alloc: Global, a: &Value<'a>) -> Result<Option<Value<'a>>, NoMemory>
    ensures value { IfOk result (λ v. option_map value_of v ≡ decimal_text (value_of a.now)) }
{
    match a {
        Value::Whole(n) => {
            let mut buffer = Buffer::new();
            let digits = buffer.format(n.n);
            let text = Text::from_slice(alloc, digits.as_bytes())?;
            let text = made(alloc, text)?;
            Ok(Some(text))
        }
        _ => Ok(None),
    }
}

/// The string of one byte: 15.5.3.2.
pub fn one_byte<'a>(alloc: Global, a: &Value<'a>) -> Result<Option<Value<'a>>, NoMemory>
    ensures value { IfOk result (λ v. option_map value_of v ≡ one_byte (value_of a.now)) }
{
    match a {
        Value::Whole(n) if n.n >= 0 && n.n < 256 => {
            let text = Text::from_slice(alloc, &[n.n as u8])?;
            let text = made(alloc, text)?;
            Ok(Some(text))
        }
        _ => Ok(None),
    }
}
