//! Integers of a kind, which wrap.
//!
//! The Go Programming Language Specification (as of Go 1.17), "Arithmetic operators", "Integer
//! operators", "Integer overflow". A number that no `i128` holds is told as want of memory; from
//! numbers that are in the range of a kind no operator comes to one.

ghost use Rattle.std.specs.Prelude.{◌≡◌, ◌<◌, ◌+◌, ◌-◌, ◌^◌, ◌*◌, ◌/◌, pos, negsuc, ◌+ℤ◌, ◌-ℤ◌, ◌*ℤ◌, IfOk, Some, option_map, bit_and, bit_or, bit_xor, if◌then◌else◌};
ghost use Rattle.go_core.specs.Arithmetic as defined;

use gj_base::{Kind, NoMemory, Op};

/// How many bits a number of the kind has.
pub fn width(kind: Kind) -> u32
    ensures value { result ≡ defined.width kind }
    ensures within { result < 65 }
{
    match kind {
        Kind::I8 | Kind::U8 => 8,
        Kind::I16 | Kind::U16 => 16,
        Kind::I32 | Kind::U32 => 32,
        Kind::I64 | Kind::U64 => 64,
    }
}

/// Whether the kind has numbers below 0.
pub fn is_signed(kind: Kind) -> bool
    ensures value { result ≡ defined.is_signed kind }
{
    match kind {
        Kind::I8 | Kind::I16 | Kind::I32 | Kind::I64 => true,
        Kind::U8 | Kind::U16 | Kind::U32 | Kind::U64 => false,
    }
}

// How many numbers the kind has.
fn modulus(kind: Kind) -> u128
    ensures value { result ≡ 2 ^ defined.width kind }
    ensures above { 0 < result }
    ensures within { result < 2 ^ 64 + 1 }
{
    match kind {
        Kind::I8 | Kind::U8 => 0x100,
        Kind::I16 | Kind::U16 => 0x1_0000,
        Kind::I32 | Kind::U32 => 0x1_0000_0000,
        Kind::I64 | Kind::U64 => 0x1_0000_0000_0000_0000,
    }
}

// Half as many numbers as the kind has.
fn half(kind: Kind) -> u128
    ensures value { result ≡ 2 ^ (defined.width kind - 1) }
{
    match kind {
        Kind::I8 | Kind::U8 => 0x80,
        Kind::I16 | Kind::U16 => 0x8000,
        Kind::I32 | Kind::U32 => 0x8000_0000,
        Kind::I64 | Kind::U64 => 0x8000_0000_0000_0000,
    }
}

/// The least number that isn't negative and differs by a multiple of as many numbers as the kind
/// has.
pub fn bits_of(kind: Kind, n: i128) -> u128
    ensures value { result ≡ defined.bits_of kind n }
    ensures within { result < 2 ^ defined.width kind }
    ensures small { result < 2 ^ 64 }
{
    let m = modulus(kind);
    if n >= 0 {
        n as u128 % m
    } else {
        m - 1 - (-(n + 1)) as u128 % m
    }
}

// The number of a signed kind that has these bits.
fn as_signed(kind: Kind, bits: u128) -> i128
    requires { bits < 2 ^ defined.width kind }
    ensures value { result ≡ defined.as_signed (defined.width kind) bits }
{
    if bits < half(kind) {
        bits as i128
    } else {
        -((modulus(kind) - bits) as i128)
    }
}

// The number of the kind that has these bits.
fn from_bits(kind: Kind, bits: u128) -> i128
    requires { bits < 2 ^ defined.width kind }
    ensures value { result ≡ (if defined.is_signed kind then defined.as_signed (defined.width kind) bits else pos bits) }
{
    if is_signed(kind) {
        as_signed(kind, bits)
    } else {
        bits as i128
    }
}

/// The number of the kind that differs by a multiple of as many numbers as the kind has.
pub fn wrapped(kind: Kind, n: i128) -> i128
    ensures value { result ≡ defined.wrapped kind n }
{
    from_bits(kind, bits_of(kind, n))
}

fn wrapped_natural(kind: Kind, n: u128) -> i128
    ensures value { result ≡ defined.wrapped kind (pos n) }
{
    from_bits(kind, n % modulus(kind))
}

fn sum(kind: Kind, x: i128, y: i128) -> Result<i128, NoMemory>
    ensures value { IfOk result (λ n. n ≡ defined.wrapped kind (x +ℤ y)) }
{
    match x.checked_add(y) {
        Some(n) => Ok(wrapped(kind, n)),
        None => Err(NoMemory),
    }
}

fn difference(kind: Kind, x: i128, y: i128) -> Result<i128, NoMemory>
    ensures value { IfOk result (λ n. n ≡ defined.wrapped kind (x -ℤ y)) }
{
    match x.checked_sub(y) {
        Some(n) => Ok(wrapped(kind, n)),
        None => Err(NoMemory),
    }
}

fn natural_product(kind: Kind, x: u128, y: u128) -> Result<i128, NoMemory>
    ensures value { IfOk result (λ n. n ≡ defined.wrapped kind (pos (x * y))) }
{
    match x.checked_mul(y) {
        Some(n) => Ok(wrapped_natural(kind, n)),
        None => Err(NoMemory),
    }
}

fn signed_product(kind: Kind, x: i128, y: i128) -> Result<i128, NoMemory>
    ensures value { IfOk result (λ n. n ≡ defined.wrapped kind (x *ℤ y)) }
{
    match x.checked_mul(y) {
        Some(n) => Ok(wrapped(kind, n)),
        None => Err(NoMemory),
    }
}

// Two numbers without sign may have a product past every `i128`.
fn product(kind: Kind, x: i128, y: i128) -> Result<i128, NoMemory>
    ensures value { IfOk result (λ n. n ≡ defined.wrapped kind (x *ℤ y)) }
{
    if x >= 0 && y >= 0 {
        natural_product(kind, x as u128, y as u128)
    } else {
        signed_product(kind, x, y)
    }
}

// None for a divisor of 0.
fn quotient(kind: Kind, x: i128, y: i128) -> Result<Option<i128>, NoMemory>
    ensures value { IfOk result (λ n. n ≡ option_map (defined.wrapped kind) (defined.quotient x y)) }
{
    if y == 0 {
        return Ok(None);
    }
    match x.checked_div(y) {
        Some(n) => Ok(Some(wrapped(kind, n))),
        None => Err(NoMemory),
    }
}

// None for a divisor of 0.
fn remainder(kind: Kind, x: i128, y: i128) -> Result<Option<i128>, NoMemory>
    ensures value { IfOk result (λ n. n ≡ option_map (defined.wrapped kind) (defined.remainder x y)) }
{
    if y == 0 {
        return Ok(None);
    }
    match x.checked_rem(y) {
        Some(n) => Ok(Some(wrapped(kind, n))),
        None => Err(NoMemory),
    }
}

// Two to so many.
fn power(count: u32) -> u64
    requires { count < 64 }
    ensures value { result ≡ 2 ^ count }
{
    1u64 << count
}

fn shifted_left(kind: Kind, x: i128, count: u128) -> Result<i128, NoMemory>
    ensures value { IfOk result (λ n. n ≡ defined.wrapped kind (defined.shift_left kind x count)) }
{
    if count < width(kind) as u128 {
        product(kind, x, power(count as u32) as i128)
    } else {
        Ok(wrapped(kind, 0))
    }
}

// A number below 0 by what it is below -1, shifted.
fn shifted_below(below: u128, count: u32) -> i128
    requires count { count < 64 }
    requires below { below < 2 ^ 127 }
    ensures value { result ≡ negsuc (below / 2 ^ count) }
{
    -((below >> count) as i128) - 1
}

// The greatest whole number that is at most `x` by two to so many.
fn shifted_down(x: i128, count: u32) -> i128
    requires { count < 64 }
    ensures value { result ≡ defined.shifted_down x count }
{
    if x >= 0 {
        (x as u128 >> count) as i128
    } else {
        shifted_below((-(x + 1)) as u128, count)
    }
}

fn all_sign(x: i128) -> i128
    ensures value { result ≡ defined.all_sign x }
{
    if x >= 0 { 0 } else { -1 }
}

fn shifted_right(kind: Kind, x: i128, count: u128) -> i128
    ensures value { result ≡ defined.shift_right kind x count }
{
    if count < width(kind) as u128 {
        shifted_down(x, count as u32)
    } else {
        all_sign(x)
    }
}

// None for a negative count.
fn left(kind: Kind, x: i128, y: i128) -> Result<Option<i128>, NoMemory>
    ensures value { IfOk result (λ n. n ≡ option_map (defined.wrapped kind) (defined.shifted (defined.shift_left kind) x y)) }
{
    if y < 0 {
        return Ok(None);
    }
    let n = shifted_left(kind, x, y as u128)?;
    Ok(Some(n))
}

// None for a negative count.
fn right(kind: Kind, x: i128, y: i128) -> Option<i128>
    ensures value { result ≡ option_map (defined.wrapped kind) (defined.shifted (defined.shift_right kind) x y) }
{
    if y < 0 {
        return None;
    }
    Some(wrapped(kind, shifted_right(kind, x, y as u128)))
}

fn and(kind: Kind, x: i128, y: i128) -> i128
    ensures value { result ≡ defined.wrapped kind (pos (bit_and (defined.bits_of kind x) (defined.bits_of kind y))) }
{
    wrapped_natural(kind, bits_of(kind, x) & bits_of(kind, y))
}

fn or(kind: Kind, x: i128, y: i128) -> i128
    ensures value { result ≡ defined.wrapped kind (pos (bit_or (defined.bits_of kind x) (defined.bits_of kind y))) }
{
    wrapped_natural(kind, bits_of(kind, x) | bits_of(kind, y))
}

fn xor(kind: Kind, x: i128, y: i128) -> i128
    ensures value { result ≡ defined.wrapped kind (pos (bit_xor (defined.bits_of kind x) (defined.bits_of kind y))) }
{
    wrapped_natural(kind, bits_of(kind, x) ^ bits_of(kind, y))
}

fn and_not(kind: Kind, x: i128, y: i128) -> i128
    ensures value { result ≡ defined.wrapped kind (pos (bit_and (defined.bits_of kind x) (2 ^ defined.width kind - 1 - defined.bits_of kind y))) }
{
    wrapped_natural(
        kind,
        bits_of(kind, x) & (modulus(kind) - 1 - bits_of(kind, y)),
    )
}

/// What an operator gives of two integers of the kind; none where the step panics.
pub fn binary(op: Op, kind: Kind, x: i128, y: i128) -> Result<Option<i128>, NoMemory>
    ensures value { IfOk result (λ n. n ≡ option_map (defined.wrapped kind) (defined.computed op kind x y)) }
{
    match op {
        Op::Add => {
            let n = sum(kind, x, y)?;
            Ok(Some(n))
        }
        Op::Sub => {
            let n = difference(kind, x, y)?;
            Ok(Some(n))
        }
        Op::Mul => {
            let n = product(kind, x, y)?;
            Ok(Some(n))
        }
        Op::Div => quotient(kind, x, y),
        Op::Rem => remainder(kind, x, y),
        Op::And => Ok(Some(and(kind, x, y))),
        Op::Or => Ok(Some(or(kind, x, y))),
        Op::Xor => Ok(Some(xor(kind, x, y))),
        Op::AndNot => Ok(Some(and_not(kind, x, y))),
        Op::Shl => left(kind, x, y),
        Op::Shr => Ok(right(kind, x, y)),
        _ => Ok(None),
    }
}

/// Which panic it is where there is no value: a shift count is negative, or else a divisor is 0.
pub fn is_shift(op: Op) -> bool
    ensures value { result ≡ defined.is_shift op }
{
    match op {
        Op::Shl | Op::Shr => true,
        _ => false,
    }
}

/// `+x`, `-x` and `^x`.
pub fn unary(op: Op, kind: Kind, x: i128) -> Result<i128, NoMemory>
    ensures value { IfOk result (λ n. n ≡ defined.wrapped kind (defined.unary_of op x)) }
{
    match op {
        Op::Neg => difference(kind, 0, x),
        Op::Compl => Ok(wrapped(kind, -1 - x)),
        _ => Ok(wrapped(kind, x)),
    }
}

/// Whether operands are in the order that `<`, `<=`, `>` or `>=` asks for, where `below` says that
/// the left one is less, and `above` that it is greater.
pub fn in_order(op: Op, below: bool, above: bool) -> bool
    ensures value { result ≡ defined.in_order op below above }
{
    match op {
        Op::Lt => below,
        Op::Le => !above,
        Op::Gt => above,
        Op::Ge => !below,
        _ => false,
    }
}

/// Whether two integers are in the order that the operator asks for.
pub fn numbers_in_order(op: Op, x: i128, y: i128) -> bool
    ensures value { result ≡ defined.numbers_in_order op x y }
{
    in_order(op, x < y, y < x)
}
