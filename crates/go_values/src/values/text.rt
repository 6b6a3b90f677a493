//! Bytes and runes.
//!
//! The Go Programming Language Specification (as of Go 1.17), "String types", "Conversions to and
//! from a string type", "For statements". A byte that begins no character is U+FFFD, one byte wide
//! (own).

ghost use Rattle.std.specs.Prelude.{◌≡◌, ◌≤◌, ◌<◌, ◌-◌, ◌^◌, ◌++◌, pos, IsTrue, OnOk};
ghost use Rattle.go_core.specs.Text as defined;
ghost use Rattle.go_values.specs.ValuesSeen.{rune_of};

use gj_base::NoMemory;

/// A character with its width in bytes.
#[derive(Clone, Copy, Debug, PartialEq, Eq)]
pub struct Rune {
    pub code: u32,
    pub width: u32,
}

const BAD_BYTE: Rune = Rune {
    code: 0xfffd,
    width: 1,
};

/// Whether the number is that of a character: surrogate halves and what is above 0x10ffff are none.
pub fn is_character(code: u128) -> bool
    ensures value { result ≡ defined.is_character code }
    ensures within { IsTrue result → code < 2 ^ 21 }
{
    code < 0xd800 || (0xe000 <= code && code <= 0x10_ffff)
}

fn goes_on(b: u8) -> bool
    ensures value { result ≡ defined.is_between 128 191 b }
    ensures low { IsTrue result → 128 ≤ b }
    ensures high { IsTrue result → b < 192 }
{
    0x80 <= b && b <= 0xbf
}

// The low six bits of a byte from 0x80 to 0xbf.
fn low_bits(b: u8) -> u32
    requires low { 128 ≤ b }
    requires high { b < 192 }
    ensures value { result ≡ b - 128 }
    ensures within { result < 64 }
{
    (b - 0x80) as u32
}

fn checked(least: u32, code: u32, width: u32) -> Rune
    ensures value { rune_of result ≡ defined.checked least code width }
{
    if least <= code && is_character(code as u128) {
        Rune { code, width }
    } else {
        BAD_BYTE
    }
}

fn two_bytes(a: u8, rest: &[u8]) -> Rune
    requires { 192 ≤ a }
    ensures value { rune_of result ≡ defined.two_bytes a rest.now }
{
    match rest {
        [b, ..] if goes_on(*b) => Rune {
            code: (a - 0xc0) as u32 * 64 + low_bits(*b),
            width: 2,
        },
        _ => BAD_BYTE,
    }
}

fn three_bytes(a: u8, rest: &[u8]) -> Rune
    requires { 224 ≤ a }
    ensures value { rune_of result ≡ defined.three_bytes a rest.now }
{
    match rest {
        [b, c, ..] if goes_on(*b) && goes_on(*c) => checked(
            0x800,
            (a - 0xe0) as u32 * 4096 + low_bits(*b) * 64 + low_bits(*c),
            3,
        ),
        _ => BAD_BYTE,
    }
}

fn four_bytes(a: u8, rest: &[u8]) -> Rune
    requires { 240 ≤ a }
    ensures value { rune_of result ≡ defined.four_bytes a rest.now }
{
    match rest {
        [b, c, d, ..] if goes_on(*b) && goes_on(*c) && goes_on(*d) => checked(
            0x1_0000,
            (a - 0xf0) as u32 * 262144 + low_bits(*b) * 4096 + low_bits(*c) * 64 + low_bits(*d),
            4,
        ),
        _ => BAD_BYTE,
    }
}

/// The character that begins with this byte and goes on with these.
pub fn rune_at(a: u8, rest: &[u8]) -> Rune
    ensures value { rune_of result ≡ defined.rune_of a rest.now }
{
    if a < 0x80 {
        Rune {
            code: a as u32,
            width: 1,
        }
    } else if 0xc2 <= a && a <= 0xdf {
        two_bytes(a, rest)
    } else if 0xe0 <= a && a <= 0xef {
        three_bytes(a, rest)
    } else if 0xf0 <= a && a <= 0xf4 {
        four_bytes(a, rest)
    } else {
        BAD_BYTE
    }
}

// UTF-8 of a character.
fn push_encoded(text: &mut Vec<u8>, code: u32) -> Result<(), NoMemory>
    requires { code < 2 ^ 21 }
    ensures value { OnOk result (text.new.items ≡ text.old.items ++ defined.encoded code) }
{
    if code < 0x80 {
        text.extend_from_slice(&[code as u8])?;
    } else if code < 0x800 {
        text.extend_from_slice(&[(192 + code / 64) as u8, (128 + code % 64) as u8])?;
    } else if code < 0x1_0000 {
        text.extend_from_slice(&[
            (224 + code / 4096) as u8,
            (128 + code / 64 % 64) as u8,
            (128 + code % 64) as u8,
        ])?;
    } else {
        text.extend_from_slice(&[
            (240 + code / 262144) as u8,
            (128 + code / 4096 % 64) as u8,
            (128 + code / 64 % 64) as u8,
            (128 + code % 64) as u8,
        ])?;
    }
    Ok(())
}

// The number of a character, and U+FFFD for what is none.
fn natural_character(code: u128) -> u32
    ensures value { defined.encoded_number (pos code) ≡ defined.encoded result }
    ensures within { result < 2 ^ 21 }
{
    if is_character(code) {
        code as u32
    } else {
        0xfffd
    }
}

fn character(n: i128) -> u32
    ensures value { defined.encoded_number n ≡ defined.encoded result }
    ensures within { result < 2 ^ 21 }
{
    if n >= 0 {
        natural_character(n as u128)
    } else {
        0xfffd
    }
}

/// Adds UTF-8 of a number: of one that is no character, U+FFFD.
pub fn push_encoded_number(text: &mut Vec<u8>, n: i128) -> Result<(), NoMemory>
    ensures value { OnOk result (text.new.items ≡ text.old.items ++ defined.encoded_number n) }
{
    push_encoded(text, character(n))
}

/// Adds the characters of a text.
pub fn push_runes(codes: &mut Vec<u32>, bytes: &[u8]) -> Result<(), NoMemory>
    ensures value { OnOk result (codes.new.items ≡ codes.old.items ++ defined.runes bytes.now) }
{
    let mut skipped = 0u32;
    let mut rest = bytes;
    'bytes: while let Some((b, others)) = rest.split_first() {
        if skipped > 0 {
            skipped -= 1;
        } else {
            let rune = rune_at(*b, others);
            codes.push(rune.code)?;
            skipped = rune.width.saturating_sub(1);
        }
        rest = others;
    }
    Ok(())
}

/// Whether a text is less than another, by its bytes.
pub fn text_less(s: &[u8], t: &[u8]) -> bool
    ensures value { result ≡ defined.text_less s.now t.now }
{
    s.cmp(t).is_lt()
}
