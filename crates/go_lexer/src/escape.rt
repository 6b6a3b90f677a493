//! Escapes in rune and string literals.

ghost use Rattle.std.specs.Prelude.{◌≡◌, ◌<◌, ◌≤◌, ◌+◌, ◌*◌, ◌^◌, IfSome, true, false};
ghost use Rattle.go_lexer.specs.Escapes as escapes;
ghost use Rattle.go_lexer.specs.Chars.{scalar};

use crate::chars::byte_at;

/// An escape: how many bytes it has with its backslash, its value, and whether that is a byte's.
///
/// In a string a byte stands for itself, and a code point for its bytes in UTF-8.
#[derive(Clone, Copy)]
pub(crate) struct Escape {
    pub width: usize,
    pub value: u32,
    pub is_byte: bool,
}

/// The value of a digit, and 16 for every other byte.
#[tactic(auto, unfolding(crate::specs::Escapes::digit_value))]
pub(crate) fn digit_value(b: u8) -> u8
    ensures value { result ≡ escapes.digit_value b }
    ensures within { result ≤ 16 }
{
    if b'0' <= b && b <= b'9' {
        b - b'0'
    } else if b'a' <= b && b <= b'f' {
        b - 87
    } else if b'A' <= b && b <= b'F' {
        b - 55
    } else {
        16
    }
}

/// Two parts of a number, the first one above the second.
fn joined(base: u32, high: Option<u32>, low: Option<u32>) -> Option<u32>
    requires low { IfSome low (λ n. n < base) }
    requires high { IfSome high (λ n. n * base + base ≤ 2 ^ 32) }
    ensures value { result ≡ escapes.joined base high low }
    ensures within { IfSome result (λ n. IfSome high (λ h. n < h * base + base)) }
{
    let high = high?;
    let low = low?;
    Some(high * base + low)
}

/// A digit of this base.
fn digit(base: u32, b: u8) -> Option<u32>
    ensures value { result ≡ escapes.digit base b }
    ensures within { IfSome result (λ n. n < base) }
{
    let value = u32::from(digit_value(b));
    if value < base { Some(value) } else { None }
}

/// Two hexadecimal digits at a place.
#[tactic(auto, unfolding(crate::specs::Escapes::two_digits))]
fn two_digits(text: &[u8], at: usize) -> Option<u32>
    requires { at < 16 }
    ensures value { result ≡ escapes.two_digits text.now at }
    ensures within { IfSome result (λ n. n < 256) }
{
    joined(
        16,
        digit(16, byte_at(text, at)),
        digit(16, byte_at(text, at + 1)),
    )
}

/// Four of them.
#[tactic(auto, unfolding(crate::specs::Escapes::four_digits))]
fn four_digits(text: &[u8], at: usize) -> Option<u32>
    requires { at < 8 }
    ensures value { result ≡ escapes.four_digits text.now at }
    ensures within { IfSome result (λ n. n < 65536) }
{
    joined(256, two_digits(text, at), two_digits(text, at + 2))
}

/// Eight of them.
#[tactic(auto, unfolding(crate::specs::Escapes::eight_digits))]
fn eight_digits(text: &[u8], at: usize) -> Option<u32>
    requires { at < 4 }
    ensures value { result ≡ escapes.eight_digits text.now at }
{
    joined(65536, four_digits(text, at), four_digits(text, at + 4))
}

/// Three octal digits at a place.
#[tactic(auto, unfolding(crate::specs::Escapes::three_octal_digits))]
fn three_octal_digits(text: &[u8], at: usize) -> Option<u32>
    requires { at < 16 }
    ensures value { result ≡ escapes.three_octal_digits text.now at }
{
    let first = digit(8, byte_at(text, at));
    let front = joined(8, first, digit(8, byte_at(text, at + 1)));
    joined(8, front, digit(8, byte_at(text, at + 2)))
}

/// The byte that a letter stands for after a backslash.
#[tactic(auto, unfolding(crate::specs::Escapes::simple_value))]
fn simple_value(quote: u8, b: u8) -> Option<u8>
    ensures { result ≡ escapes.simple_value quote b }
{
    if b == b'a' {
        Some(7)
    } else if b == b'b' {
        Some(8)
    } else if b == b'f' {
        Some(12)
    } else if b == b'n' {
        Some(10)
    } else if b == b'r' {
        Some(13)
    } else if b == b't' {
        Some(9)
    } else if b == b'v' {
        Some(11)
    } else if b == b'\\' {
        Some(92)
    } else if b == quote {
        Some(quote)
    } else {
        None
    }
}

/// An escape with this value of a byte, where it is there and in range.
fn byte_escape(value: Option<u32>) -> Option<Escape>
    ensures value { result ≡ escapes.escape_where escapes.is_byte_value 4 true value }
    ensures within { IfSome result (λ e. e.width ≤ 10) }
    ensures right { IfSome result (λ e. escapes.IsRight e) }
{
    let value = value?;
    if value < 256 {
        Some(Escape {
            width: 4,
            value,
            is_byte: true,
        })
    } else {
        None
    }
}

/// An escape with this value of a code point, where it is there and in range.
fn code_escape(width: usize, value: Option<u32>) -> Option<Escape>
    requires within { width ≤ 10 }
    requires some { 0 < width }
    ensures value { result ≡ escapes.escape_where scalar width false value }
    ensures within { IfSome result (λ e. e.width ≤ 10) }
    ensures right { IfSome result (λ e. escapes.IsRight e) }
{
    let value = value?;
    if value < 0xD800 {
        Some(Escape {
            width,
            value,
            is_byte: false,
        })
    } else if 0xE000 <= value && value < 0x110000 {
        Some(Escape {
            width,
            value,
            is_byte: false,
        })
    } else {
        None
    }
}

/// The escape of an octal or a hexadecimal byte, or of a code point.
#[tactic(auto, unfolding(crate::specs::Escapes::numeric_escape))]
fn numeric_escape(text: &[u8]) -> Option<Escape>
    ensures value { result ≡ escapes.numeric_escape text.now }
    ensures within { IfSome result (λ e. e.width ≤ 10) }
    ensures right { IfSome result (λ e. escapes.IsRight e) }
{
    let b = byte_at(text, 1);
    if b == b'x' {
        byte_escape(two_digits(text, 2))
    } else if b == b'u' {
        code_escape(6, four_digits(text, 2))
    } else if b == b'U' {
        code_escape(10, eight_digits(text, 2))
    } else {
        byte_escape(three_octal_digits(text, 1))
    }
}

/// The escape that begins the text with its backslash, within literals of this quote.
#[tactic(auto, unfolding(crate::specs::Escapes::escape_at))]
pub(crate) fn escape_at(quote: u8, text: &[u8]) -> Option<Escape>
    ensures value { result ≡ escapes.escape_at quote text.now }
    ensures within { IfSome result (λ e. e.width ≤ 10) }
    ensures right { IfSome result (λ e. escapes.IsRight e) }
{
    match simple_value(quote, byte_at(text, 1)) {
        Some(value) => Some(Escape {
            width: 2,
            value: u32::from(value),
            is_byte: true,
        }),
        None => numeric_escape(text),
    }
}
