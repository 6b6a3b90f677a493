//! Runs: how far a text goes on in one way.

ghost use Rattle.std.specs.Prelude.{◌≡◌, ◌<◌, ◌≤◌, length};
ghost use Rattle.go_lexer.specs.Runs as runs;

use crate::chars::{byte_at, char_width, name_width};
use crate::escape::escape_at;

/// A way in which a text can go on.
#[derive(Clone, Copy)]
pub(crate) enum Class {
    /// letters and digits
    Name,
    /// decimal digits and `_`
    Decimal,
    /// hexadecimal digits and `_`
    Hex,
    /// what stands in a literal of this quote: bytes, and backslashes with the byte after them
    Quoted(u8),
    /// the same, with right escapes only; other bytes don't stop it
    Escaped(u8),
    /// anything but a back quote
    Raw,
    /// anything but a newline
    Line,
    /// anything but `*/`
    General,
    /// characters in UTF-8
    Utf8,
}

pub(crate) fn is_decimal(b: u8) -> bool
    ensures { result ≡ runs.is_decimal b }
{
    b'0' <= b && b <= b'9'
}

fn is_hex(b: u8) -> bool
    ensures { result ≡ runs.is_hex b }
{
    is_decimal(b) || b'a' <= b && b <= b'f' || b'A' <= b && b <= b'F'
}

fn one_where(b: bool) -> usize
    ensures { result ≡ runs.one_where b }
{
    if b { 1 } else { 0 }
}

#[tactic(auto, unfolding(crate::specs::Runs::quoted_width))]
fn quoted_width(quote: u8, text: &[u8]) -> usize
    requires { 0 < length text.now }
    ensures value { result ≡ runs.quoted_width quote text.now }
    ensures within { result ≤ 10 }
{
    let b = byte_at(text, 0);
    if b == quote {
        0
    } else if b == b'\n' {
        0
    } else if b == b'\\' {
        if 1 < text.len() {
            if byte_at(text, 1) == b'\n' { 0 } else { 2 }
        } else {
            0
        }
    } else {
        1
    }
}

#[tactic(auto, unfolding(crate::specs::Runs::escaped_width))]
fn escaped_width(quote: u8, text: &[u8]) -> usize
    requires { 0 < length text.now }
    ensures value { result ≡ runs.escaped_width quote text.now }
    ensures within { result ≤ 10 }
{
    if byte_at(text, 0) == b'\\' {
        match escape_at(quote, text) {
            None => 0,
            Some(escape) => escape.width,
        }
    } else {
        1
    }
}

/// How many bytes a run takes at the front of the text; 0 where it stops.
#[inline(always)]
#[tactic(auto, unfolding(crate::specs::Runs::width_of))]
fn width(class: Class, text: &[u8]) -> usize
    requires { 0 < length text.now }
    ensures value { result ≡ runs.width_of class text.now }
    ensures within { result ≤ 10 }
{
    match class {
        Class::Name => name_width(text),
        Class::Decimal => one_where(is_decimal(byte_at(text, 0)) || byte_at(text, 0) == b'_'),
        Class::Hex => one_where(is_hex(byte_at(text, 0)) || byte_at(text, 0) == b'_'),
        Class::Quoted(quote) => quoted_width(quote, text),
        Class::Escaped(quote) => escaped_width(quote, text),
        Class::Raw => one_where(byte_at(text, 0) != b'`'),
        Class::Line => one_where(byte_at(text, 0) != b'\n'),
        Class::General => one_where(!(byte_at(text, 0) == b'*' && byte_at(text, 1) == b'/')),
        Class::Utf8 => char_width(text),
    }
}

/// How many bytes the run of this class has that begins the text.
#[inline(always)]
pub(crate) fn run_len(class: Class, text: &[u8]) -> usize
    ensures value { result ≡ runs.run_len class text.now }
    ensures within { result ≤ length text.now }
{
    let mut n = 0;
    while n < text.len() {
        let more = width(class, &text[n..]);
        if more == 0 {
            break;
        }
        n += more;
    }
    n.min(text.len())
}
