//! The text of a script without the white space that it can do without.

use gj_base::{NoMemory, Text};
use js_tree::preamble;
use std::alloc::Global;

/// Where a byte stands.
#[derive(Clone, Copy, Debug, PartialEq, Eq)]
enum Literal {
    Outside,
    /// In a string literal.
    Inside,
    /// In a string literal, after a backslash.
    Escaped,
}

/// The Small style of a text in the Plain style: its preamble as it is, and then no white space but one
/// space where two names, keywords or numbers would join, round `in`, and between two `-`.
pub fn small(alloc: Global, plain: &[u8]) -> Result<Text, NoMemory> {
    let front = preamble().len().min(plain.len());
    let mut text = Text::from_slice(alloc, &plain[..front])?;
    let mut literal = Literal::Outside;
    for place in front..plain.len() {
        let byte = plain[place];
        if literal != Literal::Outside || !is_white(byte) {
            text.push(byte)?;
        } else if is_kept(&plain[..place], &plain[place + 1..]) {
            text.push(b' ')?;
        }
        literal = after(literal, byte);
    }
    Ok(text)
}

// Where the byte after this one stands.
fn after(literal: Literal, byte: u8) -> Literal {
    match literal {
        Literal::Outside if byte == b'"' => Literal::Inside,
        Literal::Outside => Literal::Outside,
        Literal::Inside if byte == b'"' => Literal::Outside,
        Literal::Inside if byte == b'\\' => Literal::Escaped,
        Literal::Inside => Literal::Inside,
        Literal::Escaped => Literal::Inside,
    }
}

// Whether white space between these bytes is kept.
fn is_kept(before: &[u8], after: &[u8]) -> bool {
    if before.ends_with(b" in") || after.starts_with(b"in ") {
        return true;
    }
    match (before.last(), after.first()) {
        (Some(last), Some(first)) => is_joined(*last, *first),
        _ => false,
    }
}

// Whether two bytes without white space between them would be part of one token.
fn is_joined(last: u8, first: u8) -> bool {
    (is_word(last) && is_word(first)) || (last == b'-' && first == b'-')
}

fn is_white(byte: u8) -> bool {
    byte == b' ' || byte == b'\n'
}

// Whether a byte may stand in a name, a keyword or a number.
fn is_word(byte: u8) -> bool {
    byte == b'$' || byte == b'_' || byte.is_ascii_alphanumeric()
}
