//! The inside of a string: ECMA-262 5.1, 7.8.4, cut to the subset.

ghost use Rattle.std.specs.Prelude.{◌≡◌, ◌<◌, ◌≤◌, ◌+◌, ◌*◌, true, drop, length, ◌++◌, ◌∷◌, [], Some, None, IfOk, IfSome, MatchOption, MatchResult};
ghost use Rattle.js_grammar.specs.Scan.{is_plain, is_hex, hex_value, step, low_step, with_front, scan};

use crate::refusal::ReadRefusal;

/// What has been read of a byte in a string.
#[derive(Clone, Copy)]
pub enum Inside {
    /// Nothing.
    Plain,
    /// `\`
    Escape,
    /// `\x`
    High,
    /// `\x` and a digit with this value.
    Low(u8),
}

/// What a byte does in a string.
#[derive(Clone, Copy)]
pub enum Step {
    /// It can't stand there.
    Wrong,
    /// It is the closing quote.
    Ends,
    /// More has been read of a byte.
    Goes(Inside),
    /// A byte of the string is read.
    Gives(u8),
}

fn is_plain(c: u8) -> bool
    ensures { result ≡ is_plain c }
{
    c != b'"' && c != b'\\' && (32 <= c && c < 127)
}

fn is_hex(c: u8) -> bool
    ensures { result ≡ is_hex c }
{
    b'0' <= c && c <= b'9' || b'a' <= c && c <= b'f'
}

fn hex_value(c: u8) -> u8
    requires { is_hex c ≡ true }
    ensures value { result ≡ hex_value c }
    ensures within { result < 16 }
{
    if b'a' <= c { c - 87 } else { c - 48 }
}

fn low_step(h: u8, c: u8) -> Step
    requires { h < 16 }
    ensures { result ≡ low_step c (16 * h + hex_value c) }
{
    if !is_hex(c) {
        return Step::Wrong;
    }
    let b = 16 * h + hex_value(c);
    if !is_plain(b) && b != b'"' && b != b'\\' {
        return Step::Gives(b);
    }
    Step::Wrong
}

fn plain_step(c: u8) -> Step
    ensures { result ≡ step Inside.Plain c }
{
    if c == b'"' {
        return Step::Ends;
    }
    if c == b'\\' {
        return Step::Goes(Inside::Escape);
    }
    if is_plain(c) {
        return Step::Gives(c);
    }
    Step::Wrong
}

fn escape_step(c: u8) -> Step
    ensures { result ≡ step Inside.Escape c }
{
    if c == b'"' || c == b'\\' {
        return Step::Gives(c);
    }
    if c == b'x' {
        return Step::Goes(Inside::High);
    }
    Step::Wrong
}

fn high_step(c: u8) -> Step
    ensures { result ≡ step Inside.High c }
{
    if is_hex(c) {
        return Step::Goes(Inside::Low(hex_value(c)));
    }
    Step::Wrong
}

fn take_byte(inside: Inside, c: u8) -> Step
    ensures { result ≡ step inside c }
{
    match inside {
        Inside::Plain => plain_step(c),
        Inside::Escape => escape_step(c),
        Inside::High => high_step(c),
        Inside::Low(h) => {
            if h < 16 {
                return low_step(h, c);
            }
            Step::Wrong
        }
    }
}

fn add(out: &mut Vec<u8>, b: u8) -> Result<(), ReadRefusal>
    ensures { MatchResult result (λ u. out.new.items ≡ out.old.items ++ b ∷ []) (λ z. z ≡ ReadRefusal.NoMemory) }
{
    match out.push(b) {
        Ok(()) => Ok(()),
        Err(_) => Err(ReadRefusal::NoMemory),
    }
}

/// Adds the bytes of the string whose inside a text begins with, and gives where the text after
/// its closing quote begins.
pub fn scanned(raw: &[u8], out: &mut Vec<u8>) -> Result<Option<usize>, ReadRefusal>
    ensures value { MatchResult result (λ o. MatchOption o (scan Inside.Plain raw.now ≡ None) (λ n. with_front out.old.items (scan Inside.Plain raw.now) ≡ Some (out.new.items, drop n raw.now))) (λ z. z ≡ ReadRefusal.NoMemory) }
    ensures within { IfOk result (λ o. IfSome o (λ n. n ≤ length raw.now)) }
{
    let mut at = 0;
    let mut inside = Inside::Plain;
    'bytes: while at < raw.len() {
        match take_byte(inside, raw[at]) {
            Step::Wrong => return Ok(None),
            Step::Ends => return Ok(Some(at + 1)),
            Step::Goes(next) => inside = next,
            Step::Gives(b) => {
                add(out, b)?;
                inside = Inside::Plain;
            }
        }
        at += 1;
    }
    Ok(None)
}
