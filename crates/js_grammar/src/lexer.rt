//! A text as tokens: ECMA-262 5.1, 7, cut to the subset. Each token is the longest at its place.

ghost use Rattle.std.specs.Prelude.{◌≡◌, ◌<◌, ◌≤◌, ◌+◌, ◌^◌, ◌∷◌, [], ◌++◌, ◌==◌, ◌&&◌, ◌||◌, length, take, drop, MatchOption, MatchResult, IfOk, IfSome, None, Some, false, true, nat_lt, if◌then◌else◌, IsTrue, codes, bytes_eq};
ghost use Rattle.std.specs.Str.{all_ascii_digits};
ghost use Rattle.std.specs.Char.{is_ascii_digit};
ghost use Rattle.js_tree.specs.Lexical.{begins, is_digit, is_one_of, is_restricted, Splits, identifier_name, string_literal};
ghost use Rattle.js_tree.specs.Printable.{is_name_byte, is_in_range};
ghost use Rattle.js_grammar.specs.Scan as scan;
ghost use Rattle.js_grammar.specs.Signs as signs;
ghost use Rattle.js_grammar.specs.Tokens.{lexeme_view, places};
ghost use Rattle.js_grammar.specs.Lexed.{found_as, Unsplit};
ghost use Rattle.js_grammar.specs.declared.scan.Inside.TheVariants as Inside;

use crate::refusal::{ReadRefusal, syntax};
use crate::scan::scanned;
use crate::token::{Lexeme, Token};
use std::alloc::Global;

/// Letters, digits, `_` and `$`.
pub fn is_name_byte(c: u8) -> bool
    ensures { result ≡ is_name_byte c }
{
    b'a' <= c && c <= b'z'
        || b'A' <= c && c <= b'Z'
        || b'0' <= c && c <= b'9'
        || c == b'_'
        || c == b'$'
}

/// Whether bytes are the same.
pub fn same(a: &[u8], b: &[u8]) -> bool
    ensures { result ≡ bytes_eq a.now b.now }
{
    a == b
}

/// How many bytes of a name or a number a text begins with.
fn run(text: &[u8]) -> usize
    ensures value { result ≡ scan.run text.now }
    ensures within { result ≤ length text.now }
{
    let mut n = 0;
    'bytes: while n < text.len() {
        if !is_name_byte(text[n]) {
            return n;
        }
        n += 1;
    }
    n
}

/// Whether digits after a zero come.
fn leads_with_zero(digits: &[u8]) -> bool
    ensures { result ≡ scan.leads_with_zero digits.now }
{
    match digits {
        [] => false,
        [_] => false,
        [c, ..] => *c == b'0',
    }
}

fn is_digit(c: u8) -> bool
    ensures { result ≡ is_ascii_digit c }
{
    b'0' <= c && c <= b'9'
}

/// The largest number of the subset.
const LARGEST: u64 = 9007199254740992;

/// The value of digits, where it is at most the largest.
fn value(digits: &[u8]) -> Option<u64>
    ensures { MatchOption result ((all_ascii_digits digits.now && is_in_range (scan.value_after 0 digits.now)) ≡ false) (λ n. (all_ascii_digits digits.now ≡ true) × (is_in_range n ≡ true) × (n ≡ scan.value_after 0 digits.now)) }
{
    let mut n: u64 = 0;
    let mut at = 0;
    'digits: while at < digits.len() {
        let c = digits[at];
        if !is_digit(c) {
            return None;
        }
        n = 10 * n + (c - b'0') as u64;
        if n > LARGEST {
            return None;
        }
        at += 1;
    }
    Some(n)
}

/// The number that bytes are, without a leading zero and at most the largest.
fn number(digits: &[u8]) -> Option<u64>
    ensures { result ≡ scan.number_of digits.now }
{
    if leads_with_zero(digits) {
        return None;
    }
    value(digits)
}

/// How long the longer is of the signs that a text begins with: one, and another of n bytes.
fn longer(text: &[u8], sign: &[u8], n: usize) -> usize
    requires { n ≤ length text.now }
    ensures value { result ≡ (if begins sign.now text.now && nat_lt n (length sign.now) then length sign.now else n) }
    ensures within { result ≤ length text.now }
{
    if begins(text, sign) && n < sign.len() {
        return sign.len();
    }
    n
}

/// Whether a text begins with a sign.
pub fn begins(text: &[u8], sign: &[u8]) -> bool
    ensures value { result ≡ begins sign.now text.now }
    ensures within { IsTrue result → length sign.now ≤ length text.now }
{
    if sign.len() > text.len() {
        return false;
    }
    let mut at = 0;
    'bytes: while at < sign.len() {
        if sign[at] != text[at] {
            return false;
        }
        at += 1;
    }
    true
}

fn first_signs(text: &[u8], n: usize) -> usize
    requires { n ≤ length text.now }
    ensures value { result ≡ scan.longest signs.first_signs n text.now }
    ensures within { result ≤ length text.now }
{
    let n0 = longer(text, b"{", n);
    let n1 = longer(text, b"}", n0);
    let n2 = longer(text, b"(", n1);
    let n3 = longer(text, b")", n2);
    let n4 = longer(text, b"[", n3);
    let n5 = longer(text, b"]", n4);
    let n6 = longer(text, b".", n5);
    longer(text, b";", n6)
}

fn second_signs(text: &[u8], n: usize) -> usize
    requires { n ≤ length text.now }
    ensures value { result ≡ scan.longest signs.second_signs n text.now }
    ensures within { result ≤ length text.now }
{
    let n0 = longer(text, b",", n);
    let n1 = longer(text, b"<", n0);
    let n2 = longer(text, b">", n1);
    let n3 = longer(text, b"<=", n2);
    let n4 = longer(text, b">=", n3);
    let n5 = longer(text, b"==", n4);
    let n6 = longer(text, b"!=", n5);
    longer(text, b"===", n6)
}

fn third_signs(text: &[u8], n: usize) -> usize
    requires { n ≤ length text.now }
    ensures value { result ≡ scan.longest signs.third_signs n text.now }
    ensures within { result ≤ length text.now }
{
    let n0 = longer(text, b"!==", n);
    let n1 = longer(text, b"+", n0);
    let n2 = longer(text, b"-", n1);
    let n3 = longer(text, b"*", n2);
    let n4 = longer(text, b"%", n3);
    let n5 = longer(text, b"++", n4);
    let n6 = longer(text, b"--", n5);
    longer(text, b"<<", n6)
}

fn fourth_signs(text: &[u8], n: usize) -> usize
    requires { n ≤ length text.now }
    ensures value { result ≡ scan.longest signs.fourth_signs n text.now }
    ensures within { result ≤ length text.now }
{
    let n0 = longer(text, b">>", n);
    let n1 = longer(text, b">>>", n0);
    let n2 = longer(text, b"&", n1);
    let n3 = longer(text, b"|", n2);
    let n4 = longer(text, b"^", n3);
    let n5 = longer(text, b"!", n4);
    let n6 = longer(text, b"~", n5);
    longer(text, b"&&", n6)
}

fn fifth_signs(text: &[u8], n: usize) -> usize
    requires { n ≤ length text.now }
    ensures value { result ≡ scan.longest signs.fifth_signs n text.now }
    ensures within { result ≤ length text.now }
{
    let n0 = longer(text, b"||", n);
    let n1 = longer(text, b"?", n0);
    let n2 = longer(text, b":", n1);
    let n3 = longer(text, b"=", n2);
    let n4 = longer(text, b"+=", n3);
    let n5 = longer(text, b"-=", n4);
    let n6 = longer(text, b"*=", n5);
    longer(text, b"%=", n6)
}

fn sixth_signs(text: &[u8], n: usize) -> usize
    requires { n ≤ length text.now }
    ensures value { result ≡ scan.longest signs.sixth_signs n text.now }
    ensures within { result ≤ length text.now }
{
    let n0 = longer(text, b"<<=", n);
    let n1 = longer(text, b">>=", n0);
    let n2 = longer(text, b">>>=", n1);
    let n3 = longer(text, b"&=", n2);
    let n4 = longer(text, b"|=", n3);
    let n5 = longer(text, b"^=", n4);
    let n6 = longer(text, b"/", n5);
    longer(text, b"/=", n6)
}

/// The length of the longest sign that a text begins with, 0 for none: ECMA-262 5.1, 7.7.
fn sign(text: &[u8]) -> usize
    ensures value { result ≡ signs.longest_sign text.now }
    ensures within { result ≤ length text.now }
{
    let a = first_signs(text, 0);
    let b = second_signs(text, a);
    let c = third_signs(text, b);
    let d = fourth_signs(text, c);
    let e = fifth_signs(text, d);
    sixth_signs(text, e)
}

/// Whether a `.` comes first.
fn dot_follows(text: &[u8]) -> bool
    ensures { result ≡ scan.dot_follows text.now }
{
    match text {
        [] => false,
        [c, ..] => *c == b'.',
    }
}

/// The number that a text begins with, and how many bytes it has.
fn number_at<'a>(text: &'a [u8]) -> Option<(Lexeme<'a>, usize)>
    requires { 0 < scan.run text.now }
    ensures value { scan.numbered (scan.number_of (take (scan.run text.now) text.now)) (drop (scan.run text.now) text.now) ≡ found_as result text.now }
    ensures within { IfSome result (λ p. (0 < p.1) × (p.1 ≤ length text.now)) }
{
    let n = run(text);
    let Some(v) = number(&text[..n]) else {
        return None;
    };
    if dot_follows(&text[n..]) {
        return None;
    }
    Some((Lexeme::Number(v), n))
}

/// The name or word that a text begins with, and how many bytes it has.
fn word_at<'a>(text: &'a [u8]) -> (Lexeme<'a>, usize)
    requires { 0 < scan.run text.now }
    ensures value { Some (identifier_name (take (scan.run text.now) text.now), drop (scan.run text.now) text.now) ≡ found_as (Some result) text.now }
    ensures within { (0 < result.1) × (result.1 ≤ length text.now) }
{
    let n = run(text);
    (Lexeme::Word(&text[..n]), n)
}

/// The sign that a text begins with, and how many bytes it has.
fn sign_at<'a>(text: &'a [u8]) -> Option<(Lexeme<'a>, usize)>
    ensures value { scan.signed (signs.longest_sign text.now) text.now ≡ found_as result text.now }
    ensures within { IfSome result (λ p. (0 < p.1) × (p.1 ≤ length text.now)) }
{
    let n = sign(text);
    if n == 0 {
        return None;
    }
    Some((Lexeme::Sign(&text[..n]), n))
}

/// Where the text after a string begins, whose inside a text begins with.
fn string_end(raw: &[u8], scratch: &mut Vec<u8>) -> Result<Option<usize>, ReadRefusal>
    ensures value { MatchResult result (λ o. MatchOption o (scan.quoted (scan.scan Inside.Plain raw.now) ≡ None) (λ n. scan.quoted (scan.scan Inside.Plain raw.now) ≡ Some (string_literal (scan.bytes_of (scan.scan Inside.Plain raw.now)), drop n raw.now))) (λ z. z ≡ ReadRefusal.NoMemory) }
    ensures within { IfOk result (λ o. IfSome o (λ n. n ≤ length raw.now)) }
{
    scratch.clear();
    match scanned(raw, scratch)? {
        None => Ok(None),
        Some(n) => Ok(Some(n)),
    }
}

/// The first token of a text, and how many bytes it has.
fn token_at<'a>(
    text: &'a [u8],
    scratch: &mut Vec<u8>,
) -> Result<Option<(Lexeme<'a>, usize)>, ReadRefusal>
    ensures value { MatchResult result (λ o. scan.token_at text.now ≡ found_as o text.now) (λ z. z ≡ ReadRefusal.NoMemory) }
    ensures within { IfOk result (λ o. IfSome o (λ p. (0 < p.1) × (p.1 ≤ length text.now))) }
{
    match text {
        [] => Ok(None),
        [c, rest @ ..] => {
            if is_digit(*c) {
                return Ok(number_at(text));
            }
            if is_name_byte(*c) {
                return Ok(Some(word_at(text)));
            }
            if *c != b'"' {
                return Ok(sign_at(text));
            }
            match string_end(rest, scratch)? {
                None => Ok(None),
                Some(n) => Ok(Some((Lexeme::Quoted(rest), n + 1))),
            }
        }
    }
}

fn is_restricted_word(w: &[u8]) -> bool
    ensures { result ≡ is_one_of (codes "return" ∷ codes "throw" ∷ codes "break" ∷ codes "continue" ∷ []) w.now }
{
    if same(b"return", w) {
        return true;
    }
    if same(b"throw", w) {
        return true;
    }
    if same(b"break", w) {
        return true;
    }
    same(b"continue", w)
}

/// Whether no newline may stand after a token: ECMA-262 5.1, 7.9.1.
fn is_restricted(lexeme: Lexeme) -> bool
    ensures { result ≡ is_restricted (lexeme_view lexeme.entry) }
{
    match lexeme {
        Lexeme::Word(w) => is_restricted_word(w),
        _ => false,
    }
}

/// Whether a byte may stand between tokens.
fn is_space(newlines: bool, c: u8) -> bool
    ensures { result ≡ (c == 32 || newlines && c == 10) }
{
    c == b' ' || newlines && c == b'\n'
}

fn add<'a>(tokens: &mut Vec<Token<'a>>, t: Token<'a>) -> Result<(), ReadRefusal>
    ensures { MatchResult result (λ u. tokens.new.items ≡ tokens.old.items ++ t.entry ∷ []) (λ z. z ≡ ReadRefusal.NoMemory) }
{
    match tokens.push(t) {
        Ok(()) => Ok(()),
        Err(_) => Err(ReadRefusal::NoMemory),
    }
}

/// The tokens of the bytes from an offset on, each with its offset; where the bytes have none the
/// answer is `Syntax(0)`. Nothing is kept after an error.
pub fn tokens<'a>(
    alloc: Global,
    bytes: &'a [u8],
    from: usize,
) -> Result<Vec<Token<'a>>, ReadRefusal>
    requires room { length bytes.now < 2 ^ 32 }
    requires within { from ≤ length bytes.now }
    ensures { MatchResult result (λ v. Splits true from (drop from bytes.now) (places v.items)) (λ e. Unsplit (drop from bytes.now) from e) }
{
    let mut tokens = Vec::new(alloc);
    let mut scratch = Vec::new(alloc);
    let mut newlines = true;
    let mut at = from;
    'bytes: while at < bytes.len() {
        if is_space(newlines, bytes[at]) {
            at += 1;
            continue;
        }
        let Some((lexeme, n)) = token_at(&bytes[at..], &mut scratch)? else {
            return Err(syntax());
        };
        add(
            &mut tokens,
            Token {
                lexeme,
                at: at as u32,
            },
        )?;
        newlines = !is_restricted(lexeme);
        at += n;
    }
    Ok(tokens)
}

#[cfg(test)]
mod tests;
