//! Literals and names: ECMA-262 5.1, 7.6, 7.8 and 11.1.

ghost use Rattle.std.specs.Prelude.{◌≡◌, ◌<◌, ◌≤◌, ◌+◌, length, IfOk, IfSome, MatchOption, MatchResult, Result, Ok, Err};
ghost use Rattle.std.specs.List.{list_all};
ghost use Rattle.js_tree.specs.Printable.{is_name, is_own_name, is_name_byte};
ghost use Rattle.js_grammar.specs.Scan.{scan, bytes_of};
ghost use Rattle.js_grammar.specs.declared.scan.Inside.TheVariants as Inside;
ghost use Rattle.js_grammar.specs.Tokens.{places};
ghost use Rattle.js_grammar.specs.Steps.{name_at, own_of, number_at, string_at, wrong, begins, is_name_token, is_number_token, is_string_token};
ghost use Rattle.js_grammar.specs.Goals as goal;
ghost use Rattle.js_grammar.specs.Reads.{Reads, seen};
ghost use Rattle.js_nodes.specs.Views.{rest_read, expr_read, text_read, number_read};

use crate::nodes::look::{DEEPEST, is_word, place, take_word};
use crate::nodes::node;
use crate::nodes::part::dictionary;
use gj_base::Text;
use js_grammar::lexer::{is_name_byte, same};
use js_grammar::scan::scanned;
use js_grammar::{Lexeme, ReadRefusal, Token, syntax};
use js_tree::JsExpr;
use std::alloc::Global;

fn is_name(w: &[u8]) -> bool
    ensures { result ≡ is_name w.now }
{
    match w {
        [] => false,
        [c, rest @ ..] => *c == b'$' && are_name_bytes(rest),
    }
}

fn are_name_bytes(w: &[u8]) -> bool
    ensures { result ≡ list_all is_name_byte w.now }
{
    w.iter().all(|b| is_name_byte(*b))
}

fn is_own_name(w: &[u8]) -> bool
    ensures { result ≡ is_own_name w.now }
{
    is_name(w) && !same(w, b"$catch")
}

/// Whether a name comes first.
pub fn names(ts: &[Token]) -> bool
    ensures { result ≡ begins is_name_token (places ts.now) }
{
    match ts {
        [] => false,
        [token, ..] => match token.lexeme {
            Lexeme::Word(w) => is_name(w),
            _ => false,
        },
    }
}

pub fn numbers(ts: &[Token]) -> bool
    ensures { result ≡ begins is_number_token (places ts.now) }
{
    match ts {
        [] => false,
        [token, ..] => match token.lexeme {
            Lexeme::Number(_) => true,
            _ => false,
        },
    }
}

pub fn quotes(ts: &[Token]) -> bool
    ensures { result ≡ begins is_string_token (places ts.now) }
{
    match ts {
        [] => false,
        [token, ..] => match token.lexeme {
            Lexeme::Quoted(_) => true,
            _ => false,
        },
    }
}

/// The bytes of a name that is nested so deep, and what follows it.
fn name_bytes<'a>(ts: &'a [Token<'a>], d: u32) -> Option<(&'a [u8], &'a [Token<'a>])>
    ensures value { MatchOption result (name_at d (places ts.now) ≡ wrong) (λ p. name_at d (places ts.now) ≡ Ok (p.0.now, places p.1.now)) }
    ensures shorter { IfSome result (λ p. length p.1.now < length ts.now) }
{
    match ts {
        [] => None,
        [token, rest @ ..] => match token.lexeme {
            Lexeme::Word(w) => {
                if is_name(w) && d <= DEEPEST {
                    return Some((w, rest));
                }
                None
            }
            _ => None,
        },
    }
}

/// A copy of bytes.
fn copied(alloc: Global, w: &[u8]) -> Result<Text, ReadRefusal>
    ensures { MatchResult result (λ t. t ≡ w.now) (λ z. z ≡ ReadRefusal.NoMemory) }
{
    match Text::from_slice(alloc, w) {
        Ok(t) => Ok(t),
        Err(_) => Err(ReadRefusal::NoMemory),
    }
}

/// A name that is nested so deep, and what follows it.
pub fn take_name<'a>(
    alloc: Global,
    ts: &'a [Token<'a>],
    d: u32,
) -> Result<(Text, &'a [Token<'a>]), ReadRefusal>
    ensures read { Reads (goal.name d) (places ts.now) (seen text_read result) }
    ensures shorter { IfOk result (λ p. length p.1.now < length ts.now) }
{
    let Some((w, rest)) = name_bytes(ts, d) else {
        return Err(syntax());
    };
    let x = copied(alloc, w)?;
    Ok((x, rest))
}

/// A name other than `$catch` that is nested so deep, and what follows it.
pub fn take_own_name<'a>(
    alloc: Global,
    ts: &'a [Token<'a>],
    d: u32,
) -> Result<(Text, &'a [Token<'a>]), ReadRefusal>
    ensures read { Reads (goal.own_name d) (places ts.now) (seen text_read result) }
    ensures shorter { IfOk result (λ p. length p.1.now < length ts.now) }
{
    let Some((w, rest)) = name_bytes(ts, d) else {
        return Err(syntax());
    };
    if !is_own_name(w) {
        return Err(syntax());
    }
    let x = copied(alloc, w)?;
    Ok((x, rest))
}

fn number_value<'a>(ts: &'a [Token<'a>], d: u32) -> Result<(u64, &'a [Token<'a>]), ReadRefusal>
    ensures value { number_at d (places ts.now) ≡ seen number_read result }
    ensures shorter { IfOk result (λ p. length p.1.now < length ts.now) }
{
    match ts {
        [] => Err(syntax()),
        [token, rest @ ..] => match token.lexeme {
            Lexeme::Number(n) => {
                if d <= DEEPEST {
                    return Ok((n, rest));
                }
                Err(syntax())
            }
            _ => Err(syntax()),
        },
    }
}

/// A number that is nested so deep, and what follows it.
pub fn take_number<'a>(ts: &'a [Token<'a>], d: u32) -> Result<(u64, &'a [Token<'a>]), ReadRefusal>
    ensures read { Reads (goal.number d) (places ts.now) (seen number_read result) }
    ensures shorter { IfOk result (λ p. length p.1.now < length ts.now) }
{
    number_value(ts, d)
}

fn string_bytes<'a>(ts: &'a [Token<'a>], d: u32) -> Option<(&'a [u8], &'a [Token<'a>])>
    ensures value { MatchOption result (string_at d (places ts.now) ≡ wrong) (λ p. string_at d (places ts.now) ≡ Ok (bytes_of (scan Inside.Plain p.0.now), places p.1.now)) }
    ensures shorter { IfSome result (λ p. length p.1.now < length ts.now) }
{
    match ts {
        [] => None,
        [token, rest @ ..] => match token.lexeme {
            Lexeme::Quoted(w) => {
                if d <= DEEPEST {
                    return Some((w, rest));
                }
                None
            }
            _ => None,
        },
    }
}

/// The bytes of the string whose inside a text begins with.
fn decoded(alloc: Global, raw: &[u8]) -> Result<Text, ReadRefusal>
    ensures { MatchResult result (λ t. t ≡ bytes_of (scan Inside.Plain raw.now)) (λ z. z ≡ ReadRefusal.NoMemory) }
{
    let mut bytes = Vec::new(alloc);
    match scanned(raw, &mut bytes)? {
        Some(_) => Ok(Text::from_vec(bytes)),
        None => Ok(Text::new(alloc)),
    }
}

/// A string that is nested so deep, and what follows it.
fn take_string<'a>(
    alloc: Global,
    ts: &'a [Token<'a>],
    d: u32,
) -> Result<(Text, &'a [Token<'a>]), ReadRefusal>
    ensures read { Reads (goal.string d) (places ts.now) (seen text_read result) }
    ensures shorter { IfOk result (λ p. length p.1.now < length ts.now) }
{
    let Some((w, rest)) = string_bytes(ts, d) else {
        return Err(syntax());
    };
    let s = decoded(alloc, w)?;
    Ok((s, rest))
}

/// `true`, `false`, `null` or `Object.create(null)`.
fn word_literal<'a>(ts: &'a [Token<'a>], d: u32) -> Result<(JsExpr, &'a [Token<'a>]), ReadRefusal>
    requires { d ≤ 1001 }
    ensures read { Reads (goal.word_literal d) (places ts.now) (seen expr_read result) }
    ensures shorter { IfOk result (λ p. length p.1.now < length ts.now) }
{
    let at = place(ts);
    if is_word(ts, b"true") {
        let rest = take_word(ts, d, b"true")?;
        return Ok((node::boolean(at, true), rest));
    }
    if is_word(ts, b"false") {
        let rest = take_word(ts, d, b"false")?;
        return Ok((node::boolean(at, false), rest));
    }
    if is_word(ts, b"null") {
        let rest = take_word(ts, d, b"null")?;
        return Ok((node::null(at), rest));
    }
    dictionary(ts, d)
}

/// A name, a number, a string or a literal that is a word.
pub fn literal<'a>(
    alloc: Global,
    ts: &'a [Token<'a>],
    d: u32,
) -> Result<(JsExpr, &'a [Token<'a>]), ReadRefusal>
    requires { d ≤ 1001 }
    ensures read { Reads (goal.literal d) (places ts.now) (seen expr_read result) }
    ensures shorter { IfOk result (λ p. length p.1.now < length ts.now) }
{
    let at = place(ts);
    if names(ts) {
        let (x, rest) = take_name(alloc, ts, d)?;
        return Ok((node::name(at, x), rest));
    }
    if numbers(ts) {
        let (n, rest) = take_number(ts, d)?;
        return Ok((node::number(at, n), rest));
    }
    if quotes(ts) {
        let (s, rest) = take_string(alloc, ts, d)?;
        return Ok((node::string(at, s), rest));
    }
    word_literal(ts, d)
}
