//! What comes first among tokens.

ghost use Rattle.std.specs.Prelude.{◌≡◌, ◌<◌, ◌≤◌, ◌+◌, length, IfOk, Bool, true, false, bytes_eq, map, MatchOption, ◌∷◌, []};
ghost use Rattle.js_tree.specs.Lexical.{identifier_name};
ghost use Rattle.js_tree.specs.Scripts.{at_of, word, sign, after};
ghost use Rattle.js_grammar.specs.Tokens.{places, is_first, is_second, infix_at, between, sign_at, infix_token};
ghost use Rattle.js_grammar.specs.Steps.{rest_of, is_number_token, is_string_token, is_name_token, begins, taken, skipped, is_push, begins_part, begins_atom, ends_statements};
ghost use Rattle.js_grammar.specs.Goals as goal;
ghost use Rattle.js_grammar.specs.Reads.{Reads, seen};
ghost use Rattle.js_nodes.specs.Views.{rest_read};

use js_grammar::lexer::same;
use js_grammar::{Lexeme, ReadRefusal, Token, syntax};

/// How deep a token may be nested.
pub const DEEPEST: u32 = 1000;

/// The offset of what begins with the first token.
pub fn place(ts: &[Token]) -> u32
    ensures { result ≡ at_of (places ts.now) }
{
    match ts {
        [] => 0,
        [token, ..] => token.at,
    }
}

/// Whether this word comes first.
pub fn is_word(ts: &[Token], bytes: &[u8]) -> bool
    ensures { result ≡ is_first (word bytes.now) (places ts.now) }
{
    match ts {
        [] => false,
        [token, ..] => match token.lexeme {
            Lexeme::Word(w) => same(bytes, w),
            _ => false,
        },
    }
}

/// Whether this sign comes first.
pub fn is_sign(ts: &[Token], bytes: &[u8]) -> bool
    ensures { result ≡ is_first (sign bytes.now) (places ts.now) }
{
    match ts {
        [] => false,
        [token, ..] => match token.lexeme {
            Lexeme::Sign(w) => same(bytes, w),
            _ => false,
        },
    }
}

/// The tokens after the first.
pub fn rest<'a>(ts: &'a [Token<'a>]) -> &'a [Token<'a>]
    ensures { places result.now ≡ rest_of (places ts.now) }
{
    match ts {
        [] => ts,
        [_, rest @ ..] => rest,
    }
}

/// Whether this word comes second.
pub fn is_second_word(ts: &[Token], bytes: &[u8]) -> bool
    ensures { result ≡ is_second (word bytes.now) (places ts.now) }
{
    match ts {
        [] => false,
        [_, rest @ ..] => is_word(rest, bytes),
    }
}

/// Whether this sign comes second.
pub fn is_second_sign(ts: &[Token], bytes: &[u8]) -> bool
    ensures { result ≡ is_second (sign bytes.now) (places ts.now) }
{
    match ts {
        [] => false,
        [_, rest @ ..] => is_sign(rest, bytes),
    }
}

/// What follows the first token, which is nested so deep.
pub fn skip<'a>(ts: &'a [Token<'a>], d: u32) -> Result<&'a [Token<'a>], ReadRefusal>
    ensures value { taken (skipped d (places ts.now)) ≡ seen rest_read result }
    ensures shorter { IfOk result (λ rest. length rest.now < length ts.now) }
    ensures within { IfOk result (λ rest. d ≤ 1000) }
{
    match ts {
        [] => Err(syntax()),
        [_, rest @ ..] => {
            if d <= DEEPEST {
                return Ok(rest);
            }
            Err(syntax())
        }
    }
}

fn after_sign<'a>(ts: &'a [Token<'a>], d: u32, bytes: &[u8]) -> Result<&'a [Token<'a>], ReadRefusal>
    ensures value { taken (after d (sign bytes.now ∷ []) (places ts.now)) ≡ seen rest_read result }
    ensures shorter { IfOk result (λ rest. length rest.now < length ts.now) }
    ensures within { IfOk result (λ rest. d ≤ 1000) }
{
    match ts {
        [] => Err(syntax()),
        [_, rest @ ..] => {
            if is_sign(ts, bytes) && d <= DEEPEST {
                return Ok(rest);
            }
            Err(syntax())
        }
    }
}

fn after_word<'a>(ts: &'a [Token<'a>], d: u32, bytes: &[u8]) -> Result<&'a [Token<'a>], ReadRefusal>
    ensures value { taken (after d (word bytes.now ∷ []) (places ts.now)) ≡ seen rest_read result }
    ensures shorter { IfOk result (λ rest. length rest.now < length ts.now) }
    ensures within { IfOk result (λ rest. d ≤ 1000) }
{
    match ts {
        [] => Err(syntax()),
        [_, rest @ ..] => {
            if is_word(ts, bytes) && d <= DEEPEST {
                return Ok(rest);
            }
            Err(syntax())
        }
    }
}

/// What follows a sign that is nested so deep.
pub fn take_sign<'a>(
    ts: &'a [Token<'a>],
    d: u32,
    bytes: &[u8],
) -> Result<&'a [Token<'a>], ReadRefusal>
    ensures read { Reads (goal.token d (sign bytes.now)) (places ts.now) (seen rest_read result) }
    ensures shorter { IfOk result (λ rest. length rest.now < length ts.now) }
    ensures within { IfOk result (λ rest. d ≤ 1000) }
{
    after_sign(ts, d, bytes)
}

/// What follows a word that is nested so deep.
pub fn take_word<'a>(
    ts: &'a [Token<'a>],
    d: u32,
    bytes: &[u8],
) -> Result<&'a [Token<'a>], ReadRefusal>
    ensures read { Reads (goal.token d (word bytes.now)) (places ts.now) (seen rest_read result) }
    ensures shorter { IfOk result (λ rest. length rest.now < length ts.now) }
    ensures within { IfOk result (λ rest. d ≤ 1000) }
{
    after_word(ts, d, bytes)
}

/// What follows an operator that is nested so deep.
pub fn take_operator<'a>(ts: &'a [Token<'a>], d: u32) -> Result<&'a [Token<'a>], ReadRefusal>
    ensures read { Reads (goal.operator d) (places ts.now) (seen rest_read result) }
    ensures shorter { IfOk result (λ rest. length rest.now < length ts.now) }
    ensures within { IfOk result (λ rest. d ≤ 1000) }
{
    skip(ts, d)
}

/// Whether `.push` comes first.
pub fn is_push(ts: &[Token]) -> bool
    ensures { result ≡ is_push (places ts.now) }
{
    is_sign(ts, b".") && is_second_word(ts, b"push")
}

/// Whether one more part of an expression comes first.
pub fn begins_part(ts: &[Token]) -> bool
    ensures { result ≡ begins_part (places ts.now) }
{
    is_sign(ts, b"(") || is_sign(ts, b"[") || is_sign(ts, b".") && !is_second_word(ts, b"push")
}

/// Whether what comes first begins an expression without an operator before it.
pub fn begins_atom(ts: &[Token]) -> bool
    ensures { result ≡ begins_atom (places ts.now) }
{
    crate::nodes::literal::names(ts)
        || crate::nodes::literal::numbers(ts)
        || crate::nodes::literal::quotes(ts)
        || is_sign(ts, b"(")
        || is_sign(ts, b"[")
        || is_word(ts, b"true")
        || is_word(ts, b"false")
        || is_word(ts, b"null")
        || is_word(ts, b"Object")
        || is_word(ts, b"String")
}

/// Whether statements end here.
pub fn ends_statements(ts: &[Token]) -> bool
    ensures { result ≡ ends_statements (places ts.now) }
{
    match ts {
        [] => true,
        [_, ..] => is_sign(ts, b"}") || is_word(ts, b"case") || is_word(ts, b"default"),
    }
}
