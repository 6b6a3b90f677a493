//! What stands at the front of a text: a piece, or a fault.

ghost use Rattle.std.specs.Prelude.{◌≡◌, ◌<◌, ◌≤◌, ◌+◌, ◌^◌, length, IfSome};
ghost use Rattle.go_lexer.specs.Steps as steps;
ghost use Rattle.go_lexer.specs.Steps.{IsInside};
ghost use Rattle.go_lexer.specs.Chars.{byte_at};
ghost use Rattle.go_lexer.specs.Operators.{operator_of};
ghost use Rattle.go_syntax.specs.Spelling.{operator_text};

use crate::chars::{byte_at, char_width, is_ascii_letter, letter_width};
use crate::escape::escape_at;
use crate::keyword::keyword_of;
use crate::number::{LIMIT, base_of, digits_len, is_beyond, prefix_of, value_of};
use crate::operator::operator_of;
use crate::part::{after, front};
use crate::run::{Class, is_decimal, run_len};
use go_syntax::{Keyword, Operator, TokenKind};

/// The codes of the faults that a text can have.
const INVALID_CHARACTER: u16 = 1;

const INVALID_UTF8: u16 = 2;

const STRING_NOT_TERMINATED: u16 = 3;

const INVALID_RUNE: u16 = 4;

const FLOAT: u16 = 5;

const INVALID_NUMBER: u16 = 6;

const INVALID_ESCAPE: u16 = 7;

const COMMENT_NOT_TERMINATED: u16 = 8;

const NUMBER_TOO_LARGE: u16 = 9;

/// What stands at the front of a text.
#[derive(Clone, Copy)]
pub(crate) enum Step {
    /// a token of so many bytes
    Token(TokenKind, usize),
    /// so many bytes of white space or a comment, without a newline
    Blank(usize),
    /// the same with a newline
    Break(usize),
    /// a line comment of so many bytes that is a build constraint
    Build(usize),
    /// after so many bytes the fault with this code
    Bad(usize, u16),
}

fn int_step(value: Option<u128>, width: usize) -> Step
    ensures value { result ≡ steps.int_step value width }
    ensures within { IsInside width result }
{
    match value {
        None => Step::Bad(0, INVALID_NUMBER),
        Some(value) => if value < LIMIT {
            Step::Token(TokenKind::Int, width)
        } else {
            Step::Bad(0, NUMBER_TOO_LARGE)
        },
    }
}

#[tactic(auto, unfolding(crate::specs::Steps::digits_step))]
fn digits_step(base: u8, over: usize, n: usize, text: &[u8]) -> Step
    requires { over + n < 2 ^ 64 }
    ensures value { result ≡ steps.digits_step base over n text.now }
    ensures within { IsInside (over + n) result }
{
    if is_beyond(byte_at(text, over + n)) {
        return Step::Bad(0, FLOAT);
    }
    int_step(value_of(base, front(after(text, over), n)), over + n)
}

#[tactic(auto, unfolding(crate::specs::Steps::number_step))]
fn number_step(text: &[u8]) -> Step
    requires { length text.now < 2 ^ 62 }
    ensures value { result ≡ steps.number_step text.now }
    ensures within { IsInside (length text.now) result }
{
    let base = base_of(byte_at(text, 0), byte_at(text, 1));
    let over = prefix_of(byte_at(text, 0), byte_at(text, 1));
    let n = digits_len(base, after(text, over));
    digits_step(base, over, n, text)
}

#[tactic(auto, unfolding(crate::specs::Steps::string_body_step))]
fn string_body_step(body: &[u8]) -> Step
    requires { length body.now < 2 ^ 63 }
    ensures value { result ≡ steps.string_body_step body.now }
    ensures within { IsInside (length body.now + 2) result }
{
    let bad = run_len(Class::Utf8, body);
    let wrong = run_len(Class::Escaped(b'"'), body);
    if wrong < bad {
        Step::Bad(wrong + 1, INVALID_ESCAPE)
    } else if bad < body.len() {
        Step::Bad(bad + 1, INVALID_UTF8)
    } else {
        Step::Token(TokenKind::Str, body.len() + 2)
    }
}

#[tactic(auto, unfolding(crate::specs::Steps::string_step))]
fn string_step(text: &[u8]) -> Step
    requires { length text.now < 2 ^ 62 }
    ensures value { result ≡ steps.string_step text.now }
    ensures within { IsInside (length text.now) result }
{
    let inside = after(text, 1);
    let n = run_len(Class::Quoted(b'"'), inside);
    if byte_at(text, n + 1) == b'"' {
        string_body_step(front(inside, n))
    } else {
        Step::Bad(0, STRING_NOT_TERMINATED)
    }
}

#[tactic(auto, unfolding(crate::specs::Kinds::rune_width))]
fn rune_width(body: &[u8]) -> usize
    ensures { result ≡ steps.rune_width body.now }
{
    if byte_at(body, 0) == b'\\' {
        return match escape_at(b'\'', body) {
            None => 0,
            Some(escape) => escape.width,
        };
    }
    let width = char_width(body);
    if width == 0 { 1 } else { width }
}

#[tactic(auto, unfolding(crate::specs::Steps::rune_body_step))]
fn rune_body_step(body: &[u8]) -> Step
    requires { length body.now < 2 ^ 63 }
    ensures value { result ≡ steps.rune_body_step body.now }
    ensures within { IsInside (length body.now + 2) result }
{
    let bad = run_len(Class::Utf8, body);
    let wrong = run_len(Class::Escaped(b'\''), body);
    if wrong < body.len() {
        if wrong < bad {
            Step::Bad(wrong + 1, INVALID_ESCAPE)
        } else {
            Step::Bad(bad + 1, INVALID_UTF8)
        }
    } else if rune_width(body) != body.len() {
        Step::Bad(0, INVALID_RUNE)
    } else if bad < body.len() {
        Step::Bad(bad + 1, INVALID_UTF8)
    } else {
        Step::Token(TokenKind::Rune, body.len() + 2)
    }
}

#[tactic(auto, unfolding(crate::specs::Steps::rune_step))]
fn rune_step(text: &[u8]) -> Step
    requires { length text.now < 2 ^ 62 }
    ensures value { result ≡ steps.rune_step text.now }
    ensures within { IsInside (length text.now) result }
{
    let inside = after(text, 1);
    let n = run_len(Class::Quoted(b'\''), inside);
    if byte_at(text, n + 1) == b'\'' {
        rune_body_step(front(inside, n))
    } else {
        Step::Bad(0, INVALID_RUNE)
    }
}

#[tactic(auto, unfolding(crate::specs::Steps::raw_body_step))]
fn raw_body_step(body: &[u8]) -> Step
    requires { length body.now < 2 ^ 63 }
    ensures value { result ≡ steps.raw_body_step body.now }
    ensures within { IsInside (length body.now + 2) result }
{
    let bad = run_len(Class::Utf8, body);
    if bad < body.len() {
        Step::Bad(bad + 1, INVALID_UTF8)
    } else {
        Step::Token(TokenKind::Str, body.len() + 2)
    }
}

#[tactic(auto, unfolding(crate::specs::Steps::raw_step))]
fn raw_step(text: &[u8]) -> Step
    requires { length text.now < 2 ^ 62 }
    ensures value { result ≡ steps.raw_step text.now }
    ensures within { IsInside (length text.now) result }
{
    let inside = after(text, 1);
    let n = run_len(Class::Raw, inside);
    if byte_at(text, n + 1) == b'`' {
        raw_body_step(front(inside, n))
    } else {
        Step::Bad(0, STRING_NOT_TERMINATED)
    }
}

#[tactic(auto, unfolding(crate::specs::Kinds::word_ends))]
fn word_ends(comment: &[u8], n: usize) -> bool
    ensures { result ≡ steps.word_ends comment.now n }
{
    comment.len() == n
        || byte_at(comment, n) == b' '
        || byte_at(comment, n) == b'\t'
        || byte_at(comment, n) == b'\r'
}

#[tactic(auto, unfolding(crate::specs::Kinds::is_build))]
fn is_build(comment: &[u8]) -> bool
    ensures { result ≡ steps.is_build comment.now }
{
    front(comment, 10) == b"//go:build".as_slice() && word_ends(comment, 10)
        || front(comment, 9) == b"// +build".as_slice() && word_ends(comment, 9)
}

#[tactic(auto, unfolding(crate::specs::Steps::comment_step))]
fn comment_step(comment: &[u8], step: Step) -> Step
    ensures value { result ≡ steps.comment_step comment.now step }
    ensures within { IsInside (length comment.now) step → IsInside (length comment.now) result }
{
    let bad = run_len(Class::Utf8, comment);
    if bad < comment.len() {
        Step::Bad(bad, INVALID_UTF8)
    } else {
        step
    }
}

#[tactic(auto, unfolding(crate::specs::Steps::line_step))]
fn line_step(text: &[u8]) -> Step
    ensures value { result ≡ steps.line_step text.now }
    ensures within { IsInside (length text.now) result }
{
    let n = run_len(Class::Line, text);
    let comment = front(text, n);
    if is_build(comment) {
        comment_step(comment, Step::Build(n))
    } else {
        comment_step(comment, Step::Blank(n))
    }
}

#[tactic(auto, unfolding(crate::specs::Steps::general_step))]
fn general_step(text: &[u8]) -> Step
    requires { length text.now < 2 ^ 62 }
    ensures value { result ≡ steps.general_step text.now }
    ensures within { IsInside (length text.now) result }
{
    let n = run_len(Class::General, after(text, 2));
    if !(byte_at(text, n + 2) == b'*' && byte_at(text, n + 3) == b'/') {
        return Step::Bad(0, COMMENT_NOT_TERMINATED);
    }
    let comment = front(text, n + 4);
    if run_len(Class::Line, comment) < comment.len() {
        comment_step(comment, Step::Break(n + 4))
    } else {
        comment_step(comment, Step::Blank(n + 4))
    }
}

fn name_kind(keyword: Option<Keyword>) -> TokenKind
    ensures { result ≡ steps.name_kind keyword }
{
    match keyword {
        None => TokenKind::Name,
        Some(word) => TokenKind::Word(word),
    }
}

#[tactic(auto, unfolding(crate::specs::Steps::name_step))]
fn name_step(text: &[u8]) -> Step
    ensures value { result ≡ steps.name_step text.now }
    ensures within { IsInside (length text.now) result }
{
    if letter_width(text) == 0 {
        return if char_width(text) == 0 {
            Step::Bad(0, INVALID_UTF8)
        } else {
            Step::Bad(0, INVALID_CHARACTER)
        };
    }
    let n = run_len(Class::Name, text);
    Step::Token(name_kind(keyword_of(front(text, n))), n)
}

fn operator_step(op: Option<Operator>, text: &[u8]) -> Step
    requires { IfSome op (λ o. length (operator_text o) ≤ length text.now) }
    ensures value { result ≡ steps.operator_step op text.now }
    ensures within { IsInside (length text.now) result }
{
    match op {
        None => name_step(text),
        Some(op) => Step::Token(TokenKind::Op(op), op.text().len()),
    }
}

/// The longest operator or punctuation that begins the text.
fn operator_at(text: &[u8]) -> Option<Operator>
    requires { 0 < length text.now }
    ensures value { result ≡ operator_of (byte_at text.now 0) (byte_at text.now 1) (byte_at text.now 2) }
    ensures within { IfSome result (λ o. length (operator_text o) ≤ length text.now) }
{
    operator_of(byte_at(text, 0), byte_at(text, 1), byte_at(text, 2))
}

#[tactic(auto, unfolding(crate::specs::Steps::slash_step))]
fn slash_step(text: &[u8]) -> Step
    requires small { length text.now < 2 ^ 62 }
    requires some { 0 < length text.now }
    ensures value { result ≡ steps.slash_step text.now }
    ensures within { IsInside (length text.now) result }
{
    if byte_at(text, 1) == b'/' {
        line_step(text)
    } else if byte_at(text, 1) == b'*' {
        general_step(text)
    } else {
        operator_step(operator_at(text), text)
    }
}

#[tactic(auto, unfolding(crate::specs::Steps::sign_step))]
fn sign_step(text: &[u8]) -> Step
    requires { 0 < length text.now }
    ensures value { result ≡ steps.sign_step text.now }
    ensures within { IsInside (length text.now) result }
{
    if byte_at(text, 0) == b'.' && is_decimal(byte_at(text, 1)) {
        return Step::Bad(0, FLOAT);
    }
    operator_step(operator_at(text), text)
}

/// What stands at the front of a text that isn't empty.
#[tactic(auto, unfolding(crate::specs::Steps::step_at))]
pub(crate) fn step_at(text: &[u8]) -> Step
    requires small { length text.now < 2 ^ 62 }
    requires some { 0 < length text.now }
    ensures value { result ≡ steps.step_at text.now }
    ensures within { IsInside (length text.now) result }
{
    let b = byte_at(text, 0);
    if b < 0x80 && is_ascii_letter(b) {
        return name_step(text);
    }
    if b == b'\n' {
        Step::Break(1)
    } else if b == b' ' || b == b'\t' || b == b'\r' {
        Step::Blank(1)
    } else if is_decimal(b) {
        number_step(text)
    } else if b == b'"' {
        string_step(text)
    } else if b == b'\'' {
        rune_step(text)
    } else if b == b'`' {
        raw_step(text)
    } else if b == b'/' {
        slash_step(text)
    } else if b == b';' {
        Step::Token(TokenKind::Semi, 1)
    } else {
        sign_step(text)
    }
}
