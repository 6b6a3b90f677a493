//! Keywords.

ghost use Rattle.std.specs.Prelude.{◌≡◌};
ghost use Rattle.go_lexer.specs.Keywords as keywords;

use crate::chars::byte_at;
use go_syntax::Keyword;

#[tactic(auto, unfolding(crate::specs::Keywords::with_b))]
fn with_b(text: &[u8]) -> Option<Keyword>
    ensures { result ≡ keywords.with_b text.now }
{
    if text == Keyword::Break.text() {
        Some(Keyword::Break)
    } else {
        None
    }
}

#[tactic(auto, unfolding(crate::specs::Keywords::with_c))]
fn with_c(text: &[u8]) -> Option<Keyword>
    ensures { result ≡ keywords.with_c text.now }
{
    if text == Keyword::Case.text() {
        Some(Keyword::Case)
    } else if text == Keyword::Chan.text() {
        Some(Keyword::Chan)
    } else if text == Keyword::Const.text() {
        Some(Keyword::Const)
    } else if text == Keyword::Continue.text() {
        Some(Keyword::Continue)
    } else {
        None
    }
}

#[tactic(auto, unfolding(crate::specs::Keywords::with_d))]
fn with_d(text: &[u8]) -> Option<Keyword>
    ensures { result ≡ keywords.with_d text.now }
{
    if text == Keyword::Default.text() {
        Some(Keyword::Default)
    } else if text == Keyword::Defer.text() {
        Some(Keyword::Defer)
    } else {
        None
    }
}

#[tactic(auto, unfolding(crate::specs::Keywords::with_e))]
fn with_e(text: &[u8]) -> Option<Keyword>
    ensures { result ≡ keywords.with_e text.now }
{
    if text == Keyword::Else.text() {
        Some(Keyword::Else)
    } else {
        None
    }
}

#[tactic(auto, unfolding(crate::specs::Keywords::with_f))]
fn with_f(text: &[u8]) -> Option<Keyword>
    ensures { result ≡ keywords.with_f text.now }
{
    if text == Keyword::Fallthrough.text() {
        Some(Keyword::Fallthrough)
    } else if text == Keyword::For.text() {
        Some(Keyword::For)
    } else if text == Keyword::Func.text() {
        Some(Keyword::Func)
    } else {
        None
    }
}

#[tactic(auto, unfolding(crate::specs::Keywords::with_g))]
fn with_g(text: &[u8]) -> Option<Keyword>
    ensures { result ≡ keywords.with_g text.now }
{
    if text == Keyword::Go.text() {
        Some(Keyword::Go)
    } else if text == Keyword::Goto.text() {
        Some(Keyword::Goto)
    } else {
        None
    }
}

#[tactic(auto, unfolding(crate::specs::Keywords::with_i))]
fn with_i(text: &[u8]) -> Option<Keyword>
    ensures { result ≡ keywords.with_i text.now }
{
    if text == Keyword::If.text() {
        Some(Keyword::If)
    } else if text == Keyword::Import.text() {
        Some(Keyword::Import)
    } else if text == Keyword::Interface.text() {
        Some(Keyword::Interface)
    } else {
        None
    }
}

#[tactic(auto, unfolding(crate::specs::Keywords::with_m))]
fn with_m(text: &[u8]) -> Option<Keyword>
    ensures { result ≡ keywords.with_m text.now }
{
    if text == Keyword::Map.text() {
        Some(Keyword::Map)
    } else {
        None
    }
}

#[tactic(auto, unfolding(crate::specs::Keywords::with_p))]
fn with_p(text: &[u8]) -> Option<Keyword>
    ensures { result ≡ keywords.with_p text.now }
{
    if text == Keyword::Package.text() {
        Some(Keyword::Package)
    } else {
        None
    }
}

#[tactic(auto, unfolding(crate::specs::Keywords::with_r))]
fn with_r(text: &[u8]) -> Option<Keyword>
    ensures { result ≡ keywords.with_r text.now }
{
    if text == Keyword::Range.text() {
        Some(Keyword::Range)
    } else if text == Keyword::Return.text() {
        Some(Keyword::Return)
    } else {
        None
    }
}

#[tactic(auto, unfolding(crate::specs::Keywords::with_s))]
fn with_s(text: &[u8]) -> Option<Keyword>
    ensures { result ≡ keywords.with_s text.now }
{
    if text == Keyword::Select.text() {
        Some(Keyword::Select)
    } else if text == Keyword::Struct.text() {
        Some(Keyword::Struct)
    } else if text == Keyword::Switch.text() {
        Some(Keyword::Switch)
    } else {
        None
    }
}

#[tactic(auto, unfolding(crate::specs::Keywords::with_t))]
fn with_t(text: &[u8]) -> Option<Keyword>
    ensures { result ≡ keywords.with_t text.now }
{
    if text == Keyword::Type.text() {
        Some(Keyword::Type)
    } else {
        None
    }
}

#[tactic(auto, unfolding(crate::specs::Keywords::with_v))]
fn with_v(text: &[u8]) -> Option<Keyword>
    ensures { result ≡ keywords.with_v text.now }
{
    if text == Keyword::Var.text() {
        Some(Keyword::Var)
    } else {
        None
    }
}

#[tactic(auto, unfolding(crate::specs::Keywords::keyword_by))]
fn keyword_by(first: u8, text: &[u8]) -> Option<Keyword>
    ensures { result ≡ keywords.keyword_by first text.now }
{
    if first == b'b' {
        with_b(text)
    } else if first == b'c' {
        with_c(text)
    } else if first == b'd' {
        with_d(text)
    } else if first == b'e' {
        with_e(text)
    } else if first == b'f' {
        with_f(text)
    } else if first == b'g' {
        with_g(text)
    } else if first == b'i' {
        with_i(text)
    } else if first == b'm' {
        with_m(text)
    } else if first == b'p' {
        with_p(text)
    } else if first == b'r' {
        with_r(text)
    } else if first == b's' {
        with_s(text)
    } else if first == b't' {
        with_t(text)
    } else if first == b'v' {
        with_v(text)
    } else {
        None
    }
}

/// The keyword that is written so.
pub(crate) fn keyword_of(text: &[u8]) -> Option<Keyword>
    ensures { result ≡ keywords.keyword_of text.now }
{
    keyword_by(byte_at(text, 0), text)
}
