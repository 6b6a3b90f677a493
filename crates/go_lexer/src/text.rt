//! The texts of literals.

ghost use Rattle.std.specs.Prelude.{◌≡◌, ◌++◌, ◌≤◌, ◌<◌, encode_utf8, length, OnOk};
ghost use Rattle.go_lexer.specs.Texts as texts;
ghost use Rattle.go_syntax.specs.declared.kind.TokenKind.TheVariants as kind;
ghost use Rattle.go_lexer.specs.Escapes.{IsRight};
ghost use Rattle.std.specs.Char.{IsScalar};

use crate::chars::byte_at;
use crate::escape::{Escape, escape_at};
use crate::part::{after, front};
use gj_base::NoMemory;

/// Puts a code point in UTF-8 at the end.
fn push_code(out: &mut Vec<u8>, code: u32) -> Result<(), NoMemory>
    requires { IsScalar code }
    ensures { OnOk result (out.new.items ≡ out.old.items ++ encode_utf8 code) }
{
    let Some(c) = char::from_u32(code) else {
        unreachable!()
    };
    let mut bytes = [0u8; 4];
    out.extend_from_slice(c.encode_utf8(&mut bytes).as_bytes())?;
    Ok(())
}

/// Puts what an escape in a string stands for at the end.
fn push_escape(out: &mut Vec<u8>, escape: Escape) -> Result<(), NoMemory>
    requires { IsRight escape }
    ensures { OnOk result (out.new.items ≡ out.old.items ++ texts.bytes_of escape) }
{
    if escape.is_byte {
        out.push(escape.value as u8)?;
        Ok(())
    } else {
        push_code(out, escape.value)
    }
}

/// Makes `out` the value of what is between the quotes of a string literal.
#[tactic(auto, unfolding(crate::specs::Texts::string_value))]
fn string_value(body: &[u8], out: &mut Vec<u8>) -> Result<(), NoMemory>
    ensures { OnOk result (out.new.items ≡ texts.string_value body.now) }
{
    out.clear();
    let mut n = 0;
    while n < body.len() {
        if body[n] == b'\\' {
            match escape_at(b'"', &body[n..]) {
                None => n += 1,
                Some(escape) => {
                    push_escape(out, escape)?;
                    n += escape.width;
                }
            }
        } else {
            out.push(body[n])?;
            n += 1;
        }
    }
    Ok(())
}

/// Makes `out` the value of what is between the quotes of a rune literal.
#[tactic(auto, unfolding(crate::specs::Texts::rune_value))]
fn rune_value(body: &[u8], out: &mut Vec<u8>) -> Result<(), NoMemory>
    ensures { OnOk result (out.new.items ≡ texts.rune_value body.now) }
{
    out.clear();
    if byte_at(body, 0) == b'\\' {
        match escape_at(b'\'', body) {
            None => Ok(()),
            Some(escape) => push_code(out, escape.value),
        }
    } else {
        out.extend_from_slice(body)?;
        Ok(())
    }
}

/// Makes `out` the value of a raw string literal.
#[tactic(auto, unfolding(crate::specs::Texts::raw_value))]
fn raw_value(body: &[u8], out: &mut Vec<u8>) -> Result<(), NoMemory>
    ensures { OnOk result (out.new.items ≡ texts.raw_value body.now) }
{
    out.clear();
    for b in body {
        if *b != b'\r' {
            out.push(*b)?;
        }
    }
    Ok(())
}

/// What is between the quotes of a literal of so many bytes.
fn body_of(width: usize, text: &[u8]) -> &[u8]
    ensures { result.now ≡ texts.body_of width text.now }
{
    front(after(text, 1), width.saturating_sub(2))
}

/// Makes `out` the value of the string literal of so many bytes that begins the text.
#[tactic(auto, unfolding(crate::specs::Texts::text_at))]
pub(crate) fn string_text(width: usize, text: &[u8], out: &mut Vec<u8>) -> Result<(), NoMemory>
    ensures { OnOk result (out.new.items ≡ texts.text_at kind.Str width text.now) }
{
    if byte_at(text, 0) == b'"' {
        string_value(body_of(width, text), out)
    } else {
        raw_value(body_of(width, text), out)
    }
}

/// Makes `out` the value of the rune literal of so many bytes that begins the text.
#[tactic(auto, unfolding(crate::specs::Texts::text_at))]
pub(crate) fn rune_text(width: usize, text: &[u8], out: &mut Vec<u8>) -> Result<(), NoMemory>
    ensures { OnOk result (out.new.items ≡ texts.text_at kind.Rune width text.now) }
{
    rune_value(body_of(width, text), out)
}
