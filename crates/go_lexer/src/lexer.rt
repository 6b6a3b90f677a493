//! A text from its front to its end.

ghost use Rattle.std.specs.Prelude.{◌≡◌, ◌+◌, ◌-◌, ◌<◌, ◌≤◌, ◌^◌, length, IfOk, IfErr};
ghost use Rattle.go_lexer.specs.Lexed as lexed;
ghost use Rattle.go_lexer.specs.Lexed.{Took, Tells, Found};
ghost use Rattle.go_lexer.specs.Placed.{IsPlaced};
ghost use Rattle.go_lexer.specs.Tokens.{HasTokens, TellsFault};
ghost use Rattle.go_syntax.specs.Token.{ArePlaced};

use crate::chars::byte_at;
use crate::progress::Progress;
use crate::step::{Step, step_at};
use gj_base::{Fault, Place, Refusal, Text};
use go_syntax::Tokens;
use std::alloc::Global;

fn fault(alloc: Global, file: u32, offset: usize, code: u16) -> Refusal
    requires { offset < 2 ^ 32 }
    ensures { Tells result file (lexed.Faulty offset code) }
{
    Refusal::Fault(Fault {
        place: Place {
            file,
            offset: offset as u32,
        },
        code,
        text: Text::new(alloc),
    })
}

/// How many bytes the byte order mark has that begins the text.
#[tactic(auto, unfolding(crate::specs::Semicolons::mark_width))]
fn mark_width(text: &[u8]) -> usize
    ensures value { result ≡ lexed.mark_width text.now }
    ensures within { result ≤ length text.now }
{
    if byte_at(text, 0) == 0xEF && byte_at(text, 1) == 0xBB && byte_at(text, 2) == 0xBF {
        3
    } else {
        0
    }
}

/// Takes the piece at the front of the text, which stands at this offset; gives how many bytes to pass over.
fn take_piece(
    alloc: Global,
    file: u32,
    progress: &mut Progress,
    at: usize,
    text: &[u8],
    scratch: &mut Vec<u8>,
) -> Result<usize, Refusal>
    requires some { 0 < length text.now }
    requires small { at + length text.now < 2 ^ 32 - 1 }
    ensures tokens { IfOk result (λ width. Took width at text.now file progress.old progress.new) }
    ensures within { IfOk result (λ width. IsPlaced file at progress.old → IsPlaced file (at + width) progress.new) }
    ensures fault { IfErr result (λ e. Tells e file (lexed.lexed_from progress.old 0 at text.now)) }
{
    let width = match step_at(text) {
        Step::Token(kind, width) => {
            progress.token(kind, width, at, text, scratch)?;
            width
        }
        Step::Blank(width) => width,
        Step::Break(width) => {
            progress.newline()?;
            width
        }
        Step::Build(width) => {
            progress.build(at);
            width
        }
        Step::Bad(place, code) => return Err(fault(alloc, file, at + place, code)),
    };
    Ok(1 + width.saturating_sub(1))
}

// Reads the text from left to right.
fn read(alloc: Global, bytes: &[u8], file: u32) -> Result<Tokens, Refusal>
    requires { length bytes.now < 2 ^ 32 - 1 }
    ensures tokens { IfOk result (λ tokens. lexed.lexed file bytes.now ≡ Found tokens) }
    ensures fault { IfErr result (λ e. Tells e file (lexed.lexed file bytes.now)) }
    ensures within { IfOk result (λ tokens. ArePlaced file (length bytes.now) tokens.tokens) }
{
    let mut progress = Progress {
        tokens: Tokens::new(alloc, file),
        due: None,
    };
    let mut scratch = Vec::new(alloc);
    let mut at = mark_width(bytes);
    while at < bytes.len() {
        at += take_piece(alloc, file, &mut progress, at, &bytes[at..], &mut scratch)?;
    }
    progress.end(at)?;
    Ok(progress.tokens)
}

/// The tokens of the text of the file with this number, the last one its end, or the text's fault.
///
/// Go specification, "Source code representation" and "Lexical elements". A text has fewer than
/// 2^32 - 1 bytes. A fault has one of the codes 1 to 9 and no text of its own.
pub fn lex(alloc: Global, bytes: &[u8], file: u32) -> Result<Tokens, Refusal>
    requires { length bytes.now < 2 ^ 32 - 1 }

    // Ok exactly for a text that has tokens, with these; else exactly its least fault.
    ensures tokens { IfOk result (λ tokens. HasTokens file bytes.now tokens) }
    ensures fault { IfErr result (λ e. TellsFault e file bytes.now) }

    // Places lie in the text, and offsets rise; only the end may stand where an automatic semicolon does.
    ensures within { IfOk result (λ tokens. ArePlaced file (length bytes.now) tokens.tokens) }
{
    read(alloc, bytes, file)
}
