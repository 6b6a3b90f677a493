//! The tokens so far.

ghost use Rattle.std.specs.Prelude.{◌≡◌, ◌+◌, ◌<◌, ◌≤◌, ◌^◌, length, OnOk};
ghost use Rattle.go_lexer.specs.Lexed as lexed;
ghost use Rattle.go_lexer.specs.Lexed.{passed};
ghost use Rattle.go_lexer.specs.Texts as texts;

use crate::part::front;
use crate::text::{rune_text, string_text};
use gj_base::{NoMemory, Place};
use go_syntax::{Keyword, Operator, TokenKind, Tokens};

/// The tokens so far, and where an automatic semicolon stands if the line ends here.
#[derive(Drop)]
pub(crate) struct Progress {
    pub tokens: Tokens,
    pub due: Option<u32>,
}

fn word_ends_line(word: Keyword) -> bool
    ensures { result ≡ lexed.word_ends_line word }
{
    match word {
        Keyword::Break => true,
        Keyword::Continue => true,
        Keyword::Fallthrough => true,
        Keyword::Return => true,
        _ => false,
    }
}

fn operator_ends_line(op: Operator) -> bool
    ensures { result ≡ lexed.operator_ends_line op }
{
    match op {
        Operator::Increment => true,
        Operator::Decrement => true,
        Operator::RightParen => true,
        Operator::RightBracket => true,
        Operator::RightBrace => true,
        _ => false,
    }
}

/// Whether a line's end after this token is a semicolon.
fn ends_line(kind: TokenKind) -> bool
    ensures { result ≡ lexed.ends_line kind }
{
    match kind {
        TokenKind::Name => true,
        TokenKind::Int => true,
        TokenKind::Rune => true,
        TokenKind::Str => true,
        TokenKind::Word(word) => word_ends_line(word),
        TokenKind::Op(op) => operator_ends_line(op),
        TokenKind::Semi => false,
        TokenKind::Auto => false,
        TokenKind::End => false,
    }
}

impl Progress {
    /// Adds the token of this kind and so many bytes that begins the text at this offset.
    #[tactic(auto, unfolding(crate::specs::Semicolons::after_token, crate::specs::Texts::text_at))]
    pub(crate) fn token(
        &mut self,
        kind: TokenKind,
        width: usize,
        at: usize,
        text: &[u8],
        scratch: &mut Vec<u8>,
    ) -> Result<(), NoMemory>
        requires { at + passed width < 2 ^ 32 }
        ensures { OnOk result (self.new ≡ lexed.after_token kind width at text.now self.old) }
    {
        match kind {
            TokenKind::Str => {
                string_text(width, text, scratch)?;
                self.tokens.push(kind, at as u32, scratch.as_slice())?;
            }
            TokenKind::Rune => {
                rune_text(width, text, scratch)?;
                self.tokens.push(kind, at as u32, scratch.as_slice())?;
            }
            _ => self.tokens.push(kind, at as u32, front(text, width))?,
        }
        self.due = if ends_line(kind) {
            Some((at + 1 + width.saturating_sub(1)) as u32)
        } else {
            None
        };
        Ok(())
    }

    /// Ends a line.
    #[tactic(auto, unfolding(crate::specs::Semicolons::after_newline))]
    pub(crate) fn newline(&mut self) -> Result<(), NoMemory>
        ensures { OnOk result (self.new ≡ lexed.after_newline self.old) }
    {
        if let Some(place) = self.due {
            self.tokens.push(TokenKind::Auto, place, b"")?;
            self.due = None;
        }
        Ok(())
    }

    /// Marks a build constraint at this offset, where it is the first one and before the first token.
    #[tactic(auto, unfolding(crate::specs::Semicolons::after_build))]
    pub(crate) fn build(&mut self, at: usize)
        requires { at < 2 ^ 32 }
        ensures { self.new ≡ lexed.after_build at self.old }
    {
        if self.tokens.len() == 0 {
            if let None = self.tokens.constraint() {
                let file = self.tokens.file();
                self.tokens.set_constraint(Place {
                    file,
                    offset: at as u32,
                });
            }
        }
    }

    /// Ends the file.
    #[tactic(auto, unfolding(crate::specs::Semicolons::after_end))]
    pub(crate) fn end(&mut self, at: usize) -> Result<(), NoMemory>
        requires { at < 2 ^ 32 }
        ensures { OnOk result (self.new.tokens ≡ lexed.after_end at self.old) }
    {
        self.newline()?;
        self.tokens.push(TokenKind::End, at as u32, b"")?;
        Ok(())
    }
}
