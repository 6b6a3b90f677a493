//! The tokens of a file.
//!
//! A token takes 16 bytes. The texts of names and literals stand one after another in one vector, and
//! those of keywords, operators and punctuation take no memory.

ghost use Rattle.std.specs.Prelude.{◌≡◌, ◌<◌, [], None, Some, length, OnOk, OnErr};
ghost use Rattle.go_syntax.specs.Token.{with_token, token_at};

use crate::kind::TokenKind;
use gj_base::{NoMemory, Place};
use std::alloc::Global;
use std::marker::Model;

/// A token: its kind, its offset, and where in the texts its text begins and ends.
#[derive(Clone, Copy)]
struct Mark {
    kind: TokenKind,
    offset: u32,
    start: u32,
    end: u32,
}

/// The tokens of a file, and the place of its build constraint where it has one.
///
/// Contracts see the list of tokens, each with its kind, place and text.
#[derive(Drop)]
pub struct Tokens {
    file: u32,
    marks: Vec<Mark>,
    texts: Vec<u8>,
    constraint: Option<Place>,
}

impl Model for Tokens {
    ghost use Rattle.go_syntax.specs.Token.{TokenList};

    ghost Value = { TokenList };

    ghost use Rattle.go_syntax.specs.Marks.{tokens_in, AreKept};

    ghost view = { λ t. record { file = t.file; tokens = tokens_in t.file t.texts.items t.marks.items; constraint = t.constraint } };

    ghost invariant = { λ t. AreKept t.texts.items t.marks.items };
}

impl Tokens {
    /// No tokens of the file with this number.
    pub fn new(alloc: Global, file: u32) -> Tokens
        ensures { result ≡ record { file = file; tokens = []; constraint = None } }
    {
        Tokens {
            file,
            marks: Vec::new(alloc),
            texts: Vec::new(alloc),
            constraint: None,
        }
    }

    /// Adds a token at the end. `text` counts only for names and literals.
    ///
    /// A refusal leaves the tokens as they were. All texts together have room for 2^32 - 1 bytes.
    pub fn push(&mut self, kind: TokenKind, offset: u32, text: &[u8]) -> Result<(), NoMemory>
        ensures tokens { OnOk result (self.new ≡ with_token self.old kind offset text.now) }
        ensures same { OnErr result (self.new ≡ self.old) }
    {
        let start = self.texts.len();
        if text.len() > u32::MAX as usize - start {
            return Err(NoMemory);
        }
        let end = start + text.len();
        self.texts.extend_from_slice(text)?;
        self.marks.push(Mark {
            kind,
            offset,
            start: start as u32,
            end: end as u32,
        })?;
        Ok(())
    }

    /// Marks the place of the build constraint.
    pub fn set_constraint(&mut self, place: Place)
        ensures { self.new ≡ record self.old { constraint = Some place } }
    {
        self.constraint = Some(place);
    }

    /// The place of the build constraint, where the file has one.
    pub fn constraint(&self) -> Option<Place>
        ensures { result ≡ self.now.constraint }
    {
        self.constraint
    }

    /// The number of the file.
    pub fn file(&self) -> u32
        ensures { result ≡ self.now.file }
    {
        self.file
    }

    /// How many tokens there are, the end included.
    pub fn len(&self) -> usize
        ensures { result ≡ length self.now.tokens }
    {
        self.marks.len()
    }

    /// The kind of a token.
    pub fn kind(&self, index: usize) -> TokenKind
        requires { index < length self.now.tokens }
        ensures { result ≡ (token_at self.now.tokens index).kind }
    {
        self.marks[index].kind
    }

    /// Where a token stands.
    pub fn place(&self, index: usize) -> Place
        requires { index < length self.now.tokens }
        ensures { result ≡ (token_at self.now.tokens index).place }
    {
        Place {
            file: self.file,
            offset: self.marks[index].offset,
        }
    }

    /// The text of a token: of a name or an integer as it is written, of a rune or a string its value,
    /// and of a keyword, an operator or a semicolon of the text how it is written.
    pub fn text(&self, index: usize) -> &[u8]
        requires { index < length self.now.tokens }
        ensures { result.now ≡ (token_at self.now.tokens index).text }
    {
        let mark = self.marks[index];
        match mark.kind {
            TokenKind::Word(word) => word.text(),
            TokenKind::Op(op) => op.text(),
            TokenKind::Semi => b";",
            TokenKind::Auto => b"",
            TokenKind::End => b"",
            TokenKind::Name => &self.texts[mark.start as usize..mark.end as usize],
            TokenKind::Int => &self.texts[mark.start as usize..mark.end as usize],
            TokenKind::Rune => &self.texts[mark.start as usize..mark.end as usize],
            TokenKind::Str => &self.texts[mark.start as usize..mark.end as usize],
        }
    }
}
