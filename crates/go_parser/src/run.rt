//! All tokens of a file to its tree, or the fault at the first token that no file has there.

ghost use Rattle.std.specs.Prelude.{◌≡◌, ◌∷◌, true, IfErr, IfOk, MatchOption};
ghost use Rattle.go_syntax.specs.View.{file_view};
ghost use Rattle.go_grammar.specs.Files.{IsFile};
ghost use Rattle.go_grammar.specs.Frames as f;
ghost use Rattle.go_grammar.specs.Limits.{file_fits};
ghost use Rattle.go_parser.specs.Outcomes.{NoFile, Tells, no_outcome};
ghost use Rattle.go_grammar.specs.Parsed as all;
ghost use Rattle.go_frames.specs.FrameView.{frame_view, stack_view, token_of};

use crate::feed::feed;
use gj_base::{Fault, NoMemory, Place, Refusal, Text};
use go_frames::ends::file::{alone, cut_off, untaken};
use go_frames::frames::at::At;
use go_frames::frames::frame::{FileFrame, Frame};
use go_frames::frames::stack::{Flow, Stack};
use go_grammar::laws::{reads_all_files, reads_only_files};
use go_syntax::tree::File;
use go_syntax::{TokenKind, Tokens};
use std::alloc::Global;

/// The codes of the faults that a token list can have.
const UNEXPECTED: u16 = 10;

const TOO_DEEP: u16 = 11;

const TOO_LONG: u16 = 12;

/// What a message calls an unexpected token.
fn told(alloc: Global, kind: TokenKind, text: &[u8]) -> Result<Text, NoMemory>
    ensures value { IfOk result (λ x. x ≡ all.told kind text.now) }
{
    match kind {
        TokenKind::Rune => Text::from_slice(alloc, b"literal"),
        TokenKind::Str => Text::from_slice(alloc, b"literal"),
        TokenKind::Auto => Text::from_slice(alloc, b"newline"),
        TokenKind::End => Text::from_slice(alloc, b"EOF"),
        _ => Text::from_slice(alloc, text),
    }
}

fn unexpected(alloc: Global, at: At, text: &[u8]) -> Refusal
    ensures value { Tells result (all.Fault 10 at.place (all.told at.kind text.now)) }
{
    match told(alloc, at.kind, text) {
        Ok(text) => fault(at.place, UNEXPECTED, text),
        Err(_) => Refusal::NoMemory,
    }
}

fn fault(place: Place, code: u16, text: Text) -> Refusal
    ensures value { Tells result (all.Fault code place text) }
{
    Refusal::Fault(Fault { place, code, text })
}

/// The stack after one token, or the fault at it.
fn step(alloc: Global, at: At, text: &[u8], stack: Stack) -> Result<Stack, Refusal>
    ensures goes { IfOk result (λ s. (others : f.Stack → all.Outcome) → all.after_step (token_of at text.now) others (all.feed (token_of at text.now) (stack_view stack)) ≡ others (stack_view s)) }
    ensures fault { IfErr result (λ e. (others : f.Stack → all.Outcome) → Tells e (all.after_step (token_of at text.now) others (all.feed (token_of at text.now) (stack_view stack)))) }
{
    match feed(alloc, at, text, stack)? {
        Flow::Goes(stack) => Ok(stack),
        Flow::Over(value, stack) => {
            untaken(value, stack);
            Err(unexpected(alloc, at, text))
        }
        Flow::Stuck => Err(unexpected(alloc, at, text)),
        Flow::Deep => Err(fault(at.place, TOO_DEEP, Text::new(alloc))),
        Flow::Long(place) => Err(fault(place, TOO_LONG, Text::new(alloc))),
    }
}

/// The file, where the stack has come to its end.
fn whole(stack: Stack) -> Option<File>
    ensures value { MatchOption result (all.whole (stack_view stack) ≡ no_outcome) (λ x. all.whole (stack_view stack) ≡ all.Tree (file_view x)) }
{
    match stack.pop() {
        None => None,
        Some((frame, below)) => whole_at(frame, below),
    }
}

/// The same, with the top frame.
fn whole_at(frame: Frame, below: Stack) -> Option<File>
    ensures value { MatchOption result (all.whole (frame_view frame ∷ stack_view below) ≡ no_outcome) (λ x. all.whole (frame_view frame ∷ stack_view below) ≡ all.Tree (file_view x)) }
{
    match frame {
        Frame::File(FileFrame::Whole(file)) => Some(alone(file, below)),
        other => {
            cut_off(other, below);
            None
        }
    }
}

/// What the frames make of the tokens.
#[tactic(auto, using(crate::proofs::TurnLemmas::run_turn, crate::proofs::TurnLemmas::run_end))]
fn read(alloc: Global, tokens: &Tokens) -> Result<File, Refusal>
    ensures same { IfOk result (λ x. all.parsed tokens.now.tokens ≡ all.Tree (file_view x)) }
    ensures fault { IfErr result (λ e. Tells e (all.parsed tokens.now.tokens)) }
{
    let mut stack = Stack::new(alloc).with(Frame::File(FileFrame::Start))?;
    for i in 0..tokens.len() {
        let at = At {
            kind: tokens.kind(i),
            place: tokens.place(i),
        };
        stack = step(alloc, at, tokens.text(i), stack)?;
    }
    match whole(stack) {
        Some(file) => Ok(file),
        None => Err(fault(Place { file: 0, offset: 0 }, UNEXPECTED, Text::new(alloc))),
    }
}

/// The tree of the tokens of a file, or their first fault: 10 at the first token that no file has
/// there, 11 where the nesting is too deep, 12 where a chain is too long.
#[tactic(auto, using(crate::proofs::ParseLemmas::no_file))]
pub fn parse(alloc: Global, tokens: &Tokens) -> Result<File, Refusal>
    // Ok exactly for tokens that have a tree within the limits, with this one.
    ensures tree { IfOk result (λ x. IsFile tokens.now.tokens (file_view x) × (file_fits (file_view x) ≡ true)) }
    ensures none { IfErr result (λ e. NoFile e tokens.now.tokens) }

    // The fault is the one at the first token that the frames don't take.
    ensures same { IfOk result (λ x. all.parsed tokens.now.tokens ≡ all.Tree (file_view x)) }
    ensures fault { IfErr result (λ e. Tells e (all.parsed tokens.now.tokens)) }
{
    reads_only_files();
    reads_all_files();
    match read(alloc, tokens) {
        Ok(file) => Ok(file),
        Err(refusal) => Err(refusal),
    }
}
