//! Statements: Block, List and Stmt, but for Simple and those with a header.

ghost use Rattle.std.specs.Prelude.{◌∷◌, []};
ghost use Rattle.go_syntax.specs.Tree as t;
ghost use Rattle.go_grammar.specs.Frames as f;
ghost use Rattle.go_grammar.specs.ExprSteps as steps;
ghost use Rattle.go_grammar.specs.StmtSteps as rows;
ghost use Rattle.go_frames.specs.FrameView.{Comes, token_of, stmt_frame, stack_view};

use crate::begins::control::{begin_for, begin_if};
use crate::begins::decl::begin_decl;
use crate::begins::expr::then_expr;
use crate::begins::simple::begin_simple;
use crate::ends::lost::lost;
use crate::frames::at::At;
use crate::frames::ctx::Ctx;
use crate::frames::form::{defer, fall_through, go};
use crate::frames::frame::{Frame, Mode, StmtFrame, SwitchFrame, Value};
use crate::frames::stack::{Answer, Stack, done, goes, open_block};
use go_syntax::{Keyword, Operator, TokenKind};
use std::alloc::Global;

/// A statement that begins with the token, after so many labels.
pub fn begin_stmt(
    alloc: Global,
    at: At,
    text: &[u8],
    blocks: u32,
    labels: u32,
    stack: Stack,
) -> Answer
    ensures value { Comes result (rows.begin_stmt (token_of at text.now) blocks labels (stack_view stack)) }
{
    if at.is(Operator::LeftBrace) {
        let stack = stack.with(Frame::Stmt(StmtFrame::Inner))?;
        return open_block(alloc, at, blocks, stack);
    }
    match at.kind {
        TokenKind::Word(word) => begin_with_word(alloc, at, text, word, blocks, stack),
        _ => begin_simple(alloc, at, text, Ctx::new(blocks), Mode::Stmt(labels), stack),
    }
}

fn begin_with_word(
    alloc: Global,
    at: At,
    text: &[u8],
    word: Keyword,
    blocks: u32,
    stack: Stack,
) -> Answer
    ensures value { Comes result (rows.begin_word_stmt (token_of at text.now) word blocks (stack_view stack)) }
{
    match word {
        Keyword::Const => declared(alloc, at, blocks, stack),
        Keyword::Type => declared(alloc, at, blocks, stack),
        Keyword::Var => declared(alloc, at, blocks, stack),
        Keyword::Go => then_called(StmtFrame::Go(at.place), blocks, stack),
        Keyword::Defer => then_called(StmtFrame::Defer(at.place), blocks, stack),
        Keyword::Return => goes(stack, Frame::Stmt(StmtFrame::Return(blocks, at.place))),
        Keyword::Break => goes(stack, Frame::Stmt(StmtFrame::Break(at.place))),
        Keyword::Continue => goes(stack, Frame::Stmt(StmtFrame::Continue(at.place))),
        Keyword::Fallthrough => fall(alloc, at, stack),
        Keyword::If => begin_if(at, blocks, stack),
        Keyword::For => begin_for(at, blocks, stack),
        Keyword::Switch => goes(stack, Frame::Switch(SwitchFrame::Head(blocks, at.place))),
        Keyword::Select => goes(stack, Frame::Switch(SwitchFrame::Select(blocks, at.place))),
        _ => begin_simple(alloc, at, text, Ctx::new(blocks), Mode::Header, stack),
    }
}

/// `fallthrough`
fn fall(alloc: Global, at: At, stack: Stack) -> Answer
    ensures value { Comes result (f.Goes (f.Done (f.AStmt (t.FallthroughStmt at.place)) ∷ stack_view stack)) }
{
    match fall_through(alloc, at.place) {
        Ok(s) => done(stack, Value::Stmt(s)),
        Err(error) => lost(error, stack),
    }
}

/// A declaration in a list of statements.
fn declared(alloc: Global, at: At, blocks: u32, stack: Stack) -> Answer
    ensures value { Comes result (rows.begin_decl (token_of at []) blocks (f.OfStmt f.Declared ∷ stack_view stack)) }
{
    let stack = stack.with(Frame::Stmt(StmtFrame::Decl))?;
    begin_decl(alloc, at, blocks, stack)
}

/// After `go` or `defer`.
fn then_called(frame: StmtFrame, blocks: u32, stack: Stack) -> Answer
    ensures value { Comes result (steps.then_expr (f.new_ctx blocks) (f.OfStmt (stmt_frame frame) ∷ stack_view stack)) }
{
    let stack = stack.with(Frame::Stmt(frame))?;
    then_expr(Ctx::new(blocks), stack)
}
