//! Simple statements, in lists of statements and in headers.

ghost use Rattle.std.specs.Prelude.{◌≡◌};
ghost use Rattle.go_grammar.specs.StmtSteps as rows;
ghost use Rattle.go_frames.specs.FrameView.{Comes, token_of, ctx_view, mode_view, stack_view};

use crate::begins::expr::begin_expr;
use crate::frames::at::At;
use crate::frames::ctx::Ctx;
use crate::frames::frame::{Frame, Mode, Spot, StmtFrame};
use crate::frames::stack::{Answer, Stack};
use std::alloc::Global;

/// Whether a guard of a type switch may stand there.
pub fn takes_guard(mode: Mode) -> bool
    ensures value { result ≡ rows.takes_guard (mode_view mode) }
{
    matches!(mode, Mode::Switch | Mode::Tag)
}

/// A simple statement that begins with the token.
pub fn begin_simple(alloc: Global, at: At, text: &[u8], c: Ctx, mode: Mode, stack: Stack) -> Answer
    ensures value { Comes result (rows.begin_simple (token_of at text.now) (ctx_view c) (mode_view mode) (stack_view stack)) }
{
    let spot = Spot {
        ctx: c,
        mode,
        place: at.place,
    };
    let stack = stack.with(Frame::Stmt(StmtFrame::Simple(spot, Vec::new(alloc))))?;
    begin_expr(alloc, at, text, c.with_guard(takes_guard(mode)), stack)
}
