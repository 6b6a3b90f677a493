//! Declarations of constants, variables and types.

ghost use Rattle.std.specs.Prelude.{[]};
ghost use Rattle.go_grammar.specs.StmtSteps as rows;
ghost use Rattle.go_frames.specs.FrameView.{Comes, token_of, stack_view};

use crate::frames::at::At;
use crate::frames::frame::{DeclFrame, Frame, TypesPart, ValuesPart};
use crate::frames::stack::{Answer, Stack, goes};
use go_syntax::Keyword;
use std::alloc::Global;

/// `const`, `type` or `var`.
pub fn begin_decl(alloc: Global, at: At, blocks: u32, stack: Stack) -> Answer
    ensures value { Comes result (rows.begin_decl (token_of at []) blocks (stack_view stack)) }
{
    if at.is_word(Keyword::Type) {
        let part = TypesPart {
            blocks,
            place: at.place,
            group: false,
            specs: Vec::new(alloc),
        };
        return goes(stack, Frame::Decl(DeclFrame::Types(part)));
    }
    let part = ValuesPart {
        blocks,
        place: at.place,
        constant: at.is_word(Keyword::Const),
        group: false,
        specs: Vec::new(alloc),
    };
    goes(stack, Frame::Decl(DeclFrame::Values(part)))
}
