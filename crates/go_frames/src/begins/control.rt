//! `if` and `for`.

ghost use Rattle.std.specs.Prelude.{◌≡◌, ◌∷◌};
ghost use Rattle.go_grammar.specs.Frames as f;
ghost use Rattle.go_grammar.specs.StmtSteps as rows;
ghost use Rattle.go_frames.specs.FrameView.{Comes, if_part, stack_view};

use crate::frames::at::At;
use crate::frames::frame::{ControlFrame, ForPart, Frame, IfPart};
use crate::frames::stack::{Answer, Stack, goes};
use gj_base::Place;

/// `if`
pub fn begin_if(at: At, blocks: u32, stack: Stack) -> Answer
    ensures value { Comes result (f.Goes (f.OfControl (f.AtIf (rows.new_if blocks at.place 0)) ∷ stack_view stack)) }
{
    goes(
        stack,
        Frame::Control(ControlFrame::If(new_if(blocks, at.place, 0))),
    )
}

pub fn new_if(blocks: u32, place: Place, elses: u32) -> IfPart
    ensures value { if_part result ≡ rows.new_if blocks place elses }
{
    IfPart {
        blocks,
        place,
        elses,
        init: None,
    }
}

/// `for`
pub fn begin_for(at: At, blocks: u32, stack: Stack) -> Answer
    ensures value { Comes result (f.Goes (f.OfControl (f.AtFor (record { blocks = blocks; place = at.place })) ∷ stack_view stack)) }
{
    let part = ForPart {
        blocks,
        place: at.place,
    };
    goes(stack, Frame::Control(ControlFrame::For(part)))
}
