//! The frames of the parser, and what a step comes to.

ghost use Rattle.std.specs.Prelude.{◌≡◌, ◌∷◌, [], IfOk};
ghost use Rattle.go_grammar.specs.Frames.{Done, Goes, Over};
ghost use Rattle.go_grammar.specs.ExprSteps as steps;
ghost use Rattle.go_frames.specs.FrameView.{frame_view, value_view, stack_view, token_of, Popped, Comes};

use crate::frames::at::At;
use crate::frames::ctx::DEEPEST;
use crate::frames::frame::{Frame, StmtFrame, Value};
use crate::frames::node::and;
use gj_base::{NoMemory, Place};
use go_syntax::Operator;
use std::alloc::Global;

/// The frames, the top one last.
#[derive(Drop)]
pub struct Stack {
    frames: Vec<Frame>,
}

/// What a frame does at a token.
#[derive(Drop)]
pub enum Flow {
    /// It takes the token.
    Goes(Stack),
    /// It is over before the token, with this tree.
    Over(Value, Stack),
    /// No file goes on with the token.
    Stuck,
    /// The token makes the nesting too deep.
    Deep,
    /// A chain is too long, at this place.
    Long(Place),
}

pub type Answer = Result<Flow, NoMemory>;

impl Stack {
    pub fn new(alloc: Global) -> Stack
        ensures value { stack_view result ≡ [] }
    {
        Stack {
            frames: Vec::new(alloc),
        }
    }

    /// With one frame more on top.
    #[tactic(auto, using(crate::proofs::StackLemmas::put_on_push))]
    pub fn with(self, frame: Frame) -> Result<Stack, NoMemory>
        ensures value { IfOk result (λ s. stack_view s ≡ frame_view frame ∷ stack_view self) }
    {
        let frames = and(self.frames, frame)?;
        Ok(Stack { frames })
    }

    /// The top frame, and the stack without it.
    #[tactic(auto, using(crate::proofs::StackLemmas::put_on_push))]
    pub fn pop(self) -> Option<(Frame, Stack)>
        ensures value { Popped result (stack_view self) }
    {
        let mut frames = self.frames;
        match frames.pop() {
            None => None,
            Some(frame) => Some((frame, Stack { frames })),
        }
    }
}

/// Takes the token and puts a frame on top.
pub fn goes(stack: Stack, frame: Frame) -> Answer
    ensures value { Comes result (Goes (frame_view frame ∷ stack_view stack)) }
{
    let stack = stack.with(frame)?;
    Ok(Flow::Goes(stack))
}

/// Takes the token, with which a tree is done.
pub fn done(stack: Stack, value: Value) -> Answer
    ensures value { Comes result (Goes (Done (value_view value) ∷ stack_view stack)) }
{
    goes(stack, Frame::Done(value))
}

/// Is over before the token.
pub fn over(stack: Stack, value: Value) -> Answer
    ensures value { Comes result (Over (value_view value) (stack_view stack)) }
{
    Ok(Flow::Over(value, stack))
}

/// The `{` of a block, with so many blocks open round it.
pub fn open_block(alloc: Global, at: At, blocks: u32, stack: Stack) -> Answer
    ensures value { Comes result (steps.open_block (token_of at []) blocks (stack_view stack)) }
{
    if !at.is(Operator::LeftBrace) {
        return Ok(Flow::Stuck);
    }
    if blocks >= DEEPEST {
        return Ok(Flow::Deep);
    }
    goes(
        stack,
        Frame::Stmt(StmtFrame::Block(blocks + 1, at.place, Vec::new(alloc))),
    )
}
