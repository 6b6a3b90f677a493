//! Tokens that are refused.

ghost use Rattle.std.specs.Prelude.{◌≡◌};
ghost use Rattle.go_grammar.specs.Frames as f;
ghost use Rattle.go_frames.specs.FrameView.{Comes};

use crate::ends::gone::{gone, gone_stack, gone_tree};
use crate::frames::frame::{Frame, Value};
use crate::frames::stack::{Answer, Flow, Stack};
use gj_base::Place;

/// No file goes on with the token.
pub fn stuck(stack: Stack) -> Answer
    ensures value { Comes result f.Stuck }
{
    gone_stack(stack);
    Ok(Flow::Stuck)
}

/// The same, at this frame.
pub fn stuck_at(frame: Frame, stack: Stack) -> Answer
    ensures value { Comes result f.Stuck }
{
    gone(frame);
    gone_stack(stack);
    Ok(Flow::Stuck)
}

/// The same, at this frame and a tree that it doesn't take.
pub fn stuck_with(frame: Frame, value: Value, stack: Stack) -> Answer
    ensures value { Comes result f.Stuck }
{
    gone(frame);
    gone_tree(value);
    gone_stack(stack);
    Ok(Flow::Stuck)
}

/// The token makes the nesting too deep.
pub fn deep(stack: Stack) -> Answer
    ensures value { Comes result f.Deep }
{
    gone_stack(stack);
    Ok(Flow::Deep)
}

/// The same, at this frame.
pub fn deep_at(frame: Frame, stack: Stack) -> Answer
    ensures value { Comes result f.Deep }
{
    gone(frame);
    gone_stack(stack);
    Ok(Flow::Deep)
}

/// The same, at this frame and tree.
pub fn deep_with(frame: Frame, value: Value, stack: Stack) -> Answer
    ensures value { Comes result f.Deep }
{
    gone(frame);
    gone_tree(value);
    gone_stack(stack);
    Ok(Flow::Deep)
}

/// A chain is too long, at this place.
pub fn long(place: Place, stack: Stack) -> Answer
    ensures value { Comes result (f.Long place) }
{
    gone_stack(stack);
    Ok(Flow::Long(place))
}

/// The same, at this frame.
pub fn long_at(place: Place, frame: Frame, stack: Stack) -> Answer
    ensures value { Comes result (f.Long place) }
{
    gone(frame);
    gone_stack(stack);
    Ok(Flow::Long(place))
}

/// The same, at this frame and tree.
pub fn long_with(place: Place, frame: Frame, value: Value, stack: Stack) -> Answer
    ensures value { Comes result (f.Long place) }
{
    gone(frame);
    gone_tree(value);
    gone_stack(stack);
    Ok(Flow::Long(place))
}
