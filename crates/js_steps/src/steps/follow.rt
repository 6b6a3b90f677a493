//! Goes on when a statement was completed: ECMA-262 5.1, 12 and 13.

ghost use Rattle.std.specs.Prelude.{◌++◌, [], ◌∷◌, List};
ghost use Rattle.js_tree.specs.Value.{gives};
ghost use Rattle.js_steps.specs.Moment.{flow};
ghost use Rattle.js_steps.specs.Stack.{flow_of};
ghost use Rattle.js_steps.specs.Stands.{Steps};
ghost use Rattle.js_steps.specs.declared.frames.frame.Frame.{Frame};

use crate::calls::called;
use crate::flow::back::leave;
use crate::flow::jumps::{after_switch, after_turn, go_on, loop_label, returned};
use crate::frames::frame::{Flow, Frame, Halt, Task};
use crate::frames::state::State;

/// A statement was completed.
pub fn follow<'p, 'a>(
    state: &mut State<'p, 'a>,
    frame: Frame<'p, 'a>,
    completion: Flow<'a>,
) -> Result<Task<'a>, Halt<'a>>
    ensures keeps { (stack : List Frame) → Steps (stack ++ frame.entry ∷ []) state.old stack state.new result (λ _. gives (flow (flow_of completion.entry))) }
{
    match frame {
        Frame::First(_) => Ok(Task::Follow(completion)),
        Frame::Second(_, _) => Ok(Task::Follow(completion)),
        Frame::Third(_, _, _) => Ok(Task::Follow(completion)),
        Frame::Callee(_, _) => Ok(Task::Follow(completion)),
        Frame::Argument(_, _, _, _, _) => Ok(Task::Follow(completion)),
        Frame::Item(_, _) => Ok(Task::Follow(completion)),
        Frame::Rest(rest) => Ok(go_on(Task::Statements(rest), completion)),
        Frame::Turn(i) => {
            let label = loop_label(&state.body.code, i);
            Ok(after_turn(i, label, completion))
        }
        Frame::Through(rest) => Ok(go_on(Task::Through(rest), completion)),
        Frame::Switch(x) => Ok(after_switch(x, completion)),
        Frame::Catch(_) => Ok(Task::Follow(completion)),
        Frame::Caught(before) => {
            state.caught = before;
            Ok(Task::Follow(completion))
        }
        Frame::Leave(at, usage, caller) => {
            leave(state, caller)?;
            called(at, usage, returned(completion))
        }
    }
}
