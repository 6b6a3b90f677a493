//! The turns of loops: ECMA-262 5.1, 12.6.

ghost use Rattle.std.specs.Prelude.{◌≡◌};
ghost use Rattle.js_code.specs.Parts.{stmt_at, stmts_at};
ghost use Rattle.js_steps.specs.PartWaits.{turn_does};
ghost use Rattle.js_steps.specs.Stack.{label_of, loop_label};
ghost use Rattle.js_steps.specs.Stands.{Steps};

use crate::frames::frame::{Frame, Halt, Task};
use crate::frames::state::{State, tick};
use crate::frames::step::wait;
use gj_base::Text;

/// A label that may be missing.
pub fn label<'a>(label: &'a Option<Text>) -> Option<&'a Text>
    ensures value { label_of result ≡ label.now }
{
    match label {
        Some(x) => Some(x),
        None => None,
    }
}

/// Takes a turn of a loop: 12.6.
pub fn turn<'p, 'a>(
    state: &mut State<'p, 'a>,
    stack: &mut Vec<Frame<'p, 'a>>,
    i: u32,
    body: u32,
) -> Result<Task<'a>, Halt<'a>>
    ensures keeps { Steps stack.old.items state.old stack.new.items state.new result (λ st m. turn_does st (stmt_at m.trees i) (loop_label (stmt_at m.trees i)) (stmts_at m.trees body) m) }
{
    tick(state)?;
    wait(stack, Frame::Turn(i), Task::Statements(body))
}
