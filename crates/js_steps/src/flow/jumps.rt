//! Where a statement's completion leads: ECMA-262 5.1, 8.9, 12.6 to 12.8 and 12.11.

ghost use Rattle.std.specs.Prelude.{◌≡◌, List, Some, option_map};
ghost use Rattle.js_tree.specs.Value as run;
ghost use Rattle.js_tree.specs.Evaluate as part;
ghost use Rattle.js_tree.specs.Evaluate.{Setting};
ghost use Rattle.js_code.specs.Held.{part_of};
ghost use Rattle.js_code.specs.Parts.{Tree, as_stmt, stmt_at, trees_of, tree_of};
ghost use Rattle.js_value.specs.HeapSeen.{value_of};
ghost use Rattle.js_simple.specs.Simple.{IsSomeCode};
ghost use Rattle.js_steps.specs.Moment.{Moment, frame_in, flowing};
ghost use Rattle.js_steps.specs.Stack as stack;
ghost use Rattle.js_steps.specs.Stack.{label_of, flow_of, turned, task_does};
ghost use Rattle.js_steps.specs.Returned.{returned};

use crate::frames::frame::{Flow, Task};
use crate::operands::turn::label;
use gj_base::Text;
use js_code::code::{Code, Part};
use js_value::heap::Value;

/// Whether a jump leads to a statement with this label: 12.7, 12.8.
pub fn is_target(x: Option<&Text>, label: Option<&Text>) -> bool
    ensures value { result ≡ part.is_target (label_of x.entry) (label_of label.entry) }
{
    match x {
        None => true,
        Some(x) => match label {
            None => false,
            Some(label) => x.as_bytes() == label.as_bytes(),
        },
    }
}

fn label_in<'a>(part: Part<'a>) -> Option<&'a Text>
    ensures value { (ts : List Tree) → label_of result ≡ stack.loop_label (as_stmt (Some (tree_of ts (part_of part.entry)))) }
{
    match part {
        Part::While { label: x, .. } => label(x),
        Part::Forever { label: x, .. } => label(x),
        _ => None,
    }
}

/// The label of a loop.
pub fn loop_label<'a>(code: &Code<'a>, i: u32) -> Option<&'a Text>
    ensures value { IsSomeCode code.now → label_of result ≡ stack.loop_label (stmt_at (trees_of code.now) i) }
{
    match code.get(i) {
        Some(part) => label_in(part),
        None => None,
    }
}

/// After a turn of a loop: 12.6.
pub fn after_turn<'a>(i: u32, label: Option<&'a Text>, flow: Flow<'a>) -> Task<'a>
    ensures keeps { (st : Setting) (m : Moment) → label_of label.entry ≡ stack.loop_label (stmt_at m.trees i) → task_does st result m ≡ turned st (stmt_at m.trees i) (flow_of flow.entry) m }
{
    match flow {
        Flow::Onward => Task::Execute(i),
        Flow::Breaks(x) => {
            if is_target(x, label) {
                return Task::Follow(Flow::Onward);
            }
            Task::Follow(Flow::Breaks(x))
        }
        Flow::Continues(x) => {
            if is_target(x, label) {
                return Task::Execute(i);
            }
            Task::Follow(Flow::Continues(x))
        }
        Flow::Returns(v) => Task::Follow(Flow::Returns(v)),
    }
}

/// After the cases of a `switch`: 12.11.
pub fn after_switch<'a>(label: Option<&'a Text>, flow: Flow<'a>) -> Task<'a>
    ensures keeps { (st : Setting) (m : Moment) → task_does st result m ≡ flowing m (part.after_switch (label_of label.entry) (flow_of flow.entry) (frame_in m)) }
{
    match flow {
        Flow::Breaks(x) => {
            if is_target(x, label) {
                return Task::Follow(Flow::Onward);
            }
            Task::Follow(Flow::Breaks(x))
        }
        Flow::Onward => Task::Follow(Flow::Onward),
        Flow::Continues(x) => Task::Follow(Flow::Continues(x)),
        Flow::Returns(v) => Task::Follow(Flow::Returns(v)),
    }
}

/// Goes on with a part, unless the one before it left.
pub fn go_on<'a>(next: Task<'a>, flow: Flow<'a>) -> Task<'a>
    ensures keeps { (st : Setting) (m : Moment) (part_does : run.Frame → run.Outcome run.Frame part.Flow) → task_does st next.entry m ≡ flowing m (part_does (frame_in m)) → task_does st result m ≡ flowing m (part.go_on part_does (flow_of flow.entry) (frame_in m)) }
{
    match flow {
        Flow::Onward => next,
        Flow::Breaks(x) => Task::Follow(Flow::Breaks(x)),
        Flow::Continues(x) => Task::Follow(Flow::Continues(x)),
        Flow::Returns(v) => Task::Follow(Flow::Returns(v)),
    }
}

/// What a body's completion gives its call: 13.2.1.
pub fn returned<'a>(flow: Flow<'a>) -> Option<Value<'a>>
    ensures value { option_map value_of result ≡ returned (flow_of flow.entry) }
{
    match flow {
        Flow::Returns(v) => v,
        Flow::Onward => None,
        Flow::Breaks(_) => None,
        Flow::Continues(_) => None,
    }
}
