//! What a frame does next, of the text or not, where it is a step.
//!
//! The Go Programming Language Specification (as of Go 1.17), "Statements", "Expressions". What is
//! none of the text is own.

ghost use Rattle.std.specs.Prelude.{◌≡◌, ◌<◌, IfOk, false, vec_len};
ghost use Rattle.go_type.specs.Table.{places};
ghost use Rattle.go_core.specs.CoreView.{program_view};
ghost use Rattle.go_core.specs.GoStep as steps;
ghost use Rattle.go_state.specs.Measure.{opens};
ghost use Rattle.go_state.specs.Passed.{IsStep};
ghost use Rattle.go_state.specs.StateSeen.{move_of, todo_first};
ghost use Rattle.go_state.specs.TasksSeen.{first_of, is_opened};
ghost use Rattle.go_state.specs.declared.state.frame.Todo.TheVariants.{Text};
ghost use Rattle.go_play.specs.Plays.{Plays};

use crate::dispatch::calling::{finish_task, function_task, through_task};
use crate::dispatch::dispatch::step_of;
use crate::dispatch::game::Game;
use crate::dispatch::local::{bind_task, globals_task, next_range_task, rest_task};
use gj_base::NoMemory;
use go_entries::doing::doing::doing;
use go_state::frame_steps::parts::Rest;
use go_state::state::frame::{Frame, Todo};
use go_state::state::state::State;
use go_state::tasks::task::Task;

// A task of the text that is a step.
fn text_step<'s, 'p, 'a>(
    game: Game<'s, 'p, 'a>,
    state: &mut State<'p, 'a>,
    g: usize,
    frame: Frame<'p, 'a>,
    task: Task<'p>,
) -> Result<bool, NoMemory>
    requires types { game.c.now.table.now ≡ game.p.now.types }
    requires goroutine { g < vec_len state.old.goroutines }
    requires opened { is_opened task ≡ false }
    requires step { IsStep (Text task) }
    ensures value { IfOk result (λ b. let ts = places game.entry.p.now.types in Plays ts g b frame.entry state.old state.new (λ x below s. steps.tasks_step (program_view game.entry.p.now) game.entry.choices.now (move_of game.entry.free) g (first_of ts task.entry x.tasks) x below s)) }
{
    let found = doing(task)?;
    match found {
        Some(does) => step_of(game, state, g, frame, does),
        None => unreachable!(),
    }
}

/// Does what a frame does next, which is a step.
pub fn todo_step<'s, 'p, 'a>(
    game: Game<'s, 'p, 'a>,
    state: &mut State<'p, 'a>,
    g: usize,
    frame: Frame<'p, 'a>,
    todo: Todo<'p, 'a>,
) -> Result<bool, NoMemory>
    requires types { game.c.now.table.now ≡ game.p.now.types }
    requires goroutine { g < vec_len state.old.goroutines }
    requires opened { opens todo ≡ false }
    requires step { IsStep todo }
    ensures value { IfOk result (λ b. let ts = places game.entry.p.now.types in Plays ts g b frame.entry state.old state.new (λ x below s. steps.tasks_step (program_view game.entry.p.now) game.entry.choices.now (move_of game.entry.free) g (todo_first ts todo.entry x.tasks) x below s)) }
{
    match todo {
        Todo::Text(task) => text_step(game, state, g, frame, task),
        Todo::Push(_) => unreachable!(),
        Todo::ReceiveThrough(var) => through_task(game, state, g, frame, var),
        Todo::AssignRest {
            targets,
            from,
            operands,
            values,
        } => {
            let rest = Rest {
                targets,
                from,
                operands,
                values,
            };
            rest_task(game, state, g, frame, rest)
        }
        Todo::NextRange(range, cursor) => next_range_task(game, state, g, frame, range, cursor),
        Todo::BindVars(vars) => bind_task(game, state, g, frame, vars),
        Todo::SetGlobals(numbers) => globals_task(game, state, g, frame, numbers),
        Todo::Call(func) => function_task(game, state, g, frame, func),
        Todo::Finish => finish_task(game, state, g, frame),
    }
}
