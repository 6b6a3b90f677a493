//! One line for each task of the text that is a step.
//!
//! The Go Programming Language Specification (as of Go 1.17), "Statements", "Expressions".

ghost use Rattle.std.specs.Prelude.{◌≡◌, ◌<◌, IfOk, vec_len};
ghost use Rattle.go_type.specs.Table.{places};
ghost use Rattle.go_core.specs.CoreView.{program_view};
ghost use Rattle.go_core.specs.GoStep as steps;
ghost use Rattle.go_entries.specs.DoingSeen.{doing_of};
ghost use Rattle.go_state.specs.StateSeen.{move_of};
ghost use Rattle.go_play.specs.Plays.{Plays};

use crate::dispatch::calling::{
    call_task, defer_task, go_task, panic_task, recover_task, return_task,
};
use crate::dispatch::game::Game;
use crate::dispatch::local::{
    again_task, assign_task, begin_range_task, bind_task, branch_task, build_task, choose_task,
    clause_task, closure_task, declare_task, default_task, false_task, local_task, operate_task,
    true_task, turn_task,
};
use crate::dispatch::output::{exit_task, fatal_task, print_task};
use crate::dispatch::talking::{
    add_gate_task, await_gate_task, close_task, receive_task, select_task, send_task,
    take_gate_task, yield_task,
};
use gj_base::NoMemory;
use go_entries::doing::task::Doing;
use go_state::state::frame::Frame;
use go_state::state::state::State;

/// Does a task of the text that is a step, of a goroutine whose running frame has been taken off; false where
/// there is no step.
pub fn step_of<'s, 'p, 'a>(
    game: Game<'s, 'p, 'a>,
    state: &mut State<'p, 'a>,
    g: usize,
    frame: Frame<'p, 'a>,
    does: Doing<'p>,
) -> Result<bool, NoMemory>
    requires types { game.c.now.table.now ≡ game.p.now.types }
    requires goroutine { g < vec_len state.old.goroutines }
    ensures value { IfOk result (λ b. let ts = places game.entry.p.now.types in Plays ts g b frame.entry state.old state.new (steps.task_step (program_view game.entry.p.now) game.entry.choices.now (move_of game.entry.free) g (doing_of ts does.entry))) }
{
    match does {
        Doing::Operate(o, n) => operate_task(game, state, g, frame, o, n),
        Doing::Build(what) => build_task(game, state, g, frame, what),
        Doing::AtLocal(var) => local_task(game, state, g, frame, var),
        Doing::MakeClosure(func) => closure_task(game, state, g, frame, func),
        Doing::OnlyWhereTrue(right) => true_task(game, state, g, frame, right),
        Doing::OnlyWhereFalse(right) => false_task(game, state, g, frame, right),
        Doing::BindVars(vars) => bind_task(game, state, g, frame, vars),
        Doing::DeclareVar(var) => declare_task(game, state, g, frame, var),
        Doing::Assign(targets, n) => assign_task(game, state, g, frame, targets, n),
        Doing::Choose(when_true, when_false) => choose_task(
            game, state, g, frame, when_true, when_false,
        ),
        Doing::Turn(parts) => turn_task(game, state, g, frame, parts),
        Doing::TurnAgain(parts) => again_task(game, state, g, frame, parts),
        Doing::ChooseClause(clause, others) => clause_task(game, state, g, frame, clause, others),
        Doing::ChooseDefault(clauses, default) => default_task(
            game, state, g, frame, clauses, default,
        ),
        Doing::BeginRange(range) => begin_range_task(game, state, g, frame, range),
        Doing::BranchTo(kind, label) => branch_task(game, state, g, frame, kind, label),
        Doing::Call(callee, n) => call_task(game, state, g, frame, callee, n),
        Doing::Go(callee, n) => go_task(game, state, g, frame, callee, n),
        Doing::Defer(callee, n) => defer_task(game, state, g, frame, callee, n),
        Doing::Return(n) => return_task(game, state, g, frame, n),
        Doing::Panic => panic_task(game, state, g, frame),
        Doing::Recover => recover_task(game, state, g, frame),
        Doing::SendTo(t) => send_task(game, state, g, frame, t),
        Doing::ReceiveFrom(t, ok) => receive_task(game, state, g, frame, t, ok),
        Doing::Close => close_task(game, state, g, frame),
        Doing::SelectFrom(what) => select_task(game, state, g, frame, what),
        Doing::TakeGate => take_gate_task(game, state, g, frame),
        Doing::AddToGate => add_gate_task(game, state, g, frame),
        Doing::AwaitGate => await_gate_task(game, state, g, frame),
        Doing::Yield => yield_task(game, state, g, frame),
        Doing::Print(n, ends_line) => print_task(game, state, g, frame, n, ends_line),
        Doing::Exit => exit_task(game, state, g, frame),
        Doing::Fatal => fatal_task(game, state, g, frame),
    }
}
