//! Operators, variables, assignments and control.
//!
//! The Go Programming Language Specification (as of Go 1.17), "Expressions", "Assignments",
//! "If statements", "Switch statements", "For statements".

ghost use Rattle.std.specs.Prelude.{◌≡◌, ◌<◌, IfOk, length, vec_len};
ghost use Rattle.go_type.specs.Levels.{tree_of};
ghost use Rattle.go_type.specs.Table.{places};
ghost use Rattle.go_core.specs.CoreView.{branch_of, expr_view, program_view, stmts_view, var_of};
ghost use Rattle.go_core.specs.Goroutine as core;
ghost use Rattle.go_core.specs.GoStep as steps;
ghost use Rattle.go_core.specs.Opened.{indexes_of};
ghost use Rattle.go_core.specs.Operator as op;
ghost use Rattle.go_slices.specs.Seen.{operator_of};
ghost use Rattle.go_state.specs.TasksSeen.{clauses_from, condition_of, elements_view, targets_from, tests_from};
ghost use Rattle.go_state.specs.StateSeen.{cursor_of, move_of, ranged_of, vars_of};
ghost use Rattle.go_values.specs.ValuesSeen.{values_of};
ghost use Rattle.go_play.specs.Plays.{Plays};

use crate::dispatch::game::Game;
use crate::outcomes::outcome::go_on;
use gj_base::NoMemory;
use go_core::node::{CoreExpr, Var, VarId};
use go_core::statement::{BranchKind, CoreClauses, CoreStmts, Label, Targets};
use go_core::tree::FuncId;
use go_entries::assign_steps::assign::{assign_step, begin_assign};
use go_entries::assign_steps::globals::set_globals_step;
use go_entries::local_steps::operate::{build_step, closure_step, local_step, operate_step};
use go_entries::local_steps::range::{begin_range_step, next_range_step};
use go_entries::local_steps::variables::{bind_step, declare_step};
use go_slices::composites::operator::Operator;
use go_state::frame_steps::control::{
    again_step, branch_step, choose_step, clause_step, default_step, turn_step,
};
use go_state::frame_steps::logic::{where_false_step, where_true_step};
use go_state::frame_steps::parts::{Build, Rest};
use go_state::state::frame::{Cursor, Frame, Range};
use go_state::state::state::State;
use go_state::tasks::task::{Loop, Switch};

/// An operator of so many operands.
pub fn operate_task<'s, 'p, 'a>(
    game: Game<'s, 'p, 'a>,
    state: &mut State<'p, 'a>,
    g: usize,
    frame: Frame<'p, 'a>,
    o: Operator<'p>,
    n: usize,
) -> Result<bool, NoMemory>
    requires types { game.c.now.table.now ≡ game.p.now.types }
    requires goroutine { g < vec_len state.old.goroutines }
    ensures value { IfOk result (λ b. let ts = places game.entry.p.now.types in Plays ts g b frame.entry state.old state.new (steps.task_step (program_view game.entry.p.now) game.entry.choices.now (move_of game.entry.free) g (core.operate (operator_of ts o.entry) n))) }
{
    let mut f = frame;
    let came = operate_step(game.c, game.p, game.free, o, n, &mut f, &mut state.memory);
    go_on(game.c, game.p.hidden, state, g, f, came)
}

/// A struct, an array or a slice.
pub fn build_task<'s, 'p, 'a>(
    game: Game<'s, 'p, 'a>,
    state: &mut State<'p, 'a>,
    g: usize,
    frame: Frame<'p, 'a>,
    what: Build<'p>,
) -> Result<bool, NoMemory>
    requires types { game.c.now.table.now ≡ game.p.now.types }
    requires goroutine { g < vec_len state.old.goroutines }
    ensures value { IfOk result (λ b. let ts = places game.entry.p.now.types in Plays ts g b frame.entry state.old state.new (steps.task_step (program_view game.entry.p.now) game.entry.choices.now (move_of game.entry.free) g (core.operate (op.to_built (tree_of ts what.entry.ty) what.entry.count (indexes_of (elements_view ts what.entry.elements.now))) (length (indexes_of (elements_view ts what.entry.elements.now)))))) }
{
    let mut f = frame;
    let came = build_step(game.c, game.p, game.free, what, &mut f, &mut state.memory);
    go_on(game.c, game.p.hidden, state, g, f, came)
}

/// The place of a variable.
pub fn local_task<'s, 'p, 'a>(
    game: Game<'s, 'p, 'a>,
    state: &mut State<'p, 'a>,
    g: usize,
    frame: Frame<'p, 'a>,
    var: VarId,
) -> Result<bool, NoMemory>
    requires types { game.c.now.table.now ≡ game.p.now.types }
    requires goroutine { g < vec_len state.old.goroutines }
    ensures value { IfOk result (λ b. let ts = places game.entry.p.now.types in Plays ts g b frame.entry state.old state.new (steps.task_step (program_view game.entry.p.now) game.entry.choices.now (move_of game.entry.free) g (core.at_local var.0))) }
{
    let mut f = frame;
    let came = local_step(game.c, var, &mut f);
    go_on(game.c, game.p.hidden, state, g, f, came)
}

/// A function literal.
pub fn closure_task<'s, 'p, 'a>(
    game: Game<'s, 'p, 'a>,
    state: &mut State<'p, 'a>,
    g: usize,
    frame: Frame<'p, 'a>,
    func: FuncId,
) -> Result<bool, NoMemory>
    requires types { game.c.now.table.now ≡ game.p.now.types }
    requires goroutine { g < vec_len state.old.goroutines }
    ensures value { IfOk result (λ b. let ts = places game.entry.p.now.types in Plays ts g b frame.entry state.old state.new (steps.task_step (program_view game.entry.p.now) game.entry.choices.now (move_of game.entry.free) g (core.make_closure func.0))) }
{
    let mut f = frame;
    let came = closure_step(game.c, game.p, func, &mut f);
    go_on(game.c, game.p.hidden, state, g, f, came)
}

/// The right side of `&&`, where it counts.
pub fn true_task<'s, 'p, 'a>(
    game: Game<'s, 'p, 'a>,
    state: &mut State<'p, 'a>,
    g: usize,
    frame: Frame<'p, 'a>,
    right: &'p CoreExpr,
) -> Result<bool, NoMemory>
    requires types { game.c.now.table.now ≡ game.p.now.types }
    requires goroutine { g < vec_len state.old.goroutines }
    ensures value { IfOk result (λ b. let ts = places game.entry.p.now.types in Plays ts g b frame.entry state.old state.new (steps.task_step (program_view game.entry.p.now) game.entry.choices.now (move_of game.entry.free) g (core.only_where_true (expr_view ts right.now)))) }
{
    let mut f = frame;
    let came = where_true_step(game.c, right, &mut f);
    go_on(game.c, game.p.hidden, state, g, f, came)
}

/// The right side of `||`, where it counts.
pub fn false_task<'s, 'p, 'a>(
    game: Game<'s, 'p, 'a>,
    state: &mut State<'p, 'a>,
    g: usize,
    frame: Frame<'p, 'a>,
    right: &'p CoreExpr,
) -> Result<bool, NoMemory>
    requires types { game.c.now.table.now ≡ game.p.now.types }
    requires goroutine { g < vec_len state.old.goroutines }
    ensures value { IfOk result (λ b. let ts = places game.entry.p.now.types in Plays ts g b frame.entry state.old state.new (steps.task_step (program_view game.entry.p.now) game.entry.choices.now (move_of game.entry.free) g (core.only_where_false (expr_view ts right.now)))) }
{
    let mut f = frame;
    let came = where_false_step(game.c, right, &mut f);
    go_on(game.c, game.p.hidden, state, g, f, came)
}

/// Fresh variables take values.
pub fn bind_task<'s, 'p, 'a>(
    game: Game<'s, 'p, 'a>,
    state: &mut State<'p, 'a>,
    g: usize,
    frame: Frame<'p, 'a>,
    vars: &'p [Var],
) -> Result<bool, NoMemory>
    requires types { game.c.now.table.now ≡ game.p.now.types }
    requires goroutine { g < vec_len state.old.goroutines }
    ensures value { IfOk result (λ b. let ts = places game.entry.p.now.types in Plays ts g b frame.entry state.old state.new (steps.task_step (program_view game.entry.p.now) game.entry.choices.now (move_of game.entry.free) g (core.bind_vars (vars_of ts vars.now)))) }
{
    let mut f = frame;
    let came = bind_step(game.c, vars, &mut f, &mut state.memory);
    go_on(game.c, game.p.hidden, state, g, f, came)
}

/// A fresh variable.
pub fn declare_task<'s, 'p, 'a>(
    game: Game<'s, 'p, 'a>,
    state: &mut State<'p, 'a>,
    g: usize,
    frame: Frame<'p, 'a>,
    var: Var,
) -> Result<bool, NoMemory>
    requires types { game.c.now.table.now ≡ game.p.now.types }
    requires goroutine { g < vec_len state.old.goroutines }
    ensures value { IfOk result (λ b. let ts = places game.entry.p.now.types in Plays ts g b frame.entry state.old state.new (steps.task_step (program_view game.entry.p.now) game.entry.choices.now (move_of game.entry.free) g (core.declare_var (var_of ts var)))) }
{
    let mut f = frame;
    let came = declare_step(game.c, var, &mut f, &mut state.memory);
    go_on(game.c, game.p.hidden, state, g, f, came)
}

/// The first phase of an assignment.
pub fn assign_task<'s, 'p, 'a>(
    game: Game<'s, 'p, 'a>,
    state: &mut State<'p, 'a>,
    g: usize,
    frame: Frame<'p, 'a>,
    targets: &'p Targets,
    n: usize,
) -> Result<bool, NoMemory>
    requires types { game.c.now.table.now ≡ game.p.now.types }
    requires goroutine { g < vec_len state.old.goroutines }
    ensures value { IfOk result (λ b. let ts = places game.entry.p.now.types in Plays ts g b frame.entry state.old state.new (steps.task_step (program_view game.entry.p.now) game.entry.choices.now (move_of game.entry.free) g (core.assign (targets_from ts targets.now 0) n))) }
{
    let mut f = frame;
    let came = begin_assign(game.c, game.p, targets, n, &mut f, &mut state.memory);
    go_on(game.c, game.p.hidden, state, g, f, came)
}

/// The second phase, from a left side on.
pub fn rest_task<'s, 'p, 'a>(
    game: Game<'s, 'p, 'a>,
    state: &mut State<'p, 'a>,
    g: usize,
    frame: Frame<'p, 'a>,
    rest: Rest<'p, 'a>,
) -> Result<bool, NoMemory>
    requires types { game.c.now.table.now ≡ game.p.now.types }
    requires goroutine { g < vec_len state.old.goroutines }
    ensures value { IfOk result (λ b. let ts = places game.entry.p.now.types in Plays ts g b frame.entry state.old state.new (steps.task_step (program_view game.entry.p.now) game.entry.choices.now (move_of game.entry.free) g (core.assign_rest (targets_from ts rest.entry.targets.now rest.entry.from) (values_of ts rest.entry.operands.now) (values_of ts rest.entry.values.now)))) }
{
    let mut f = frame;
    let came = assign_step(game.c, game.p, rest, &mut f, &mut state.memory);
    go_on(game.c, game.p.hidden, state, g, f, came)
}

/// Package variables take values.
pub fn globals_task<'s, 'p, 'a>(
    game: Game<'s, 'p, 'a>,
    state: &mut State<'p, 'a>,
    g: usize,
    frame: Frame<'p, 'a>,
    numbers: &'a [u64],
) -> Result<bool, NoMemory>
    requires types { game.c.now.table.now ≡ game.p.now.types }
    requires goroutine { g < vec_len state.old.goroutines }
    ensures value { IfOk result (λ b. let ts = places game.entry.p.now.types in Plays ts g b frame.entry state.old state.new (steps.task_step (program_view game.entry.p.now) game.entry.choices.now (move_of game.entry.free) g (core.set_globals numbers.now))) }
{
    let mut f = frame;
    let came = set_globals_step(game.c, game.p, numbers, &mut f, &mut state.memory);
    go_on(game.c, game.p.hidden, state, g, f, came)
}

/// One of two blocks.
pub fn choose_task<'s, 'p, 'a>(
    game: Game<'s, 'p, 'a>,
    state: &mut State<'p, 'a>,
    g: usize,
    frame: Frame<'p, 'a>,
    when_true: &'p CoreStmts,
    when_false: &'p CoreStmts,
) -> Result<bool, NoMemory>
    requires types { game.c.now.table.now ≡ game.p.now.types }
    requires goroutine { g < vec_len state.old.goroutines }
    ensures value { IfOk result (λ b. let ts = places game.entry.p.now.types in Plays ts g b frame.entry state.old state.new (steps.task_step (program_view game.entry.p.now) game.entry.choices.now (move_of game.entry.free) g (core.choose (stmts_view ts when_true.now) (stmts_view ts when_false.now)))) }
{
    let mut f = frame;
    let came = choose_step(when_true, when_false, &mut f);
    go_on(game.c, game.p.hidden, state, g, f, came)
}

/// A turn of a loop, where its condition holds.
pub fn turn_task<'s, 'p, 'a>(
    game: Game<'s, 'p, 'a>,
    state: &mut State<'p, 'a>,
    g: usize,
    frame: Frame<'p, 'a>,
    parts: Loop<'p>,
) -> Result<bool, NoMemory>
    requires types { game.c.now.table.now ≡ game.p.now.types }
    requires goroutine { g < vec_len state.old.goroutines }
    ensures value { IfOk result (λ b. let ts = places game.entry.p.now.types in Plays ts g b frame.entry state.old state.new (steps.task_step (program_view game.entry.p.now) game.entry.choices.now (move_of game.entry.free) g (core.turn parts.entry.label.0 (condition_of ts parts.entry) (stmts_view ts parts.entry.body.now) (stmts_view ts parts.entry.post.now)))) }
{
    let mut f = frame;
    let came = turn_step(parts, &mut f);
    go_on(game.c, game.p.hidden, state, g, f, came)
}

/// What comes after a turn.
pub fn again_task<'s, 'p, 'a>(
    game: Game<'s, 'p, 'a>,
    state: &mut State<'p, 'a>,
    g: usize,
    frame: Frame<'p, 'a>,
    parts: Loop<'p>,
) -> Result<bool, NoMemory>
    requires types { game.c.now.table.now ≡ game.p.now.types }
    requires goroutine { g < vec_len state.old.goroutines }
    ensures value { IfOk result (λ b. let ts = places game.entry.p.now.types in Plays ts g b frame.entry state.old state.new (steps.task_step (program_view game.entry.p.now) game.entry.choices.now (move_of game.entry.free) g (core.turn_again parts.entry.label.0 (condition_of ts parts.entry) (stmts_view ts parts.entry.body.now) (stmts_view ts parts.entry.post.now)))) }
{
    let mut f = frame;
    let came = again_step(parts, &mut f);
    go_on(game.c, game.p.hidden, state, g, f, came)
}

/// A clause of a switch, where its test holds.
pub fn clause_task<'s, 'p, 'a>(
    game: Game<'s, 'p, 'a>,
    state: &mut State<'p, 'a>,
    g: usize,
    frame: Frame<'p, 'a>,
    clause: u32,
    others: Switch<'p>,
) -> Result<bool, NoMemory>
    requires types { game.c.now.table.now ≡ game.p.now.types }
    requires goroutine { g < vec_len state.old.goroutines }
    ensures value { IfOk result (λ b. let ts = places game.entry.p.now.types in Plays ts g b frame.entry state.old state.new (steps.task_step (program_view game.entry.p.now) game.entry.choices.now (move_of game.entry.free) g (core.choose_clause clause (tests_from ts others.entry.tests.now others.entry.from) (clauses_from ts others.entry.clauses.now 0) others.entry.default))) }
{
    let mut f = frame;
    let came = clause_step(clause, others, &mut f);
    go_on(game.c, game.p.hidden, state, g, f, came)
}

/// The default of a switch.
pub fn default_task<'s, 'p, 'a>(
    game: Game<'s, 'p, 'a>,
    state: &mut State<'p, 'a>,
    g: usize,
    frame: Frame<'p, 'a>,
    clauses: &'p CoreClauses,
    default: Option<u32>,
) -> Result<bool, NoMemory>
    requires types { game.c.now.table.now ≡ game.p.now.types }
    requires goroutine { g < vec_len state.old.goroutines }
    ensures value { IfOk result (λ b. let ts = places game.entry.p.now.types in Plays ts g b frame.entry state.old state.new (steps.task_step (program_view game.entry.p.now) game.entry.choices.now (move_of game.entry.free) g (core.choose_default (clauses_from ts clauses.now 0) default))) }
{
    let mut f = frame;
    let came = default_step(clauses, default, &mut f);
    go_on(game.c, game.p.hidden, state, g, f, came)
}

/// A range begins.
pub fn begin_range_task<'s, 'p, 'a>(
    game: Game<'s, 'p, 'a>,
    state: &mut State<'p, 'a>,
    g: usize,
    frame: Frame<'p, 'a>,
    range: Range<'p>,
) -> Result<bool, NoMemory>
    requires types { game.c.now.table.now ≡ game.p.now.types }
    requires goroutine { g < vec_len state.old.goroutines }
    ensures value { IfOk result (λ b. let ts = places game.entry.p.now.types in Plays ts g b frame.entry state.old state.new (steps.task_step (program_view game.entry.p.now) game.entry.choices.now (move_of game.entry.free) g (core.begin_range (ranged_of ts range.entry)))) }
{
    let mut f = frame;
    let came = begin_range_step(game.c, range, &mut f, &state.memory);
    go_on(game.c, game.p.hidden, state, g, f, came)
}

/// Its next turn.
pub fn next_range_task<'s, 'p, 'a>(
    game: Game<'s, 'p, 'a>,
    state: &mut State<'p, 'a>,
    g: usize,
    frame: Frame<'p, 'a>,
    range: Range<'p>,
    cursor: Cursor<'a>,
) -> Result<bool, NoMemory>
    requires types { game.c.now.table.now ≡ game.p.now.types }
    requires goroutine { g < vec_len state.old.goroutines }
    ensures value { IfOk result (λ b. let ts = places game.entry.p.now.types in Plays ts g b frame.entry state.old state.new (steps.task_step (program_view game.entry.p.now) game.entry.choices.now (move_of game.entry.free) g (core.next_range (ranged_of ts range.entry) (cursor_of ts cursor.entry)))) }
{
    let mut f = frame;
    let came = next_range_step(
        game.c,
        game.free.birth,
        range,
        cursor,
        &mut f,
        &mut state.memory,
    );
    go_on(game.c, game.p.hidden, state, g, f, came)
}

/// A `break` or a `continue`.
pub fn branch_task<'s, 'p, 'a>(
    game: Game<'s, 'p, 'a>,
    state: &mut State<'p, 'a>,
    g: usize,
    frame: Frame<'p, 'a>,
    kind: BranchKind,
    label: Label,
) -> Result<bool, NoMemory>
    requires types { game.c.now.table.now ≡ game.p.now.types }
    requires goroutine { g < vec_len state.old.goroutines }
    ensures value { IfOk result (λ b. let ts = places game.entry.p.now.types in Plays ts g b frame.entry state.old state.new (steps.task_step (program_view game.entry.p.now) game.entry.choices.now (move_of game.entry.free) g (core.branch_to (branch_of kind) label.0))) }
{
    let mut f = frame;
    let came = branch_step(kind, label, &mut f);
    go_on(game.c, game.p.hidden, state, g, f, came)
}
