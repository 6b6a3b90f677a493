//! Tasks, opened one level.

ghost use Rattle.std.specs.Prelude.{◌≡◌, ◌<◌, List, IfSome, is_some};
ghost use Rattle.go_type.specs.Tree.{Ty};
ghost use Rattle.go_core.specs.Goroutine as defined;
ghost use Rattle.go_state.specs.TasksSeen.{first_of, pieces_first, is_opened};
ghost use Rattle.go_state.specs.Weight.{weight, pieces_weight};

use crate::tasks::open_expr::{open_bounds, open_callee, open_expr, open_operands, open_place};
use crate::tasks::open_lists::{
    open_all, open_cases, open_elements, open_pairs, open_run, open_targets,
};
use crate::tasks::open_stmt::{begin_loop, next_test, open_clause, open_one};
use crate::tasks::task::{ExprTask, LoopTask, Pieces, PlaceTask, SwitchTask, Task};

/// A task opened one level, which is no step; none where a frame does it as it is.
pub fn open<'p>(task: Task<'p>) -> Option<Pieces<'p>>
    ensures value { IfSome result (λ x. (ts : List Ty) (rest : List defined.Task) → pieces_first ts x rest ≡ first_of ts task.entry rest) }
    ensures smaller { IfSome result (λ x. (ts : List Ty) → pieces_weight ts x < weight ts task.entry) }
    ensures opens { is_some result ≡ is_opened task.entry }
{
    match task {
        Task::Nothing => None,
        Task::Expr(what, e) => match what {
            ExprTask::Evaluate => Some(open_expr(e)),
            ExprTask::Bounds => Some(open_bounds(e)),
            ExprTask::Apply => None,
        },
        Task::Place(what, place) => match what {
            PlaceTask::Find => Some(open_place(place)),
            PlaceTask::Operands => Some(open_operands(place)),
            PlaceTask::Apply => None,
        },
        Task::Callee(callee) => Some(open_callee(callee)),
        Task::All(list, at) => Some(open_all(list, at)),
        Task::Elements(list, at) => Some(open_elements(list, at)),
        Task::Pairs(list, at) => Some(open_pairs(list, at)),
        Task::Targets(list, at) => Some(open_targets(list, at)),
        Task::Cases(list, at) => Some(open_cases(list, at)),
        Task::One(list, at) => Some(open_one(list, at)),
        Task::Run(list, at) => Some(open_run(list, at)),
        Task::Do(_, _) => None,
        Task::Loop(what, parts) => match what {
            LoopTask::Begin => Some(begin_loop(parts)),
            LoopTask::Turn => None,
            LoopTask::Again => None,
        },
        Task::Switch(what, parts) => match what {
            SwitchTask::Test => Some(next_test(parts)),
            SwitchTask::Choose => None,
        },
        Task::Clause(list, at) => Some(open_clause(list, at)),
        Task::Leave(_) => None,
    }
}
