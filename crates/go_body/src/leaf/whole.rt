//! What is told of a function's body as a whole.
//!
//! Go, "Terminating statements", "Labeled statements", "Declarations and scope".

ghost use Rattle.std.specs.Prelude.{◌≡◌, ◌==◌, ◌++◌, [], IfOk, OnOk, map, if◌then◌else◌};
ghost use Rattle.go_core.specs.CoreView.{stmt_view as core_stmt, stmts_of};
ghost use Rattle.go_core.specs.Terminating.{ends_terminating};
ghost use Rattle.go_operands.specs.AnswerView.{flaw_view};
ghost use Rattle.go_calls.specs.Words.{types_of};
ghost use Rattle.go_typing.specs.Statements.{far_told, flaw_places};
ghost use Rattle.go_body.specs.Whole.{missing, function_told, rest_told};

use crate::leaf::leaf::is_clean;
use gj_base::{NoMemory, Place};
use go_assign::valued::told::move_flaws;
use go_core::statement::CoreStmt;
use go_define::simple::Around;
use go_operands::answers::answer::Flaw;
use go_operands::answers::rule::and_flaw;
use go_walk::stmt_nodes::ends::is_terminating;
use go_walk::walk::Walk;
use go_walk::walk::parts::Before;
use go_walk::walk::unused::told_unused;
use std::alloc::Global;

// Where a function has results, control doesn't come to the end of its body (87).
#[tactic(auto, using(crate::proofs::WholeLemmas::no_types, crate::proofs::WholeLemmas::no_results, crate::proofs::WholeLemmas::ended, crate::proofs::WholeLemmas::not_ended))]
fn told_missing(
    flaws: &mut Vec<Flaw>,
    around: &Around,
    end: Place,
    ends: bool,
) -> Result<(), NoMemory>
    ensures told { OnOk result (map flaw_view flaws.new.items ≡ map flaw_view flaws.old.items ++ missing around.now.results end ends) }
{
    match around.results {
        Some(results) => {
            if results.len() == 0 {
                return Ok(());
            }
            if ends {
                return Ok(());
            }
            and_flaw(*flaws.allocator(), flaws, end, 87)?;
            Ok(())
        }
        None => Ok(()),
    }
}

/// Whether control doesn't come to the end of these: the last statement decides.
#[tactic(auto, using(crate::proofs::WholeLemmas::ends_none, crate::proofs::WholeLemmas::ends_at))]
pub fn ends_with(walk: &Walk, ss: &[CoreStmt]) -> bool
    ensures value { result ≡ ends_terminating (stmts_of (map (core_stmt (types_of walk.now.env)) ss.now)) }
{
    let n = ss.len();
    if n == 0 {
        return false;
    }
    is_terminating(walk.env.table(), &ss[n - 1])
}

// That the function is one too many (79).
#[tactic(auto, using(crate::proofs::WholeLemmas::far_some, crate::proofs::WholeLemmas::far_none))]
fn told_far(flaws: &mut Vec<Flaw>, far: Option<Place>) -> Result<(), NoMemory>
    ensures told { OnOk result (map flaw_view flaws.new.items ≡ map flaw_view flaws.old.items ++ far_told far) }
{
    match far {
        Some(at) => {
            and_flaw(*flaws.allocator(), flaws, at, 79)?;
            Ok(())
        }
        None => Ok(()),
    }
}

// What is told of a function as a whole: its end, or else that it is one too many.
fn told_function(
    flaws: &mut Vec<Flaw>,
    around: &Around,
    end: Place,
    ends: bool,
) -> Result<(), NoMemory>
    ensures told { OnOk result (map flaw_view flaws.new.items ≡ map flaw_view flaws.old.items ++ function_told around.now.results around.now.too_far end ends) }
{
    let before = flaws.len();
    told_missing(flaws, around, end, ends)?;
    if is_clean(flaws, before) {
        told_far(flaws, around.too_far)?;
        return Ok(());
    }
    Ok(())
}

/// Where faults stand.
pub fn places_of(alloc: Global, flaws: &[Flaw]) -> Result<Vec<Place>, NoMemory>
    ensures value { IfOk result (λ ps. ps.items ≡ flaw_places (map flaw_view flaws.now)) }
{
    let mut places = Vec::new(alloc);
    for one in flaws {
        places.push(one.place)?;
    }
    Ok(places)
}

// What is told of a function as a whole, where no more names were `lost` than before.
fn told_typed(
    walk: &Walk,
    flaws: &mut Vec<Flaw>,
    around: &Around,
    end: Place,
    lost: u64,
    ends: bool,
) -> Result<(), NoMemory>
    ensures told { OnOk result (map flaw_view flaws.new.items ≡ map flaw_view flaws.old.items ++ (if walk.now.lost == lost then function_told around.now.results around.now.too_far end ends else [])) }
{
    if walk.lost == lost {
        told_function(flaws, around, end, ends)?;
        return Ok(());
    }
    Ok(())
}

/// What is told of a body beside its statements: what was found of its `labels`, its unused variables,
/// and where all its parts are typed, the function as a whole. `before` is what there was before it.
pub fn told_whole(
    walk: &Walk,
    flaws: &mut Vec<Flaw>,
    around: &Around,
    end: Place,
    before: Before,
    labels: Vec<Flaw>,
    ends: bool,
) -> Result<(), NoMemory>
    ensures told { OnOk result (map flaw_view flaws.new.items ≡ map flaw_view flaws.old.items ++ rest_told around.now end before (map flaw_view flaws.old.items) (map flaw_view labels.items) walk.now ends) }
{
    move_flaws(flaws, labels)?;
    told_unused(walk, flaws)?;
    if is_clean(flaws, before.flaws) {
        told_typed(walk, flaws, around, end, before.lost, ends)?;
        return Ok(());
    }
    Ok(())
}
