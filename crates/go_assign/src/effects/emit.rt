//! What is told of values, and assignments of them to left sides.

ghost use Rattle.std.specs.Prelude.{◌≡◌, ◌∷◌, ◌++◌, [], List, OnOk, IfOk, map, if◌then◌else◌};
ghost use Rattle.go_type.specs.Tree.{Ty};
ghost use Rattle.go_core.specs.CoreTree as core;
ghost use Rattle.go_core.specs.CoreView.{expr_view, exprs_of, target_view, stmt_view};
ghost use Rattle.go_typing.specs.Answer.{flaw};
ghost use Rattle.go_operands.specs.EnvView.{table_of};
ghost use Rattle.go_operands.specs.AnswerView.{answer_view, flaw_view};
ghost use Rattle.go_calls.specs.Words.{types_of};
ghost use Rattle.go_typing.specs.Expressions.{core_of};
ghost use Rattle.go_walk.specs.WalkView.{Keeps};

use crate::valued::{Valued, core_of, move_flaws};
use gj_base::{NoMemory, Place};
use go_core::node::CoreExpr;
use go_core::statement::{CoreStmt, Target};
use go_operands::answers::answer::{Answer, Flaw};
use go_operands::answers::rule::and_flaw;
use go_operands::scopes::Env;
use go_walk::stmt_gone::gone::{gone_targets, gone_values};
use go_walk::stmt_gone::more::{and_stmt, and_value};
use go_walk::stmt_nodes::store::{store, values};
use std::alloc::Global;

/// A fault, unless all is well.
pub fn told_unless(
    alloc: Global,
    flaws: &mut Vec<Flaw>,
    well: bool,
    at: Place,
    code: u16,
) -> Result<(), NoMemory>
    ensures told { OnOk result (map flaw_view flaws.new.items ≡ map flaw_view flaws.old.items ++ (if well then [] else flaw at code ∷ [])) }
{
    if well {
        return Ok(());
    }
    and_flaw(alloc, flaws, at, code)
}

/// What is told of a value, and its core.
#[tactic(auto, using(crate::proofs::EmitLemmas::expr_more))]
pub fn and_valued(
    alloc: Global,
    env: &Env,
    valued: Valued,
    flaws: &mut Vec<Flaw>,
    cores: &mut Vec<CoreExpr>,
) -> Result<(), NoMemory>
    ensures told { OnOk result (map flaw_view flaws.new.items ≡ map flaw_view flaws.old.items ++ map flaw_view valued.flaws.items) }
    ensures values { OnOk result ((ts : List Ty) → Keeps (table_of env.now) ts → map (expr_view ts) cores.new.items ≡ map (expr_view ts) cores.old.items ++ core_of (answer_view (types_of env.now) valued.answer) ∷ []) }
{
    let Valued {
        answer,
        flaws: more,
    } = valued;
    match core_of(alloc, env, answer) {
        Ok(whole) => match and_value(cores, whole) {
            Ok(()) => match move_flaws(flaws, more) {
                Ok(()) => Ok(()),
                Err(error) => Err(error),
            },
            Err(error) => Err(error),
        },
        Err(error) => Err(error),
    }
}

/// Left sides with their values, as one statement.
#[tactic(auto, using(crate::proofs::EmitLemmas::store_more))]
pub fn stored(
    alloc: Global,
    targets: Vec<Target>,
    cores: Vec<CoreExpr>,
    out: &mut Vec<CoreStmt>,
) -> Result<(), NoMemory>
    ensures core { OnOk result ((ts : List Ty) → map (stmt_view ts) out.new.items ≡ map (stmt_view ts) out.old.items ++ core.store (map (target_view ts) targets.items) (exprs_of (map (expr_view ts) cores.items)) ∷ []) }
{
    let list = values(cores);
    match store(alloc, targets, list) {
        Ok(s) => match and_stmt(out, s) {
            Ok(()) => Ok(()),
            Err(error) => Err(error),
        },
        Err(error) => Err(error),
    }
}

// The core of a value, alone.
#[tactic(auto, using(crate::proofs::EmitLemmas::expr_alone))]
fn one_core(alloc: Global, env: &Env, answer: Answer) -> Result<Vec<CoreExpr>, NoMemory>
    ensures value { IfOk result (λ cs. (ts : List Ty) → Keeps (table_of env.now) ts → map (expr_view ts) cs.items ≡ core_of (answer_view (types_of env.now) answer) ∷ []) }
{
    let mut cores = Vec::new(alloc);
    match core_of(alloc, env, answer) {
        Ok(whole) => match and_value(&mut cores, whole) {
            Ok(()) => Ok(cores),
            Err(error) => {
                gone_values(cores);
                Err(error)
            }
        },
        Err(error) => {
            gone_values(cores);
            Err(error)
        }
    }
}

/// Left sides with one value for all of them, as one statement.
#[tactic(auto, using(crate::proofs::EmitLemmas::one_more))]
pub fn one_stored(
    alloc: Global,
    env: &Env,
    targets: Vec<Target>,
    answer: Answer,
    out: &mut Vec<CoreStmt>,
) -> Result<(), NoMemory>
    ensures core { OnOk result ((ts : List Ty) → Keeps (table_of env.now) ts → map (stmt_view ts) out.new.items ≡ map (stmt_view ts) out.old.items ++ core.store (map (target_view ts) targets.items) (core.expr (core_of (answer_view (types_of env.now) answer)) core.no_exprs) ∷ []) }
{
    match one_core(alloc, env, answer) {
        Ok(cores) => match stored(alloc, targets, cores, out) {
            Ok(()) => Ok(()),
            Err(error) => Err(error),
        },
        Err(error) => {
            gone_targets(targets);
            Err(error)
        }
    }
}
