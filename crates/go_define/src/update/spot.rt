//! `x op= y`, by a left side and operands that are typed.
//!
//! Go, "Assignments".

ghost use Rattle.std.specs.Prelude.{◌≡◌, ◌<◌, ◌∷◌, ◌++◌, [], List, OnOk, IfOk, map};
ghost use Rattle.go_type.specs.Tree.{Ty};
ghost use Rattle.go_type.specs.Levels.{tree_of};
ghost use Rattle.go_type.specs.Table.{size};
ghost use Rattle.go_core.specs.CoreTree as core;
ghost use Rattle.go_core.specs.CoreView.{stmt_view, target_view};
ghost use Rattle.go_typing.specs.Answer.{flaw, own};
ghost use Rattle.go_typing.specs.Typing.{operator_row};
ghost use Rattle.go_typing.specs.Wanted.{wanted};
ghost use Rattle.go_operands.specs.EnvView.{table_of};
ghost use Rattle.go_operands.specs.AnswerView.{answer_view, flaw_view};
ghost use Rattle.go_operands.specs.Below.{AnswerBelow};
ghost use Rattle.go_operands.specs.Parts.{part};
ghost use Rattle.go_calls.specs.Words.{types_of, names_of};
ghost use Rattle.go_typing.specs.Assign as go;
ghost use Rattle.go_typing.specs.Expressions.{core_of};
ghost use Rattle.go_walk.specs.WalkView.{Keeps};
ghost use Rattle.go_expr.specs.Raw.{raw_view, RawBelow};
ghost use Rattle.go_assign.specs.Outcome.{Adds};
ghost use Rattle.go_assign.specs.LeftView.{left_view, LeftBelow};
ghost use Rattle.go_define.specs.Updating.{wanted_row, updated};

use gj_base::{NoMemory, Op, Place};
use go_assign::assign::each::and_left;
use go_assign::assign::left::Left;
use go_assign::effects::one_stored;
use go_assign::valued::move_flaws;
use go_binary::rows::binary::operator;
use go_core::statement::{CoreStmt, Target};
use go_expr::parts::stack::add_own;
use go_expr::typed::{Raw, gone_raw};
use go_operands::answers::answer::{Answer, Flaw};
use go_operands::answers::gone::gone_answer;
use go_operands::answers::rule::and_flaw;
use go_operands::operands::part::{Part, gone_part};
use go_operands::operands::wanted::wanted;
use go_operands::scopes::Env;
use go_type::types::TypeId;
use go_walk::stmt_gone::gone::gone_targets;
use std::alloc::Global;

// An answer, where what is told before it and its own faults are told.
#[tactic(auto, using(crate::proofs::UpdateLemmas::told_two))]
fn with_told(
    alloc: Global,
    env: &Env,
    answer: Answer,
    more: Vec<Flaw>,
    flaws: &mut Vec<Flaw>,
) -> Result<Answer, NoMemory>
    requires within { AnswerBelow (size (table_of env.now)) answer }
    ensures view { IfOk result (λ a. answer_view (types_of env.now) a ≡ answer_view (types_of env.now) answer) }
    ensures within { IfOk result (λ a. AnswerBelow (size (table_of env.now)) a) }
    ensures told { OnOk result (map flaw_view flaws.new.items ≡ map flaw_view flaws.old.items ++ (map flaw_view more.items ++ own (answer_view (types_of env.now) answer))) }
{
    let _ = env;
    match move_flaws(flaws, more) {
        Ok(()) => match add_own(alloc, flaws, &answer) {
            Ok(()) => Ok(answer),
            Err(error) => {
                gone_answer(answer);
                Err(error)
            }
        },
        Err(error) => {
            gone_answer(answer);
            Err(error)
        }
    }
}

// What the operator gives, with what is told of its right operand and of it.
#[tactic(auto, using(crate::proofs::UpdateLemmas::row_told))]
fn row(
    alloc: Global,
    env: &Env,
    at: Place,
    op: Op,
    p: Place,
    x: Box<Answer>,
    y: Raw,
    flaws: &mut Vec<Flaw>,
) -> Result<Answer, NoMemory>
    requires left { AnswerBelow (size (table_of env.now)) x.value }
    requires right { RawBelow (size (table_of env.now)) y }
    ensures view { IfOk result (λ a. answer_view (types_of env.now) a ≡ operator_row (names_of env.now) at op (part p (answer_view (types_of env.now) x.value)) (raw_view (types_of env.now) y).part) }
    ensures within { IfOk result (λ a. AnswerBelow (size (table_of env.now)) a) }
    ensures told { OnOk result (map flaw_view flaws.new.items ≡ map flaw_view flaws.old.items ++ ((raw_view (types_of env.now) y).flaws ++ own (operator_row (names_of env.now) at op (part p (answer_view (types_of env.now) x.value)) (raw_view (types_of env.now) y).part))) }
{
    let Raw { part, flaws: more } = y;
    let Part { place: q, answer } = part;
    match operator(alloc, env.table(), at, op, p, x, q, answer) {
        Ok(whole) => match with_told(alloc, env, whole, more, flaws) {
            Ok(whole) => Ok(whole),
            Err(error) => Err(error),
        },
        Err(error) => Err(error),
    }
}

// It where a value of a type is wanted, with its own faults.
#[tactic(auto, using(crate::proofs::UpdateLemmas::own_told))]
fn fit_row(
    alloc: Global,
    env: &Env,
    at: Place,
    ty: TypeId,
    answer: Answer,
    flaws: &mut Vec<Flaw>,
) -> Result<Answer, NoMemory>
    requires ty { ty.0 < size (table_of env.now) }
    requires within { AnswerBelow (size (table_of env.now)) answer }
    ensures view { IfOk result (λ a. answer_view (types_of env.now) a ≡ wanted (names_of env.now) at (tree_of (types_of env.now) ty) (answer_view (types_of env.now) answer)) }
    ensures within { IfOk result (λ a. AnswerBelow (size (table_of env.now)) a) }
    ensures told { OnOk result (map flaw_view flaws.new.items ≡ map flaw_view flaws.old.items ++ own (wanted (names_of env.now) at (tree_of (types_of env.now) ty) (answer_view (types_of env.now) answer))) }
{
    match wanted(alloc, env.table(), at, ty, answer) {
        Ok(whole) => match add_own(alloc, flaws, &whole) {
            Ok(()) => Ok(whole),
            Err(error) => {
                gone_answer(whole);
                Err(error)
            }
        },
        Err(error) => Err(error),
    }
}

// A left side alone.
#[tactic(auto, using(crate::proofs::UpdateLemmas::alone_in))]
fn one_left(alloc: Global, env: &Env, left: &Left) -> Result<Vec<Target>, NoMemory>
    requires left { LeftBelow (size (table_of env.now)) left.now }
    ensures value { IfOk result (λ gs. (ts : List Ty) → Keeps (table_of env.now) ts → map (target_view ts) gs.items ≡ go.target_of (left_view (types_of env.now) left.now) ∷ []) }
{
    let mut targets = Vec::new(alloc);
    match and_left(alloc, env, left, &mut targets) {
        Ok(()) => Ok(targets),
        Err(error) => {
            gone_targets(targets);
            Err(error)
        }
    }
}

// The assignment of what the operator gives to a variable.
#[tactic(auto, using(crate::proofs::UpdateLemmas::spot_told, crate::proofs::UpdateLemmas::spot_stored))]
fn update_spot(
    alloc: Global,
    env: &Env,
    at: Place,
    op: Op,
    left: &Left,
    ty: TypeId,
    p: Place,
    x: Box<Answer>,
    y: Raw,
    flaws: &mut Vec<Flaw>,
    out: &mut Vec<CoreStmt>,
) -> Result<(), NoMemory>
    requires left { LeftBelow (size (table_of env.now)) left.now }
    requires ty { ty.0 < size (table_of env.now) }
    requires x { AnswerBelow (size (table_of env.now)) x.value }
    requires y { RawBelow (size (table_of env.now)) y }
    ensures told { OnOk result (map flaw_view flaws.new.items ≡ map flaw_view flaws.old.items ++ (((raw_view (types_of env.now) y).flaws ++ own (operator_row (names_of env.now) at op (part p (answer_view (types_of env.now) x.value)) (raw_view (types_of env.now) y).part)) ++ own (wanted_row (names_of env.now) at op (part p (answer_view (types_of env.now) x.value)) (raw_view (types_of env.now) y).part (tree_of (types_of env.now) ty)))) }
    ensures core { OnOk result ((ts : List Ty) → Keeps (table_of env.now) ts → map (stmt_view ts) out.new.items ≡ map (stmt_view ts) out.old.items ++ core.store (go.target_of (left_view (types_of env.now) left.now) ∷ []) (core.expr (core_of (wanted_row (names_of env.now) at op (part p (answer_view (types_of env.now) x.value)) (raw_view (types_of env.now) y).part (tree_of (types_of env.now) ty))) core.no_exprs) ∷ []) }
{
    match one_left(alloc, env, left) {
        Ok(targets) => match row(alloc, env, at, op, p, x, y, flaws) {
            Ok(whole) => match fit_row(alloc, env, at, ty, whole, flaws) {
                Ok(whole) => match one_stored(alloc, env, targets, whole, out) {
                    Ok(()) => Ok(()),
                    Err(error) => Err(error),
                },
                Err(error) => {
                    gone_targets(targets);
                    Err(error)
                }
            },
            Err(error) => {
                gone_targets(targets);
                Err(error)
            }
        },
        Err(error) => {
            gone_answer(Box::into_inner(x));
            gone_raw(y);
            Err(error)
        }
    }
}

// What is told where `_` is updated, which is no value (52).
#[tactic(auto, using(crate::proofs::UpdateLemmas::told_two))]
fn told_blank(alloc: Global, p: Place, y: Raw, flaws: &mut Vec<Flaw>) -> Result<(), NoMemory>
    ensures told { OnOk result (map flaw_view flaws.new.items ≡ map flaw_view flaws.old.items ++ flaw p 52 ∷ map flaw_view y.flaws.items) }
{
    let Raw { part, flaws: more } = y;
    gone_part(part);
    match and_flaw(alloc, flaws, p, 52) {
        Ok(()) => match move_flaws(flaws, more) {
            Ok(()) => Ok(()),
            Err(error) => Err(error),
        },
        Err(error) => Err(error),
    }
}

// What is told where the left side can't be assigned.
#[tactic(auto, using(crate::proofs::UpdateLemmas::told_two))]
fn told_wrong(left: Vec<Flaw>, y: Raw, flaws: &mut Vec<Flaw>) -> Result<(), NoMemory>
    ensures told { OnOk result (map flaw_view flaws.new.items ≡ map flaw_view flaws.old.items ++ (map flaw_view left.items ++ map flaw_view y.flaws.items)) }
{
    let Raw { part, flaws: more } = y;
    gone_part(part);
    match move_flaws(flaws, left) {
        Ok(()) => match move_flaws(flaws, more) {
            Ok(()) => Ok(()),
            Err(error) => Err(error),
        },
        Err(error) => Err(error),
    }
}

/// What comes of an operator between a left side and an operand, with the assignment of it.
///
/// Go, "Assignments": `x op= y` is `x = x op (y)`, where `x` is evaluated once.
#[tactic(auto, using(crate::proofs::UpdateLemmas::spot_adds, crate::proofs::UpdateLemmas::told_adds))]
pub fn update_with(
    alloc: Global,
    env: &Env,
    at: Place,
    op: Op,
    left: Left,
    p: Place,
    x: Box<Answer>,
    y: Raw,
    flaws: &mut Vec<Flaw>,
    out: &mut Vec<CoreStmt>,
) -> Result<(), NoMemory>
    requires left { LeftBelow (size (table_of env.now)) left }
    requires x { AnswerBelow (size (table_of env.now)) x.value }
    requires y { RawBelow (size (table_of env.now)) y }
    ensures adds { OnOk result (Adds (table_of env.now) (updated (names_of env.now) at op (left_view (types_of env.now) left) (part p (answer_view (types_of env.now) x.value)) (raw_view (types_of env.now) y).part (raw_view (types_of env.now) y).flaws).flaws (updated (names_of env.now) at op (left_view (types_of env.now) left) (part p (answer_view (types_of env.now) x.value)) (raw_view (types_of env.now) y).part (raw_view (types_of env.now) y).flaws).core flaws.old.items flaws.new.items out.old.items out.new.items) }
{
    match left {
        Left::Local(id, ty) => {
            let spot = Left::Local(id, ty);
            match update_spot(alloc, env, at, op, &spot, ty, p, x, y, flaws, out) {
                Ok(()) => Ok(()),
                Err(error) => Err(error),
            }
        }
        Left::Global(number, ty) => {
            let spot = Left::Global(number, ty);
            match update_spot(alloc, env, at, op, &spot, ty, p, x, y, flaws, out) {
                Ok(()) => Ok(()),
                Err(error) => Err(error),
            }
        }
        Left::Blank => {
            gone_answer(Box::into_inner(x));
            match told_blank(alloc, p, y, flaws) {
                Ok(()) => Ok(()),
                Err(error) => Err(error),
            }
        }
        Left::Wrong(more) => {
            gone_answer(Box::into_inner(x));
            match told_wrong(more, y, flaws) {
                Ok(()) => Ok(()),
                Err(error) => Err(error),
            }
        }
    }
}
