//! `xs op= ys`, `xs++` and `xs--`.
//!
//! Go, "Assignments", "IncDec statements".

ghost use Rattle.std.specs.Prelude.{◌≡◌, ◌∷◌, ℕ, [], List, OnOk, IfOk, map};
ghost use Rattle.go_core.specs.declared.statement.CoreStmt as statement;
ghost use Rattle.go_type.specs.Tree.{Ty};
ghost use Rattle.go_type.specs.Table.{size};
ghost use Rattle.go_syntax.specs.View.{expr_view, exprs_of};
ghost use Rattle.go_typing.specs.Typing.{typing};
ghost use Rattle.go_operands.specs.EnvView.{table_of};
ghost use Rattle.go_operands.specs.AnswerView.{answer_view};
ghost use Rattle.go_operands.specs.Below.{AnswerBelow};
ghost use Rattle.go_calls.specs.Words.{types_of, names_of, scopes_of};
ghost use Rattle.go_typing.specs.Walk.{uses, uses_all};
ghost use Rattle.go_typing.specs.Assign as go;
ghost use Rattle.go_walk.specs.WalkView.{walk_outside};
ghost use Rattle.go_expr.specs.Raw.{raw_of, raws_of, raw_view, raws_view, RawBelow, RawsBelow};
ghost use Rattle.go_assign.specs.Outcome.{Does};
ghost use Rattle.go_assign.specs.Moves.{Moves, Stays};
ghost use Rattle.go_assign.specs.LeftView.{left_view, lefts_of, lefts_view, LeftBelow, LeftsBelow};
ghost use Rattle.go_define.specs.Updating.{updates_not, steps_not};

use crate::update::spot::update_with;
use gj_base::{NoMemory, Op, Place};
use go_assign::assign::each::miscounted;
use go_assign::assign::left::{Left, Lefts, left_of, lefts_in};
use go_assign::effects::{all_typed, all_used, place_in, typed, used};
use go_const::Const;
use go_core::statement::CoreStmt;
use go_expr::typed::{Raw, Raws, both_in, gone_raw};
use go_operands::answers::answer::{Answer, Flaw};
use go_operands::operands::boxes::answer_box;
use go_operands::operands::part::Part;
use go_operands::scopes::Env;
use go_syntax::tree::Expr;
use go_walk::walk::Walk;
use std::alloc::Global;

// ---- a left side and operands

// A left side, by the names and scopes before the statement.
#[tactic(auto, using(crate::proofs::UpdateTopLemmas::left_before, go_assign::proofs::WalkLemmas::stays_grown))]
fn left_in(walk: &mut Walk, e: &Expr) -> Result<Left, NoMemory>
    ensures view { IfOk result (λ l. left_view (types_of walk.new.env) l ≡ go.left_of (walk_outside walk.old.env) (expr_view e.now)) }
    ensures within { IfOk result (λ l. LeftBelow (size (table_of walk.new.env)) l) }
    ensures stays { OnOk result (Stays walk.old walk.new) }
{
    let alloc = *walk.used.allocator();
    match left_of(alloc, &mut walk.env, e) {
        Ok(left) => Ok(left),
        Err(error) => Err(error),
    }
}

// What stands on the left waits in a box. What is told of it is told where it can't be assigned.
fn held(alloc: Global, env: &Env, raw: Raw) -> Result<Box<Answer>, NoMemory>
    requires within { RawBelow (size (table_of env.now)) raw }
    ensures view { IfOk result (λ b. answer_view (types_of env.now) b.value ≡ (raw_view (types_of env.now) raw).part.answer) }
    ensures within { IfOk result (λ b. AnswerBelow (size (table_of env.now)) b.value) }
{
    let Raw {
        part,
        flaws: _flaws,
    } = raw;
    let Part {
        place: _place,
        answer,
    } = part;
    match answer_box(alloc, env.table(), answer) {
        Ok(held) => Ok(held),
        Err(error) => Err(error),
    }
}

// The first of two operands in its box.
#[tactic(auto, using(crate::proofs::UpdateTopLemmas::held_same))]
fn held_first(alloc: Global, env: &Env, parts: (Raw, Raw)) -> Result<(Box<Answer>, Raw), NoMemory>
    requires first { RawBelow (size (table_of env.now)) parts.0 }
    requires second { RawBelow (size (table_of env.now)) parts.1 }
    ensures first { IfOk result (λ r. answer_view (types_of env.now) r.0.value ≡ (raw_view (types_of env.now) parts.0).part.answer) }
    ensures second { IfOk result (λ r. raw_view (types_of env.now) r.1 ≡ raw_view (types_of env.now) parts.1) }
    ensures first_within { IfOk result (λ r. AnswerBelow (size (table_of env.now)) r.0.value) }
    ensures second_within { IfOk result (λ r. RawBelow (size (table_of env.now)) r.1) }
{
    let (x, y) = parts;
    match held(alloc, env, x) {
        Ok(x) => Ok((x, y)),
        Err(error) => {
            gone_raw(y);
            Err(error)
        }
    }
}

// Both operands, over one table of types.
#[tactic(auto, using(crate::proofs::UpdateTopLemmas::answer_before, crate::proofs::UpdateTopLemmas::raw_before, go_assign::proofs::WalkLemmas::stays_grown))]
fn both_typed(walk: &mut Walk, x: &Expr, y: &Expr) -> Result<(Box<Answer>, Raw), NoMemory>
    ensures first { IfOk result (λ r. answer_view (types_of walk.new.env) r.0.value ≡ typing (names_of walk.old.env) (scopes_of walk.old.env) (expr_view x.now)) }
    ensures second { IfOk result (λ r. raw_view (types_of walk.new.env) r.1 ≡ raw_of (names_of walk.old.env) (scopes_of walk.old.env) (expr_view y.now)) }
    ensures first_within { IfOk result (λ r. AnswerBelow (size (table_of walk.new.env)) r.0.value) }
    ensures second_within { IfOk result (λ r. RawBelow (size (table_of walk.new.env)) r.1) }
    ensures stays { OnOk result (Stays walk.old walk.new) }
{
    let alloc = *walk.used.allocator();
    match both_in(alloc, &mut walk.env, x, y) {
        Ok(parts) => match held_first(alloc, &walk.env, parts) {
            Ok(parts) => Ok(parts),
            Err(error) => Err(error),
        },
        Err(error) => Err(error),
    }
}

// One operand alone, in its box.
#[tactic(auto, using(crate::proofs::UpdateTopLemmas::answer_same))]
fn one_typed(walk: &mut Walk, x: &Expr) -> Result<Box<Answer>, NoMemory>
    ensures view { IfOk result (λ b. answer_view (types_of walk.new.env) b.value ≡ typing (names_of walk.old.env) (scopes_of walk.old.env) (expr_view x.now)) }
    ensures within { IfOk result (λ b. AnswerBelow (size (table_of walk.new.env)) b.value) }
    ensures stays { OnOk result (Stays walk.old walk.new) }
{
    let alloc = *walk.used.allocator();
    match typed(walk, x) {
        Ok(raw) => match held(alloc, &walk.env, raw) {
            Ok(held) => Ok(held),
            Err(error) => Err(error),
        },
        Err(error) => Err(error),
    }
}

// ---- `x op= y`

// The variables that the right operand uses, and then those of the left one.
#[tactic(auto, using(crate::proofs::UpdateTopLemmas::uses_two))]
fn both_used(walk: &mut Walk, x: &Expr, y: &Expr) -> Result<(), NoMemory>
    ensures moves { OnOk result (Moves (λ w. uses (expr_view x.now) (uses (expr_view y.now) w)) walk.old walk.new) }
    ensures env { OnOk result (walk.new.env ≡ walk.old.env) }
{
    used(walk, y)?;
    match used(walk, x) {
        Ok(()) => Ok(()),
        Err(error) => Err(error),
    }
}

// What comes of it once both are used.
#[tactic(auto, using(crate::proofs::UpdateTopLemmas::left_later, crate::proofs::UpdateTopLemmas::update_gives))]
fn update_used(
    walk: &mut Walk,
    at: Place,
    op: Op,
    x: &Expr,
    y: &Expr,
    flaws: &mut Vec<Flaw>,
    out: &mut Vec<CoreStmt>,
) -> Result<(), NoMemory>
    ensures does { OnOk result (Does (λ w. go.update_left w at op (expr_view x.now) (raw_of w.names w.scopes (expr_view y.now)).part (raw_of w.names w.scopes (expr_view y.now)).flaws (go.left_of w (expr_view x.now)) w) walk.old walk.new flaws.old.items flaws.new.items out.old.items out.new.items) }
{
    let alloc = *flaws.allocator();
    let p = place_in(x);
    let left = left_in(walk, x)?;
    match both_typed(walk, x, y) {
        Ok(parts) => {
            let (held, raw) = parts;
            match update_with(alloc, &walk.env, at, op, left, p, held, raw, flaws, out) {
                Ok(()) => Ok(()),
                Err(error) => Err(error),
            }
        }
        Err(error) => Err(error),
    }
}

#[tactic(auto, using(crate::proofs::UpdateTopLemmas::update_one_does))]
fn update_one(
    walk: &mut Walk,
    at: Place,
    op: Op,
    x: &Expr,
    y: &Expr,
    flaws: &mut Vec<Flaw>,
    out: &mut Vec<CoreStmt>,
) -> Result<(), NoMemory>
    ensures does { OnOk result (Does (go.update at op (exprs_of (expr_view x.now ∷ [])) (exprs_of (expr_view y.now ∷ []))) walk.old walk.new flaws.old.items flaws.new.items out.old.items out.new.items) }
{
    both_used(walk, x, y)?;
    match update_used(walk, at, op, x, y, flaws, out) {
        Ok(()) => Ok(()),
        Err(error) => Err(error),
    }
}

// Left sides and right sides that are used, and typed over one table of types.
#[tactic(auto, using(crate::proofs::UpdateTopLemmas::uses_all_two))]
fn all_sides_used(walk: &mut Walk, xs: &[Expr], ys: &[Expr]) -> Result<(), NoMemory>
    ensures moves { OnOk result (Moves (λ w. uses_all (exprs_of (map expr_view xs.now)) (uses_all (exprs_of (map expr_view ys.now)) w)) walk.old walk.new) }
    ensures env { OnOk result (walk.new.env ≡ walk.old.env) }
{
    all_used(walk, ys)?;
    match all_used(walk, xs) {
        Ok(()) => Ok(()),
        Err(error) => Err(error),
    }
}

#[tactic(auto, using(crate::proofs::UpdateTopLemmas::lefts_later, crate::proofs::UpdateTopLemmas::lefts_below_later, crate::proofs::UpdateTopLemmas::raws_earlier, go_assign::proofs::WalkLemmas::stays_on))]
fn sides(walk: &mut Walk, xs: &[Expr], ys: &[Expr]) -> Result<(Lefts, Raws), NoMemory>
    ensures lefts { IfOk result (λ r. lefts_view (types_of walk.new.env) r.0 ≡ lefts_of (walk_outside walk.old.env) (map expr_view xs.now)) }
    ensures raws { IfOk result (λ r. raws_view (types_of walk.new.env) r.1 ≡ raws_of (names_of walk.old.env) (scopes_of walk.old.env) (map expr_view ys.now)) }
    ensures lefts_below { IfOk result (λ r. LeftsBelow (size (table_of walk.new.env)) r.0) }
    ensures raws_below { IfOk result (λ r. RawsBelow (size (table_of walk.new.env)) r.1) }
    ensures stays { OnOk result (Stays walk.old walk.new) }
{
    let lefts = lefts_in(walk, xs)?;
    match all_typed(walk, ys) {
        Ok(raws) => Ok((lefts, raws)),
        Err(error) => Err(error),
    }
}

// More than one on a side, or none (84).
#[tactic(auto, using(crate::proofs::UpdateTopLemmas::update_not_does))]
fn update_not(
    walk: &mut Walk,
    at: Place,
    xs: &[Expr],
    ys: &[Expr],
    flaws: &mut Vec<Flaw>,
) -> Result<(), NoMemory>
    ensures does { OnOk result ((out : List statement.CoreStmt) → Does (updates_not at (exprs_of (map expr_view xs.now)) (exprs_of (map expr_view ys.now))) walk.old walk.new flaws.old.items flaws.new.items out out) }
{
    let alloc = *flaws.allocator();
    all_sides_used(walk, xs, ys)?;
    match sides(walk, xs, ys) {
        Ok(parts) => {
            let (lefts, raws) = parts;
            match miscounted(alloc, &walk.env, at, lefts, raws, flaws) {
                Ok(()) => Ok(()),
                Err(error) => Err(error),
            }
        }
        Err(error) => Err(error),
    }
}

/// An assignment of what an operator gives between a left side and a value. There is one of each.
///
/// Go, "Assignments".
#[tactic(auto, using(crate::proofs::UpdateTopLemmas::update_single))]
pub fn update(
    walk: &mut Walk,
    at: Place,
    op: Op,
    xs: &[Expr],
    ys: &[Expr],
    flaws: &mut Vec<Flaw>,
    out: &mut Vec<CoreStmt>,
) -> Result<(), NoMemory>
    ensures does { OnOk result (Does (go.update at op (exprs_of (map expr_view xs.now)) (exprs_of (map expr_view ys.now))) walk.old walk.new flaws.old.items flaws.new.items out.old.items out.new.items) }
{
    if xs.len() != 1 {
        return match update_not(walk, at, xs, ys, flaws) {
            Ok(()) => Ok(()),
            Err(error) => Err(error),
        };
    }
    if ys.len() != 1 {
        return match update_not(walk, at, xs, ys, flaws) {
            Ok(()) => Ok(()),
            Err(error) => Err(error),
        };
    }
    match update_one(walk, at, op, &xs[0], &ys[0], flaws, out) {
        Ok(()) => Ok(()),
        Err(error) => Err(error),
    }
}

// ---- `x++` and `x--`

// The untyped constant 1.
fn one(alloc: Global, at: Place) -> Raw
    ensures view { (ts : List Ty) → raw_view ts result ≡ record { part = go.one_ at; flaws = [] } }
    ensures within { (n : ℕ) → RawBelow n result }
{
    Raw {
        part: Part {
            place: at,
            answer: Answer::Constant(Const::Int(1)),
        },
        flaws: Vec::new(alloc),
    }
}

fn step_op(up: bool) -> Op
    ensures value { result ≡ go.step_op up }
{
    match up {
        true => Op::Add,
        false => Op::Sub,
    }
}

// What comes of it once the variable is used.
#[tactic(auto, using(crate::proofs::UpdateTopLemmas::left_later, crate::proofs::UpdateTopLemmas::update_gives))]
fn step_used(
    walk: &mut Walk,
    at: Place,
    op: Op,
    x: &Expr,
    flaws: &mut Vec<Flaw>,
    out: &mut Vec<CoreStmt>,
) -> Result<(), NoMemory>
    ensures does { OnOk result (Does (λ w. go.update_left w at op (expr_view x.now) (go.one_ at) [] (go.left_of w (expr_view x.now)) w) walk.old walk.new flaws.old.items flaws.new.items out.old.items out.new.items) }
{
    let alloc = *flaws.allocator();
    let p = place_in(x);
    let left = left_in(walk, x)?;
    match one_typed(walk, x) {
        Ok(held) => {
            let raw = one(alloc, at);
            match update_with(alloc, &walk.env, at, op, left, p, held, raw, flaws, out) {
                Ok(()) => Ok(()),
                Err(error) => Err(error),
            }
        }
        Err(error) => Err(error),
    }
}

#[tactic(auto, using(crate::proofs::UpdateTopLemmas::step_one_does))]
fn step_one(
    walk: &mut Walk,
    at: Place,
    x: &Expr,
    up: bool,
    flaws: &mut Vec<Flaw>,
    out: &mut Vec<CoreStmt>,
) -> Result<(), NoMemory>
    ensures does { OnOk result (Does (go.step at (exprs_of (expr_view x.now ∷ [])) up) walk.old walk.new flaws.old.items flaws.new.items out.old.items out.new.items) }
{
    used(walk, x)?;
    match step_used(walk, at, step_op(up), x, flaws, out) {
        Ok(()) => Ok(()),
        Err(error) => Err(error),
    }
}

// More than one, or none (84).
#[tactic(auto, using(crate::proofs::UpdateTopLemmas::step_not_does))]
fn step_not(walk: &mut Walk, at: Place, xs: &[Expr], flaws: &mut Vec<Flaw>) -> Result<(), NoMemory>
    ensures does { OnOk result ((out : List statement.CoreStmt) → Does (steps_not at (exprs_of (map expr_view xs.now))) walk.old walk.new flaws.old.items flaws.new.items out out) }
{
    let alloc = *flaws.allocator();
    all_used(walk, xs)?;
    match all_typed(walk, xs) {
        Ok(raws) => {
            let lefts = Lefts {
                items: Vec::new(alloc),
            };
            match miscounted(alloc, &walk.env, at, lefts, raws, flaws) {
                Ok(()) => Ok(()),
                Err(error) => Err(error),
            }
        }
        Err(error) => Err(error),
    }
}

/// `x++` and `x--`: the assignment of one more, or of one less.
///
/// Go, "IncDec statements".
#[tactic(auto, using(crate::proofs::UpdateTopLemmas::step_single))]
pub fn step(
    walk: &mut Walk,
    at: Place,
    xs: &[Expr],
    up: bool,
    flaws: &mut Vec<Flaw>,
    out: &mut Vec<CoreStmt>,
) -> Result<(), NoMemory>
    ensures does { OnOk result (Does (go.step at (exprs_of (map expr_view xs.now)) up) walk.old walk.new flaws.old.items flaws.new.items out.old.items out.new.items) }
{
    if xs.len() != 1 {
        return match step_not(walk, at, xs, flaws) {
            Ok(()) => Ok(()),
            Err(error) => Err(error),
        };
    }
    match step_one(walk, at, &xs[0], up, flaws, out) {
        Ok(()) => Ok(()),
        Err(error) => Err(error),
    }
}
