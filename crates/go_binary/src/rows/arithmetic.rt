//! Arithmetic operators, and `+` of strings.
//!
//! Go, "Arithmetic operators", "Integer operators", "String concatenation".

ghost use Rattle.std.specs.Prelude.{◌≡◌, ◌<◌, IfOk, List, Some, None, ℕ, if◌then◌else◌};
ghost use Rattle.go_const.specs.Operation.{whole_of};
ghost use Rattle.go_const.specs.Answer.{zero_division, binary_answer};
ghost use Rattle.go_type.specs.Tree as ty;
ghost use Rattle.go_type.specs.Tree.{Ty};
ghost use Rattle.go_type.specs.Levels.{tree_of};
ghost use Rattle.go_type.specs.Underlying.{underlying};
ghost use Rattle.go_type.specs.Table.{places, names, size};
ghost use Rattle.go_core.specs.CoreTree as core;
ghost use Rattle.go_core.specs.CoreView.{expr_view};
ghost use Rattle.go_typing.specs.Answer.{bad, value, pending, joined};
ghost use Rattle.go_typing.specs.Operand.{folded_untyped};
ghost use Rattle.go_typing.specs.Binary.{is_add, zero_by, divides_by_zero, integers, texts, sum_of, sum_of_constants, sum_of_numbers, arithmetic};
ghost use Rattle.go_operands.specs.AnswerView.{answer_view, pending_view};
ghost use Rattle.go_operands.specs.Below.{AnswerBelow};
ghost use Rattle.go_binary.specs.MatchView.{match_view, MatchBelow};
ghost use Rattle.go_binary.specs.Fixed.{is_fixed_zero};

use crate::matched::sides::{Match, Side, gone_side};
use crate::shifts::shift::node_of;
use gj_base::{NoMemory, Op, Place};
use go_const::Const;
use go_core::node::CoreExpr;
use go_operands::answers::answer::{Answer, Pending, PendingForm};
use go_operands::answers::fold::{folded, folded_untyped};
use go_operands::answers::gone::gone_pending;
use go_operands::answers::number;
use go_operands::answers::rule::{bad, made};
use go_operands::nodes::gone::gone_expr;
use go_operands::nodes::pair;
use go_operands::rules::kind::{number_kind, under};
use go_operands::rules::operator::binary_of;
use go_type::TypeTable;
use go_type::types::{Basis, GoType, TypeId};
use std::alloc::Global;

fn is_add(op: Op) -> bool
    ensures { result ≡ is_add op }
{
    matches!(op, Op::Add)
}

fn zero_divisor(op: Op, z: i128) -> bool
    ensures { result ≡ zero_division op z }
{
    match op {
        Op::Div | Op::Rem => z == 0,
        _ => false,
    }
}

fn zero_by(op: Op, k: &Const) -> bool
    ensures { result ≡ zero_by op (whole_of k.now) }
{
    match k {
        Const::Int(z) | Const::Rune(z) => zero_divisor(op, *z),
        Const::Bool(_) | Const::Text(_) => false,
    }
}

fn divides_by_zero(table: &TypeTable, op: Op, w: &Option<Const>) -> bool
    ensures { result ≡ divides_by_zero (names table.now) op w.now }
{
    let _ = table;
    match w {
        None => false,
        Some(k) => zero_by(op, k),
    }
}

fn concat_of(
    alloc: Global,
    table: &TypeTable,
    ty: TypeId,
    c: CoreExpr,
    d: CoreExpr,
) -> Result<Answer, NoMemory>
    requires within { ty.0 < size table.now }
    ensures view { IfOk result (λ a. answer_view (places table.now) a ≡ value (core.concat (tree_of (places table.now) ty) (expr_view (places table.now) c) (expr_view (places table.now) d)) (tree_of (places table.now) ty) None) }
    ensures within { IfOk result (λ a. AnswerBelow (size table.now) a) }
{
    let _ = table;
    match pair::concat(alloc, ty, c, d) {
        Ok(core) => Ok(made(core, ty)),
        Err(error) => Err(error),
    }
}

fn integers(
    alloc: Global,
    table: &TypeTable,
    at: Place,
    op: Op,
    ty: TypeId,
    left: Side,
    right: Side,
) -> Result<Answer, NoMemory>
    requires within { ty.0 < size table.now }
    ensures view { IfOk result (λ a. answer_view (places table.now) a ≡ integers (names table.now) at op (tree_of (places table.now) ty) (expr_view (places table.now) left.core) left.value (expr_view (places table.now) right.core) right.value) }
    ensures within { IfOk result (λ a. AnswerBelow (size table.now) a) }
{
    let Side { core: c, value: v } = left;
    let Side { core: d, value: w } = right;
    match v {
        Some(k) => match w {
            Some(l) => {
                gone_expr(c);
                gone_expr(d);
                let answer = binary_of(alloc, op, &k, &l, number_kind(table, ty));
                folded(alloc, table, at, ty, answer)
            }
            None => node_of(alloc, table, op, ty, c, d),
        },
        None => node_of(alloc, table, op, ty, c, d),
    }
}

fn texts(
    alloc: Global,
    table: &TypeTable,
    at: Place,
    ty: TypeId,
    left: Side,
    right: Side,
) -> Result<Answer, NoMemory>
    requires within { ty.0 < size table.now }
    ensures view { IfOk result (λ a. answer_view (places table.now) a ≡ texts (names table.now) at (tree_of (places table.now) ty) (expr_view (places table.now) left.core) left.value (expr_view (places table.now) right.core) right.value) }
    ensures within { IfOk result (λ a. AnswerBelow (size table.now) a) }
{
    let Side { core: c, value: v } = left;
    let Side { core: d, value: w } = right;
    match v {
        Some(k) => match w {
            Some(l) => {
                gone_expr(c);
                gone_expr(d);
                let answer = binary_of(alloc, Op::Add, &k, &l, None);
                folded(alloc, table, at, ty, answer)
            }
            None => concat_of(alloc, table, ty, c, d),
        },
        None => concat_of(alloc, table, ty, c, d),
    }
}

// Sides that have no such operator.
fn no_operator(alloc: Global, at: Place, left: Side, right: Side) -> Result<Answer, NoMemory>
    ensures view { IfOk result (λ a. (ts : List Ty) → answer_view ts a ≡ bad at 55) }
    ensures within { IfOk result (λ a. (n : ℕ) → AnswerBelow n a) }
{
    gone_side(left);
    gone_side(right);
    bad(alloc, at, 55)
}

fn sum_of(
    alloc: Global,
    table: &TypeTable,
    at: Place,
    op: Op,
    q: Place,
    ty: TypeId,
    left: Side,
    right: Side,
) -> Result<Answer, NoMemory>
    requires within { ty.0 < size table.now }
    ensures view { IfOk result (λ a. answer_view (places table.now) a ≡ sum_of (names table.now) at op q (underlying (names table.now) (tree_of (places table.now) ty)) (tree_of (places table.now) ty) (expr_view (places table.now) left.core) left.value (expr_view (places table.now) right.core) right.value) }
    ensures within { IfOk result (λ a. AnswerBelow (size table.now) a) }
{
    match under(table, ty) {
        GoType::Int(_) => {
            if divides_by_zero(table, op, &right.value) {
                gone_side(left);
                gone_side(right);
                return bad(alloc, q, 30);
            }
            integers(alloc, table, at, op, ty, left, right)
        }
        GoType::Str => {
            if is_add(op) {
                return texts(alloc, table, at, ty, left, right);
            }
            no_operator(alloc, at, left, right)
        }
        _ => no_operator(alloc, at, left, right),
    }
}

fn sum_of_numbers_known(
    alloc: Global,
    table: &TypeTable,
    at: Place,
    op: Op,
    q: Place,
    k: &Const,
    l: &Const,
) -> Result<Answer, NoMemory>
    ensures view { IfOk result (λ a. answer_view (places table.now) a ≡ (if divides_by_zero (names table.now) op (Some l.now) then bad q 30 else folded_untyped at (binary_answer op None k.now l.now))) }
    ensures within { IfOk result (λ a. AnswerBelow (size table.now) a) }
{
    if zero_by(op, l) {
        return bad(alloc, q, 30);
    }
    let answer = binary_of(alloc, op, k, l, None);
    folded_untyped(alloc, at, answer)
}

fn sum_of_constants(
    alloc: Global,
    table: &TypeTable,
    at: Place,
    op: Op,
    q: Place,
    k: Const,
    l: Const,
) -> Result<Answer, NoMemory>
    ensures view { IfOk result (λ a. answer_view (places table.now) a ≡ sum_of_constants (names table.now) at op q k l) }
    ensures within { IfOk result (λ a. AnswerBelow (size table.now) a) }
{
    match k {
        Const::Bool(_) => bad(alloc, at, 55),
        Const::Text(s) => {
            if !is_add(op) {
                return bad(alloc, at, 55);
            }
            let answer = binary_of(alloc, op, &Const::Text(s), &l, None);
            folded_untyped(alloc, at, answer)
        }
        Const::Int(z) => sum_of_numbers_known(alloc, table, at, op, q, &Const::Int(z), &l),
        Const::Rune(z) => sum_of_numbers_known(alloc, table, at, op, q, &Const::Rune(z), &l),
    }
}

fn joined_answer(
    alloc: Global,
    table: &TypeTable,
    op: Op,
    x: Pending,
    y: Pending,
    basis: Basis,
) -> Result<Answer, NoMemory>
    ensures view { IfOk result (λ a. answer_view (places table.now) a ≡ pending (joined op (pending_view (places table.now) x) (pending_view (places table.now) y)) basis) }
    ensures within { IfOk result (λ a. AnswerBelow (size table.now) a) }
{
    match number::joined(alloc, op, x, y) {
        Ok(p) => Ok(Answer::Pending(p, basis)),
        Err(error) => Err(error),
    }
}

// Whether the number is a constant zero that would divide.
fn is_fixed_zero(table: &TypeTable, op: Op, y: &Pending) -> bool
    ensures { result ≡ is_fixed_zero op (pending_view (places table.now) y.now) }
{
    let _ = table;
    match &*y.form {
        PendingForm::Fixed { value, .. } => zero_by(op, value),
        PendingForm::Shifted { .. } => false,
        PendingForm::Further { .. } => false,
        PendingForm::Signed { .. } => false,
        PendingForm::Joined { .. } => false,
    }
}

#[tactic(auto, using(crate::proofs::NumberLemmas::sum_is))]
fn sum_of_numbers(
    alloc: Global,
    table: &TypeTable,
    op: Op,
    q: Place,
    x: Pending,
    y: Pending,
    basis: Basis,
) -> Result<Answer, NoMemory>
    ensures view { IfOk result (λ a. answer_view (places table.now) a ≡ sum_of_numbers (names table.now) op q (pending_view (places table.now) x) (pending_view (places table.now) y) basis) }
    ensures within { IfOk result (λ a. AnswerBelow (size table.now) a) }
{
    if is_fixed_zero(table, op, &y) {
        gone_pending(x);
        gone_pending(y);
        return bad(alloc, q, 30);
    }
    joined_answer(alloc, table, op, x, y, basis)
}

/// An arithmetic operator between operands of one type, the second of which stands at `q`.
pub fn arithmetic(
    alloc: Global,
    table: &TypeTable,
    at: Place,
    op: Op,
    q: Place,
    sides: Match,
) -> Result<Answer, NoMemory>
    requires within { MatchBelow (size table.now) sides }
    ensures view { IfOk result (λ a. answer_view (places table.now) a ≡ arithmetic (names table.now) at op q (match_view (places table.now) sides)) }
    ensures within { IfOk result (λ a. AnswerBelow (size table.now) a) }
{
    match sides {
        Match::Alike(ty, left, right) => sum_of(alloc, table, at, op, q, ty, left, right),
        Match::Constants(k, l) => sum_of_constants(alloc, table, at, op, q, k, l),
        Match::Truths(c, d) => {
            gone_expr(c);
            gone_expr(d);
            bad(alloc, at, 55)
        }
        Match::Numbers(x, y, basis) => sum_of_numbers(alloc, table, op, q, x, y, basis),
        Match::Unfit(flaws) => Ok(Answer::Wrong(flaws)),
        Match::Differ => bad(alloc, at, 55),
    }
}
