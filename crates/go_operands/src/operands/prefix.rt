//! `+`, `-`, `^` and `!` before an operand.
//!
//! Go, "Arithmetic operators", "Logical operators".

ghost use Rattle.std.specs.Prelude.{◌≡◌, ◌<◌, IfOk, IfSome, None, option_map, if◌then◌else◌};
ghost use Rattle.go_type.specs.Levels.{tree_of};
ghost use Rattle.go_type.specs.Underlying.{underlying};
ghost use Rattle.go_type.specs.Table.{places, names, size};
ghost use Rattle.go_core.specs.CoreView.{expr_view};
ghost use Rattle.go_type.specs.Tree as ty;
ghost use Rattle.go_core.specs.CoreTree as core;
ghost use Rattle.go_const.specs.Answer.{unary_answer};
ghost use Rattle.go_typing.specs.Answer.{bad, pending, signed, unless};
ghost use Rattle.go_operands.specs.Parts.{part};
ghost use Rattle.go_typing.specs.Operand.{default_type, folded_untyped, pending_flaws, truth_value};
ghost use Rattle.go_typing.specs.Unary.{is_not, has_operator, constant_has_operator, with_operator, unary_operand, unary_row, unary_value};
ghost use Rattle.go_operands.specs.AnswerView.{operand_view, answer_view, pending_view};
ghost use Rattle.go_operands.specs.RulesReady.{HasPredeclared};
ghost use Rattle.go_operands.specs.Below.{OperandBelow, AnswerBelow};

use crate::answers::answer::{Answer, Found, Operand, Pending};
use crate::answers::fold::{folded, folded_untyped};
use crate::answers::gone::{gone_answer, gone_found, gone_pending};
use crate::answers::number;
use crate::answers::rule::{bad, is_known, made};
use crate::nodes::gone::gone_expr;
use crate::nodes::node;
use crate::operands::operand::{pending_bad, single};
use crate::rules::constant::is_number;
use crate::rules::kind::{bool_type, is_bool, is_int, number_kind};
use crate::rules::operator::unary_of;
use gj_base::{NoMemory, Op, Place};
use go_const::Const;
use go_core::node::CoreExpr;
use go_type::TypeTable;
use go_type::types::{Basis, TypeId};
use std::alloc::Global;

fn is_not(op: Op) -> bool
    ensures { result ≡ is_not op }
{
    matches!(op, Op::Not)
}

fn has_operator(table: &TypeTable, op: Op, t: TypeId) -> bool
    requires { t.0 < size table.now }
    ensures { result ≡ has_operator op (underlying (names table.now) (tree_of (places table.now) t)) }
{
    match op {
        Op::Not => is_bool(table, t),
        _ => is_int(table, t),
    }
}

fn constant_has_operator(op: Op, k: &Const) -> bool
    ensures { result ≡ constant_has_operator op k.now }
{
    match op {
        Op::Not => match k {
            Const::Bool(_) => true,
            Const::Int(_) | Const::Rune(_) | Const::Text(_) => false,
        },
        _ => is_number(k),
    }
}

#[tactic(auto, using(crate::proofs::SignLemmas::not_before, crate::proofs::SignLemmas::sign_before))]
fn with_operator(
    alloc: Global,
    table: &TypeTable,
    op: Op,
    t: TypeId,
    c: CoreExpr,
) -> Result<CoreExpr, NoMemory>
    ensures value { IfOk result (λ e. expr_view (places table.now) e ≡ with_operator op (tree_of (places table.now) t) (expr_view (places table.now) c)) }
{
    let _ = table;
    if is_not(op) {
        return node::not(alloc, t, c);
    }
    node::unary(alloc, op, t, c)
}

// An operator before a value that the type has it for.
fn typed_value(
    alloc: Global,
    table: &TypeTable,
    at: Place,
    op: Op,
    found: Found,
) -> Result<Answer, NoMemory>
    requires within { found.ty.0 < size table.now }
    ensures view { IfOk result (λ a. answer_view (places table.now) a ≡ unary_value (names table.now) at op (expr_view (places table.now) found.core) (tree_of (places table.now) found.ty) found.value) }
    ensures within { IfOk result (λ a. AnswerBelow (size table.now) a) }
{
    let Found { core, ty, value } = found;
    match value {
        None => match with_operator(alloc, table, op, ty, core) {
            Ok(core) => Ok(made(core, ty)),
            Err(error) => Err(error),
        },
        Some(k) => {
            gone_expr(core);
            let answer = unary_of(alloc, op, &k, number_kind(table, ty));
            folded(alloc, table, at, ty, answer)
        }
    }
}

fn typed(
    alloc: Global,
    table: &TypeTable,
    at: Place,
    op: Op,
    found: Found,
) -> Result<Answer, NoMemory>
    requires within { found.ty.0 < size table.now }
    ensures view { IfOk result (λ a. answer_view (places table.now) a ≡ (if has_operator op (underlying (names table.now) (tree_of (places table.now) found.ty)) then unary_value (names table.now) at op (expr_view (places table.now) found.core) (tree_of (places table.now) found.ty) found.value else bad at 54)) }
    ensures within { IfOk result (λ a. AnswerBelow (size table.now) a) }
{
    if has_operator(table, op, found.ty) {
        return typed_value(alloc, table, at, op, found);
    }
    gone_found(found);
    bad(alloc, at, 54)
}

fn constant(
    alloc: Global,
    table: &TypeTable,
    at: Place,
    op: Op,
    k: Const,
) -> Result<Answer, NoMemory>
    ensures view { IfOk result (λ a. answer_view (places table.now) a ≡ (if constant_has_operator op k then folded_untyped at (unary_answer op None k) else bad at 54)) }
    ensures within { IfOk result (λ a. AnswerBelow (size table.now) a) }
{
    if constant_has_operator(op, &k) {
        let answer = unary_of(alloc, op, &k, None);
        return folded_untyped(alloc, at, answer);
    }
    bad(alloc, at, 54)
}

fn truth(
    alloc: Global,
    table: &TypeTable,
    at: Place,
    op: Op,
    c: CoreExpr,
) -> Result<Answer, NoMemory>
    requires table { HasPredeclared table.now }
    ensures view { IfOk result (λ a. answer_view (places table.now) a ≡ (if is_not op then truth_value (core.not_ ty.bool (expr_view (places table.now) c)) else bad at 54)) }
    ensures within { IfOk result (λ a. AnswerBelow (size table.now) a) }
{
    if !is_not(op) {
        gone_expr(c);
        return bad(alloc, at, 54);
    }
    match node::not(alloc, bool_type(table), c) {
        Ok(core) => Ok(Answer::Truth(core)),
        Err(error) => Err(error),
    }
}

fn signed(
    alloc: Global,
    table: &TypeTable,
    op: Op,
    p: Pending,
    basis: Basis,
) -> Result<Answer, NoMemory>
    ensures view { IfOk result (λ a. answer_view (places table.now) a ≡ pending (signed op (pending_view (places table.now) p)) basis) }
    ensures within { IfOk result (λ a. AnswerBelow (size table.now) a) }
{
    match number::signed(alloc, op, p) {
        Ok(p) => Ok(Answer::Pending(p, basis)),
        Err(error) => Err(error),
    }
}

fn pending(
    alloc: Global,
    table: &TypeTable,
    at: Place,
    op: Op,
    p: Pending,
    basis: Basis,
) -> Result<Answer, NoMemory>
    requires table { HasPredeclared table.now }
    ensures view { IfOk result (λ a. answer_view (places table.now) a ≡ (if is_not op then unless (pending_flaws (names table.now) (default_type basis) (pending_view (places table.now) p)) (bad at 54) else pending (signed op (pending_view (places table.now) p)) basis)) }
    ensures within { IfOk result (λ a. AnswerBelow (size table.now) a) }
{
    if is_not(op) {
        return pending_bad(alloc, table, at, 54, p, basis);
    }
    signed(alloc, table, op, p, basis)
}

// An operator before an operand that stands at `p`.
fn operand(
    alloc: Global,
    table: &TypeTable,
    at: Place,
    op: Op,
    p: Place,
    x: Option<Operand>,
) -> Result<Answer, NoMemory>
    requires table { HasPredeclared table.now }
    requires within { IfSome x (λ y. OperandBelow (size table.now) y) }
    ensures view { IfOk result (λ a. answer_view (places table.now) a ≡ unary_operand (names table.now) at op p (option_map (operand_view (places table.now)) x)) }
    ensures within { IfOk result (λ a. AnswerBelow (size table.now) a) }
{
    match x {
        None => bad(alloc, p, 52),
        Some(x) => match x {
            Operand::Typed(found) => typed(alloc, table, at, op, found),
            Operand::Constant(k) => constant(alloc, table, at, op, k),
            Operand::Truth(c) => truth(alloc, table, at, op, c),
            Operand::Pending(n, basis) => pending(alloc, table, at, op, n, basis),
            Operand::Nil => bad(alloc, p, 73),
        },
    }
}

/// `+`, `-`, `^` or `!` before what stands at `p`.
pub fn unary(
    alloc: Global,
    table: &TypeTable,
    at: Place,
    op: Op,
    p: Place,
    x: Answer,
) -> Result<Answer, NoMemory>
    requires table { HasPredeclared table.now }
    requires within { AnswerBelow (size table.now) x }
    ensures view { IfOk result (λ a. answer_view (places table.now) a ≡ unary_row (names table.now) at op (part p (answer_view (places table.now) x))) }
    ensures within { IfOk result (λ a. AnswerBelow (size table.now) a) }
{
    if !is_known(&x) {
        gone_answer(x);
        return Ok(Answer::Unknown);
    }
    operand(alloc, table, at, op, p, single(table, x))
}
