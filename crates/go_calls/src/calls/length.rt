//! `len`, of strings.
//!
//! Go, "Length and capacity": the length of a constant string is a constant.

ghost use Rattle.std.specs.Prelude as lists;
ghost use Rattle.std.specs.Prelude.{◌≡◌, ◌<◌, IfOk, None, Some, false, pos};
ghost use Rattle.gj_base.specs.declared.kind.Kind.TheVariants.{I32};
ghost use Rattle.go_const.specs.Answer.{settled_of};
ghost use Rattle.go_type.specs.Tree as ty;
ghost use Rattle.go_type.specs.Levels.{tree_of};
ghost use Rattle.go_type.specs.Underlying.{underlying};
ghost use Rattle.go_type.specs.Table.{places, names, size};
ghost use Rattle.go_core.specs.CoreTree as core;
ghost use Rattle.go_core.specs.CoreView.{expr_view};
ghost use Rattle.go_typing.specs.Env.{int_type, Len, name_of_builtin};
ghost use Rattle.go_typing.specs.Answer.{value, bad_name, unless};
ghost use Rattle.go_typing.specs.Operand.{default_type, pending_flaws};
ghost use Rattle.go_typing.specs.Call.{each, constant_length, length_of_typed, length_of_constant, length_row, length_given};
ghost use Rattle.go_operands.specs.AnswerView.{answer_view, operand_view, pending_view};
ghost use Rattle.go_operands.specs.Below.{AnswerBelow, OperandBelow};
ghost use Rattle.go_operands.specs.RulesReady.{HasPredeclared};
ghost use Rattle.go_calls.specs.CallView.{operands_view, AllBelow, PlacedBelow};

use crate::calls::named::bad_name;
use crate::given::gone::gone_all;
use crate::given::kinds::Placed;
use gj_base::{Kind, NoMemory, Place, Text};
use go_const::range::settled;
use go_const::{Const, ConstRefusal};
use go_core::node::CoreExpr;
use go_operands::answers::answer::{Answer, Found, Operand, Pending};
use go_operands::answers::fold::folded;
use go_operands::answers::gone::{gone_found, gone_pending};
use go_operands::answers::pending::pending_flaws;
use go_operands::answers::rule::{bad, made, unless};
use go_operands::nodes::gone::gone_expr;
use go_operands::nodes::node;
use go_operands::rules::kind::{default_type, int_type, under};
use go_type::TypeTable;
use go_type::types::{Basis, GoType, TypeId};
use std::alloc::Global;

// An argument that has no length.
fn no_length(alloc: Global, table: &TypeTable, at: Place) -> Result<Answer, NoMemory>
    ensures view { IfOk result (λ a. answer_view (places table.now) a ≡ bad_name at 72 (name_of_builtin Len)) }
    ensures within { IfOk result (λ a. AnswerBelow (size table.now) a) }
{
    let _ = table;
    bad_name(alloc, at, 72, b"len")
}

fn bytes_in(bytes: &Text) -> i128
    ensures { result ≡ pos (lists.length bytes.now) }
{
    bytes.as_bytes().len() as i128
}

// A number as an `int`.
fn int_of(z: i128) -> Result<Const, ConstRefusal>
    ensures { result ≡ settled_of (Some I32) false z }
{
    settled(Some(Kind::I32), false, Some(z))
}

fn counted(bytes: &Text) -> Result<Const, ConstRefusal>
    ensures { result ≡ settled_of (Some I32) false (pos (lists.length bytes.now)) }
{
    int_of(bytes_in(bytes))
}

// The length of a constant string.
fn constant_length(
    alloc: Global,
    table: &TypeTable,
    at: Place,
    bytes: &Text,
) -> Result<Answer, NoMemory>
    requires table { HasPredeclared table.now }
    ensures view { IfOk result (λ a. answer_view (places table.now) a ≡ constant_length at bytes.now) }
    ensures within { IfOk result (λ a. AnswerBelow (size table.now) a) }
{
    let answer = counted(bytes);
    folded(alloc, table, at, int_type(table), answer)
}

fn text_length(alloc: Global, table: &TypeTable, t: TypeId, c: CoreExpr) -> Result<Answer, NoMemory>
    requires table { HasPredeclared table.now }
    ensures view { IfOk result (λ a. answer_view (places table.now) a ≡ value (core.len (tree_of (places table.now) t) (expr_view (places table.now) c)) int_type None) }
    ensures within { IfOk result (λ a. AnswerBelow (size table.now) a) }
{
    match node::len(alloc, t, c) {
        Ok(core) => Ok(made(core, int_type(table))),
        Err(error) => Err(error),
    }
}

// The length of a constant string that has a node.
fn constant_text(
    alloc: Global,
    table: &TypeTable,
    at: Place,
    bytes: &Text,
    c: CoreExpr,
) -> Result<Answer, NoMemory>
    requires table { HasPredeclared table.now }
    ensures view { IfOk result (λ a. answer_view (places table.now) a ≡ constant_length at bytes.now) }
    ensures within { IfOk result (λ a. AnswerBelow (size table.now) a) }
{
    gone_expr(c);
    constant_length(alloc, table, at, bytes)
}

// A string with its type.
fn of_text(alloc: Global, table: &TypeTable, at: Place, found: Found) -> Result<Answer, NoMemory>
    requires table { HasPredeclared table.now }
    ensures view { IfOk result (λ a. answer_view (places table.now) a ≡ length_of_typed (names table.now) at (expr_view (places table.now) found.core) (tree_of (places table.now) found.ty) ty.str found.value) }
    ensures within { IfOk result (λ a. AnswerBelow (size table.now) a) }
{
    let Found { core, ty, value } = found;
    match value {
        Some(Const::Text(bytes)) => constant_text(alloc, table, at, &bytes, core),
        _ => text_length(alloc, table, ty, core),
    }
}

fn typed(alloc: Global, table: &TypeTable, at: Place, found: Found) -> Result<Answer, NoMemory>
    requires table { HasPredeclared table.now }
    requires within { found.ty.0 < size table.now }
    ensures view { IfOk result (λ a. answer_view (places table.now) a ≡ length_of_typed (names table.now) at (expr_view (places table.now) found.core) (tree_of (places table.now) found.ty) (underlying (names table.now) (tree_of (places table.now) found.ty)) found.value) }
    ensures within { IfOk result (λ a. AnswerBelow (size table.now) a) }
{
    match under(table, found.ty) {
        GoType::Str => of_text(alloc, table, at, found),
        GoType::Array(_, _)
        | GoType::Slice(_)
        | GoType::Pointer(_)
        | GoType::Map(_, _)
        | GoType::Chan(_, _) => {
            gone_found(found);
            bad(alloc, at, 0)
        }
        _ => {
            gone_found(found);
            no_length(alloc, table, at)
        }
    }
}

fn constant(alloc: Global, table: &TypeTable, at: Place, k: Const) -> Result<Answer, NoMemory>
    requires table { HasPredeclared table.now }
    ensures view { IfOk result (λ a. answer_view (places table.now) a ≡ length_of_constant (names table.now) at k) }
    ensures within { IfOk result (λ a. AnswerBelow (size table.now) a) }
{
    match k {
        Const::Text(bytes) => constant_length(alloc, table, at, &bytes),
        Const::Bool(_) | Const::Int(_) | Const::Rune(_) => no_length(alloc, table, at),
    }
}

fn pending(
    alloc: Global,
    table: &TypeTable,
    at: Place,
    p: Pending,
    basis: Basis,
) -> Result<Answer, NoMemory>
    requires table { HasPredeclared table.now }
    ensures view { IfOk result (λ a. answer_view (places table.now) a ≡ unless (pending_flaws (names table.now) (default_type basis) (pending_view (places table.now) p)) (bad_name at 72 (name_of_builtin Len))) }
    ensures within { IfOk result (λ a. AnswerBelow (size table.now) a) }
{
    let flaws = pending_flaws(alloc, table, default_type(table, basis), &p);
    gone_pending(p);
    match flaws {
        Ok(flaws) => match no_length(alloc, table, at) {
            Ok(answer) => Ok(unless(flaws, answer)),
            Err(error) => Err(error),
        },
        Err(error) => Err(error),
    }
}

fn operand(
    alloc: Global,
    table: &TypeTable,
    at: Place,
    p: Place,
    x: Operand,
) -> Result<Answer, NoMemory>
    requires table { HasPredeclared table.now }
    requires within { OperandBelow (size table.now) x }
    ensures view { IfOk result (λ a. answer_view (places table.now) a ≡ length_row (names table.now) at p (operand_view (places table.now) x)) }
    ensures within { IfOk result (λ a. AnswerBelow (size table.now) a) }
{
    match x {
        Operand::Typed(found) => typed(alloc, table, at, found),
        Operand::Constant(k) => constant(alloc, table, at, k),
        Operand::Truth(c) => {
            gone_expr(c);
            no_length(alloc, table, at)
        }
        Operand::Pending(n, basis) => pending(alloc, table, at, n, basis),
        Operand::Nil => bad(alloc, p, 73),
    }
}

fn one(alloc: Global, table: &TypeTable, at: Place, x: Placed) -> Result<Answer, NoMemory>
    requires table { HasPredeclared table.now }
    requires within { PlacedBelow (size table.now) x }
    ensures view { IfOk result (λ a. answer_view (places table.now) a ≡ length_row (names table.now) at x.place (operand_view (places table.now) x.value)) }
    ensures within { IfOk result (λ a. AnswerBelow (size table.now) a) }
{
    let Placed { place, value } = x;
    operand(alloc, table, at, place, value)
}

/// The length of the one argument.
#[tactic(auto, using(crate::proofs::CountLemmas::other_measured))]
pub fn length(
    alloc: Global,
    table: &TypeTable,
    at: Place,
    operands: Vec<Placed>,
) -> Result<Answer, NoMemory>
    requires table { HasPredeclared table.now }
    requires within { AllBelow (size table.now) operands.items }
    ensures view { IfOk result (λ a. answer_view (places table.now) a ≡ length_given (names table.now) at (each (operands_view (places table.now) operands.items))) }
    ensures within { IfOk result (λ a. AnswerBelow (size table.now) a) }
{
    if operands.len() != 1 {
        gone_all(operands);
        return bad(alloc, at, 60);
    }
    let mut operands = operands;
    let x = operands.take_last();
    gone_all(operands);
    one(alloc, table, at, x)
}
