//! Conversions, for boolean, integer and string types.
//!
//! Go, "Conversions".

ghost use Rattle.std.specs.Prelude.{◌≡◌, ◌<◌, IfOk, None, if◌then◌else◌};
ghost use Rattle.go_const.specs.Operation.{HasConversion};
ghost use Rattle.go_const.specs.Answer.{conversion_of};
ghost use Rattle.go_type.specs.declared.types.IntName.{IntName};
ghost use Rattle.go_type.specs.Tree as ty;
ghost use Rattle.go_type.specs.Levels.{tree_of};
ghost use Rattle.go_type.specs.Underlying.{underlying};
ghost use Rattle.go_type.specs.Table.{places, names, size};
ghost use Rattle.go_core.specs.SameType.{same_type};
ghost use Rattle.go_core.specs.CoreView.{expr_view};
ghost use Rattle.go_typing.specs.Answer.{value, bad, unless};
ghost use Rattle.go_typing.specs.Operand.{typed, folded, is_bool, truth_at, pending_flaws, pending_at};
ghost use Rattle.go_typing.specs.Convert.{converted_constant, converts, converted_typed, converted, conversion_of_one, conversion_of_all, conversion_row};
ghost use Rattle.go_operands.specs.AnswerView.{answer_view, operand_view, pending_view};
ghost use Rattle.go_operands.specs.Below.{AnswerBelow, OperandBelow};
ghost use Rattle.go_operands.specs.RulesReady.{HasPredeclared};
ghost use Rattle.go_calls.specs.CallView.{parts_view, PartsBelow, operands_view, AllBelow, PlacedBelow, OperandsBelow};
ghost use Rattle.go_calls.specs.GivenView.{on_handed, operands_or_not};
ghost use Rattle.go_calls.specs.ConversionAs.{conversion_as};

use crate::given::given::operands_of;
use crate::given::gone::gone_all;
use crate::given::kinds::{Operands, Placed};
use gj_base::{NoMemory, Place};
use go_const::{Basic, Const, convert};
use go_core::node::CoreExpr;
use go_operands::answers::answer::{Answer, Flaws, Found, Operand, Pending};
use go_operands::answers::fold::folded;
use go_operands::answers::gone::{gone_operand, gone_pending};
use go_operands::answers::passed::truth_at;
use go_operands::answers::pending::{pending_at, pending_flaws};
use go_operands::answers::rule::{bad, made};
use go_operands::nodes::gone::gone_expr;
use go_operands::nodes::node;
use go_operands::operands::part::Part;
use go_operands::rules::kind::{is_bool, is_scalar, kind_of, same_type, under};
use go_type::TypeTable;
use go_type::types::{GoType, IntName, TypeId};
use std::alloc::Global;

// ---- constants

fn folded_as(
    alloc: Global,
    table: &TypeTable,
    p: Place,
    t: TypeId,
    k: &Const,
    to: Basic,
) -> Result<Answer, NoMemory>
    requires t { t.0 < size table.now }
    requires conversion { HasConversion k.now to }
    ensures view { IfOk result (λ a. answer_view (places table.now) a ≡ folded p (tree_of (places table.now) t) (conversion_of k.now to)) }
    ensures within { IfOk result (λ a. AnswerBelow (size table.now) a) }
{
    let answer = convert(alloc, k, to);
    folded(alloc, table, p, t, answer)
}

fn truth_constant(
    alloc: Global,
    table: &TypeTable,
    at: Place,
    p: Place,
    t: TypeId,
    k: Const,
) -> Result<Answer, NoMemory>
    requires t { t.0 < size table.now }
    ensures view { IfOk result (λ a. answer_view (places table.now) a ≡ converted_constant at p (tree_of (places table.now) t) ty.bool k) }
    ensures within { IfOk result (λ a. AnswerBelow (size table.now) a) }
{
    match k {
        Const::Bool(b) => folded_as(alloc, table, p, t, &Const::Bool(b), Basic::Bool),
        Const::Int(_) | Const::Rune(_) | Const::Text(_) => bad(alloc, at, 58),
    }
}

fn text_constant(
    alloc: Global,
    table: &TypeTable,
    at: Place,
    p: Place,
    t: TypeId,
    k: Const,
) -> Result<Answer, NoMemory>
    requires t { t.0 < size table.now }
    ensures view { IfOk result (λ a. answer_view (places table.now) a ≡ converted_constant at p (tree_of (places table.now) t) ty.str k) }
    ensures within { IfOk result (λ a. AnswerBelow (size table.now) a) }
{
    match k {
        Const::Bool(_) => bad(alloc, at, 58),
        Const::Text(s) => folded_as(alloc, table, p, t, &Const::Text(s), Basic::Str),
        Const::Int(z) => folded_as(alloc, table, p, t, &Const::Int(z), Basic::Str),
        Const::Rune(z) => folded_as(alloc, table, p, t, &Const::Rune(z), Basic::Str),
    }
}

fn number_constant(
    alloc: Global,
    table: &TypeTable,
    at: Place,
    p: Place,
    t: TypeId,
    name: IntName,
    k: Const,
) -> Result<Answer, NoMemory>
    requires t { t.0 < size table.now }
    ensures view { IfOk result (λ a. answer_view (places table.now) a ≡ converted_constant at p (tree_of (places table.now) t) (ty.int name) k) }
    ensures within { IfOk result (λ a. AnswerBelow (size table.now) a) }
{
    let to = Basic::Int(kind_of(name));
    match k {
        Const::Int(z) => folded_as(alloc, table, p, t, &Const::Int(z), to),
        Const::Rune(z) => folded_as(alloc, table, p, t, &Const::Rune(z), to),
        Const::Bool(_) | Const::Text(_) => bad(alloc, at, 58),
    }
}

// A constant that stands at `p`, as one of a type.
fn constant(
    alloc: Global,
    table: &TypeTable,
    at: Place,
    p: Place,
    t: TypeId,
    k: Const,
) -> Result<Answer, NoMemory>
    requires t { t.0 < size table.now }
    ensures view { IfOk result (λ a. answer_view (places table.now) a ≡ converted_constant at p (tree_of (places table.now) t) (underlying (names table.now) (tree_of (places table.now) t)) k) }
    ensures within { IfOk result (λ a. AnswerBelow (size table.now) a) }
{
    match under(table, t) {
        GoType::Bool => truth_constant(alloc, table, at, p, t, k),
        GoType::Str => text_constant(alloc, table, at, p, t, k),
        GoType::Int(name) => number_constant(alloc, table, at, p, t, *name, k),
        _ => bad(alloc, at, 58),
    }
}

// ---- what is no constant

// Whether the underlying type is the same.
fn shares(table: &TypeTable, from: TypeId, to: TypeId) -> bool
    requires from { from.0 < size table.now }
    requires to { to.0 < size table.now }
    ensures { result ≡ same_type (underlying (names table.now) (tree_of (places table.now) from)) (underlying (names table.now) (tree_of (places table.now) to)) }
{
    same_type(table, table.underlying(from), table.underlying(to))
}

fn int_converts(table: &TypeTable, to: TypeId) -> bool
    requires to { to.0 < size table.now }
    ensures { (name : IntName) → result ≡ converts (ty.int name) (underlying (names table.now) (tree_of (places table.now) to)) }
{
    match under(table, to) {
        GoType::Int(_) | GoType::Str => true,
        _ => false,
    }
}

fn converts(table: &TypeTable, from: TypeId, to: TypeId) -> bool
    requires from { from.0 < size table.now }
    requires to { to.0 < size table.now }
    ensures { result ≡ converts (underlying (names table.now) (tree_of (places table.now) from)) (underlying (names table.now) (tree_of (places table.now) to)) }
{
    match under(table, from) {
        GoType::Int(_) => int_converts(table, to),
        _ => shares(table, from, to),
    }
}

fn value_of(
    alloc: Global,
    table: &TypeTable,
    at: Place,
    t: TypeId,
    u: TypeId,
    c: CoreExpr,
) -> Result<Answer, NoMemory>
    requires t { t.0 < size table.now }
    requires u { u.0 < size table.now }
    ensures view { IfOk result (λ a. answer_view (places table.now) a ≡ converted_typed (names table.now) at (tree_of (places table.now) t) (expr_view (places table.now) c) (tree_of (places table.now) u)) }
    ensures within { IfOk result (λ a. AnswerBelow (size table.now) a) }
{
    if !converts(table, u, t) {
        gone_expr(c);
        return bad(alloc, at, 58);
    }
    match node::convert(alloc, u, t, c) {
        Ok(core) => Ok(made(core, t)),
        Err(error) => Err(error),
    }
}

fn found(
    alloc: Global,
    table: &TypeTable,
    at: Place,
    p: Place,
    t: TypeId,
    x: Found,
) -> Result<Answer, NoMemory>
    requires t { t.0 < size table.now }
    requires within { x.ty.0 < size table.now }
    ensures view { IfOk result (λ a. answer_view (places table.now) a ≡ converted (names table.now) at (tree_of (places table.now) t) p (typed (expr_view (places table.now) x.core) (tree_of (places table.now) x.ty) x.value)) }
    ensures within { IfOk result (λ a. AnswerBelow (size table.now) a) }
{
    let Found { core, ty, value } = x;
    match value {
        None => value_of(alloc, table, at, t, ty, core),
        Some(k) => {
            gone_expr(core);
            constant(alloc, table, at, p, t, k)
        }
    }
}

fn truth(
    alloc: Global,
    table: &TypeTable,
    at: Place,
    t: TypeId,
    c: CoreExpr,
) -> Result<Answer, NoMemory>
    requires table { HasPredeclared table.now }
    requires t { t.0 < size table.now }
    ensures view { IfOk result (λ a. answer_view (places table.now) a ≡ (if is_bool (underlying (names table.now) (tree_of (places table.now) t)) then value (truth_at (tree_of (places table.now) t) (expr_view (places table.now) c)) (tree_of (places table.now) t) None else bad at 58)) }
    ensures within { IfOk result (λ a. AnswerBelow (size table.now) a) }
{
    if !is_bool(table, t) {
        gone_expr(c);
        return bad(alloc, at, 58);
    }
    match truth_at(alloc, table, t, c) {
        Ok(core) => Ok(made(core, t)),
        Err(error) => Err(error),
    }
}

fn number(alloc: Global, table: &TypeTable, t: TypeId, p: Pending) -> Result<Answer, NoMemory>
    requires t { t.0 < size table.now }
    ensures view { IfOk result (λ a. answer_view (places table.now) a ≡ value (pending_at (tree_of (places table.now) t) (pending_view (places table.now) p)) (tree_of (places table.now) t) None) }
    ensures within { IfOk result (λ a. AnswerBelow (size table.now) a) }
{
    match pending_at(alloc, table, t, p) {
        Ok(core) => Ok(made(core, t)),
        Err(error) => Err(error),
    }
}

fn pending(alloc: Global, table: &TypeTable, t: TypeId, p: Pending) -> Result<Answer, NoMemory>
    requires t { t.0 < size table.now }
    ensures view { IfOk result (λ a. answer_view (places table.now) a ≡ unless (pending_flaws (names table.now) (tree_of (places table.now) t) (pending_view (places table.now) p)) (value (pending_at (tree_of (places table.now) t) (pending_view (places table.now) p)) (tree_of (places table.now) t) None)) }
    ensures within { IfOk result (λ a. AnswerBelow (size table.now) a) }
{
    match pending_flaws(alloc, table, t, &p) {
        Ok(items) => {
            if items.is_empty() {
                return number(alloc, table, t, p);
            }
            gone_pending(p);
            Ok(Answer::Wrong(Flaws { items }))
        }
        Err(error) => {
            gone_pending(p);
            Err(error)
        }
    }
}

// An operand that stands at `p`, as a value of a type.
fn converted(
    alloc: Global,
    table: &TypeTable,
    at: Place,
    t: TypeId,
    p: Place,
    x: Operand,
) -> Result<Answer, NoMemory>
    requires table { HasPredeclared table.now }
    requires t { t.0 < size table.now }
    requires within { OperandBelow (size table.now) x }
    ensures view { IfOk result (λ a. answer_view (places table.now) a ≡ converted (names table.now) at (tree_of (places table.now) t) p (operand_view (places table.now) x)) }
    ensures within { IfOk result (λ a. AnswerBelow (size table.now) a) }
{
    match x {
        Operand::Typed(x) => found(alloc, table, at, p, t, x),
        Operand::Constant(k) => constant(alloc, table, at, p, t, k),
        Operand::Truth(c) => truth(alloc, table, at, t, c),
        Operand::Pending(n, _basis) => pending(alloc, table, t, n),
        Operand::Nil => bad(alloc, at, 58),
    }
}

fn one(
    alloc: Global,
    table: &TypeTable,
    at: Place,
    t: TypeId,
    x: Placed,
) -> Result<Answer, NoMemory>
    requires table { HasPredeclared table.now }
    requires t { t.0 < size table.now }
    requires within { PlacedBelow (size table.now) x }
    ensures view { IfOk result (λ a. answer_view (places table.now) a ≡ conversion_of_one (names table.now) at (tree_of (places table.now) t) x.place (operand_view (places table.now) x.value)) }
    ensures within { IfOk result (λ a. AnswerBelow (size table.now) a) }
{
    let Placed { place, value } = x;
    if !is_scalar(table, t) {
        gone_operand(value);
        return bad(alloc, at, 0);
    }
    converted(alloc, table, at, t, place, value)
}

#[tactic(auto, using(crate::proofs::ConversionLemmas::other_converts))]
fn all(
    alloc: Global,
    table: &TypeTable,
    at: Place,
    t: TypeId,
    operands: Vec<Placed>,
) -> Result<Answer, NoMemory>
    requires table { HasPredeclared table.now }
    requires t { t.0 < size table.now }
    requires within { AllBelow (size table.now) operands.items }
    ensures view { IfOk result (λ a. answer_view (places table.now) a ≡ conversion_of_all (names table.now) at (tree_of (places table.now) t) (operands_view (places table.now) operands.items)) }
    ensures within { IfOk result (λ a. AnswerBelow (size table.now) a) }
{
    if operands.len() != 1 {
        gone_all(operands);
        return bad(alloc, at, 60);
    }
    let mut operands = operands;
    let x = operands.take_last();
    gone_all(operands);
    one(alloc, table, at, t, x)
}

// The conversion of what was given; `spread` says whether `...` follows.
fn on_operands(
    alloc: Global,
    table: &TypeTable,
    at: Place,
    t: TypeId,
    spread: bool,
    operands: Operands,
) -> Result<Answer, NoMemory>
    requires table { HasPredeclared table.now }
    requires t { t.0 < size table.now }
    requires within { OperandsBelow (size table.now) operands }
    ensures view { IfOk result (λ a. answer_view (places table.now) a ≡ on_handed (operands_or_not (places table.now) operands) (conversion_as (names table.now) at (tree_of (places table.now) t) spread)) }
    ensures within { IfOk result (λ a. AnswerBelow (size table.now) a) }
{
    match operands {
        Operands::Each(operands) => {
            if spread {
                gone_all(operands);
                return bad(alloc, at, 60);
            }
            all(alloc, table, at, t, operands)
        }
        Operands::Refused(flaws) => Ok(Answer::Wrong(flaws)),
        Operands::Unknown => Ok(Answer::Unknown),
    }
}

/// A conversion to a type of what is given in parentheses; `spread` says whether `...` follows.
#[tactic(auto, using(crate::proofs::ConversionLemmas::conversion_handed))]
pub fn conversion(
    alloc: Global,
    table: &TypeTable,
    at: Place,
    t: TypeId,
    spread: bool,
    parts: Vec<Part>,
) -> Result<Answer, NoMemory>
    requires table { HasPredeclared table.now }
    requires t { t.0 < size table.now }
    requires within { PartsBelow (size table.now) parts.items }
    ensures view { IfOk result (λ a. answer_view (places table.now) a ≡ conversion_row (names table.now) at (tree_of (places table.now) t) spread (parts_view (places table.now) parts.items)) }
    ensures within { IfOk result (λ a. AnswerBelow (size table.now) a) }
{
    match operands_of(alloc, table, parts) {
        Ok(operands) => on_operands(alloc, table, at, t, spread, operands),
        Err(error) => Err(error),
    }
}
