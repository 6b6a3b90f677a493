//! A value where one of a type, or of any type, is wanted.
//!
//! Go, "Assignability", "Constants".

ghost use Rattle.std.specs.Prelude.{◌≡◌, ◌<◌, [], ℕ, IfOk, List, None, Some, if◌then◌else◌};
ghost use Rattle.go_type.specs.Tree as ty;
ghost use Rattle.go_type.specs.Tree.{Ty};
ghost use Rattle.go_type.specs.Levels.{tree_of};
ghost use Rattle.go_type.specs.Underlying.{underlying};
ghost use Rattle.go_type.specs.Assignability.{has_nil};
ghost use Rattle.go_type.specs.Table.{places, names, size};
ghost use Rattle.go_core.specs.CoreView.{expr_view};
ghost use Rattle.go_core.specs.CoreTree as core;
ghost use Rattle.go_typing.specs.Answer.{flaw};
ghost use Rattle.go_typing.specs.Operand.{constant_operand, pending_operand, as_type, truth_at, constant_at, goes_to, is_bool, passed, refused, unassignable, constant_passed, pending_at, pending_passed, passed_at, settled_at, settled_alone};
ghost use Rattle.go_operands.specs.AnswerView.{passed_view, settled_view, operand_view, pending_view};
ghost use Rattle.go_operands.specs.RulesReady.{HasPredeclared};
ghost use Rattle.go_operands.specs.Below.{OperandBelow, SettledBelow};

use crate::answers::answer::{Flaws, Found, Operand, Passed, Pending, Settled};
use crate::answers::constant::constant_at;
use crate::answers::gone::{gone_found, gone_pending};
use crate::answers::pending::{pending_at, pending_flaws};
use crate::answers::rule::one_flaw;
use crate::nodes::gone::gone_expr;
use crate::nodes::{leaf, node};
use crate::rules::constant::{Held, basis_of, constant_in};
use crate::rules::kind::{bool_type, default_type, goes_to, has_nil, is_bool, same_type};
use gj_base::{NoMemory, Place};
use go_const::Const;
use go_core::node::CoreExpr;
use go_type::TypeTable;
use go_type::types::{Basis, TypeId};
use std::alloc::Global;

/// A value of a type that goes to another, as a value of that one.
pub fn as_type(
    alloc: Global,
    table: &TypeTable,
    c: CoreExpr,
    from: TypeId,
    to: TypeId,
) -> Result<CoreExpr, NoMemory>
    requires from { from.0 < size table.now }
    requires to { to.0 < size table.now }
    ensures value { IfOk result (λ e. expr_view (places table.now) e ≡ as_type (expr_view (places table.now) c) (tree_of (places table.now) from) (tree_of (places table.now) to)) }
{
    if same_type(table, from, to) {
        return Ok(c);
    }
    node::convert(alloc, from, to, c)
}

/// An untyped boolean that is no constant, as a value of a boolean type.
pub fn truth_at(
    alloc: Global,
    table: &TypeTable,
    t: TypeId,
    c: CoreExpr,
) -> Result<CoreExpr, NoMemory>
    requires table { HasPredeclared table.now }
    requires t { t.0 < size table.now }
    ensures value { IfOk result (λ e. expr_view (places table.now) e ≡ truth_at (tree_of (places table.now) t) (expr_view (places table.now) c)) }
{
    as_type(alloc, table, c, bool_type(table), t)
}

fn held_value(alloc: Global, table: &TypeTable, t: TypeId, k: Const) -> Result<Passed, NoMemory>
    ensures view { IfOk result (λ p. passed_view (places table.now) p ≡ passed (constant_at (tree_of (places table.now) t) k) (Some k)) }
{
    match constant_at(alloc, t, &k) {
        Ok(core) => Ok(Passed::Value(core, Some(k))),
        Err(error) => Err(error),
    }
}

fn past(alloc: Global, at: Place) -> Result<Passed, NoMemory>
    ensures view { IfOk result (λ p. (ts : List Ty) → passed_view ts p ≡ refused (flaw at 32) []) }
{
    let flaws = one_flaw(alloc, at, 32)?;
    Ok(Passed::Refused(flaws))
}

/// An untyped constant as one of a type.
pub fn constant_passed(
    alloc: Global,
    table: &TypeTable,
    at: Place,
    t: TypeId,
    k: Const,
) -> Result<Passed, NoMemory>
    requires t { t.0 < size table.now }
    ensures view { IfOk result (λ p. passed_view (places table.now) p ≡ constant_passed (names table.now) at (tree_of (places table.now) t) k) }
{
    match constant_in(table, t, k) {
        Held::Value(k) => held_value(alloc, table, t, k),
        Held::Past => past(alloc, at),
        Held::Unlike => Ok(Passed::Unassignable),
    }
}

fn pending_value(
    alloc: Global,
    table: &TypeTable,
    t: TypeId,
    p: Pending,
) -> Result<Passed, NoMemory>
    ensures view { IfOk result (λ r. passed_view (places table.now) r ≡ passed (pending_at (tree_of (places table.now) t) (pending_view (places table.now) p)) None) }
{
    match pending_at(alloc, table, t, p) {
        Ok(core) => Ok(Passed::Value(core, None)),
        Err(error) => Err(error),
    }
}

/// An untyped number as one of a type.
pub fn pending_passed(
    alloc: Global,
    table: &TypeTable,
    t: TypeId,
    p: Pending,
) -> Result<Passed, NoMemory>
    requires t { t.0 < size table.now }
    ensures view { IfOk result (λ r. passed_view (places table.now) r ≡ pending_passed (names table.now) (tree_of (places table.now) t) (pending_view (places table.now) p)) }
{
    match pending_flaws(alloc, table, t, &p) {
        Ok(items) => {
            if items.is_empty() {
                return pending_value(alloc, table, t, p);
            }
            gone_pending(p);
            Ok(Passed::Refused(Flaws { items }))
        }
        Err(error) => {
            gone_pending(p);
            Err(error)
        }
    }
}

fn typed_passed(
    alloc: Global,
    table: &TypeTable,
    t: TypeId,
    found: Found,
) -> Result<Passed, NoMemory>
    requires t { t.0 < size table.now }
    requires within { found.ty.0 < size table.now }
    ensures view { IfOk result (λ r. passed_view (places table.now) r ≡ (if goes_to (names table.now) (tree_of (places table.now) found.ty) (tree_of (places table.now) t) then passed (as_type (expr_view (places table.now) found.core) (tree_of (places table.now) found.ty) (tree_of (places table.now) t)) found.value else unassignable)) }
{
    if !goes_to(table, found.ty, t) {
        gone_found(found);
        return Ok(Passed::Unassignable);
    }
    let Found { core, ty, value } = found;
    match as_type(alloc, table, core, ty, t) {
        Ok(core) => Ok(Passed::Value(core, value)),
        Err(error) => Err(error),
    }
}

fn truth_passed(
    alloc: Global,
    table: &TypeTable,
    t: TypeId,
    c: CoreExpr,
) -> Result<Passed, NoMemory>
    requires table { HasPredeclared table.now }
    requires t { t.0 < size table.now }
    ensures view { IfOk result (λ r. passed_view (places table.now) r ≡ (if is_bool (underlying (names table.now) (tree_of (places table.now) t)) then passed (truth_at (tree_of (places table.now) t) (expr_view (places table.now) c)) None else unassignable)) }
{
    if !is_bool(table, t) {
        gone_expr(c);
        return Ok(Passed::Unassignable);
    }
    match truth_at(alloc, table, t, c) {
        Ok(core) => Ok(Passed::Value(core, None)),
        Err(error) => Err(error),
    }
}

fn nil_passed(alloc: Global, table: &TypeTable, t: TypeId) -> Result<Passed, NoMemory>
    requires t { t.0 < size table.now }
    ensures view { IfOk result (λ r. passed_view (places table.now) r ≡ (if has_nil (underlying (names table.now) (tree_of (places table.now) t)) then passed (core.zero_value (tree_of (places table.now) t)) None else unassignable)) }
{
    if !has_nil(table, t) {
        return Ok(Passed::Unassignable);
    }
    match leaf::zero(alloc, t) {
        Ok(core) => Ok(Passed::Value(core, None)),
        Err(error) => Err(error),
    }
}

/// An operand as a value of a type.
pub fn passed_at(
    alloc: Global,
    table: &TypeTable,
    at: Place,
    t: TypeId,
    x: Operand,
) -> Result<Passed, NoMemory>
    requires table { HasPredeclared table.now }
    requires t { t.0 < size table.now }
    requires within { OperandBelow (size table.now) x }
    ensures view { IfOk result (λ r. passed_view (places table.now) r ≡ passed_at (names table.now) at (tree_of (places table.now) t) (operand_view (places table.now) x)) }
{
    match x {
        Operand::Typed(found) => typed_passed(alloc, table, t, found),
        Operand::Constant(k) => constant_passed(alloc, table, at, t, k),
        Operand::Truth(c) => truth_passed(alloc, table, t, c),
        Operand::Pending(p, _basis) => pending_passed(alloc, table, t, p),
        Operand::Nil => nil_passed(alloc, table, t),
    }
}

/// A value of a type that was wanted, or what is wrong with it.
pub fn settled_at(alloc: Global, at: Place, t: TypeId, passed: Passed) -> Result<Settled, NoMemory>
    ensures view { IfOk result (λ r. (ts : List Ty) → settled_view ts r ≡ settled_at at (tree_of ts t) (passed_view ts passed)) }
    ensures within { IfOk result (λ r. (n : ℕ) → t.0 < n → SettledBelow n r) }
{
    match passed {
        Passed::Value(core, value) => Ok(Settled::Value(Found { core, ty: t, value })),
        Passed::Refused(flaws) => Ok(Settled::Refused(flaws)),
        Passed::Unassignable => {
            let flaws = one_flaw(alloc, at, 61)?;
            Ok(Settled::Refused(flaws))
        }
    }
}

/// An operand as a value of a type that is wanted, or what is wrong with it.
pub fn settled_as(
    alloc: Global,
    table: &TypeTable,
    at: Place,
    t: TypeId,
    x: Operand,
) -> Result<Settled, NoMemory>
    requires table { HasPredeclared table.now }
    requires t { t.0 < size table.now }
    requires within { OperandBelow (size table.now) x }
    ensures view { IfOk result (λ r. settled_view (places table.now) r ≡ settled_at at (tree_of (places table.now) t) (passed_at (names table.now) at (tree_of (places table.now) t) (operand_view (places table.now) x))) }
    ensures within { IfOk result (λ r. SettledBelow (size table.now) r) }
{
    match passed_at(alloc, table, at, t, x) {
        Ok(passed) => settled_at(alloc, at, t, passed),
        Err(error) => Err(error),
    }
}

fn constant_alone(
    alloc: Global,
    table: &TypeTable,
    at: Place,
    k: Const,
) -> Result<Settled, NoMemory>
    requires table { HasPredeclared table.now }
    ensures view { IfOk result (λ r. settled_view (places table.now) r ≡ settled_alone (names table.now) at (constant_operand k)) }
    ensures within { IfOk result (λ r. SettledBelow (size table.now) r) }
{
    let t = default_type(table, basis_of(&k));
    match constant_passed(alloc, table, at, t, k) {
        Ok(passed) => settled_at(alloc, at, t, passed),
        Err(error) => Err(error),
    }
}

fn pending_alone(
    alloc: Global,
    table: &TypeTable,
    at: Place,
    p: Pending,
    basis: Basis,
) -> Result<Settled, NoMemory>
    requires table { HasPredeclared table.now }
    ensures view { IfOk result (λ r. settled_view (places table.now) r ≡ settled_alone (names table.now) at (pending_operand (pending_view (places table.now) p) basis)) }
    ensures within { IfOk result (λ r. SettledBelow (size table.now) r) }
{
    let t = default_type(table, basis);
    match pending_passed(alloc, table, t, p) {
        Ok(passed) => settled_at(alloc, at, t, passed),
        Err(error) => Err(error),
    }
}

/// An operand where no type is wanted: an untyped value has its default type, and `nil` has none.
pub fn settled_alone(
    alloc: Global,
    table: &TypeTable,
    at: Place,
    x: Operand,
) -> Result<Settled, NoMemory>
    requires table { HasPredeclared table.now }
    requires within { OperandBelow (size table.now) x }
    ensures view { IfOk result (λ r. settled_view (places table.now) r ≡ settled_alone (names table.now) at (operand_view (places table.now) x)) }
    ensures within { IfOk result (λ r. SettledBelow (size table.now) r) }
{
    match x {
        Operand::Typed(found) => Ok(Settled::Value(found)),
        Operand::Constant(k) => constant_alone(alloc, table, at, k),
        Operand::Truth(core) => Ok(Settled::Value(Found {
            core,
            ty: bool_type(table),
            value: None,
        })),
        Operand::Pending(p, basis) => pending_alone(alloc, table, at, p, basis),
        Operand::Nil => {
            let flaws = one_flaw(alloc, at, 73)?;
            Ok(Settled::Refused(flaws))
        }
    }
}
