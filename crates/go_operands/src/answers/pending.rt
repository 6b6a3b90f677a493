//! Untyped constants that are shifted by a count that is none, once their type is known.
//!
//! Go, "Operators" (shifts).

ghost use Rattle.std.specs.Prelude.{◌≡◌, ◌<◌, ◌++◌, IfOk, OnOk, map};
ghost use Rattle.go_type.specs.Tree as ty;
ghost use Rattle.go_type.specs.Levels.{tree_of};
ghost use Rattle.go_type.specs.Table.{places, names, size};
ghost use Rattle.go_core.specs.CoreView.{expr_view};
ghost use Rattle.go_core.specs.CoreTree as core;
ghost use Rattle.go_typing.specs.Operand.{shifts_at, unfit_at, constant_in, constants_past, constant_at, pending_at, pending_flaws};
ghost use Rattle.go_operands.specs.AnswerView.{flaw_view, pending_view};

use crate::answers::answer::{Flaw, Pending, PendingForm};
use crate::answers::constant::constant_at;
use crate::answers::gone::gone_pending;
use crate::answers::rule::and_flaw;
use crate::nodes::gone::gone_expr;
use crate::nodes::{node, pair};
use crate::rules::constant::is_held;
use crate::rules::kind::under;
use gj_base::{NoMemory, Op, Place};
use go_const::Const;
use go_core::node::CoreExpr;
use go_type::TypeTable;
use go_type::types::{GoType, IntName, TypeId};
use std::alloc::Global;

// The shifts of constants, where the type is no integer type.
#[tactic(auto, using(crate::proofs::FlawLemmas::two_more))]
fn shifts_at(
    alloc: Global,
    table: &TypeTable,
    p: &Pending,
    flaws: &mut Vec<Flaw>,
) -> Result<(), NoMemory>
    ensures value { OnOk result (map flaw_view flaws.new.items ≡ map flaw_view flaws.old.items ++ shifts_at (pending_view (places table.now) p.now)) }
{
    match &*p.form {
        PendingForm::Fixed { .. } => Ok(()),
        PendingForm::Shifted { at, .. } => and_flaw(alloc, flaws, *at, 57),
        PendingForm::Further { operand, .. } => shifts_at(alloc, table, operand, flaws),
        PendingForm::Signed { operand, .. } => shifts_at(alloc, table, operand, flaws),
        PendingForm::Joined { left, right, .. } => {
            shifts_at(alloc, table, left, flaws)?;
            shifts_at(alloc, table, right, flaws)
        }
    }
}

// The fault of a constant that an integer type doesn't hold.
fn unfit_at(
    alloc: Global,
    name: IntName,
    at: Place,
    k: &Const,
    flaws: &mut Vec<Flaw>,
) -> Result<(), NoMemory>
    ensures value { OnOk result (map flaw_view flaws.new.items ≡ map flaw_view flaws.old.items ++ unfit_at at (constant_in (ty.int name) k.now)) }
{
    if is_held(name, k) {
        return Ok(());
    }
    and_flaw(alloc, flaws, at, 32)
}

// The constants that an integer type doesn't hold.
#[tactic(auto, using(crate::proofs::FlawLemmas::two_more))]
fn constants_past(
    alloc: Global,
    table: &TypeTable,
    name: IntName,
    p: &Pending,
    flaws: &mut Vec<Flaw>,
) -> Result<(), NoMemory>
    ensures value { OnOk result (map flaw_view flaws.new.items ≡ map flaw_view flaws.old.items ++ constants_past (ty.int name) (pending_view (places table.now) p.now)) }
{
    match &*p.form {
        PendingForm::Fixed { at, value } => unfit_at(alloc, name, *at, value, flaws),
        PendingForm::Shifted { at, value, .. } => unfit_at(alloc, name, *at, value, flaws),
        PendingForm::Further { operand, .. } => constants_past(alloc, table, name, operand, flaws),
        PendingForm::Signed { operand, .. } => constants_past(alloc, table, name, operand, flaws),
        PendingForm::Joined { left, right, .. } => {
            constants_past(alloc, table, name, left, flaws)?;
            constants_past(alloc, table, name, right, flaws)
        }
    }
}

/// The faults of an untyped number, added to others, where its type is known: its shifts where that
/// is no integer type, else the constants that the type doesn't hold.
pub fn and_pending_flaws(
    alloc: Global,
    table: &TypeTable,
    t: TypeId,
    p: &Pending,
    flaws: &mut Vec<Flaw>,
) -> Result<(), NoMemory>
    requires { t.0 < size table.now }
    ensures value { OnOk result (map flaw_view flaws.new.items ≡ map flaw_view flaws.old.items ++ pending_flaws (names table.now) (tree_of (places table.now) t) (pending_view (places table.now) p.now)) }
{
    match under(table, t) {
        GoType::Int(name) => constants_past(alloc, table, *name, p, flaws),
        _ => shifts_at(alloc, table, p, flaws),
    }
}

/// The faults of an untyped number at a type.
pub fn pending_flaws(
    alloc: Global,
    table: &TypeTable,
    t: TypeId,
    p: &Pending,
) -> Result<Vec<Flaw>, NoMemory>
    requires { t.0 < size table.now }
    ensures value { IfOk result (λ fs. map flaw_view fs.items ≡ pending_flaws (names table.now) (tree_of (places table.now) t) (pending_view (places table.now) p.now)) }
{
    let mut flaws = Vec::new(alloc);
    and_pending_flaws(alloc, table, t, p, &mut flaws)?;
    Ok(flaws)
}

// ---- the node

fn shift_at(
    alloc: Global,
    table: &TypeTable,
    t: TypeId,
    op: Op,
    k: &Const,
    count: CoreExpr,
) -> Result<CoreExpr, NoMemory>
    ensures value { IfOk result (λ e. expr_view (places table.now) e ≡ core.binary op (tree_of (places table.now) t) (constant_at (tree_of (places table.now) t) k.now) (expr_view (places table.now) count)) }
{
    match constant_at(alloc, t, k) {
        Ok(left) => pair::binary(alloc, op, t, left, count),
        Err(error) => {
            gone_expr(count);
            Err(error)
        }
    }
}

/// An untyped number at a type, which holds its constants.
pub fn pending_at(
    alloc: Global,
    table: &TypeTable,
    t: TypeId,
    p: Pending,
) -> Result<CoreExpr, NoMemory>
    ensures value { IfOk result (λ e. expr_view (places table.now) e ≡ pending_at (tree_of (places table.now) t) (pending_view (places table.now) p)) }
{
    match Box::into_inner(p.form) {
        PendingForm::Fixed { at: _at, value } => constant_at(alloc, t, &value),
        PendingForm::Shifted {
            at: _at,
            op,
            value,
            count,
        } => shift_at(alloc, table, t, op, &value, count),
        PendingForm::Further { op, operand, count } => {
            match pending_at(alloc, table, t, operand) {
                Ok(left) => pair::binary(alloc, op, t, left, count),
                Err(error) => {
                    gone_expr(count);
                    Err(error)
                }
            }
        }
        PendingForm::Signed { op, operand } => match pending_at(alloc, table, t, operand) {
            Ok(e) => node::unary(alloc, op, t, e),
            Err(error) => Err(error),
        },
        PendingForm::Joined { op, left, right } => match pending_at(alloc, table, t, left) {
            Ok(left) => match pending_at(alloc, table, t, right) {
                Ok(right) => pair::binary(alloc, op, t, left, right),
                Err(error) => {
                    gone_expr(left);
                    Err(error)
                }
            },
            Err(error) => {
                gone_pending(right);
                Err(error)
            }
        },
    }
}
