//! An index, or a bound of a slice: an integer, of which a constant lies in the range of `int`.
//!
//! Go, "Index expressions". Own: an untyped index takes `int`.

ghost use Rattle.std.specs.Prelude.{◌≡◌, ◌<◌, IfOk, Some, if◌then◌else◌};
ghost use Rattle.go_const.specs.Operation.{whole_of};
ghost use Rattle.go_type.specs.Underlying.{underlying};
ghost use Rattle.go_type.specs.Levels.{tree_of};
ghost use Rattle.go_type.specs.Table.{places, names, size};
ghost use Rattle.go_core.specs.CoreView.{expr_view};
ghost use Rattle.go_typing.specs.Env.{int_type};
ghost use Rattle.go_typing.specs.Index.{no_index, whole_index, known_index, fit_index, index_of};
ghost use Rattle.go_typing.specs.Operand.{is_int, constant_at, pending_flaws, pending_at};
ghost use Rattle.go_operands.specs.AnswerView.{operand_view, pending_view};
ghost use Rattle.go_operands.specs.Below.{OperandBelow};
ghost use Rattle.go_operands.specs.RulesReady.{HasPredeclared};
ghost use Rattle.go_binary.specs.IndexView.{index_view};

use crate::indexes::gone::gone_index;
use crate::indexes::kinds::Index;
use gj_base::{Kind, NoMemory, Place};
use go_const::Const;
use go_core::node::CoreExpr;
use go_operands::answers::answer::{Flaws, Found, Operand, Pending};
use go_operands::answers::constant::constant_at;
use go_operands::answers::gone::{gone_found, gone_pending};
use go_operands::answers::pending::{pending_at, pending_flaws};
use go_operands::answers::rule::one_flaw;
use go_operands::nodes::gone::gone_expr;
use go_operands::rules::kind::{holds, int_type, is_int};
use go_type::TypeTable;
use std::alloc::Global;

// A whole number as an index.
fn whole(table: &TypeTable, c: CoreExpr, z: i128) -> Index
    ensures view { index_view (places table.now) result ≡ whole_index (expr_view (places table.now) c) (Some z) }
{
    let _ = table;
    if z < 0 || !holds(Kind::I32, z) {
        gone_expr(c);
        return Index::None;
    }
    Index::Value(c, Some(z as u32))
}

// A value of an integer type, and which constant it is, if one.
fn known(table: &TypeTable, c: CoreExpr, value: Option<Const>) -> Index
    ensures view { index_view (places table.now) result ≡ known_index (expr_view (places table.now) c) value }
{
    match value {
        None => Index::Value(c, None),
        Some(Const::Int(z)) => whole(table, c, z),
        Some(Const::Rune(z)) => whole(table, c, z),
        Some(Const::Bool(_)) | Some(Const::Text(_)) => {
            gone_expr(c);
            Index::None
        }
    }
}

fn typed(table: &TypeTable, found: Found) -> Index
    requires within { found.ty.0 < size table.now }
    ensures view { index_view (places table.now) result ≡ (if is_int (underlying (names table.now) (tree_of (places table.now) found.ty)) then known_index (expr_view (places table.now) found.core) found.value else no_index) }
{
    if !is_int(table, found.ty) {
        gone_found(found);
        return Index::None;
    }
    let Found {
        core,
        ty: _ty,
        value,
    } = found;
    known(table, core, value)
}

fn constant(alloc: Global, table: &TypeTable, k: Const) -> Result<Index, NoMemory>
    requires table { HasPredeclared table.now }
    ensures view { IfOk result (λ i. index_view (places table.now) i ≡ whole_index (constant_at int_type k) (whole_of k)) }
{
    match constant_at(alloc, int_type(table), &k) {
        Ok(c) => Ok(known(table, c, Some(k))),
        Err(error) => Err(error),
    }
}

fn pending(alloc: Global, table: &TypeTable, p: Pending) -> Result<Index, NoMemory>
    requires table { HasPredeclared table.now }
    ensures view { IfOk result (λ i. index_view (places table.now) i ≡ fit_index (pending_flaws (names table.now) int_type (pending_view (places table.now) p)) (pending_at int_type (pending_view (places table.now) p))) }
{
    let t = int_type(table);
    match pending_flaws(alloc, table, t, &p) {
        Ok(items) => {
            if !items.is_empty() {
                gone_pending(p);
                return Ok(Index::Unfit(Flaws { items }));
            }
            match pending_at(alloc, table, t, p) {
                Ok(c) => Ok(Index::Value(c, None)),
                Err(error) => Err(error),
            }
        }
        Err(error) => {
            gone_pending(p);
            Err(error)
        }
    }
}

// What an operand that stands at `at` is as an index.
fn index_of(alloc: Global, table: &TypeTable, at: Place, x: Operand) -> Result<Index, NoMemory>
    requires table { HasPredeclared table.now }
    requires within { OperandBelow (size table.now) x }
    ensures view { IfOk result (λ i. index_view (places table.now) i ≡ index_of (names table.now) at (operand_view (places table.now) x)) }
{
    match x {
        Operand::Typed(found) => Ok(typed(table, found)),
        Operand::Constant(k) => constant(alloc, table, k),
        Operand::Truth(c) => {
            gone_expr(c);
            Ok(Index::None)
        }
        Operand::Pending(p, _) => pending(alloc, table, p),
        Operand::Nil => {
            let flaws = one_flaw(alloc, at, 73)?;
            Ok(Index::Unfit(flaws))
        }
    }
}

fn boxed(alloc: Global, table: &TypeTable, i: Index) -> Result<Box<Index>, NoMemory>
    ensures view { IfOk result (λ b. index_view (places table.now) b.value ≡ index_view (places table.now) i) }
{
    let _ = table;
    match Box::new(alloc, i) {
        Ok(i) => Ok(i),
        Err(refused) => {
            gone_index(refused.value);
            Err(NoMemory)
        }
    }
}

/// What an operand that stands at `at` is as an index, in a box.
pub fn index_box(
    alloc: Global,
    table: &TypeTable,
    at: Place,
    x: Operand,
) -> Result<Box<Index>, NoMemory>
    requires table { HasPredeclared table.now }
    requires within { OperandBelow (size table.now) x }
    ensures view { IfOk result (λ i. index_view (places table.now) i.value ≡ index_of (names table.now) at (operand_view (places table.now) x)) }
{
    match index_of(alloc, table, at, x) {
        Ok(i) => boxed(alloc, table, i),
        Err(error) => Err(error),
    }
}
