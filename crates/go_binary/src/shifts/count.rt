//! The count of a shift: an integer, or an untyped constant that `uint` holds.
//!
//! Go, "Operators" (shifts).

ghost use Rattle.std.specs.Prelude.{◌≡◌, ◌<◌, IfOk, [], List, Some, if◌then◌else◌};
ghost use Rattle.go_const.specs.Operation.{whole_of};
ghost use Rattle.go_type.specs.Tree.{Ty};
ghost use Rattle.go_type.specs.Levels.{tree_of};
ghost use Rattle.go_type.specs.Underlying.{underlying};
ghost use Rattle.go_type.specs.Table.{places, names, size};
ghost use Rattle.go_core.specs.CoreView.{expr_view};
ghost use Rattle.go_typing.specs.Env.{uint_type};
ghost use Rattle.go_typing.specs.Answer.{flaw};
ghost use Rattle.go_typing.specs.Operand.{constant_at, is_int, pending_flaws, pending_at};
ghost use Rattle.go_typing.specs.Shift.{counted, no_integer, unfit, fit_count, known_count, held_count, count_of};
ghost use Rattle.go_operands.specs.AnswerView.{operand_view, pending_view};
ghost use Rattle.go_operands.specs.Below.{OperandBelow};
ghost use Rattle.go_operands.specs.RulesReady.{HasPredeclared};
ghost use Rattle.go_binary.specs.CountView.{count_view};

use gj_base::{Kind, NoMemory, Place};
use go_const::Const;
use go_core::node::CoreExpr;
use go_operands::answers::answer::{Flaws, Found, Operand, Pending};
use go_operands::answers::constant::constant_at;
use go_operands::answers::gone::{gone_found, gone_pending};
use go_operands::answers::pending::{pending_at, pending_flaws};
use go_operands::answers::rule::one_flaw;
use go_operands::nodes::gone::gone_expr;
use go_operands::rules::kind::{holds, is_int, uint_type};
use go_type::TypeTable;
use std::alloc::Global;

/// The count of a shift, as a value of an integer type.
pub enum Count {
    Counted(CoreExpr, Option<Const>),
    /// A negative constant.
    Negative,
    NoInteger,
    Unfit(Flaws),
}

#[tactic(auto, using(crate::proofs::CountLemmas::negative_known, crate::proofs::CountLemmas::other_known))]
fn known_count(c: CoreExpr, v: Option<Const>) -> Count
    ensures view { (ts : List Ty) → count_view ts result ≡ known_count (expr_view ts c) v }
{
    match v {
        None => Count::Counted(c, None),
        Some(k) => match k {
            Const::Int(z) => {
                if z < 0 {
                    gone_expr(c);
                    return Count::Negative;
                }
                Count::Counted(c, Some(Const::Int(z)))
            }
            Const::Rune(z) => {
                if z < 0 {
                    gone_expr(c);
                    return Count::Negative;
                }
                Count::Counted(c, Some(Const::Rune(z)))
            }
            Const::Bool(b) => Count::Counted(c, Some(Const::Bool(b))),
            Const::Text(text) => Count::Counted(c, Some(Const::Text(text))),
        },
    }
}

fn counted_uint(alloc: Global, table: &TypeTable, k: Const) -> Result<Count, NoMemory>
    requires { HasPredeclared table.now }
    ensures view { IfOk result (λ n. count_view (places table.now) n ≡ counted (constant_at uint_type k) (Some k)) }
{
    match constant_at(alloc, uint_type(table), &k) {
        Ok(c) => Ok(Count::Counted(c, Some(k))),
        Err(error) => Err(error),
    }
}

fn unfit_count(alloc: Global, table: &TypeTable, at: Place, code: u16) -> Result<Count, NoMemory>
    ensures view { IfOk result (λ n. count_view (places table.now) n ≡ unfit (flaw at code) []) }
{
    let flaws = one_flaw(alloc, at, code)?;
    Ok(Count::Unfit(flaws))
}

#[tactic(auto, using(crate::proofs::CountLemmas::negative_held, crate::proofs::CountLemmas::other_held))]
fn number_count(
    alloc: Global,
    table: &TypeTable,
    at: Place,
    k: Const,
    z: i128,
) -> Result<Count, NoMemory>
    requires { HasPredeclared table.now }
    ensures view { IfOk result (λ n. count_view (places table.now) n ≡ held_count at k (Some z)) }
{
    if z < 0 {
        return Ok(Count::Negative);
    }
    if !holds(Kind::U32, z) {
        return unfit_count(alloc, table, at, 32);
    }
    counted_uint(alloc, table, k)
}

fn held_count(alloc: Global, table: &TypeTable, at: Place, k: Const) -> Result<Count, NoMemory>
    requires { HasPredeclared table.now }
    ensures view { IfOk result (λ n. count_view (places table.now) n ≡ held_count at k (whole_of k)) }
{
    match k {
        Const::Int(z) => number_count(alloc, table, at, Const::Int(z), z),
        Const::Rune(z) => number_count(alloc, table, at, Const::Rune(z), z),
        Const::Bool(_) | Const::Text(_) => Ok(Count::NoInteger),
    }
}

fn typed_count(table: &TypeTable, found: Found) -> Count
    requires { found.ty.0 < size table.now }
    ensures view { count_view (places table.now) result ≡ (if is_int (underlying (names table.now) (tree_of (places table.now) found.ty)) then known_count (expr_view (places table.now) found.core) found.value else no_integer) }
{
    if !is_int(table, found.ty) {
        gone_found(found);
        return Count::NoInteger;
    }
    let Found {
        core,
        ty: _ty,
        value,
    } = found;
    known_count(core, value)
}

fn pending_count(alloc: Global, table: &TypeTable, p: Pending) -> Result<Count, NoMemory>
    requires { HasPredeclared table.now }
    ensures view { IfOk result (λ n. count_view (places table.now) n ≡ fit_count (pending_flaws (names table.now) uint_type (pending_view (places table.now) p)) (pending_at uint_type (pending_view (places table.now) p))) }
{
    let t = uint_type(table);
    match pending_flaws(alloc, table, t, &p) {
        Ok(items) => {
            if !items.is_empty() {
                gone_pending(p);
                return Ok(Count::Unfit(Flaws { items }));
            }
            match pending_at(alloc, table, t, p) {
                Ok(c) => Ok(Count::Counted(c, None)),
                Err(error) => Err(error),
            }
        }
        Err(error) => {
            gone_pending(p);
            Err(error)
        }
    }
}

/// What an operand that stands at `at` is as a count.
pub fn count_of(alloc: Global, table: &TypeTable, at: Place, y: Operand) -> Result<Count, NoMemory>
    requires table { HasPredeclared table.now }
    requires within { OperandBelow (size table.now) y }
    ensures view { IfOk result (λ n. count_view (places table.now) n ≡ count_of (names table.now) at (operand_view (places table.now) y)) }
{
    match y {
        Operand::Typed(found) => Ok(typed_count(table, found)),
        Operand::Constant(k) => held_count(alloc, table, at, k),
        Operand::Truth(c) => {
            gone_expr(c);
            Ok(Count::NoInteger)
        }
        Operand::Pending(p, _basis) => pending_count(alloc, table, p),
        Operand::Nil => unfit_count(alloc, table, at, 73),
    }
}
