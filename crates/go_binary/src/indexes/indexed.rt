//! What is indexed or sliced.
//!
//! Go, "Index expressions", "Slice expressions".

ghost use Rattle.std.specs.Prelude.{◌≡◌, ◌<◌, IfOk, List, ℕ, option_map};
ghost use Rattle.gj_base.specs.declared.place.Place.{Place};
ghost use Rattle.go_type.specs.Tree.{Ty};
ghost use Rattle.go_type.specs.Levels.{tree_of};
ghost use Rattle.go_type.specs.Underlying.{underlying};
ghost use Rattle.go_type.specs.Table.{places, names, size};
ghost use Rattle.go_core.specs.CoreView.{expr_view};
ghost use Rattle.go_const.specs.declared.constant.Const.TheVariants as form;
ghost use Rattle.go_typing.specs.Index.{length_of, indexed_typed, indexed_constant, indexed_of, other_unless};
ghost use Rattle.go_typing.specs.Operand.{pending_flaws, default_type};
ghost use Rattle.go_operands.specs.AnswerView.{operand_view, pending_view};
ghost use Rattle.go_operands.specs.Below.{OperandBelow};
ghost use Rattle.go_operands.specs.RulesReady.{HasPredeclared};
ghost use Rattle.go_binary.specs.IndexView.{indexed_view, IndexedBelow};

use crate::indexes::kinds::Indexed;
use gj_base::{NoMemory, Place, Text};
use go_const::Const;
use go_operands::answers::answer::{Flaws, Found, Operand, Pending};
use go_operands::answers::constant::constant_at;
use go_operands::answers::gone::{gone_found, gone_pending};
use go_operands::answers::pending::pending_flaws;
use go_operands::answers::rule::one_flaw;
use go_operands::nodes::gone::gone_expr;
use go_operands::rules::kind::{default_type, string_type, under};
use go_type::TypeTable;
use go_type::types::{Basis, GoType};
use std::alloc::Global;

// The length of a constant string.
fn length_of(value: &Option<Const>) -> Option<usize>
    ensures { result ≡ length_of value.now }
{
    match value {
        Some(Const::Text(text)) => Some(text.as_bytes().len()),
        Some(Const::Bool(_)) | Some(Const::Int(_)) | Some(Const::Rune(_)) | None => None,
    }
}

// A value with a type, by its underlying type.
fn typed(table: &TypeTable, found: Found) -> Indexed
    requires within { found.ty.0 < size table.now }
    ensures view { indexed_view (places table.now) result ≡ indexed_typed (underlying (names table.now) (tree_of (places table.now) found.ty)) (expr_view (places table.now) found.core) (tree_of (places table.now) found.ty) found.value }
    ensures within { IndexedBelow (size table.now) result }
{
    match under(table, found.ty) {
        GoType::Str => {
            let Found { core, ty, value } = found;
            Indexed::Text(core, ty, length_of(&value))
        }
        GoType::Array(_, _) | GoType::Slice(_) | GoType::Pointer(_) | GoType::Map(_, _) => {
            gone_found(found);
            Indexed::Unbuilt
        }
        _ => {
            gone_found(found);
            Indexed::Other
        }
    }
}

fn text(alloc: Global, table: &TypeTable, text: Text) -> Result<Indexed, NoMemory>
    requires table { HasPredeclared table.now }
    ensures view { IfOk result (λ x. indexed_view (places table.now) x ≡ indexed_constant (form.Text text)) }
    ensures within { IfOk result (λ x. IndexedBelow (size table.now) x) }
{
    let limit = text.as_bytes().len();
    let t = string_type(table);
    match constant_at(alloc, t, &Const::Text(text)) {
        Ok(core) => Ok(Indexed::Text(core, t, Some(limit))),
        Err(error) => Err(error),
    }
}

fn constant(alloc: Global, table: &TypeTable, k: Const) -> Result<Indexed, NoMemory>
    requires table { HasPredeclared table.now }
    ensures view { IfOk result (λ x. indexed_view (places table.now) x ≡ indexed_constant k) }
    ensures within { IfOk result (λ x. IndexedBelow (size table.now) x) }
{
    match k {
        Const::Text(bytes) => text(alloc, table, bytes),
        Const::Bool(_) | Const::Int(_) | Const::Rune(_) => Ok(Indexed::Other),
    }
}

fn pending(alloc: Global, table: &TypeTable, p: Pending, basis: Basis) -> Result<Indexed, NoMemory>
    requires table { HasPredeclared table.now }
    ensures view { IfOk result (λ x. indexed_view (places table.now) x ≡ other_unless (pending_flaws (names table.now) (default_type basis) (pending_view (places table.now) p))) }
    ensures within { IfOk result (λ x. IndexedBelow (size table.now) x) }
{
    let items = pending_flaws(alloc, table, default_type(table, basis), &p);
    gone_pending(p);
    match items {
        Ok(items) => {
            if items.is_empty() {
                return Ok(Indexed::Other);
            }
            Ok(Indexed::Unfit(Flaws { items }))
        }
        Err(error) => Err(error),
    }
}

/// What an operand that stands at `at` is as something that is indexed.
pub fn indexed_of(
    alloc: Global,
    table: &TypeTable,
    at: Place,
    x: Operand,
) -> Result<Indexed, NoMemory>
    requires table { HasPredeclared table.now }
    requires within { OperandBelow (size table.now) x }
    ensures view { IfOk result (λ r. indexed_view (places table.now) r ≡ indexed_of (names table.now) at (operand_view (places table.now) x)) }
    ensures within { IfOk result (λ r. IndexedBelow (size table.now) r) }
{
    match x {
        Operand::Typed(found) => Ok(typed(table, found)),
        Operand::Constant(k) => constant(alloc, table, k),
        Operand::Truth(c) => {
            gone_expr(c);
            Ok(Indexed::Other)
        }
        Operand::Pending(p, basis) => pending(alloc, table, p, basis),
        Operand::Nil => {
            let flaws = one_flaw(alloc, at, 73)?;
            Ok(Indexed::Unfit(flaws))
        }
    }
}
