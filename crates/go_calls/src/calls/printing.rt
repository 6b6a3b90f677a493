//! `print` and `println`.
//!
//! Go, "Bootstrapping". Own: arguments whose underlying type is boolean, integer or string.

ghost use Rattle.std.specs.Prelude.{◌≡◌, ◌<◌, IfOk};
ghost use Rattle.go_type.specs.Levels.{tree_of, trees_of};
ghost use Rattle.go_type.specs.Table.{places, names, size};
ghost use Rattle.go_core.specs.CoreView.{expr_view};
ghost use Rattle.go_typing.specs.Call as calls;
ghost use Rattle.go_typing.specs.Call.{each, several, ends_line, is_printable, all_printable, all_scalar, print_with, print_given};
ghost use Rattle.go_typing.specs.Env.{name_of_builtin};
ghost use Rattle.go_typing.specs.Answer.{bad_name};
ghost use Rattle.go_operands.specs.AnswerView.{answer_view, operand_view};
ghost use Rattle.go_operands.specs.Below.{AnswerBelow, OperandBelow};
ghost use Rattle.go_operands.specs.RulesReady.{HasPredeclared};
ghost use Rattle.go_calls.specs.CallView.{operands_view, AllBelow, values_view, exprs_in, types_in};
ghost use Rattle.go_calls.specs.BuiltView.{printer_view};
ghost use Rattle.go_calls.specs.Types.{AreTypesOf};

use crate::calls::named::bad_name;
use crate::given::gone::gone_all;
use crate::given::kinds::{Placed, Values};
use crate::given::values::{exprs, only_value, values_alone};
use gj_base::{NoMemory, Place};
use go_core::node::CoreExpr;
use go_operands::answers::answer::{Answer, Found, Operand};
use go_operands::answers::gone::gone_found;
use go_operands::rules::kind::is_scalar;
use go_type::TypeTable;
use go_type::types::{GoType, TypeId};
use std::alloc::Global;

/// Which of both is called.
#[derive(Clone, Copy, Debug, PartialEq, Eq)]
pub enum Printer {
    Print,
    Println,
}

fn ends_line(printer: Printer) -> bool
    ensures { result ≡ ends_line (printer_view printer) }
{
    matches!(printer, Printer::Println)
}

// An argument that can't be printed.
fn unprintable(
    alloc: Global,
    table: &TypeTable,
    at: Place,
    printer: Printer,
) -> Result<Answer, NoMemory>
    ensures view { IfOk result (λ a. answer_view (places table.now) a ≡ bad_name at 72 (name_of_builtin (printer_view printer))) }
    ensures within { IfOk result (λ a. AnswerBelow (size table.now) a) }
{
    let _ = table;
    match printer {
        Printer::Print => bad_name(alloc, at, 72, b"print"),
        Printer::Println => bad_name(alloc, at, 72, b"println"),
    }
}

fn printed(table: &TypeTable, printer: Printer, values: Vec<CoreExpr>) -> Answer
    ensures view { answer_view (places table.now) result ≡ print_with (ends_line (printer_view printer)) (calls.values (exprs_in (places table.now) values.items)) }
    ensures within { AnswerBelow (size table.now) result }
{
    Answer::Prints {
        operands: exprs(table, values),
        ends_line: ends_line(printer),
    }
}

fn print_with(table: &TypeTable, printer: Printer, values: Values) -> Answer
    ensures view { answer_view (places table.now) result ≡ print_with (ends_line (printer_view printer)) (values_view (places table.now) values) }
    ensures within { AnswerBelow (size table.now) result }
{
    match values {
        Values::Values(values) => printed(table, printer, values),
        Values::Unfit(flaws) => Answer::Wrong(flaws),
    }
}

fn is_printable(table: &TypeTable, x: &Operand) -> bool
    requires within { OperandBelow (size table.now) x.now }
    ensures { result ≡ is_printable (names table.now) (operand_view (places table.now) x.now) }
{
    match x {
        Operand::Typed(found) => is_scalar(table, found.ty),
        _ => true,
    }
}

fn all_printable(table: &TypeTable, operands: &[Placed]) -> bool
    requires within { AllBelow (size table.now) operands.now }
    ensures { result ≡ all_printable (names table.now) (operands_view (places table.now) operands.now) }
{
    let mut rest = operands;
    'operands: while let Some((x, others)) = rest.split_last() {
        if !is_printable(table, &x.value) {
            return false;
        }
        rest = others;
    }
    true
}

fn all_scalar(table: &TypeTable, types: &[TypeId]) -> bool
    requires { AreTypesOf table.now types.now }
    ensures { result ≡ all_scalar (names table.now) (trees_of (places table.now) types.now) }
{
    let mut rest = types;
    'types: while let Some((t, others)) = rest.split_first() {
        if !is_scalar(table, *t) {
            return false;
        }
        rest = others;
    }
    true
}

// Whether each of several values can be printed.
fn tuple_is_scalar(table: &TypeTable, t: TypeId) -> bool
    requires { t.0 < size table.now }
    ensures { result ≡ all_scalar (names table.now) (types_in (tree_of (places table.now) t)) }
{
    match table.get(t) {
        GoType::Tuple(ids) => all_scalar(table, ids.as_slice()),
        _ => true,
    }
}

/// A call of `print` or `println` with these operands.
pub fn print(
    alloc: Global,
    table: &TypeTable,
    at: Place,
    printer: Printer,
    operands: Vec<Placed>,
) -> Result<Answer, NoMemory>
    requires table { HasPredeclared table.now }
    requires within { AllBelow (size table.now) operands.items }
    ensures view { IfOk result (λ a. answer_view (places table.now) a ≡ print_given (names table.now) at (printer_view printer) (each (operands_view (places table.now) operands.items))) }
    ensures within { IfOk result (λ a. AnswerBelow (size table.now) a) }
{
    if !all_printable(table, operands.as_slice()) {
        gone_all(operands);
        return unprintable(alloc, table, at, printer);
    }
    match values_alone(alloc, table, operands) {
        Ok(values) => Ok(print_with(table, printer, values)),
        Err(error) => Err(error),
    }
}

/// A call of `print` or `println` with the several values of a call that stands at `p`.
pub fn print_several(
    alloc: Global,
    table: &TypeTable,
    at: Place,
    printer: Printer,
    p: Place,
    found: Found,
) -> Result<Answer, NoMemory>
    requires within { found.ty.0 < size table.now }
    ensures view { IfOk result (λ a. answer_view (places table.now) a ≡ print_given (names table.now) at (printer_view printer) (several p (expr_view (places table.now) found.core) (types_in (tree_of (places table.now) found.ty)))) }
    ensures within { IfOk result (λ a. AnswerBelow (size table.now) a) }
{
    let _ = p;
    if !tuple_is_scalar(table, found.ty) {
        gone_found(found);
        return unprintable(alloc, table, at, printer);
    }
    let Found {
        core,
        ty: _ty,
        value: _value,
    } = found;
    match only_value(alloc, core) {
        Ok(values) => Ok(printed(table, printer, values)),
        Err(error) => Err(error),
    }
}
