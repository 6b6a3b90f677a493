//! Calls of predeclared functions.
//!
//! Go, "Built-in functions". Own: all but `len`, `print` and `println` are not built yet, and one that
//! is not is a fault whatever its arguments are.

ghost use Rattle.std.specs.Prelude.{◌≡◌, IfOk, IfSome};
ghost use Rattle.go_type.specs.Table.{places, names, size};
ghost use Rattle.go_typing.specs.Call.{length_given, print_given, is_built, built_in_call, built_in_row};
ghost use Rattle.go_operands.specs.BuiltinView.{builtin_view};
ghost use Rattle.go_operands.specs.AnswerView.{answer_view};
ghost use Rattle.go_operands.specs.Below.{AnswerBelow};
ghost use Rattle.go_operands.specs.RulesReady.{HasPredeclared};
ghost use Rattle.go_calls.specs.CallView.{parts_view, PartsBelow, given_view, GivenBelow};
ghost use Rattle.go_calls.specs.GivenView.{on_given, is_some};
ghost use Rattle.go_calls.specs.CallAs.{built_in_as};
ghost use Rattle.go_calls.specs.BuiltView.{built_view, printer_view};

use crate::calls::function::spread_given;
use crate::calls::length::length;
use crate::calls::printing::{Printer, print, print_several};
use crate::given::given::given;
use crate::given::gone::gone_parts;
use crate::given::kinds::Given;
use gj_base::{NoMemory, Place};
use go_operands::answers::answer::Answer;
use go_operands::answers::gone::gone_found;
use go_operands::answers::rule::bad;
use go_operands::operands::part::Part;
use go_operands::rules::builtin::Builtin;
use go_type::TypeTable;
use std::alloc::Global;

fn length_given(
    alloc: Global,
    table: &TypeTable,
    at: Place,
    given: Given,
) -> Result<Answer, NoMemory>
    requires table { HasPredeclared table.now }
    requires within { GivenBelow (size table.now) given }
    ensures view { IfOk result (λ a. answer_view (places table.now) a ≡ on_given (given_view (places table.now) given) (length_given (names table.now) at)) }
    ensures within { IfOk result (λ a. AnswerBelow (size table.now) a) }
{
    match given {
        Given::Each(operands) => length(alloc, table, at, operands),
        Given::Several(_place, found) => {
            gone_found(found);
            bad(alloc, at, 60)
        }
        Given::Refused(flaws) => Ok(Answer::Wrong(flaws)),
        Given::Unknown => Ok(Answer::Unknown),
    }
}

fn print_given(
    alloc: Global,
    table: &TypeTable,
    at: Place,
    printer: Printer,
    given: Given,
) -> Result<Answer, NoMemory>
    requires table { HasPredeclared table.now }
    requires within { GivenBelow (size table.now) given }
    ensures view { IfOk result (λ a. answer_view (places table.now) a ≡ on_given (given_view (places table.now) given) (print_given (names table.now) at (printer_view printer))) }
    ensures within { IfOk result (λ a. AnswerBelow (size table.now) a) }
{
    match given {
        Given::Each(operands) => print(alloc, table, at, printer, operands),
        Given::Several(place, found) => print_several(alloc, table, at, printer, place, found),
        Given::Refused(flaws) => Ok(Answer::Wrong(flaws)),
        Given::Unknown => Ok(Answer::Unknown),
    }
}

/// A function that is built.
#[derive(Clone, Copy)]
pub enum Built {
    Len,
    Prints(Printer),
}

fn built_of(function: Builtin) -> Option<Built>
    ensures view { IfSome result (λ b. built_view b ≡ builtin_view function) }
    ensures built { is_some result ≡ is_built (builtin_view function) }
{
    match function {
        Builtin::Len => Some(Built::Len),
        Builtin::Print => Some(Built::Prints(Printer::Print)),
        Builtin::Println => Some(Built::Prints(Printer::Println)),
        _ => None,
    }
}

fn on_given(
    alloc: Global,
    table: &TypeTable,
    at: Place,
    built: Built,
    given: Given,
) -> Result<Answer, NoMemory>
    requires table { HasPredeclared table.now }
    requires within { GivenBelow (size table.now) given }
    ensures view { IfOk result (λ a. answer_view (places table.now) a ≡ on_given (given_view (places table.now) given) (built_in_call (names table.now) at (built_view built))) }
    ensures within { IfOk result (λ a. AnswerBelow (size table.now) a) }
{
    match built {
        Built::Len => length_given(alloc, table, at, given),
        Built::Prints(printer) => print_given(alloc, table, at, printer, given),
    }
}

#[tactic(auto, using(crate::proofs::CallsGivenLemmas::built_spread, crate::proofs::CallsGivenLemmas::built_plain))]
fn on_spread(
    alloc: Global,
    table: &TypeTable,
    at: Place,
    built: Built,
    spread: bool,
    given: Given,
) -> Result<Answer, NoMemory>
    requires table { HasPredeclared table.now }
    requires within { GivenBelow (size table.now) given }
    ensures view { IfOk result (λ a. answer_view (places table.now) a ≡ on_given (given_view (places table.now) given) (built_in_as (names table.now) at (built_view built) spread)) }
    ensures within { IfOk result (λ a. AnswerBelow (size table.now) a) }
{
    if spread {
        return spread_given(alloc, table, at, given);
    }
    on_given(alloc, table, at, built, given)
}

#[tactic(auto, using(crate::proofs::CallsGivenLemmas::built_handed))]
fn on_parts(
    alloc: Global,
    table: &TypeTable,
    at: Place,
    built: Built,
    spread: bool,
    parts: Vec<Part>,
) -> Result<Answer, NoMemory>
    requires table { HasPredeclared table.now }
    requires within { PartsBelow (size table.now) parts.items }
    ensures view { IfOk result (λ a. answer_view (places table.now) a ≡ built_in_row (names table.now) at (built_view built) spread (parts_view (places table.now) parts.items)) }
    ensures within { IfOk result (λ a. AnswerBelow (size table.now) a) }
{
    match given(alloc, table, parts) {
        Ok(given) => on_spread(alloc, table, at, built, spread, given),
        Err(error) => Err(error),
    }
}

/// Whether calls of the function are built.
pub fn is_built(function: Builtin) -> bool
    ensures { result ≡ is_built (builtin_view function) }
{
    built_of(function).is_some()
}

/// A call of a predeclared function; `spread` says whether `...` follows the last argument.
pub fn built_in(
    alloc: Global,
    table: &TypeTable,
    at: Place,
    function: Builtin,
    spread: bool,
    parts: Vec<Part>,
) -> Result<Answer, NoMemory>
    requires table { HasPredeclared table.now }
    requires within { PartsBelow (size table.now) parts.items }
    ensures view { IfOk result (λ a. answer_view (places table.now) a ≡ built_in_row (names table.now) at (builtin_view function) spread (parts_view (places table.now) parts.items)) }
    ensures within { IfOk result (λ a. AnswerBelow (size table.now) a) }
{
    match built_of(function) {
        Some(built) => on_parts(alloc, table, at, built, spread, parts),
        None => {
            gone_parts(parts);
            bad(alloc, at, 0)
        }
    }
}
