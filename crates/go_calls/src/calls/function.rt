//! Calls of functions by their names.
//!
//! Go, "Calls". Own: calls of variadic functions are not built yet.

ghost use Rattle.std.specs.Prelude.{◌≡◌, ◌<◌, false, IfOk};
ghost use Rattle.go_type.specs.Tree as ty;
ghost use Rattle.go_type.specs.Levels.{tree_of, trees_of};
ghost use Rattle.go_type.specs.Table.{places, names, size};
ghost use Rattle.go_core.specs.CoreTree as core;
ghost use Rattle.go_core.specs.CoreView.{expr_view};
ghost use Rattle.go_core.specs.SameType.{same_types};
ghost use Rattle.go_typing.specs.Answer.{all_known, bad, where_known};
ghost use Rattle.go_typing.specs.Call as calls;
ghost use Rattle.go_typing.specs.Call.{only_value, call_value, call_with, values_at, function_given, spread_given, function_row};
ghost use Rattle.go_operands.specs.AnswerView.{answer_view};
ghost use Rattle.go_operands.specs.Below.{AnswerBelow};
ghost use Rattle.go_operands.specs.RulesReady.{HasPredeclared};
ghost use Rattle.go_calls.specs.CallView.{parts_view, PartsBelow, operands_view, AllBelow, given_view, GivenBelow, types_in, values_view, exprs_in};
ghost use Rattle.go_calls.specs.GivenView.{on_given};
ghost use Rattle.go_calls.specs.CallAs.{function_as};
ghost use Rattle.go_calls.specs.Types.{AreTypesOf};
ghost use Rattle.go_calls.specs.Function.{FunctionBelow, fit_of, fit_view};

use crate::given::given::{given, were_known};
use crate::given::gone::{gone_all, gone_exprs, gone_given};
use crate::given::kinds::{Given, Placed, Values};
use crate::given::values::{exprs, only_value, values_at};
use gj_base::{NoMemory, Place};
use go_core::FuncId;
use go_core::node::CoreExpr;
use go_operands::answers::answer::{Answer, Found};
use go_operands::answers::gone::gone_found;
use go_operands::answers::rule::{bad, made};
use go_operands::nodes::list;
use go_operands::operands::part::Part;
use go_operands::rules::kind::same_type;
use go_type::types::{GoType, TypeId};
use go_type::{Ids, TypeTable};
use std::alloc::Global;

/// A function that is called by its name: its number, the types of its parameters and results, and the
/// type of what a call gives: that of the one result, else the tuple of the results.
#[derive(Clone, Copy)]
pub struct Function<'a> {
    pub id: FuncId,
    pub params: &'a [TypeId],
    pub results: &'a [TypeId],
    pub gives: TypeId,
}

// A call with these types of its results.
fn call_of(
    alloc: Global,
    table: &TypeTable,
    function: Function,
    results: Ids,
    values: Vec<CoreExpr>,
) -> Result<Answer, NoMemory>
    requires function { FunctionBelow table.now function }
    requires results { results ≡ function.results.now }
    ensures view { IfOk result (λ a. answer_view (places table.now) a ≡ call_value (trees_of (places table.now) (function).entry.results.now) (core.call (trees_of (places table.now) (function).entry.results.now) (core.function (function).entry.id.0) (exprs_in (places table.now) values.items))) }
    ensures within { IfOk result (λ a. AnswerBelow (size table.now) a) }
{
    let operands = exprs(table, values);
    match list::call(alloc, results, function.id, operands) {
        Ok(core) => Ok(made(core, function.gives)),
        Err(error) => Err(error),
    }
}

fn called(
    alloc: Global,
    table: &TypeTable,
    function: Function,
    values: Vec<CoreExpr>,
) -> Result<Answer, NoMemory>
    requires function { FunctionBelow table.now function }
    ensures view { IfOk result (λ a. answer_view (places table.now) a ≡ call_value (trees_of (places table.now) (function).entry.results.now) (core.call (trees_of (places table.now) (function).entry.results.now) (core.function (function).entry.id.0) (exprs_in (places table.now) values.items))) }
    ensures within { IfOk result (λ a. AnswerBelow (size table.now) a) }
{
    match Vec::from_slice(alloc, function.results) {
        Ok(results) => call_of(alloc, table, function, Ids::from_vec(results), values),
        Err(_) => {
            gone_exprs(values);
            Err(NoMemory)
        }
    }
}

// A call with values for its arguments.
fn call_with(
    alloc: Global,
    table: &TypeTable,
    function: Function,
    values: Values,
) -> Result<Answer, NoMemory>
    requires function { FunctionBelow table.now function }
    ensures view { IfOk result (λ a. answer_view (places table.now) a ≡ call_with (function).entry.id.0 (trees_of (places table.now) (function).entry.results.now) (values_view (places table.now) values)) }
    ensures within { IfOk result (λ a. AnswerBelow (size table.now) a) }
{
    match values {
        Values::Values(values) => called(alloc, table, function, values),
        Values::Unfit(flaws) => Ok(Answer::Wrong(flaws)),
    }
}

#[tactic(auto, using(crate::proofs::CountLemmas::same_view, crate::proofs::CountLemmas::other_view))]
fn each(
    alloc: Global,
    table: &TypeTable,
    at: Place,
    function: Function,
    operands: Vec<Placed>,
) -> Result<Answer, NoMemory>
    requires table { HasPredeclared table.now }
    requires function { FunctionBelow table.now function }
    requires within { AllBelow (size table.now) operands.items }
    ensures view { IfOk result (λ a. answer_view (places table.now) a ≡ function_given (names table.now) at (function).entry.id.0 (trees_of (places table.now) (function).entry.params.now) (trees_of (places table.now) (function).entry.results.now) (calls.each (operands_view (places table.now) operands.items))) }
    ensures within { IfOk result (λ a. AnswerBelow (size table.now) a) }
{
    if operands.len() != function.params.len() {
        gone_all(operands);
        return bad(alloc, at, 60);
    }
    match values_at(alloc, table, function.params, operands) {
        Ok(values) => call_with(alloc, table, function, values),
        Err(error) => Err(error),
    }
}

// Whether types are identical, one by one.
#[tactic(auto, using(crate::proofs::CountLemmas::no_more, crate::proofs::CountLemmas::some_more))]
fn same_types(table: &TypeTable, a: &[TypeId], b: &[TypeId]) -> bool
    requires first { AreTypesOf table.now a.now }
    requires second { AreTypesOf table.now b.now }
    ensures { result ≡ same_types (trees_of (places table.now) a.now) (trees_of (places table.now) b.now) }
{
    let mut first = a;
    let mut second = b;
    'types: while let Some((t, others)) = first.split_first() {
        match second.split_first() {
            Some((u, further)) => {
                if !same_type(table, *t, *u) {
                    return false;
                }
                first = others;
                second = further;
            }
            None => return false,
        }
    }
    if second.is_empty() {
        return true;
    }
    false
}

/// Several values as arguments.
#[derive(Clone, Copy)]
pub enum Fit {
    Fits,
    OtherTypes,
    OtherCount,
}

#[tactic(auto, using(crate::proofs::CountLemmas::one_same, crate::proofs::CountLemmas::one_other))]
fn fit_of(table: &TypeTable, params: &[TypeId], types: &[TypeId]) -> Fit
    requires params { AreTypesOf table.now params.now }
    requires types { AreTypesOf table.now types.now }
    ensures { fit_view result ≡ fit_of (trees_of (places table.now) params.now) (trees_of (places table.now) types.now) }
{
    if types.len() != params.len() {
        return Fit::OtherCount;
    }
    if same_types(table, params, types) {
        return Fit::Fits;
    }
    Fit::OtherTypes
}

// What the several values of a tuple type are as arguments.
fn several_fit(table: &TypeTable, function: Function, t: TypeId) -> Fit
    requires function { FunctionBelow table.now function }
    requires within { t.0 < size table.now }
    ensures { fit_view result ≡ fit_of (trees_of (places table.now) (function).entry.params.now) (types_in (tree_of (places table.now) t)) }
{
    match table.get(t) {
        GoType::Tuple(ids) => fit_of(table, function.params, ids.as_slice()),
        _ => fit_of(table, function.params, &[]),
    }
}

fn several_given(
    alloc: Global,
    table: &TypeTable,
    function: Function,
    found: Found,
) -> Result<Answer, NoMemory>
    requires function { FunctionBelow table.now function }
    ensures view { IfOk result (λ a. answer_view (places table.now) a ≡ call_with (function).entry.id.0 (trees_of (places table.now) (function).entry.results.now) (calls.values (only_value (expr_view (places table.now) found.core)))) }
    ensures within { IfOk result (λ a. AnswerBelow (size table.now) a) }
{
    let Found {
        core,
        ty: _ty,
        value: _value,
    } = found;
    match only_value(alloc, core) {
        Ok(values) => called(alloc, table, function, values),
        Err(error) => Err(error),
    }
}

// The several values of a call go as they are.
fn several(
    alloc: Global,
    table: &TypeTable,
    at: Place,
    function: Function,
    p: Place,
    found: Found,
) -> Result<Answer, NoMemory>
    requires function { FunctionBelow table.now function }
    requires within { found.ty.0 < size table.now }
    ensures view { IfOk result (λ a. answer_view (places table.now) a ≡ function_given (names table.now) at (function).entry.id.0 (trees_of (places table.now) (function).entry.params.now) (trees_of (places table.now) (function).entry.results.now) (calls.several p (expr_view (places table.now) found.core) (types_in (tree_of (places table.now) found.ty)))) }
    ensures within { IfOk result (λ a. AnswerBelow (size table.now) a) }
{
    match several_fit(table, function, found.ty) {
        Fit::Fits => several_given(alloc, table, function, found),
        Fit::OtherCount => {
            gone_found(found);
            bad(alloc, at, 60)
        }
        Fit::OtherTypes => {
            gone_found(found);
            bad(alloc, p, 61)
        }
    }
}

fn function_given(
    alloc: Global,
    table: &TypeTable,
    at: Place,
    function: Function,
    given: Given,
) -> Result<Answer, NoMemory>
    requires table { HasPredeclared table.now }
    requires function { FunctionBelow table.now function }
    requires within { GivenBelow (size table.now) given }
    ensures view { IfOk result (λ a. answer_view (places table.now) a ≡ on_given (given_view (places table.now) given) (function_given (names table.now) at (function).entry.id.0 (trees_of (places table.now) (function).entry.params.now) (trees_of (places table.now) (function).entry.results.now))) }
    ensures within { IfOk result (λ a. AnswerBelow (size table.now) a) }
{
    match given {
        Given::Each(operands) => each(alloc, table, at, function, operands),
        Given::Several(p, found) => several(alloc, table, at, function, p, found),
        Given::Refused(flaws) => Ok(Answer::Wrong(flaws)),
        Given::Unknown => Ok(Answer::Unknown),
    }
}

/// The answer of what is given with `...` to what takes none.
pub fn spread_given(
    alloc: Global,
    table: &TypeTable,
    at: Place,
    given: Given,
) -> Result<Answer, NoMemory>
    ensures view { IfOk result (λ a. answer_view (places table.now) a ≡ on_given (given_view (places table.now) given) (spread_given (names table.now) at)) }
    ensures within { IfOk result (λ a. AnswerBelow (size table.now) a) }
{
    let _ = table;
    match given {
        Given::Refused(flaws) => Ok(Answer::Wrong(flaws)),
        Given::Unknown => Ok(Answer::Unknown),
        other => {
            gone_given(other);
            bad(alloc, at, 60)
        }
    }
}

#[tactic(auto, using(crate::proofs::CallsGivenLemmas::function_spread, crate::proofs::CallsGivenLemmas::function_plain))]
fn on_given(
    alloc: Global,
    table: &TypeTable,
    at: Place,
    function: Function,
    spread: bool,
    given: Given,
) -> Result<Answer, NoMemory>
    requires table { HasPredeclared table.now }
    requires function { FunctionBelow table.now function }
    requires within { GivenBelow (size table.now) given }
    ensures view { IfOk result (λ a. answer_view (places table.now) a ≡ on_given (given_view (places table.now) given) (function_as (names table.now) at (function).entry.id.0 (trees_of (places table.now) (function).entry.params.now) (trees_of (places table.now) (function).entry.results.now) spread)) }
    ensures within { IfOk result (λ a. AnswerBelow (size table.now) a) }
{
    if spread {
        return spread_given(alloc, table, at, given);
    }
    function_given(alloc, table, at, function, given)
}

/// A call of a function that isn't variadic; `spread` says whether `...` follows the last argument.
#[tactic(auto, using(crate::proofs::CallsGivenLemmas::function_handed))]
pub fn call(
    alloc: Global,
    table: &TypeTable,
    at: Place,
    function: Function,
    spread: bool,
    parts: Vec<Part>,
) -> Result<Answer, NoMemory>
    requires table { HasPredeclared table.now }
    requires function { FunctionBelow table.now function }
    requires within { PartsBelow (size table.now) parts.items }
    ensures view { IfOk result (λ a. answer_view (places table.now) a ≡ function_row (names table.now) at (function).entry.id.0 (trees_of (places table.now) (function).entry.params.now) (trees_of (places table.now) (function).entry.results.now) false spread (parts_view (places table.now) parts.items)) }
    ensures within { IfOk result (λ a. AnswerBelow (size table.now) a) }
{
    match given(alloc, table, parts) {
        Ok(given) => on_given(alloc, table, at, function, spread, given),
        Err(error) => Err(error),
    }
}

/// A call of a variadic function.
pub fn variadic(
    alloc: Global,
    table: &TypeTable,
    at: Place,
    parts: Vec<Part>,
) -> Result<Answer, NoMemory>
    ensures view { IfOk result (λ a. answer_view (places table.now) a ≡ where_known (all_known (parts_view (places table.now) parts.items)) (bad at 0)) }
    ensures within { IfOk result (λ a. AnswerBelow (size table.now) a) }
{
    if were_known(table, parts) {
        return bad(alloc, at, 0);
    }
    Ok(Answer::Unknown)
}
