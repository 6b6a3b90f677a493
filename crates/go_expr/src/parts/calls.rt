//! Calls, from what they are given and, where no name says it, from what is called.
//!
//! Go, "Calls", "Conversions", "Built-in functions".

ghost use Rattle.std.specs.Prelude.{◌≡◌, ◌<◌, length, OnOk, IfOk};
ghost use Rattle.go_type.specs.Levels.{tree_of, trees_of, SigBelow};
ghost use Rattle.go_type.specs.Table.{size};
ghost use Rattle.go_typing.specs.Call.{function_row, built_in_row, called_row};
ghost use Rattle.go_operands.specs.BuiltinView.{builtin_view};
ghost use Rattle.go_operands.specs.EnvView.{table_of};
ghost use Rattle.go_operands.specs.AnswerView.{answer_view};
ghost use Rattle.go_operands.specs.Below.{AnswerBelow};
ghost use Rattle.go_calls.specs.CallView.{parts_view, PartsBelow};
ghost use Rattle.go_calls.specs.Function.{given_type};
ghost use Rattle.go_calls.specs.Words.{types_of, names_of};
ghost use Rattle.go_expr.specs.Stacked.{Hears, DoesOne};

use crate::parts::stack::{hear, take};
use gj_base::{NoMemory, Place};
use go_calls::calls::builtin::built_in;
use go_calls::calls::function::{Function, call, variadic};
use go_calls::conversions::called::called;
use go_core::FuncId;
use go_operands::answers::answer::{Answer, Flaw};
use go_operands::operands::part::Part;
use go_operands::rules::builtin::Builtin;
use go_operands::scopes::Env;
use go_type::types::{Sig, TypeId};
use std::alloc::Global;

fn function_answer(
    alloc: Global,
    env: &Env,
    at: Place,
    id: FuncId,
    sig: &Sig,
    gives: TypeId,
    spread: bool,
    given: Vec<Part>,
) -> Result<Answer, NoMemory>
    requires sig { SigBelow (size (table_of env.now)) sig.now }
    requires gives { gives.0 < size (table_of env.now) }
    requires type_given { tree_of (types_of env.now) gives ≡ given_type (trees_of (types_of env.now) sig.now.results) }
    requires given { PartsBelow (size (table_of env.now)) given.items }
    ensures view { IfOk result (λ a. answer_view (types_of env.now) a ≡ function_row (names_of env.now) at id.0 (trees_of (types_of env.now) sig.now.params) (trees_of (types_of env.now) sig.now.results) sig.now.variadic spread (parts_view (types_of env.now) given.items)) }
    ensures within { IfOk result (λ a. AnswerBelow (size (table_of env.now)) a) }
{
    if sig.variadic {
        return variadic(alloc, env.table(), at, given);
    }
    let function = Function {
        id,
        params: sig.params.as_slice(),
        results: sig.results.as_slice(),
        gives,
    };
    call(alloc, env.table(), at, function, spread, given)
}

/// A call of a function by its name. `gives` is the type of what the call gives.
pub fn function_called(
    alloc: Global,
    env: &Env,
    at: Place,
    id: FuncId,
    sig: &Sig,
    gives: TypeId,
    spread: bool,
    given: Vec<Part>,
    parts: &mut Vec<Part>,
    flaws: &mut Vec<Flaw>,
) -> Result<(), NoMemory>
    requires within { PartsBelow (size (table_of env.now)) parts.old.items }
    requires sig { SigBelow (size (table_of env.now)) sig.now }
    requires gives { gives.0 < size (table_of env.now) }
    requires type_given { tree_of (types_of env.now) gives ≡ given_type (trees_of (types_of env.now) sig.now.results) }
    requires given { PartsBelow (size (table_of env.now)) given.items }
    ensures does { OnOk result (Hears (types_of env.now) at (function_row (names_of env.now) at id.0 (trees_of (types_of env.now) sig.now.params) (trees_of (types_of env.now) sig.now.results) sig.now.variadic spread (parts_view (types_of env.now) given.items)) parts.old.items parts.new.items flaws.old.items flaws.new.items) }
    ensures within { OnOk result (PartsBelow (size (table_of env.now)) parts.new.items) }
{
    match function_answer(alloc, env, at, id, sig, gives, spread, given) {
        Ok(answer) => hear(alloc, env, at, answer, parts, flaws),
        Err(error) => Err(error),
    }
}

/// A call of a predeclared function.
pub fn built_in_called(
    alloc: Global,
    env: &Env,
    at: Place,
    function: Builtin,
    spread: bool,
    given: Vec<Part>,
    parts: &mut Vec<Part>,
    flaws: &mut Vec<Flaw>,
) -> Result<(), NoMemory>
    requires within { PartsBelow (size (table_of env.now)) parts.old.items }
    requires given { PartsBelow (size (table_of env.now)) given.items }
    ensures does { OnOk result (Hears (types_of env.now) at (built_in_row (names_of env.now) at (builtin_view function) spread (parts_view (types_of env.now) given.items)) parts.old.items parts.new.items flaws.old.items flaws.new.items) }
    ensures within { OnOk result (PartsBelow (size (table_of env.now)) parts.new.items) }
{
    match built_in(alloc, env.table(), at, function, spread, given) {
        Ok(answer) => hear(alloc, env, at, answer, parts, flaws),
        Err(error) => Err(error),
    }
}

/// A call of the part that came last, which is no function's name.
pub fn value_called(
    alloc: Global,
    env: &Env,
    at: Place,
    spread: bool,
    given: Vec<Part>,
    parts: &mut Vec<Part>,
    flaws: &mut Vec<Flaw>,
) -> Result<(), NoMemory>
    requires some { 0 < length parts.old.items }
    requires within { PartsBelow (size (table_of env.now)) parts.old.items }
    requires given { PartsBelow (size (table_of env.now)) given.items }
    ensures does { OnOk result (DoesOne (types_of env.now) at (λ f. called_row (names_of env.now) at f spread (parts_view (types_of env.now) given.items)) parts.old.items parts.new.items flaws.old.items flaws.new.items) }
    ensures within { OnOk result (PartsBelow (size (table_of env.now)) parts.new.items) }
{
    let f = take(env, parts);
    match called(alloc, env.table(), at, f, spread, given) {
        Ok(answer) => hear(alloc, env, at, answer, parts, flaws),
        Err(error) => Err(error),
    }
}
