//! The values of arguments.
//!
//! Go, "Calls", "Assignability".

ghost use Rattle.std.specs.Prelude.{◌≡◌, ◌<◌, ◌∷◌, [], IfOk, OnOk, length};
ghost use Rattle.go_type.specs.Levels.{tree_of, trees_of};
ghost use Rattle.go_type.specs.Table.{places, names, size};
ghost use Rattle.go_core.specs.CoreTree as core;
ghost use Rattle.go_core.specs.CoreView.{expr_view, exprs_view};
ghost use Rattle.go_typing.specs.Call as calls;
ghost use Rattle.go_typing.specs.Call.{more_values, more_unfit, and_settled, values_at, values_alone};
ghost use Rattle.go_typing.specs.Operand.{passed_at, settled_at, settled_alone};
ghost use Rattle.go_operands.specs.AnswerView.{flaws_view, first_of, others_of, operand_view, settled_view};
ghost use Rattle.go_operands.specs.RulesReady.{HasPredeclared};
ghost use Rattle.go_calls.specs.CallView.{operands_view, AllBelow, PlacedBelow, values_view, exprs_in};
ghost use Rattle.go_calls.specs.Types.{AreTypesOf};
ghost use Rattle.go_calls.specs.Passed.{passing_then};

use crate::given::gone::{gone_all, gone_exprs, gone_passing};
use crate::given::kinds::{Passing, Placed, Values};
use gj_base::NoMemory;
use go_core::node::{CoreExpr, CoreExprs};
use go_operands::answers::answer::{Flaws, Found, Settled};
use go_operands::answers::passed::{settled_alone, settled_as};
use go_operands::nodes::gone::gone_expr;
use go_operands::nodes::list;
use go_type::TypeTable;
use go_type::types::TypeId;
use std::alloc::Global;

#[tactic(auto, using(crate::proofs::PassedLemmas::value_passed))]
fn and_value(table: &TypeTable, passing: &mut Passing, found: Found) -> Result<(), NoMemory>
    ensures value { OnOk result ((vs : calls.Values) → passing_then (places table.now) passing.new vs ≡ passing_then (places table.now) passing.old (more_values (expr_view (places table.now) found.core) vs)) }
{
    let _ = table;
    let Found {
        core,
        ty: _ty,
        value: _value,
    } = found;
    match passing.values.push(core) {
        Ok(()) => Ok(()),
        Err(refused) => {
            gone_expr(refused.value);
            Err(NoMemory)
        }
    }
}

#[tactic(auto, using(crate::proofs::PassedLemmas::faults_passed))]
fn and_flaws(table: &TypeTable, passing: &mut Passing, more: Flaws) -> Result<(), NoMemory>
    ensures value { OnOk result ((vs : calls.Values) → passing_then (places table.now) passing.new vs ≡ passing_then (places table.now) passing.old (more_unfit (first_of (flaws_view more)) (others_of (flaws_view more)) vs)) }
{
    let _ = table;
    let Flaws { mut items } = more;
    passing.flaws.append(&mut items)?;
    Ok(())
}

// One value more, or what is wrong with it.
fn and_settled(table: &TypeTable, passing: &mut Passing, settled: Settled) -> Result<(), NoMemory>
    ensures value { OnOk result ((vs : calls.Values) → passing_then (places table.now) passing.new vs ≡ passing_then (places table.now) passing.old (and_settled (settled_view (places table.now) settled) vs)) }
{
    match settled {
        Settled::Value(found) => and_value(table, passing, found),
        Settled::Refused(flaws) => and_flaws(table, passing, flaws),
    }
}

// An argument, at its parameter's type.
fn next_at(
    alloc: Global,
    table: &TypeTable,
    t: TypeId,
    placed: Placed,
    passing: &mut Passing,
) -> Result<(), NoMemory>
    requires table { HasPredeclared table.now }
    requires t { t.0 < size table.now }
    requires within { PlacedBelow (size table.now) placed }
    ensures value { OnOk result ((vs : calls.Values) → passing_then (places table.now) passing.new vs ≡ passing_then (places table.now) passing.old (and_settled (settled_at placed.place (tree_of (places table.now) t) (passed_at (names table.now) placed.place (tree_of (places table.now) t) (operand_view (places table.now) placed.value))) vs)) }
{
    let Placed { place, value } = placed;
    match settled_as(alloc, table, place, t, value) {
        Ok(settled) => and_settled(table, passing, settled),
        Err(error) => Err(error),
    }
}

fn all_at(
    alloc: Global,
    table: &TypeTable,
    params: &[TypeId],
    operands: &mut Vec<Placed>,
    passing: &mut Passing,
) -> Result<(), NoMemory>
    requires table { HasPredeclared table.now }
    requires params { AreTypesOf table.now params.now }
    requires count { length params.now ≡ length operands.old.items }
    requires within { AllBelow (size table.now) operands.old.items }
    ensures value { OnOk result (passing_then (places table.now) passing.new (calls.values core.no_exprs) ≡ passing_then (places table.now) passing.old (values_at (names table.now) (trees_of (places table.now) params.now) (operands_view (places table.now) operands.old.items))) }
{
    let mut rest = params;
    'params: while let Some((t, others)) = rest.split_first() {
        let placed = operands.take_last();
        next_at(alloc, table, *t, placed, passing)?;
        rest = others;
    }
    Ok(())
}

fn next_alone(
    alloc: Global,
    table: &TypeTable,
    placed: Placed,
    passing: &mut Passing,
) -> Result<(), NoMemory>
    requires table { HasPredeclared table.now }
    requires within { PlacedBelow (size table.now) placed }
    ensures value { OnOk result ((vs : calls.Values) → passing_then (places table.now) passing.new vs ≡ passing_then (places table.now) passing.old (and_settled (settled_alone (names table.now) placed.place (operand_view (places table.now) placed.value)) vs)) }
{
    let Placed { place, value } = placed;
    match settled_alone(alloc, table, place, value) {
        Ok(settled) => and_settled(table, passing, settled),
        Err(error) => Err(error),
    }
}

fn all_alone(
    alloc: Global,
    table: &TypeTable,
    operands: &mut Vec<Placed>,
    passing: &mut Passing,
) -> Result<(), NoMemory>
    requires table { HasPredeclared table.now }
    requires within { AllBelow (size table.now) operands.old.items }
    ensures value { OnOk result (passing_then (places table.now) passing.new (calls.values core.no_exprs) ≡ passing_then (places table.now) passing.old (values_alone (names table.now) (operands_view (places table.now) operands.old.items))) }
{
    'operands: while let Some(placed) = operands.pop() {
        next_alone(alloc, table, placed, passing)?;
    }
    Ok(())
}

// Before the first argument.
fn begun(alloc: Global, table: &TypeTable) -> Passing
    ensures view { (vs : calls.Values) → passing_then (places table.now) result vs ≡ vs }
{
    let _ = table;
    Passing {
        values: Vec::new(alloc),
        flaws: Vec::new(alloc),
    }
}

// The values, where nothing is wrong.
#[tactic(auto, using(crate::proofs::PassedLemmas::ends_well, crate::proofs::PassedLemmas::ends_faulty))]
fn done(table: &TypeTable, passing: Passing) -> Values
    ensures view { values_view (places table.now) result ≡ passing_then (places table.now) passing (calls.values core.no_exprs) }
{
    let _ = table;
    let Passing { values, flaws } = passing;
    if flaws.is_empty() {
        return Values::Values(values);
    }
    gone_exprs(values);
    Values::Unfit(Flaws { items: flaws })
}

/// Each argument as a value of its parameter's type. There are as many of both.
pub fn values_at(
    alloc: Global,
    table: &TypeTable,
    params: &[TypeId],
    operands: Vec<Placed>,
) -> Result<Values, NoMemory>
    requires table { HasPredeclared table.now }
    requires params { AreTypesOf table.now params.now }
    requires count { length params.now ≡ length operands.items }
    requires within { AllBelow (size table.now) operands.items }
    ensures view { IfOk result (λ vs. values_view (places table.now) vs ≡ values_at (names table.now) (trees_of (places table.now) params.now) (operands_view (places table.now) operands.items)) }
{
    let mut operands = operands;
    let mut passing = begun(alloc, table);
    let answer = all_at(alloc, table, params, &mut operands, &mut passing);
    gone_all(operands);
    match answer {
        Ok(()) => Ok(done(table, passing)),
        Err(error) => {
            gone_passing(passing);
            Err(error)
        }
    }
}

/// Each argument as a value of its own type.
pub fn values_alone(
    alloc: Global,
    table: &TypeTable,
    operands: Vec<Placed>,
) -> Result<Values, NoMemory>
    requires table { HasPredeclared table.now }
    requires within { AllBelow (size table.now) operands.items }
    ensures view { IfOk result (λ vs. values_view (places table.now) vs ≡ values_alone (names table.now) (operands_view (places table.now) operands.items)) }
{
    let mut operands = operands;
    let mut passing = begun(alloc, table);
    let answer = all_alone(alloc, table, &mut operands, &mut passing);
    gone_all(operands);
    match answer {
        Ok(()) => Ok(done(table, passing)),
        Err(error) => {
            gone_passing(passing);
            Err(error)
        }
    }
}

/// The one value.
pub fn only_value(alloc: Global, core: CoreExpr) -> Result<Vec<CoreExpr>, NoMemory>
    ensures value { IfOk result (λ es. es.items ≡ core ∷ []) }
{
    let mut values = Vec::new(alloc);
    match values.push(core) {
        Ok(()) => Ok(values),
        Err(refused) => {
            gone_expr(refused.value);
            gone_exprs(values);
            Err(NoMemory)
        }
    }
}

/// Values as the list of operands.
pub fn exprs(table: &TypeTable, values: Vec<CoreExpr>) -> CoreExprs
    ensures view { exprs_view (places table.now) result ≡ exprs_in (places table.now) values.items }
{
    let _ = table;
    list::exprs(values)
}
