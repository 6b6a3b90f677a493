//! Specifications of variables.
//!
//! Go, "Variable declarations".

ghost use Rattle.std.specs.Prelude.{◌≡◌, ◌<◌, OnOk, IfOk, IfSome, map, option_map};
ghost use Rattle.go_type.specs.Levels.{trees_of, IdsBelow};
ghost use Rattle.go_type.specs.Table.{size};
ghost use Rattle.go_syntax.specs.View.{expr_view, exprs_of, maybe_expr, value_spec_view, joined};
ghost use Rattle.go_syntax.specs.Tree as t;
ghost use Rattle.go_syntax.specs.declared.tree.ValueSpec.{out-ValueSpec};
ghost use Rattle.go_operands.specs.EnvView.{table_of};
ghost use Rattle.go_calls.specs.Words.{types_of, names_of};
ghost use Rattle.go_typing.specs.Declare.{spec_place, var_spec, var_specs};
ghost use Rattle.go_walk.specs.WalkView.{depth};
ghost use Rattle.go_expr.specs.Raw.{raws_view, RawsBelow};
ghost use Rattle.go_assign.specs.Outcome.{Does};
ghost use Rattle.go_assign.specs.Settled.{several_in};
ghost use Rattle.go_assign.specs.SpecView.{spec_view, SpecBelow};
ghost use Rattle.go_body.specs.LocalVarsSpecs.{var_miscounted, var_several, var_all, var_by, var_given};

use crate::local_vars::spec::{told_spec, use_type};
use crate::local_vars::taken::first_vars;
use crate::local_vars::valued::all_vars;
use crate::local_vars::zero::zeros;
use gj_base::{NoMemory, Place};
use go_assign::branch::used::raws_used;
use go_assign::constants::{SpecType, count_told};
use go_assign::valued::taken::several;
use go_core::statement::CoreStmt;
use go_expr::typed::{Raws, gone_raws};
use go_operands::answers::answer::Flaw;
use go_operands::scopes::Env;
use go_syntax::tree::{Name, ValueSpec};
use go_type::Ids;
use go_type::types::TypeId;
use go_walk::walk::Walk;
use std::alloc::Global;

/// The first byte of a specification.
pub fn first_at(names: &[Name], at: Place) -> Place
    ensures value { result ≡ spec_place names.now at }
{
    match names {
        [n, ..] => n.place,
        [] => at,
    }
}

// The counts differ (84).
#[tactic(auto, using(crate::proofs::VarLemmas::miscounted_does))]
fn miscounted(
    walk: &mut Walk,
    flaws: &mut Vec<Flaw>,
    out: &mut Vec<CoreStmt>,
    at: Place,
    s: SpecType,
    names: &[Name],
    raws: Raws,
) -> Result<(), NoMemory>
    requires depth { 0 < depth walk.old }
    ensures does { OnOk result (Does (var_miscounted at (spec_view (types_of walk.old.env) s) names.now (raws_view (types_of walk.old.env) raws)) walk.old walk.new flaws.old.items flaws.new.items out.old.items out.new.items) }
{
    let first = first_at(names, at);
    match count_told(flaws, s, first, raws) {
        Ok(()) => match zeros(walk, flaws, out, SpecType::Lost, names) {
            Ok(()) => Ok(()),
            Err(error) => Err(error),
        },
        Err(error) => Err(error),
    }
}

#[tactic(auto, using(crate::proofs::VarLemmas::several_same, crate::proofs::VarLemmas::several_other))]
fn several_vars(
    walk: &mut Walk,
    flaws: &mut Vec<Flaw>,
    out: &mut Vec<CoreStmt>,
    at: Place,
    s: SpecType,
    names: &[Name],
    types: &[TypeId],
    raws: Raws,
) -> Result<(), NoMemory>
    requires depth { 0 < depth walk.old }
    requires spec { SpecBelow (size (table_of walk.old.env)) s }
    requires types { IdsBelow (size (table_of walk.old.env)) types.now }
    requires within { RawsBelow (size (table_of walk.old.env)) raws }
    ensures does { OnOk result (Does (var_several at (spec_view (types_of walk.old.env) s) names.now (raws_view (types_of walk.old.env) raws) (trees_of (types_of walk.old.env) types.now)) walk.old walk.new flaws.old.items flaws.new.items out.old.items out.new.items) }
{
    if types.len() != names.len() {
        miscounted(walk, flaws, out, at, s, names, raws)?;
        return Ok(());
    }
    first_vars(walk, flaws, out, s, names, types, raws)?;
    Ok(())
}

#[tactic(auto, using(crate::proofs::VarLemmas::every_same, crate::proofs::VarLemmas::every_other))]
fn every_var(
    walk: &mut Walk,
    flaws: &mut Vec<Flaw>,
    out: &mut Vec<CoreStmt>,
    at: Place,
    s: SpecType,
    names: &[Name],
    raws: Raws,
) -> Result<(), NoMemory>
    requires depth { 0 < depth walk.old }
    requires spec { SpecBelow (size (table_of walk.old.env)) s }
    requires within { RawsBelow (size (table_of walk.old.env)) raws }
    ensures does { OnOk result (Does (var_all (names_of walk.old.env) at (spec_view (types_of walk.old.env) s) names.now (raws_view (types_of walk.old.env) raws)) walk.old walk.new flaws.old.items flaws.new.items out.old.items out.new.items) }
{
    if raws.items.len() != names.len() {
        miscounted(walk, flaws, out, at, s, names, raws)?;
        return Ok(());
    }
    all_vars(walk, flaws, out, s, names, raws)?;
    Ok(())
}

// The types of the several values of a call, apart from the environment.
fn call_types(alloc: Global, env: &Env, raws: &Raws) -> Result<Option<Ids>, NoMemory>
    requires within { RawsBelow (size (table_of env.now)) raws.now }
    ensures value { IfOk result (λ o. option_map (trees_of (types_of env.now)) o ≡ several_in (raws_view (types_of env.now) raws.now)) }
    ensures within { IfOk result (λ o. IfSome o (IdsBelow (size (table_of env.now)))) }
{
    match several(env, raws) {
        Some(types) => {
            let copy = Vec::from_slice(alloc, types)?;
            Ok(Some(Ids::from_vec(copy)))
        }
        None => Ok(None),
    }
}

#[tactic(auto, using(crate::proofs::VarLemmas::by_some, crate::proofs::VarLemmas::by_none))]
fn by_types(
    walk: &mut Walk,
    flaws: &mut Vec<Flaw>,
    out: &mut Vec<CoreStmt>,
    at: Place,
    s: SpecType,
    names: &[Name],
    types: Option<Ids>,
    raws: Raws,
) -> Result<(), NoMemory>
    requires depth { 0 < depth walk.old }
    requires spec { SpecBelow (size (table_of walk.old.env)) s }
    requires types { IfSome types (IdsBelow (size (table_of walk.old.env))) }
    requires several { option_map (trees_of (types_of walk.old.env)) types ≡ several_in (raws_view (types_of walk.old.env) raws) }
    requires within { RawsBelow (size (table_of walk.old.env)) raws }
    ensures does { OnOk result (Does (var_by (names_of walk.old.env) at (spec_view (types_of walk.old.env) s) names.now (raws_view (types_of walk.old.env) raws) (several_in (raws_view (types_of walk.old.env) raws))) walk.old walk.new flaws.old.items flaws.new.items out.old.items out.new.items) }
{
    match types {
        Some(types) => {
            several_vars(walk, flaws, out, at, s, names, types.as_slice(), raws)?;
            Ok(())
        }
        None => {
            every_var(walk, flaws, out, at, s, names, raws)?;
            Ok(())
        }
    }
}

#[tactic(auto, using(crate::proofs::VarLemmas::given_zero, crate::proofs::VarLemmas::given_by))]
fn given_vars(
    walk: &mut Walk,
    flaws: &mut Vec<Flaw>,
    out: &mut Vec<CoreStmt>,
    at: Place,
    s: SpecType,
    names: &[Name],
    raws: Raws,
) -> Result<(), NoMemory>
    requires depth { 0 < depth walk.old }
    requires spec { SpecBelow (size (table_of walk.old.env)) s }
    requires within { RawsBelow (size (table_of walk.old.env)) raws }
    ensures does { OnOk result (Does (var_given (names_of walk.old.env) at (spec_view (types_of walk.old.env) s) names.now (raws_view (types_of walk.old.env) raws)) walk.old walk.new flaws.old.items flaws.new.items out.old.items out.new.items) }
{
    if raws.items.is_empty() {
        gone_raws(raws);
        zeros(walk, flaws, out, s, names)?;
        return Ok(());
    }
    match call_types(*out.allocator(), &walk.env, &raws) {
        Ok(types) => {
            by_types(walk, flaws, out, at, s, names, types, raws)?;
            Ok(())
        }
        Err(error) => {
            gone_raws(raws);
            Err(error)
        }
    }
}

// A specification: its type and its values are typed in the scopes before its names.
#[tactic(auto, using(crate::proofs::GivenLemmas::depth_after, crate::proofs::GivenLemmas::spec_after))]
fn var_spec(
    walk: &mut Walk,
    flaws: &mut Vec<Flaw>,
    out: &mut Vec<CoreStmt>,
    at: Place,
    spec: &ValueSpec,
) -> Result<(), NoMemory>
    requires depth { 0 < depth walk.old }
    ensures does { OnOk result (Does (var_spec at (out-ValueSpec spec.now).names.items (maybe_expr (option_map expr_view (out-ValueSpec spec.now).ty)) (exprs_of (map expr_view (out-ValueSpec spec.now).values.items))) walk.old walk.new flaws.old.items flaws.new.items out.old.items out.new.items) }
{
    let names = spec.names.as_slice();
    let values = spec.values.as_slice();
    let s = told_spec(walk, flaws, &spec.ty)?;
    use_type(walk, &spec.ty)?;
    match raws_used(walk, values) {
        Ok(raws) => {
            given_vars(walk, flaws, out, at, s, names, raws)?;
            Ok(())
        }
        Err(error) => Err(error),
    }
}

/// `var`, specification by specification.
#[tactic(auto, using(crate::proofs::LeftLemmas::left_begin))]
pub fn var_specs(
    walk: &mut Walk,
    flaws: &mut Vec<Flaw>,
    out: &mut Vec<CoreStmt>,
    at: Place,
    specs: &[ValueSpec],
) -> Result<(), NoMemory>
    requires depth { 0 < depth walk.old }
    ensures does { OnOk result (Does (var_specs at (joined (map value_spec_view specs.now) t.NoValues)) walk.old walk.new flaws.old.items flaws.new.items out.old.items out.new.items) }
{
    for spec in specs {
        var_spec(walk, flaws, out, at, spec)?;
    }
    Ok(())
}
