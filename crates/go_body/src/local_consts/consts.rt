//! The constants of a specification.
//!
//! Go, "Constant declarations".

ghost use Rattle.std.specs.Prelude.{◌≡◌, ◌≢◌, ◌<◌, OnOk, List, length};
ghost use Rattle.go_type.specs.Table.{size};
ghost use Rattle.go_core.specs.declared.statement.CoreStmt as statement;
ghost use Rattle.go_operands.specs.EnvView.{table_of};
ghost use Rattle.go_calls.specs.Words.{types_of, names_of};
ghost use Rattle.go_typing.specs.Declare.{const_unknown};
ghost use Rattle.go_walk.specs.WalkView.{depth};
ghost use Rattle.go_expr.specs.Raw.{raw_view, raws_view, RawBelow, RawsBelow};
ghost use Rattle.go_assign.specs.Outcome.{Does};
ghost use Rattle.go_assign.specs.SpecView.{spec_view, SpecBelow, constant_raw};
ghost use Rattle.go_body.specs.LocalConstsSpecs.{one_constant, unknown_constant, const_raws, const_given};

use crate::local_consts::names::told_constant;
use crate::local_consts::values::constant_of_spec;
use crate::local_vars::specs::first_at;
use gj_base::{NoMemory, Place};
use go_assign::constants::{SpecType, count_told};
use go_assign::valued::valued::Valued;
use go_expr::typed::{Raw, Raws, gone_raws, next_raw};
use go_operands::answers::answer::{Answer, Flaw};
use go_syntax::tree::Name;
use go_walk::walk::Walk;

#[tactic(auto, using(crate::proofs::ConstLemmas::one_same))]
fn one_const(
    walk: &mut Walk,
    flaws: &mut Vec<Flaw>,
    s: SpecType,
    n: &Name,
    raw: Raw,
) -> Result<(), NoMemory>
    requires depth { 0 < depth walk.old }
    requires spec { SpecBelow (size (table_of walk.old.env)) s }
    requires within { RawBelow (size (table_of walk.old.env)) raw }
    ensures does { OnOk result ((out : List statement.CoreStmt) → Does (one_constant n.now (constant_raw (names_of walk.old.env) (spec_view (types_of walk.old.env) s) (raw_view (types_of walk.old.env) raw))) walk.old walk.new flaws.old.items flaws.new.items out out) }
    ensures table { OnOk result (table_of walk.new.env ≡ table_of walk.old.env) }
{
    match constant_of_spec(*flaws.allocator(), &walk.env, s, raw) {
        Ok(valued) => match told_constant(walk, flaws, n, valued) {
            Ok(()) => Ok(()),
            Err(error) => Err(error),
        },
        Err(error) => Err(error),
    }
}

// Names and values, one by one.
fn each_const(
    walk: &mut Walk,
    flaws: &mut Vec<Flaw>,
    s: SpecType,
    names: &[Name],
    raws: &mut Raws,
) -> Result<(), NoMemory>
    requires depth { 0 < depth walk.old }
    requires spec { SpecBelow (size (table_of walk.old.env)) s }
    requires within { RawsBelow (size (table_of walk.old.env)) raws.old }
    ensures does { OnOk result ((out : List statement.CoreStmt) → Does (const_raws (names_of walk.old.env) (spec_view (types_of walk.old.env) s) names.now (raws_view (types_of walk.old.env) raws.old)) walk.old walk.new flaws.old.items flaws.new.items out out) }
{
    for n in names {
        match next_raw(&walk.env, raws) {
            Some(raw) => one_const(walk, flaws, s, n, raw)?,
            None => return Ok(()),
        }
    }
    Ok(())
}

fn all_consts(
    walk: &mut Walk,
    flaws: &mut Vec<Flaw>,
    s: SpecType,
    names: &[Name],
    raws: Raws,
) -> Result<(), NoMemory>
    requires depth { 0 < depth walk.old }
    requires spec { SpecBelow (size (table_of walk.old.env)) s }
    requires within { RawsBelow (size (table_of walk.old.env)) raws }
    ensures does { OnOk result ((out : List statement.CoreStmt) → Does (const_raws (names_of walk.old.env) (spec_view (types_of walk.old.env) s) names.now (raws_view (types_of walk.old.env) raws)) walk.old walk.new flaws.old.items flaws.new.items out out) }
{
    let mut raws = raws;
    match each_const(walk, flaws, s, names, &mut raws) {
        Ok(()) => {
            gone_raws(raws);
            Ok(())
        }
        Err(error) => {
            gone_raws(raws);
            Err(error)
        }
    }
}

// A name without a value.
#[tactic(auto, using(crate::proofs::ConstLemmas::unknown_does))]
fn one_unknown(walk: &mut Walk, flaws: &mut Vec<Flaw>, n: &Name) -> Result<(), NoMemory>
    requires depth { 0 < depth walk.old }
    ensures does { OnOk result ((out : List statement.CoreStmt) → Does (unknown_constant n.now) walk.old walk.new flaws.old.items flaws.new.items out out) }
{
    let valued = Valued {
        answer: Answer::Unknown,
        flaws: Vec::new(*flaws.allocator()),
    };
    match told_constant(walk, flaws, n, valued) {
        Ok(()) => Ok(()),
        Err(error) => Err(error),
    }
}

// Names without values.
fn unknown_consts(walk: &mut Walk, flaws: &mut Vec<Flaw>, names: &[Name]) -> Result<(), NoMemory>
    requires depth { 0 < depth walk.old }
    ensures does { OnOk result ((out : List statement.CoreStmt) → Does (const_unknown names.now) walk.old walk.new flaws.old.items flaws.new.items out out) }
{
    for n in names {
        one_unknown(walk, flaws, n)?;
    }
    Ok(())
}

// The counts differ (84).
#[tactic(auto, using(crate::proofs::ConstLemmas::miscounted_does))]
fn miscounted(
    walk: &mut Walk,
    flaws: &mut Vec<Flaw>,
    at: Place,
    s: SpecType,
    names: &[Name],
    raws: Raws,
) -> Result<(), NoMemory>
    requires depth { 0 < depth walk.old }
    requires counts { length raws.items.items ≢ length names.now }
    ensures does { OnOk result ((out : List statement.CoreStmt) → Does (const_given (names_of walk.old.env) at (spec_view (types_of walk.old.env) s) names.now (raws_view (types_of walk.old.env) raws)) walk.old walk.new flaws.old.items flaws.new.items out out) }
{
    let first = first_at(names, at);
    match count_told(flaws, s, first, raws) {
        Ok(()) => match unknown_consts(walk, flaws, names) {
            Ok(()) => Ok(()),
            Err(error) => Err(error),
        },
        Err(error) => Err(error),
    }
}

/// The names of a specification with what was typed of its values.
#[tactic(auto, using(crate::proofs::ConstLemmas::given_does))]
pub fn given_consts(
    walk: &mut Walk,
    flaws: &mut Vec<Flaw>,
    at: Place,
    s: SpecType,
    names: &[Name],
    raws: Raws,
) -> Result<(), NoMemory>
    requires depth { 0 < depth walk.old }
    requires spec { SpecBelow (size (table_of walk.old.env)) s }
    requires within { RawsBelow (size (table_of walk.old.env)) raws }
    ensures does { OnOk result ((out : List statement.CoreStmt) → Does (const_given (names_of walk.old.env) at (spec_view (types_of walk.old.env) s) names.now (raws_view (types_of walk.old.env) raws)) walk.old walk.new flaws.old.items flaws.new.items out out) }
{
    if raws.items.len() != names.len() {
        miscounted(walk, flaws, at, s, names, raws)?;
        return Ok(());
    }
    all_consts(walk, flaws, s, names, raws)?;
    Ok(())
}
