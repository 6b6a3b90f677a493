//! A value for each name.
//!
//! Go, "Variable declarations".

ghost use Rattle.std.specs.Prelude.{◌≡◌, ◌<◌, ◌++◌, ◌∷◌, [], OnOk, List, map};
ghost use Rattle.go_type.specs.Tree.{Ty};
ghost use Rattle.go_type.specs.Table.{size};
ghost use Rattle.go_core.specs.CoreView.{expr_view as core_view};
ghost use Rattle.go_operands.specs.EnvView.{table_of};
ghost use Rattle.go_operands.specs.AnswerView.{answer_view, flaw_view};
ghost use Rattle.go_operands.specs.Below.{AnswerBelow};
ghost use Rattle.go_calls.specs.Words.{types_of, names_of};
ghost use Rattle.go_typing.specs.Walk.{is_there};
ghost use Rattle.go_typing.specs.Expressions as go;
ghost use Rattle.go_typing.specs.Assign.{no_more};
ghost use Rattle.go_typing.specs.Declare.{spec_var_type};
ghost use Rattle.go_walk.specs.WalkView.{walk_of, depth, Keeps};
ghost use Rattle.go_expr.specs.Raw.{raw_view, raws_view, RawBelow, RawsBelow};
ghost use Rattle.go_assign.specs.Outcome.{Does};
ghost use Rattle.go_assign.specs.SpecView.{spec_view, SpecBelow};
ghost use Rattle.go_body.specs.LocalVarsSpecs.{raw_value, var_raws, var_each_did};
ghost use Rattle.go_body.specs.LocalVarsLeft.{Puts, Names, DefinesLeft};

use crate::local_vars::names::put;
use crate::local_vars::spec::{settled, var_type};
use gj_base::{NoMemory, Place};
use go_assign::constants::SpecType;
use go_assign::effects::{and_valued, stored};
use go_assign::valued::valued::Valued;
use go_core::node::CoreExpr;
use go_core::statement::{CoreStmt, Target};
use go_expr::typed::{Raw, Raws, gone_raw, gone_raws, next_raw};
use go_operands::answers::answer::Flaw;
use go_syntax::tree::Name;
use go_walk::stmt_gone::gone::{gone_targets, gone_values};
use go_walk::walk::Walk;
use go_walk::walk::again::redeclared;
use go_walk::walk::scopes::there;

// A name with its value: what is told of the value, the statement that declares the name, and its left
// side.
#[tactic(auto, using(crate::proofs::NameLemmas::puts_as))]
fn one_valued(
    walk: &mut Walk,
    flaws: &mut Vec<Flaw>,
    out: &mut Vec<CoreStmt>,
    targets: &mut Vec<Target>,
    values: &mut Vec<CoreExpr>,
    s: SpecType,
    n: &Name,
    at: Option<Place>,
    valued: Valued,
) -> Result<(), NoMemory>
    requires depth { 0 < depth walk.old }
    requires there { (ts : List Ty) → is_there n.now (walk_of ts walk.old) ≡ at }
    requires spec { SpecBelow (size (table_of walk.old.env)) s }
    requires within { AnswerBelow (size (table_of walk.old.env)) valued.answer }
    ensures told { OnOk result (map flaw_view flaws.new.items ≡ map flaw_view flaws.old.items ++ map flaw_view valued.flaws.items) }
    ensures values { OnOk result ((ts : List Ty) → Keeps (table_of walk.old.env) ts → map (core_view ts) values.new.items ≡ map (core_view ts) values.old.items ++ go.core_of (answer_view (types_of walk.old.env) valued.answer) ∷ []) }
    ensures puts { OnOk result (Puts n.now at (spec_var_type (spec_view (types_of walk.old.env) s) (answer_view (types_of walk.old.env) valued.answer)) walk.old walk.new out.old.items out.new.items targets.old.items targets.new.items) }
{
    let alloc = *flaws.allocator();
    let ty = var_type(&walk.env, s, &valued.answer);
    match and_valued(alloc, &walk.env, valued, flaws, values) {
        Ok(()) => match put(alloc, walk, out, targets, n, at, ty) {
            Ok(()) => Ok(()),
            Err(error) => Err(error),
        },
        Err(error) => Err(error),
    }
}

#[tactic(auto, using(crate::proofs::NameLemmas::names_valued))]
fn one_var(
    walk: &mut Walk,
    flaws: &mut Vec<Flaw>,
    out: &mut Vec<CoreStmt>,
    targets: &mut Vec<Target>,
    values: &mut Vec<CoreExpr>,
    s: SpecType,
    n: &Name,
    raw: Raw,
) -> Result<(), NoMemory>
    requires depth { 0 < depth walk.old }
    requires spec { SpecBelow (size (table_of walk.old.env)) s }
    requires within { RawBelow (size (table_of walk.old.env)) raw }
    ensures names { OnOk result (let v = raw_value (names_of walk.old.env) (spec_view (types_of walk.old.env) s) (raw_view (types_of walk.old.env) raw) in Names n.now (spec_var_type (spec_view (types_of walk.old.env) s) v.answer) v.flaws (go.core_of v.answer ∷ []) walk.old walk.new flaws.old.items flaws.new.items out.old.items out.new.items targets.old.items targets.new.items values.old.items values.new.items) }
{
    let alloc = *flaws.allocator();
    let at = there(walk, n);
    match redeclared(flaws, n, at) {
        Ok(()) => match settled(alloc, &walk.env, s, raw) {
            Ok(valued) => match one_valued(walk, flaws, out, targets, values, s, n, at, valued) {
                Ok(()) => Ok(()),
                Err(error) => Err(error),
            },
            Err(error) => Err(error),
        },
        Err(error) => {
            gone_raw(raw);
            Err(error)
        }
    }
}

// Names and values, one by one.
#[tactic(auto, using(crate::proofs::NameLemmas::each_begin))]
fn each_var(
    walk: &mut Walk,
    flaws: &mut Vec<Flaw>,
    out: &mut Vec<CoreStmt>,
    targets: &mut Vec<Target>,
    values: &mut Vec<CoreExpr>,
    s: SpecType,
    names: &[Name],
    raws: &mut Raws,
) -> Result<(), NoMemory>
    requires depth { 0 < depth walk.old }
    requires spec { SpecBelow (size (table_of walk.old.env)) s }
    requires within { RawsBelow (size (table_of walk.old.env)) raws.old }
    requires no_targets { targets.old.items ≡ [] }
    requires no_values { values.old.items ≡ [] }
    ensures defines { OnOk result (DefinesLeft (var_raws (names_of walk.old.env) (spec_view (types_of walk.old.env) s) names.now (raws_view (types_of walk.old.env) raws.old)) no_more walk.old walk.new flaws.old.items flaws.new.items out.old.items out.new.items targets.new.items values.new.items) }
{
    for n in names {
        match next_raw(&walk.env, raws) {
            Some(raw) => one_var(walk, flaws, out, targets, values, s, n, raw)?,
            None => return Ok(()),
        }
    }
    Ok(())
}

fn every_value(
    walk: &mut Walk,
    flaws: &mut Vec<Flaw>,
    out: &mut Vec<CoreStmt>,
    targets: &mut Vec<Target>,
    values: &mut Vec<CoreExpr>,
    s: SpecType,
    names: &[Name],
    raws: Raws,
) -> Result<(), NoMemory>
    requires depth { 0 < depth walk.old }
    requires spec { SpecBelow (size (table_of walk.old.env)) s }
    requires within { RawsBelow (size (table_of walk.old.env)) raws }
    requires no_targets { targets.old.items ≡ [] }
    requires no_values { values.old.items ≡ [] }
    ensures defines { OnOk result (DefinesLeft (var_raws (names_of walk.old.env) (spec_view (types_of walk.old.env) s) names.now (raws_view (types_of walk.old.env) raws)) no_more walk.old walk.new flaws.old.items flaws.new.items out.old.items out.new.items targets.new.items values.new.items) }
{
    let mut raws = raws;
    match each_var(walk, flaws, out, targets, values, s, names, &mut raws) {
        Ok(()) => {
            gone_raws(raws);
            Ok(())
        }
        Err(error) => {
            gone_raws(raws);
            Err(error)
        }
    }
}

/// As many values as names: all are stored at once.
#[tactic(auto, using(crate::proofs::VarLemmas::each_does))]
pub fn all_vars(
    walk: &mut Walk,
    flaws: &mut Vec<Flaw>,
    out: &mut Vec<CoreStmt>,
    s: SpecType,
    names: &[Name],
    raws: Raws,
) -> Result<(), NoMemory>
    requires depth { 0 < depth walk.old }
    requires spec { SpecBelow (size (table_of walk.old.env)) s }
    requires within { RawsBelow (size (table_of walk.old.env)) raws }
    ensures does { OnOk result (Does (var_each_did (names_of walk.old.env) (spec_view (types_of walk.old.env) s) names.now (raws_view (types_of walk.old.env) raws)) walk.old walk.new flaws.old.items flaws.new.items out.old.items out.new.items) }
{
    let alloc = *out.allocator();
    let mut targets = Vec::new(alloc);
    let mut values = Vec::new(alloc);
    match every_value(walk, flaws, out, &mut targets, &mut values, s, names, raws) {
        Ok(()) => match stored(alloc, targets, values, out) {
            Ok(()) => Ok(()),
            Err(error) => Err(error),
        },
        Err(error) => {
            gone_targets(targets);
            gone_values(values);
            Err(error)
        }
    }
}
