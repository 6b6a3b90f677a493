//! The several values of a call, each for one name.
//!
//! Go, "Variable declarations".

ghost use Rattle.std.specs.Prelude.{◌≡◌, ◌<◌, [], OnOk, length};
ghost use Rattle.go_type.specs.Levels.{tree_of, trees_of, IdsBelow};
ghost use Rattle.go_type.specs.Table.{size};
ghost use Rattle.go_operands.specs.EnvView.{table_of};
ghost use Rattle.go_calls.specs.Words.{types_of};
ghost use Rattle.go_typing.specs.Assign.{no_more};
ghost use Rattle.go_typing.specs.Declare.{spec_or};
ghost use Rattle.go_walk.specs.WalkView.{depth};
ghost use Rattle.go_expr.specs.Raw.{raw_view, raws_view, RawsBelow};
ghost use Rattle.go_assign.specs.Outcome.{Does};
ghost use Rattle.go_assign.specs.SpecView.{spec_view, SpecBelow};
ghost use Rattle.go_body.specs.LocalVarsSpecs.{unfit, var_takes, var_whole, var_first};
ghost use Rattle.go_body.specs.LocalVarsLeft.{Names, DefinesLeft};

use crate::local_vars::names::put;
use crate::local_vars::spec::{fits, one_type};
use gj_base::{NoMemory, Place};
use go_assign::constants::SpecType;
use go_assign::effects::{one_stored, told_unless};
use go_core::statement::{CoreStmt, Target};
use go_expr::typed::{Raw, Raws, gone_raws, next_raw};
use go_operands::answers::answer::Flaw;
use go_operands::answers::gone::gone_answer;
use go_operands::operands::part::Part;
use go_syntax::tree::Name;
use go_type::types::TypeId;
use go_walk::stmt_gone::gone::gone_targets;
use go_walk::walk::Walk;
use go_walk::walk::again::redeclared;
use go_walk::walk::scopes::there;

#[tactic(auto, using(crate::proofs::NameLemmas::names_taken))]
fn one_taken(
    walk: &mut Walk,
    flaws: &mut Vec<Flaw>,
    out: &mut Vec<CoreStmt>,
    targets: &mut Vec<Target>,
    s: SpecType,
    n: &Name,
    t: TypeId,
    place: Place,
) -> Result<(), NoMemory>
    requires depth { 0 < depth walk.old }
    requires spec { SpecBelow (size (table_of walk.old.env)) s }
    requires below { t.0 < size (table_of walk.old.env) }
    ensures names { OnOk result (Names n.now (spec_or (spec_view (types_of walk.old.env) s) (tree_of (types_of walk.old.env) t)) (unfit place (spec_view (types_of walk.old.env) s) (tree_of (types_of walk.old.env) t)) [] walk.old walk.new flaws.old.items flaws.new.items out.old.items out.new.items targets.old.items targets.new.items [] []) }
{
    let alloc = *flaws.allocator();
    let at = there(walk, n);
    match redeclared(flaws, n, at) {
        Ok(()) => {
            let well = fits(&walk.env, s, t);
            match told_unless(alloc, flaws, well, place, 61) {
                Ok(()) => {
                    let ty = one_type(&walk.env, s, t);
                    match put(alloc, walk, out, targets, n, at, ty) {
                        Ok(()) => Ok(()),
                        Err(error) => Err(error),
                    }
                }
                Err(error) => Err(error),
            }
        }
        Err(error) => Err(error),
    }
}

// Names and types, one by one.
#[tactic(auto, using(crate::proofs::NameLemmas::takes_begin))]
fn each_taken(
    walk: &mut Walk,
    flaws: &mut Vec<Flaw>,
    out: &mut Vec<CoreStmt>,
    targets: &mut Vec<Target>,
    s: SpecType,
    names: &[Name],
    types: &[TypeId],
    place: Place,
) -> Result<(), NoMemory>
    requires depth { 0 < depth walk.old }
    requires spec { SpecBelow (size (table_of walk.old.env)) s }
    requires types { IdsBelow (size (table_of walk.old.env)) types.now }
    requires count { length types.now ≡ length names.now }
    requires no_targets { targets.old.items ≡ [] }
    ensures defines { OnOk result (DefinesLeft (var_takes place (spec_view (types_of walk.old.env) s) names.now (trees_of (types_of walk.old.env) types.now)) no_more walk.old walk.new flaws.old.items flaws.new.items out.old.items out.new.items targets.new.items []) }
{
    for i in 0..names.len() {
        one_taken(walk, flaws, out, targets, s, &names[i], types[i], place)?;
    }
    Ok(())
}

// The call is the one value.
#[tactic(auto, using(crate::proofs::VarLemmas::whole_does))]
fn whole_vars(
    walk: &mut Walk,
    flaws: &mut Vec<Flaw>,
    out: &mut Vec<CoreStmt>,
    s: SpecType,
    names: &[Name],
    types: &[TypeId],
    raw: Raw,
) -> Result<(), NoMemory>
    requires depth { 0 < depth walk.old }
    requires spec { SpecBelow (size (table_of walk.old.env)) s }
    requires types { IdsBelow (size (table_of walk.old.env)) types.now }
    requires count { length types.now ≡ length names.now }
    ensures does { OnOk result (Does (var_whole (spec_view (types_of walk.old.env) s) names.now (trees_of (types_of walk.old.env) types.now) (raw_view (types_of walk.old.env) raw)) walk.old walk.new flaws.old.items flaws.new.items out.old.items out.new.items) }
{
    let alloc = *out.allocator();
    let Raw {
        part,
        flaws: _flaws,
    } = raw;
    let Part { place, answer } = part;
    let mut targets = Vec::new(alloc);
    match each_taken(walk, flaws, out, &mut targets, s, names, types, place) {
        Ok(()) => match one_stored(alloc, &walk.env, targets, answer, out) {
            Ok(()) => Ok(()),
            Err(error) => Err(error),
        },
        Err(error) => {
            gone_targets(targets);
            gone_answer(answer);
            Err(error)
        }
    }
}

/// The values of the one call.
#[tactic(auto, using(crate::proofs::VarLemmas::first_some, crate::proofs::VarLemmas::first_none))]
pub fn first_vars(
    walk: &mut Walk,
    flaws: &mut Vec<Flaw>,
    out: &mut Vec<CoreStmt>,
    s: SpecType,
    names: &[Name],
    types: &[TypeId],
    raws: Raws,
) -> Result<(), NoMemory>
    requires depth { 0 < depth walk.old }
    requires spec { SpecBelow (size (table_of walk.old.env)) s }
    requires types { IdsBelow (size (table_of walk.old.env)) types.now }
    requires count { length types.now ≡ length names.now }
    requires within { RawsBelow (size (table_of walk.old.env)) raws }
    ensures does { OnOk result (Does (var_first (spec_view (types_of walk.old.env) s) names.now (trees_of (types_of walk.old.env) types.now) (raws_view (types_of walk.old.env) raws)) walk.old walk.new flaws.old.items flaws.new.items out.old.items out.new.items) }
{
    let mut raws = raws;
    match next_raw(&walk.env, &mut raws) {
        Some(raw) => {
            gone_raws(raws);
            match whole_vars(walk, flaws, out, s, names, types, raw) {
                Ok(()) => Ok(()),
                Err(error) => Err(error),
            }
        }
        None => {
            gone_raws(raws);
            Ok(())
        }
    }
}
