//! Specifications of constants, by their numbers.
//!
//! Go, "Constant declarations", "Iota".

ghost use Rattle.std.specs.Prelude.{◌≡◌, ◌<◌, ◌++◌, ℕ, suc, OnOk, IfOk, List, map};
ghost use Rattle.gj_base.specs.declared.place.Place as place;
ghost use Rattle.go_type.specs.Tree.{Ty};
ghost use Rattle.go_type.specs.Table.{size};
ghost use Rattle.go_core.specs.declared.statement.CoreStmt as statement;
ghost use Rattle.go_syntax.specs.View.{expr_view, exprs_of, value_spec_view, joined};
ghost use Rattle.go_syntax.specs.Tree as t;
ghost use Rattle.go_syntax.specs.declared.tree.ValueSpec.{out-ValueSpec};
ghost use Rattle.go_operands.specs.EnvView.{table_of};
ghost use Rattle.go_operands.specs.AnswerView.{flaw_view};
ghost use Rattle.go_calls.specs.Words.{types_of, scopes_of};
ghost use Rattle.go_typing.specs.Walk.{and_then};
ghost use Rattle.go_typing.specs.Declare.{spec_type, spec_type_flaws, type_uses, const_spec, const_specs, counting};
ghost use Rattle.go_walk.specs.WalkView.{walk_of, depth};
ghost use Rattle.go_assign.specs.Outcome.{Does};
ghost use Rattle.go_items.specs.ItemView.{type_in, values_in};
ghost use Rattle.go_assign.specs.Moves.{Moves, Stays};
ghost use Rattle.go_assign.specs.SpecView.{spec_view, SpecBelow};
ghost use Rattle.go_body.specs.Plain.{IsPlain};

use crate::local_consts::consts::given_consts;
use crate::local_vars::spec::{told_spec, use_type};
use gj_base::{NoMemory, Place};
use go_assign::constants::SpecType;
use go_assign::effects::{all_typed, all_used};
use go_expr::typed::gone_raws;
use go_items::items::constant::next;
use go_operands::answers::answer::Flaw;
use go_syntax::tree::{Expr, Name, ValueSpec};
use go_walk::walk::Walk;
use go_walk::walk::scopes::{count, count_none};

// Whose list stands for this specification's: its own, or where it has none that of the one before.
fn source_of<'a>(source: Option<&'a ValueSpec>, spec: &'a ValueSpec) -> Option<&'a ValueSpec>
    ensures value { (at : place.Place) (k : ℕ) (rest : t.ValueSpecs) → const_specs at k (type_in (source).entry) (values_in (source).entry) (value_spec_view spec.now rest) ≡ (λ w. and_then (const_spec at (counting k w) (out-ValueSpec spec.now).names.items (type_in result) (values_in result) w) (const_specs at (suc k) (type_in result) (values_in result) rest)) }
{
    if spec.values.is_empty() {
        return source;
    }
    Some(spec)
}

fn values_of<'a>(source: Option<&'a ValueSpec>) -> &'a [Expr]
    ensures value { exprs_of (map expr_view result.now) ≡ values_in (source).entry }
{
    match source {
        Some(source) => source.values.as_slice(),
        None => &[],
    }
}

// The type that stands for this specification's.
fn told_source(
    walk: &mut Walk,
    flaws: &mut Vec<Flaw>,
    source: Option<&ValueSpec>,
) -> Result<SpecType, NoMemory>
    ensures view { IfOk result (λ s. (us : List Ty) → spec_view (types_of walk.new.env) s ≡ spec_type (walk_of us walk.old) (type_in (source).entry)) }
    ensures below { IfOk result (λ s. SpecBelow (size (table_of walk.new.env)) s) }
    ensures told { OnOk result ((us : List Ty) → map flaw_view flaws.new.items ≡ map flaw_view flaws.old.items ++ spec_type_flaws (walk_of us walk.old) (type_in (source).entry)) }
    ensures stays { OnOk result (Stays walk.old walk.new) }
{
    match source {
        Some(spec) => match told_spec(walk, flaws, &spec.ty) {
            Ok(s) => Ok(s),
            Err(error) => Err(error),
        },
        None => Ok(SpecType::Missing),
    }
}

fn use_source(walk: &mut Walk, source: Option<&ValueSpec>) -> Result<(), NoMemory>
    ensures moves { OnOk result (Moves (type_uses (type_in (source).entry)) walk.old walk.new) }
    ensures env { walk.new.env ≡ walk.old.env }
{
    match source {
        Some(spec) => match use_type(walk, &spec.ty) {
            Ok(()) => Ok(()),
            Err(error) => Err(error),
        },
        None => Ok(()),
    }
}

// A specification of this number: its type and its values are typed where `iota` is the number.
fn const_spec(
    walk: &mut Walk,
    flaws: &mut Vec<Flaw>,
    at: Place,
    number: u64,
    names: &[Name],
    source: Option<&ValueSpec>,
) -> Result<(), NoMemory>
    requires depth { 0 < depth walk.old }
    requires plain { IsPlain (scopes_of walk.old.env) }
    ensures does { OnOk result ((out : List statement.CoreStmt) → Does (λ w. const_spec at (counting number w) names.now (type_in (source).entry) (values_in (source).entry) w) walk.old walk.new flaws.old.items flaws.new.items out out) }
    ensures plain { OnOk result (IsPlain (scopes_of walk.new.env)) }
{
    let values = values_of(source);
    count(walk, number);
    let s = told_source(walk, flaws, source)?;
    match all_typed(walk, values) {
        Ok(raws) => {
            count_none(walk);
            match use_source(walk, source) {
                Ok(()) => match all_used(walk, values) {
                    Ok(()) => match given_consts(walk, flaws, at, s, names, raws) {
                        Ok(()) => Ok(()),
                        Err(error) => Err(error),
                    },
                    Err(error) => {
                        gone_raws(raws);
                        Err(error)
                    }
                },
                Err(error) => {
                    gone_raws(raws);
                    Err(error)
                }
            }
        }
        Err(error) => Err(error),
    }
}

/// `const`, specification by specification. Where a list of values is missing the last one stands
/// again, its type with it.
pub fn const_specs(
    walk: &mut Walk,
    flaws: &mut Vec<Flaw>,
    at: Place,
    specs: &[ValueSpec],
) -> Result<(), NoMemory>
    requires depth { 0 < depth walk.old }
    requires plain { IsPlain (scopes_of walk.old.env) }
    ensures does { OnOk result ((out : List statement.CoreStmt) → Does (const_specs at 0 t.NoExpr t.NoExprs (joined (map value_spec_view specs.now) t.NoValues)) walk.old walk.new flaws.old.items flaws.new.items out out) }
    ensures plain { OnOk result (IsPlain (scopes_of walk.new.env)) }
{
    let mut number = 0;
    let mut source = None;
    for spec in specs {
        source = source_of(source, spec);
        const_spec(walk, flaws, at, number, spec.names.as_slice(), source)?;
        number = next(number)?;
    }
    Ok(())
}
