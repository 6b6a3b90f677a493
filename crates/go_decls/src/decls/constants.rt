//! Constants of the package: what is told of their types and values, and of wrong counts (84).
//!
//! Go, "Constant declarations", "Iota".

ghost use Rattle.std.specs.Prelude.{◌≡◌, ◌++◌, ◌∷◌, [], suc, ℕ, None, OnOk, IfOk, map, length, if◌then◌else◌};
ghost use Rattle.gj_base.specs.declared.place.Place as place;
ghost use Rattle.go_type.specs.Table.{size};
ghost use Rattle.go_syntax.specs.Tree as t;
ghost use Rattle.go_syntax.specs.View.{expr_view, exprs_of, value_spec_view, joined};
ghost use Rattle.go_operands.specs.EnvView.{table_of, env_of};
ghost use Rattle.go_operands.specs.AnswerView.{flaw_view};
ghost use Rattle.go_calls.specs.Words.{types_of};
ghost use Rattle.go_items.specs.ItemView.{type_in, values_in, names_in};
ghost use Rattle.go_typing.specs.Assign.{all_typed, all_in_flaws};
ghost use Rattle.go_typing.specs.Walk as go;
ghost use Rattle.go_typing.specs.Declare.{counting, constant_value, names_count, spec_place, count_told};
ghost use Rattle.go_typing.specs.Told.{each_told, spec_told, specs_told};
ghost use Rattle.go_walk.specs.WalkView.{walk_outside};
ghost use Rattle.go_expr.specs.Raw.{Grows};
ghost use Rattle.go_assign.specs.SpecView.{spec_view, SpecBelow};

use gj_base::{NoMemory, Place};
use go_assign::constants::{Spec, SpecType, constant_value, count_told, type_of_spec};
use go_assign::valued::move_flaws;
use go_expr::typed::all_in;
use go_operands::answers::answer::Flaw;
use go_operands::scopes::Env;
use go_syntax::tree::{Expr, Name, ValueSpec};
use std::alloc::Global;

// One value.
fn value_told(
    alloc: Global,
    env: &mut Env,
    flaws: &mut Vec<Flaw>,
    ty: SpecType,
    y: &Expr,
) -> Result<(), NoMemory>
    requires ty { SpecBelow (size (table_of env.old)) ty }
    ensures told { OnOk result (map flaw_view flaws.new.items ≡ map flaw_view flaws.old.items ++ (constant_value (walk_outside env.old) (spec_view (types_of env.old) ty) (expr_view y.now)).flaws) }
    ensures grows { OnOk result (Grows env.old env.new) }
{
    let found = constant_value(alloc, env, ty, y)?;
    move_flaws(flaws, found.flaws)?;
    Ok(())
}

// As many values as names.
fn each_told(
    alloc: Global,
    env: &mut Env,
    flaws: &mut Vec<Flaw>,
    ty: SpecType,
    names: &[Name],
    values: &[Expr],
) -> Result<(), NoMemory>
    requires ty { SpecBelow (size (table_of env.old)) ty }
    requires count { length names.now ≡ length values.now }
    ensures told { OnOk result (map flaw_view flaws.new.items ≡ map flaw_view flaws.old.items ++ each_told (walk_outside env.old) (spec_view (types_of env.old) ty) names.now (exprs_of (map expr_view values.now))) }
    ensures grows { OnOk result (Grows env.old env.new) }
{
    let _ = names;
    for y in values {
        value_told(alloc, env, flaws, ty, y)?;
    }
    Ok(())
}

fn place_of(names: &[Name], at: Place) -> Place
    ensures value { result ≡ spec_place names.now at }
{
    match names {
        [] => at,
        [n, ..] => n.place,
    }
}

// Too few or too many, which is told where the type and all of them are typed.
fn miscounted(
    alloc: Global,
    env: &mut Env,
    flaws: &mut Vec<Flaw>,
    at: Place,
    ty: SpecType,
    values: &[Expr],
) -> Result<(), NoMemory>
    ensures told { OnOk result (map flaw_view flaws.new.items ≡ map flaw_view flaws.old.items ++ count_told (spec_view (types_of env.old) ty) at (all_typed (walk_outside env.old) (exprs_of (map expr_view values.now))) (all_in_flaws (walk_outside env.old) (exprs_of (map expr_view values.now)))) }
    ensures grows { OnOk result (Grows env.old env.new) }
{
    match all_in(alloc, env, values) {
        Ok(raws) => {
            count_told(flaws, ty, at, raws)?;
            Ok(())
        }
        Err(error) => Err(error),
    }
}

fn values_told(
    alloc: Global,
    env: &mut Env,
    flaws: &mut Vec<Flaw>,
    at: Place,
    ty: SpecType,
    names: &[Name],
    values: &[Expr],
) -> Result<(), NoMemory>
    requires ty { SpecBelow (size (table_of env.old)) ty }
    ensures told { OnOk result (map flaw_view flaws.new.items ≡ map flaw_view flaws.old.items ++ (if names_count names.now (exprs_of (map expr_view values.now)) then each_told (walk_outside env.old) (spec_view (types_of env.old) ty) names.now (exprs_of (map expr_view values.now)) else count_told (spec_view (types_of env.old) ty) (spec_place names.now at) (all_typed (walk_outside env.old) (exprs_of (map expr_view values.now))) (all_in_flaws (walk_outside env.old) (exprs_of (map expr_view values.now))))) }
    ensures grows { OnOk result (Grows env.old env.new) }
{
    if names.len() == values.len() {
        each_told(alloc, env, flaws, ty, names, values)?;
        return Ok(());
    }
    miscounted(alloc, env, flaws, place_of(names, at), ty, values)?;
    Ok(())
}

fn values_of<'a>(spec: Option<&'a ValueSpec>) -> &'a [Expr]
    ensures value { exprs_of (map expr_view result.now) ≡ values_in (spec).entry }
{
    match spec {
        Some(spec) => spec.values.as_slice(),
        None => &[],
    }
}

// A specification with the type and the values that stand for it.
fn spec_in(
    alloc: Global,
    env: &mut Env,
    flaws: &mut Vec<Flaw>,
    at: Place,
    source: Option<&ValueSpec>,
    names: &[Name],
) -> Result<(), NoMemory>
    ensures told { OnOk result (map flaw_view flaws.new.items ≡ map flaw_view flaws.old.items ++ spec_told at (walk_outside env.old) names.now (type_in (source).entry) (values_in (source).entry)) }
    ensures grows { OnOk result (Grows env.old env.new) }
{
    let spec = type_of_spec(alloc, env, source)?;
    let Spec { ty, flaws: more } = spec;
    move_flaws(flaws, more)?;
    values_told(alloc, env, flaws, at, ty, names, values_of(source))?;
    Ok(())
}

// The specification of a number.
fn spec_told(
    alloc: Global,
    env: &mut Env,
    flaws: &mut Vec<Flaw>,
    at: Place,
    number: u64,
    source: Option<&ValueSpec>,
    names: &[Name],
) -> Result<(), NoMemory>
    requires none { (env_of env.old).iota ≡ None }
    ensures told { OnOk result (map flaw_view flaws.new.items ≡ map flaw_view flaws.old.items ++ spec_told at (counting number (walk_outside env.old)) names.now (type_in (source).entry) (values_in (source).entry)) }
    ensures grows { OnOk result (Grows env.old env.new) }
{
    env.count(Some(number));
    spec_in(alloc, env, flaws, at, source, names)?;
    env.count(None);
    Ok(())
}

// Whose list stands for this specification's: its own, or where it has none that of the one before.
fn source_of<'a>(source: Option<&'a ValueSpec>, spec: &'a ValueSpec) -> Option<&'a ValueSpec>
    ensures value { (at : place.Place) (k : ℕ) (w : go.Walk) (rest : t.ValueSpecs) → specs_told at k w (type_in (source).entry) (values_in (source).entry) (value_spec_view spec.now rest) ≡ spec_told at (counting k w) (names_in spec.now) (type_in result) (values_in result) ++ specs_told at (suc k) w (type_in result) (values_in result) rest }
{
    if spec.values.is_empty() {
        return source;
    }
    Some(spec)
}

fn next(number: u64) -> Result<u64, NoMemory>
    ensures value { IfOk result (λ n. n ≡ suc number) }
{
    match number.checked_add(1) {
        Some(n) => Ok(n),
        None => Err(NoMemory),
    }
}

/// Adds what is told of a declaration of constants.
pub fn specs_told(
    alloc: Global,
    env: &mut Env,
    flaws: &mut Vec<Flaw>,
    at: Place,
    specs: &[ValueSpec],
) -> Result<(), NoMemory>
    requires none { (env_of env.old).iota ≡ None }
    ensures told { OnOk result (map flaw_view flaws.new.items ≡ map flaw_view flaws.old.items ++ specs_told at 0 (walk_outside env.old) t.NoExpr t.NoExprs (joined (map value_spec_view specs.now) t.NoValues)) }
    ensures grows { OnOk result (Grows env.old env.new) }
{
    let mut number = 0;
    let mut source = None;
    for spec in specs {
        source = source_of(source, spec);
        spec_told(alloc, env, flaws, at, number, source, spec.names.as_slice())?;
        number = next(number)?;
    }
    Ok(())
}
