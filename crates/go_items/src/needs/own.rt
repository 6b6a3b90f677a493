//! The names that a declaration needs by itself.

ghost use Rattle.std.specs.Prelude.{◌≡◌, ◌++◌, OnOk, IfOk, map};
ghost use Rattle.go_syntax.specs.View.{expr_view, exprs_of, sig_view};
ghost use Rattle.go_operands.specs.EnvView.{env_of};
ghost use Rattle.go_typing.specs.Scopes.{visible};
ghost use Rattle.go_typing.specs.Signature.{params_of, results_of};
ghost use Rattle.go_typing.specs.Cycles.{needed_bound, needed_value};
ghost use Rattle.go_items.specs.ItemView.{item_view, type_in, value_of, values_in};
ghost use Rattle.go_items.specs.ParamView.{grouped_view};
ghost use Rattle.go_walk.specs.Texts.{texts};
ghost use Rattle.go_items.specs.Stated.{written, all_written, stated};

use crate::items::item::Item;
use crate::items::param::{Grouped, params_of, results_of};
use crate::needed::needed::{needed, needed_all, needed_maybe};
use gj_base::{NoMemory, Text};
use go_operands::scopes::Env;
use go_syntax::tree::{Expr, Sig, ValueSpec};
use std::alloc::Global;

// The type of a parameter where it is written with it: a name alone has that of a later one. `...` is
// not built yet.
fn param_needs<'a>(env: &Env, names: &mut Vec<&'a Text>, p: &Grouped<'a>) -> Result<(), NoMemory>
    ensures value { OnOk result (texts names.new.items ≡ texts names.old.items ++ written (visible (env_of env.now)) (grouped_view p.now)) }
{
    if !p.has_type {
        return Ok(());
    }
    if p.variadic {
        return Ok(());
    }
    needed(env, names, p.ty)
}

fn params_need<'a>(
    env: &Env,
    names: &mut Vec<&'a Text>,
    params: &[Grouped<'a>],
) -> Result<(), NoMemory>
    ensures value { OnOk result (texts names.new.items ≡ texts names.old.items ++ all_written (visible (env_of env.now)) (map grouped_view params.now)) }
{
    for p in params {
        param_needs(env, names, p)?;
    }
    Ok(())
}

fn sig_needs<'a>(
    alloc: Global,
    env: &Env,
    names: &mut Vec<&'a Text>,
    sig: &'a Sig,
) -> Result<(), NoMemory>
    ensures value { OnOk result (texts names.new.items ≡ texts names.old.items ++ (all_written (visible (env_of env.now)) (params_of (sig_view sig.now)) ++ all_written (visible (env_of env.now)) (results_of (sig_view sig.now)))) }
{
    let params = params_of(alloc, sig)?;
    params_need(env, names, params.as_slice())?;
    let results = results_of(alloc, sig)?;
    params_need(env, names, results.as_slice())
}

fn type_needs<'a>(
    env: &Env,
    names: &mut Vec<&'a Text>,
    spec: Option<&'a ValueSpec>,
) -> Result<(), NoMemory>
    ensures value { OnOk result (texts names.new.items ≡ texts names.old.items ++ needed_bound (visible (env_of env.now)) (type_in (spec).entry)) }
{
    match spec {
        Some(spec) => needed_maybe(env, names, &spec.ty),
        None => Ok(()),
    }
}

fn values_of<'a>(spec: Option<&'a ValueSpec>) -> &'a [Expr]
    ensures value { exprs_of (map expr_view result.now) ≡ values_in (spec).entry }
{
    match spec {
        Some(spec) => spec.values.as_slice(),
        None => &[],
    }
}

// A name without a value of its own needs all values of its list.
fn value_needs<'a>(
    env: &Env,
    names: &mut Vec<&'a Text>,
    spec: Option<&'a ValueSpec>,
    value: Option<&'a Expr>,
) -> Result<(), NoMemory>
    ensures value { OnOk result (texts names.new.items ≡ texts names.old.items ++ needed_value (visible (env_of env.now)) (value_of (value).entry) (values_in (spec).entry)) }
{
    match value {
        Some(e) => needed(env, names, e),
        None => needed_all(env, names, values_of(spec)),
    }
}

fn constant_needs<'a>(
    env: &Env,
    names: &mut Vec<&'a Text>,
    spec: Option<&'a ValueSpec>,
    value: Option<&'a Expr>,
) -> Result<(), NoMemory>
    ensures value { OnOk result (texts names.new.items ≡ texts names.old.items ++ (needed_bound (visible (env_of env.now)) (type_in (spec).entry) ++ needed_value (visible (env_of env.now)) (value_of (value).entry) (values_in (spec).entry))) }
{
    type_needs(env, names, spec)?;
    value_needs(env, names, spec, value)
}

/// Adds the names that a declaration needs.
pub fn item_needs<'a>(
    alloc: Global,
    env: &Env,
    names: &mut Vec<&'a Text>,
    item: &Item<'a>,
) -> Result<(), NoMemory>
    ensures value { OnOk result (texts names.new.items ≡ texts names.old.items ++ stated (visible (env_of env.now)) (item_view item.now)) }
{
    match item {
        Item::Constant {
            name: _,
            number: _,
            spec,
            value,
        } => constant_needs(env, names, *spec, *value),
        Item::Type {
            name: _,
            number: _,
            ty,
        } => needed(env, names, *ty),
        Item::Alias { name: _, ty } => needed(env, names, *ty),
        Item::Function {
            name: _,
            id: _,
            sig,
        } => sig_needs(alloc, env, names, *sig),
        Item::Variable { name: _ } => Ok(()),
        Item::Init { name: _ } => Ok(()),
    }
}
