//! Constants of the package.
//!
//! Go, "Constant declarations", "Iota".

ghost use Rattle.std.specs.Prelude.{◌≡◌, List, Some, OnOk, IfOk};
ghost use Rattle.go_typing.specs.Items as go;
ghost use Rattle.go_typing.specs.Known.{constant_found};
ghost use Rattle.go_type.specs.Table.{places, size};
ghost use Rattle.go_syntax.specs.View.{expr_view};
ghost use Rattle.go_operands.specs.EnvView.{table_of, env_of};
ghost use Rattle.go_operands.specs.View.{decl_of};
ghost use Rattle.go_operands.specs.Within.{DeclaredBelow};
ghost use Rattle.go_items.specs.ItemView.{type_in, value_of, values_in};
ghost use Rattle.go_walk.specs.WalkView.{walk_outside};
ghost use Rattle.go_expr.specs.Raw.{Grows};
ghost use Rattle.go_sound.specs.Rows.{Row};
ghost use Rattle.go_decls.specs.Before.{Before, Outcome};

use crate::known::settled::settle_name;
use gj_base::NoMemory;
use go_assign::constants::{Constant, constant_value, type_of_spec};
use go_operands::scopes::Env;
use go_syntax::tree::{Expr, Name, ValueSpec};
use go_walk::sets::NameMap;
use std::alloc::Global;

fn constant_in(
    alloc: Global,
    env: &mut Env,
    spec: Option<&ValueSpec>,
    y: &Expr,
) -> Result<Constant, NoMemory>
    ensures what { IfOk result (λ c. decl_of (places (table_of env.new)) c.what ≡ constant_found (walk_outside env.old) (type_in (spec).entry) (Some (expr_view y.now))) }
    ensures within { IfOk result (λ c. DeclaredBelow (size (table_of env.new)) c.what) }
    ensures grows { OnOk result (Grows env.old env.new) }
{
    let found = type_of_spec(alloc, env, spec)?;
    let constant = constant_value(alloc, env, found.ty, y)?;
    Ok(constant)
}

// It has a value of its own, in the specification of a number.
fn value_named<'a>(
    alloc: Global,
    env: &mut Env,
    numbers: &NameMap<'a>,
    n: &'a Name,
    index: usize,
    number: u64,
    spec: Option<&ValueSpec>,
    y: &Expr,
) -> Result<bool, NoMemory>
    ensures value { IfOk result (λ b. (rs : List Row) → Before rs index (go.constant_item n.now number (type_in (spec).entry) (Some (expr_view y.now)) (values_in (spec).entry)) numbers.now (env_of env.old) → Outcome b rs index (go.constant_item n.now number (type_in (spec).entry) (Some (expr_view y.now)) (values_in (spec).entry)) (env_of env.new)) }
{
    env.count(Some(number));
    let found = constant_in(alloc, env, spec, y)?;
    env.count(None);
    Ok(settle_name(env, numbers, n, index, found.what))
}

/// The declaration of a constant. Where it has no value of its own nothing is known of it.
pub fn constant_named<'a>(
    alloc: Global,
    env: &mut Env,
    numbers: &NameMap<'a>,
    n: &'a Name,
    index: usize,
    number: u64,
    spec: Option<&ValueSpec>,
    value: Option<&Expr>,
) -> Result<bool, NoMemory>
    ensures value { IfOk result (λ b. (rs : List Row) → Before rs index (go.constant_item n.now number (type_in (spec).entry) (value_of (value).entry) (values_in (spec).entry)) numbers.now (env_of env.old) → Outcome b rs index (go.constant_item n.now number (type_in (spec).entry) (value_of (value).entry) (values_in (spec).entry)) (env_of env.new)) }
{
    match value {
        Some(y) => {
            let is_typed = value_named(alloc, env, numbers, n, index, number, spec, y)?;
            Ok(is_typed)
        }
        None => Ok(false),
    }
}
