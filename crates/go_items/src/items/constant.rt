//! The constants of a declaration.
//!
//! Go, "Constant declarations": "Within a parenthesized const declaration list the expression list may be
//! omitted from any but the first ConstSpec. Such an empty list is equivalent to the textual
//! substitution of the first preceding non-empty expression list and its type if any."

ghost use Rattle.std.specs.Prelude.{◌≡◌, ◌++◌, ℕ, suc, OnOk, IfOk, length, map};
ghost use Rattle.go_syntax.specs.Tree as t;
ghost use Rattle.go_syntax.specs.View.{expr_view, exprs_of, value_spec_view, joined};
ghost use Rattle.go_typing.specs.Items.{each_name, spec_items, constant_items};
ghost use Rattle.go_items.specs.ItemView.{item_view, names_in, type_in, values_in};

use crate::items::item::Item;
use gj_base::NoMemory;
use go_syntax::tree::{Expr, Name, ValueSpec};

/// The next number; there are never so many that it is none.
pub fn next(number: u64) -> Result<u64, NoMemory>
    ensures value { IfOk result (λ n. n ≡ suc number) }
{
    match number.checked_add(1) {
        Some(n) => Ok(n),
        None => Err(NoMemory),
    }
}

// Names, each with its value.
fn with_values<'a>(
    items: &mut Vec<Item<'a>>,
    number: u64,
    spec: Option<&'a ValueSpec>,
    names: &'a [Name],
    values: &'a [Expr],
) -> Result<(), NoMemory>
    requires { length names.now ≡ length values.now }
    ensures value { OnOk result (map item_view items.new.items ≡ map item_view items.old.items ++ each_name number (type_in (spec).entry) (values_in (spec).entry) names.now (exprs_of (map expr_view values.now))) }
{
    for i in 0..names.len() {
        items.push(Item::Constant {
            name: &names[i],
            number,
            spec,
            value: Some(&values[i]),
        })?;
    }
    Ok(())
}

fn without_values<'a>(
    items: &mut Vec<Item<'a>>,
    number: u64,
    spec: Option<&'a ValueSpec>,
    names: &'a [Name],
) -> Result<(), NoMemory>
    ensures value { OnOk result (map item_view items.new.items ≡ map item_view items.old.items ++ each_name number (type_in (spec).entry) (values_in (spec).entry) names.now t.NoExprs) }
{
    for name in names {
        items.push(Item::Constant {
            name,
            number,
            spec,
            value: None,
        })?;
    }
    Ok(())
}

fn values_of<'a>(spec: Option<&'a ValueSpec>) -> &'a [Expr]
    ensures value { exprs_of (map expr_view result.now) ≡ values_in (spec).entry }
{
    match spec {
        Some(spec) => spec.values.as_slice(),
        None => &[],
    }
}

// The names have values only where there is one for each.
fn spec_items<'a>(
    items: &mut Vec<Item<'a>>,
    number: u64,
    spec: Option<&'a ValueSpec>,
    names: &'a [Name],
) -> Result<(), NoMemory>
    ensures value { OnOk result (map item_view items.new.items ≡ map item_view items.old.items ++ spec_items number (type_in (spec).entry) names.now (values_in (spec).entry)) }
{
    let values = values_of(spec);
    if names.len() == values.len() {
        return with_values(items, number, spec, names, values);
    }
    without_values(items, number, spec, names)
}

// Whose list stands for this specification's: its own, or where it has none that of the one before.
fn source_of<'a>(source: Option<&'a ValueSpec>, spec: &'a ValueSpec) -> Option<&'a ValueSpec>
    ensures value { (k : ℕ) (rest : t.ValueSpecs) → constant_items k (type_in (source).entry) (values_in (source).entry) (value_spec_view spec.now rest) ≡ spec_items k (type_in result) (names_in spec.now) (values_in result) ++ constant_items (suc k) (type_in result) (values_in result) rest }
{
    if spec.values.is_empty() {
        return source;
    }
    Some(spec)
}

/// Adds the constants of a declaration.
pub fn constant_items<'a>(items: &mut Vec<Item<'a>>, specs: &'a [ValueSpec]) -> Result<(), NoMemory>
    ensures value { OnOk result (map item_view items.new.items ≡ map item_view items.old.items ++ constant_items 0 t.NoExpr t.NoExprs (joined (map value_spec_view specs.now) t.NoValues)) }
{
    let mut number = 0;
    let mut source = None;
    for spec in specs {
        source = source_of(source, spec);
        spec_items(items, number, source, spec.names.as_slice())?;
        number = next(number)?;
    }
    Ok(())
}
