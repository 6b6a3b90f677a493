//! Names of the package's scope: each is declared once (82), and nothing but a function is named `init`
//! (99).

ghost use Rattle.std.specs.Prelude.{◌≡◌, ◌++◌, ◌∷◌, [], List, OnOk, map, if◌then◌else◌};
ghost use Rattle.go_operands.specs.AnswerView.{flaw_view};
ghost use Rattle.go_items.specs.ItemView.{item_view};
ghost use Rattle.go_typing.specs.Items as go;
ghost use Rattle.go_typing.specs.Known.{with_item};
ghost use Rattle.go_typing.specs.Told.{init_told, names_told};
ghost use Rattle.go_typing.specs.Walk.{redeclared};
ghost use Rattle.go_typing.specs.Env.{Bind, is_blank, unknown};
ghost use Rattle.go_typing.specs.Scopes.{place_in};
ghost use Rattle.go_decls.specs.Seen.{HasNames};
ghost use Rattle.go_decls.specs.Stood.{again, stood};

use gj_base::NoMemory;
use go_items::items::item::{Item, is_init, name_of};
use go_operands::answers::answer::Flaw;
use go_operands::answers::rule::and_flaw;
use go_syntax::tree::Name;
use go_walk::labels::blank::is_blank;
use go_walk::labels::flaw::named_flaw;
use go_walk::sets::NameSet;
use std::alloc::Global;

// A name that stood before is told; `_` is declared nowhere.
fn and_name<'a>(flaws: &mut Vec<Flaw>, seen: &mut NameSet<'a>, n: &'a Name) -> Result<(), NoMemory>
    ensures told { OnOk result ((bs : List Bind) → HasNames seen.old bs → map flaw_view flaws.new.items ≡ map flaw_view flaws.old.items ++ again n.now bs) }
    ensures seen { OnOk result ((bs : List Bind) → HasNames seen.old bs → HasNames seen.new (with_item n.now unknown bs)) }
{
    if is_blank(&n.text) {
        return Ok(());
    }
    if seen.has(&n.text) {
        named_flaw(flaws, n, 82)?;
        return Ok(());
    }
    seen.insert(&n.text)?;
    Ok(())
}

fn init_told(alloc: Global, flaws: &mut Vec<Flaw>, n: &Name) -> Result<(), NoMemory>
    ensures told { OnOk result (map flaw_view flaws.new.items ≡ map flaw_view flaws.old.items ++ init_told n.now) }
{
    if is_init(n) {
        return and_flaw(alloc, flaws, n.place, 99);
    }
    Ok(())
}

fn and_both<'a>(
    alloc: Global,
    flaws: &mut Vec<Flaw>,
    seen: &mut NameSet<'a>,
    n: &'a Name,
) -> Result<(), NoMemory>
    ensures told { OnOk result ((bs : List Bind) → HasNames seen.old bs → map flaw_view flaws.new.items ≡ map flaw_view flaws.old.items ++ again n.now bs ++ init_told n.now) }
    ensures seen { OnOk result ((bs : List Bind) → HasNames seen.old bs → HasNames seen.new (with_item n.now unknown bs)) }
{
    and_name(flaws, seen, n)?;
    init_told(alloc, flaws, n)?;
    Ok(())
}

// A function `init` declares nothing.
fn and_item<'a>(
    alloc: Global,
    flaws: &mut Vec<Flaw>,
    seen: &mut NameSet<'a>,
    item: &Item<'a>,
) -> Result<(), NoMemory>
    ensures told { OnOk result ((bs : List Bind) (rest : List go.Item) → HasNames seen.old bs → map flaw_view flaws.new.items ++ names_told (stood (item_view item.now) bs) rest ≡ map flaw_view flaws.old.items ++ names_told bs (item_view item.now ∷ rest)) }
    ensures seen { OnOk result ((bs : List Bind) → HasNames seen.old bs → HasNames seen.new (stood (item_view item.now) bs)) }
{
    match item {
        Item::Constant {
            name,
            number: _,
            spec: _,
            value: _,
        } => {
            and_both(alloc, flaws, seen, *name)?;
            Ok(())
        }
        Item::Type {
            name,
            number: _,
            ty: _,
        } => {
            and_both(alloc, flaws, seen, *name)?;
            Ok(())
        }
        Item::Alias { name, ty: _ } => {
            and_both(alloc, flaws, seen, *name)?;
            Ok(())
        }
        Item::Function {
            name,
            id: _,
            sig: _,
        } => {
            and_both(alloc, flaws, seen, *name)?;
            Ok(())
        }
        Item::Variable { name } => {
            and_both(alloc, flaws, seen, *name)?;
            Ok(())
        }
        Item::Init { name: _ } => Ok(()),
    }
}

/// Adds what is told of the names of these declarations.
pub fn names_told<'a>(
    alloc: Global,
    flaws: &mut Vec<Flaw>,
    items: &[Item<'a>],
) -> Result<(), NoMemory>
    ensures told { OnOk result (map flaw_view flaws.new.items ≡ map flaw_view flaws.old.items ++ names_told [] (map item_view items.now)) }
{
    let mut seen = NameSet::new(alloc);
    for item in items {
        and_item(alloc, flaws, &mut seen, item)?;
    }
    Ok(())
}
