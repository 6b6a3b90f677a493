//! What the names of a package stand for, whatever the order in which they are declared.

ghost use Rattle.std.specs.Prelude.{◌≡◌, ◌++◌, [], List, OnOk, IsPermutation, true, length, map};
ghost use Rattle.std.specs.List.{range_with_len};
ghost use Rattle.go_syntax.specs.Tree as t;
ghost use Rattle.go_operands.specs.AnswerView.{flaw_view};
ghost use Rattle.go_typing.specs.Items.{items_of};
ghost use Rattle.go_typing.specs.Cycles.{cycle_flaws};
ghost use Rattle.go_typing.specs.Known.{nothing_known};
ghost use Rattle.go_typing.specs.Checked.{known_in};
ghost use Rattle.go_operands.specs.EnvView.{env_of};
ghost use Rattle.go_items.specs.ItemView.{item_view};
ghost use Rattle.go_items.specs.Stands.{Stands};
ghost use Rattle.go_decls.specs.State.{at_first, Named, Passed};

use crate::known::numbers::numbers;
use crate::known::pass::{Left, pass};
use gj_base::NoMemory;
use go_graph::Lasting;
use go_items::binds::declare::declare_all;
use go_items::items::item::Item;
use go_items::needs::order::order_of;
use go_items::needs::told::cycles_told;
use go_operands::answers::answer::Flaw;
use go_operands::scopes::Env;
use go_sound::settled::laws::{circles, settling};
use go_walk::sets::NameMap;
use std::alloc::Global;

// Once in this order, which types all that can be typed, and then those that are left until no more is.
fn settle_all<'a>(
    alloc: Global,
    env: &mut Env,
    items: &[Item<'a>],
    numbers: &NameMap<'a>,
    nodes: Vec<usize>,
) -> Result<(), NoMemory>
    ensures value { OnOk result ((ds : List t.Decl) → Named ds (map item_view items.now) numbers.now → Passed (map item_view items.now) nodes.items [] true (env_of env.old) → Stands (known_in ds) (env_of env.new)) }
{
    settling();
    let mut todo = nodes;
    'passes: loop {
        let left = pass(alloc, env, items, numbers, todo.as_slice())?;
        let Left {
            numbers: rest,
            changed,
        } = left;
        if changed {
            todo = rest;
        } else {
            return Ok(());
        }
    }
}

// None of them is typed yet.
fn settle_from_first<'a>(
    alloc: Global,
    env: &mut Env,
    items: &[Item<'a>],
    nodes: Vec<usize>,
) -> Result<(), NoMemory>
    requires each { IsPermutation (range_with_len 0 (length items.now)) nodes.items }
    ensures value { OnOk result ((ds : List t.Decl) → map item_view items.now ≡ items_of ds → Stands (nothing_known (items_of ds)) (env_of env.old) → Stands (known_in ds) (env_of env.new)) }
{
    let numbers = numbers(alloc, items)?;
    settle_all(alloc, env, items, &numbers, nodes)?;
    Ok(())
}

/// What the names of these declarations stand for, in the scope of the package that was entered, and what
/// is told of those that can't be found without themselves. Nothing was declared in it before, and no
/// named type follows those before the package's.
pub fn known<'a>(
    alloc: Global,
    env: &mut Env,
    flaws: &mut Vec<Flaw>,
    items: &[Item<'a>],
) -> Result<(), NoMemory>
    ensures value { OnOk result ((ds : List t.Decl) → map item_view items.now ≡ items_of ds → Stands at_first (env_of env.old) → Stands (known_in ds) (env_of env.new)) }
    ensures told { OnOk result ((ds : List t.Decl) → map item_view items.now ≡ items_of ds → Stands at_first (env_of env.old) → map flaw_view flaws.new.items ≡ map flaw_view flaws.old.items ++ cycle_flaws (known_in ds).binds (items_of ds)) }
{
    circles();
    declare_all(alloc, env, items)?;
    let order = order_of(alloc, env, items)?;
    let Lasting { is_lasting, nodes } = order;
    cycles_told(alloc, flaws, items, is_lasting.as_slice())?;
    settle_from_first(alloc, env, items, nodes)?;
    Ok(())
}
