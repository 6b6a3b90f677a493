//! What each declaration needs, as a graph.

ghost use Rattle.std.specs.Prelude.{◌≡◌, ◌↔◌, ◌++◌, [], ℕ, List, IfOk, OnOk, length, map};
ghost use Rattle.go_operands.specs.EnvView.{env_of};
ghost use Rattle.go_typing.specs.Scopes.{visible};
ghost use Rattle.go_graph.specs.Cycle.{lists, Edge};
ghost use Rattle.go_items.specs.ItemView.{item_view};
ghost use Rattle.go_walk.specs.SetsHas.{number_of};
ghost use Rattle.go_walk.specs.Texts.{texts};
ghost use Rattle.go_items.specs.Leads.{first_number, Leads};
ghost use Rattle.go_items.specs.Stated.{stated, and_number, targets_by, edges_by};

use crate::items::item::{Item, name_of};
use crate::needs::own::item_needs;
use gj_base::{NoMemory, Text};
use go_operands::scopes::Env;
use go_walk::sets::NameMap;
use std::alloc::Global;

// The numbers of the names that are declared: each stands for its first declaration.
fn numbers<'a>(alloc: Global, items: &[Item<'a>]) -> Result<NameMap<'a>, NoMemory>
    ensures value { IfOk result (λ m. (x : List ℕ) → number_of x m ≡ first_number x (map item_view items.now)) }
{
    let mut all = NameMap::new(alloc);
    for i in 0..items.len() {
        let name = name_of(&items[i]);
        all.insert(&name.text, i)?;
    }
    Ok(all)
}

fn target(all: &mut Vec<usize>, number: Option<usize>) -> Result<(), NoMemory>
    ensures value { OnOk result (all.new.items ≡ all.old.items ++ and_number number []) }
{
    match number {
        Some(n) => {
            all.push(n)?;
            Ok(())
        }
        None => Ok(()),
    }
}

// Those of these names that are declared.
fn targets<'a>(
    alloc: Global,
    numbers: &NameMap<'a>,
    names: &[&'a Text],
) -> Result<Vec<usize>, NoMemory>
    ensures value { IfOk result (λ r. r.items ≡ targets_by (λ x. number_of x numbers.now) (texts names.now)) }
{
    let mut all = Vec::new(alloc);
    for x in names {
        target(&mut all, numbers.number(*x))?;
    }
    Ok(all)
}

fn edges_of<'a>(
    alloc: Global,
    env: &Env,
    numbers: &NameMap<'a>,
    item: &Item<'a>,
) -> Result<Vec<usize>, NoMemory>
    ensures value { IfOk result (λ r. r.items ≡ targets_by (λ x. number_of x numbers.now) (stated (visible (env_of env.now)) (item_view item.now))) }
{
    let mut names = Vec::new(alloc);
    item_needs(alloc, env, &mut names, item)?;
    targets(alloc, numbers, names.as_slice())
}

fn all_edges<'a>(
    alloc: Global,
    env: &Env,
    numbers: &NameMap<'a>,
    items: &[Item<'a>],
) -> Result<Vec<Vec<usize>>, NoMemory>
    ensures value { IfOk result (λ r. lists r.items ≡ edges_by (λ x. number_of x numbers.now) (visible (env_of env.now)) (map item_view items.now)) }
{
    let mut edges = Vec::new(alloc);
    for item in items {
        let own = edges_of(alloc, env, numbers, item)?;
        edges.push(own)?;
    }
    Ok(edges)
}

/// The nodes are the declarations, by their numbers. One leads to the first declaration of each name that
/// it needs.
pub fn graph_of<'a>(
    alloc: Global,
    env: &Env,
    items: &[Item<'a>],
) -> Result<Vec<Vec<usize>>, NoMemory>
    ensures count { IfOk result (λ r. length r.items ≡ length items.now) }
    ensures edges { IfOk result (λ r. (n m : ℕ) → Edge (lists r.items) n m ↔ Leads (visible (env_of env.now)) (map item_view items.now) n m) }
{
    let numbers = numbers(alloc, items)?;
    all_edges(alloc, env, &numbers, items)
}
