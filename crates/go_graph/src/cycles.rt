//! Which nodes are on a cycle: those of which an edge leads to their own component.

ghost use Rattle.std.specs.Prelude.{◌≡◌, ◌<◌, ◌↔◌, ℕ, IsTrue, IfOk, IsPermutation, false, length, get_or};
ghost use Rattle.std.specs.List.{range_with_len};
ghost use Rattle.go_graph.specs.Cycle.{lists, IsOnCycle};
ghost use Rattle.go_graph.specs.Order.{IsOrdered};
ghost use Rattle.go_graph.specs.Joined.{Stays, StaysFrom};
ghost use Rattle.go_graph.specs.Search.{Descends};

use crate::component::{Components, components_of};
use crate::joined::{are_joined, falls};
use crate::list::at;
use crate::plain::ranked_by_search;
use crate::ranked::{Ranked, in_order};
use crate::reversed::{Ways, ways_back};
use gj_base::NoMemory;
use std::alloc::Global;

/// Which nodes are on a cycle; and each node once, in an order in which each that isn't on one comes
/// after all to which it leads.
#[derive(Drop)]
pub struct Lasting {
    pub is_lasting: Vec<bool>,
    pub nodes: Vec<usize>,
}

// Whether one of these leads to the component of the node.
fn stays(of: &[usize], node: usize, list: &[usize]) -> bool
    ensures value { IsTrue result ↔ StaysFrom of.now node list.now }
{
    for target in list {
        if at(of, *target) == at(of, node) {
            return true;
        }
    }
    false
}

fn by_components(alloc: Global, edges: &[Vec<usize>], of: &[usize]) -> Result<Vec<bool>, NoMemory>
    ensures count { IfOk result (λ r. length r.items ≡ length edges.now) }
    ensures value { IfOk result (λ r. (i : ℕ) → IsTrue (get_or r.items i false) ↔ Stays (lists edges.now) of.now i) }
{
    let mut lasting = Vec::new(alloc);
    for node in 0..edges.len() {
        let is_lasting = stays(of, node, edges[node].as_slice());
        lasting.push(is_lasting)?;
    }
    Ok(lasting)
}

// By the components where the test of them passes, or by a plain search.
fn ranked(
    alloc: Global,
    edges: &[Vec<usize>],
    all: &Components,
    ways: &Ways,
) -> Result<Ranked, NoMemory>
    ensures count { IfOk result (λ r. length r.is_lasting.items ≡ length edges.now) }
    ensures exact { IfOk result (λ r. (i : ℕ) → IsTrue (get_or r.is_lasting.items i false) ↔ IsOnCycle (lists edges.now) i) }
    ensures falls { IfOk result (λ r. Descends (lists edges.now) r.is_lasting.items r.numbers.items) }
{
    let of = all.of.as_slice();
    if !falls(edges, of) {
        return ranked_by_search(alloc, edges);
    }
    if !are_joined(edges, all, ways) {
        return ranked_by_search(alloc, edges);
    }
    let is_lasting = by_components(alloc, edges, of)?;
    Ok(Ranked {
        is_lasting,
        numbers: Vec::from_slice(alloc, of)?,
    })
}

/// The nodes of a graph whose edges lead to its nodes.
///
/// Own: what the walks found is tested first; were it not as it should be, a plain search would answer.
pub fn lasting_in(alloc: Global, edges: &[Vec<usize>]) -> Result<Lasting, NoMemory>
    ensures count { IfOk result (λ r. length r.is_lasting.items ≡ length edges.now) }
    ensures exact { IfOk result (λ r. (i : ℕ) → IsTrue (get_or r.is_lasting.items i false) ↔ IsOnCycle (lists edges.now) i) }
    ensures each { IfOk result (λ r. IsPermutation (range_with_len 0 (length edges.now)) r.nodes.items) }
    ensures order { IfOk result (λ r. IsOrdered (lists edges.now) r.nodes.items) }
{
    let all = components_of(alloc, edges)?;
    let ways = ways_back(alloc, edges, &all)?;
    let found = ranked(alloc, edges, &all, &ways)?;
    let nodes = in_order(alloc, edges.len(), found.numbers.as_slice())?;
    Ok(Lasting {
        is_lasting: found.is_lasting,
        nodes,
    })
}
