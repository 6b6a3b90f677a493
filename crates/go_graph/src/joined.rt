//! The test of what the walks found.

ghost use Rattle.std.specs.Prelude.{IsTrue};
ghost use Rattle.go_graph.specs.Cycle.{lists};
ghost use Rattle.go_graph.specs.Joined.{Falls, FallsFrom, IsLedTo, LeadsBack, Joins, JoinsAll};

use crate::component::Components;
use crate::list::{at, edge_at};
use crate::reversed::Ways;

// The edges of a node lead to nodes, and to components of no greater number.
fn falls_from(count: usize, of: &[usize], node: usize, list: &[usize]) -> bool
    ensures value { IsTrue result → FallsFrom count of.now node list.now }
{
    for target in list {
        if *target >= count {
            return false;
        }
        if at(of, *target) > at(of, node) {
            return false;
        }
    }
    true
}

/// Whether each edge leads to a node, and to a component of no greater number.
pub fn falls(edges: &[Vec<usize>], of: &[usize]) -> bool
    ensures value { IsTrue result → Falls (lists edges.now) of.now }
{
    for node in 0..edges.len() {
        if !falls_from(edges.len(), of, node, edges[node].as_slice()) {
            return false;
        }
    }
    true
}

// A node of the same component that was met before leads to this one.
fn is_led_to(edges: &[Vec<usize>], all: &Components, node: usize) -> bool
    ensures value { IsTrue result → IsLedTo (lists edges.now) all.now.of.items all.now.met.items node }
{
    let parent = at(all.parent.as_slice(), node);
    if parent >= edges.len() {
        return false;
    }
    if at(all.of.as_slice(), parent) != at(all.of.as_slice(), node) {
        return false;
    }
    if at(all.met.as_slice(), parent) >= at(all.met.as_slice(), node) {
        return false;
    }
    match edge_at(edges, parent, at(all.edge.as_slice(), node)) {
        Some(target) => target == node,
        None => false,
    }
}

// This node leads to one of the same component that is nearer.
fn leads_back(edges: &[Vec<usize>], of: &[usize], ways: &Ways, node: usize) -> bool
    ensures value { IsTrue result → LeadsBack (lists edges.now) of.now ways.now.far.items node }
{
    match edge_at(edges, node, at(ways.edge.as_slice(), node)) {
        Some(next) => {
            if next >= edges.len() {
                return false;
            }
            if at(of, next) != at(of, node) {
                return false;
            }
            at(ways.far.as_slice(), next) < at(ways.far.as_slice(), node)
        }
        None => false,
    }
}

/// Whether a node is the first of its component, or is joined to that one.
pub fn is_joined(edges: &[Vec<usize>], all: &Components, ways: &Ways, node: usize) -> bool
    ensures value { IsTrue result → Joins (lists edges.now) all.now.of.items all.now.first.items all.now.met.items ways.now.far.items node }
{
    if at(all.first.as_slice(), at(all.of.as_slice(), node)) == node {
        return true;
    }
    is_led_to(edges, all, node) && leads_back(edges, all.of.as_slice(), ways, node)
}

/// Whether each node is.
pub fn are_joined(edges: &[Vec<usize>], all: &Components, ways: &Ways) -> bool
    ensures value { IsTrue result → JoinsAll (lists edges.now) all.now.of.items all.now.first.items all.now.met.items ways.now.far.items }
{
    for node in 0..edges.len() {
        if !is_joined(edges, all, ways, node) {
            return false;
        }
    }
    true
}
