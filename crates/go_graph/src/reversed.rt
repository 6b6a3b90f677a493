//! How each node of a component leads back to the component's first one.

use crate::component::Components;
use crate::list::{at, set};
use gj_base::NoMemory;
use std::alloc::Global;

/// A node and one of its edges.
#[derive(Clone, Copy)]
struct Edge {
    node: usize,
    edge: usize,
}

/// Of each node, how many edges it is from the first node of its component, and by which of its edges
/// the way begins; 0 for the first one and for what doesn't lead there.
#[derive(Drop)]
pub struct Ways {
    pub far: Vec<usize>,
    pub edge: Vec<usize>,
}

fn add(back: &mut Vec<Vec<Edge>>, target: usize, e: Edge) -> Result<(), NoMemory> {
    if target < back.len() {
        let list = &mut back[target];
        list.push(e)?;
    }
    Ok(())
}

// The edges of a node within its component, by where they lead.
fn add_each(
    back: &mut Vec<Vec<Edge>>,
    of: &[usize],
    node: usize,
    list: &[usize],
) -> Result<(), NoMemory> {
    let own = at(of, node);
    for (edge, target) in list.iter().enumerate() {
        if at(of, *target) == own {
            add(back, *target, Edge { node, edge })?;
        }
    }
    Ok(())
}

fn reversed(alloc: Global, edges: &[Vec<usize>], of: &[usize]) -> Result<Vec<Vec<Edge>>, NoMemory> {
    let mut back: Vec<Vec<Edge>> = Vec::new(alloc);
    for _ in edges {
        back.push(Vec::new(alloc))?;
    }
    for (node, list) in edges.iter().enumerate() {
        add_each(&mut back, of, node, list.as_slice())?;
    }
    Ok(back)
}

// The nodes that lead to this one, and aren't reached yet, are one edge further.
fn reach(
    ways: &mut Ways,
    queue: &mut Vec<usize>,
    first: usize,
    far: usize,
    list: &[Edge],
) -> Result<(), NoMemory> {
    for e in list {
        if e.node != first && at(ways.far.as_slice(), e.node) == 0 {
            set(&mut ways.far, e.node, far);
            set(&mut ways.edge, e.node, e.edge);
            queue.push(e.node)?;
        }
    }
    Ok(())
}

// From the first node of a component on.
fn spread(
    back: &[Vec<Edge>],
    ways: &mut Ways,
    queue: &mut Vec<usize>,
    first: usize,
) -> Result<(), NoMemory> {
    queue.clear();
    queue.push(first)?;
    for i in 0..back.len() {
        if i >= queue.len() {
            return Ok(());
        }
        let node = queue[i];
        if node < back.len() {
            let far = at(ways.far.as_slice(), node).wrapping_add(1);
            reach(ways, queue, first, far, back[node].as_slice())?;
        }
    }
    Ok(())
}

/// The ways back.
pub fn ways_back(alloc: Global, edges: &[Vec<usize>], all: &Components) -> Result<Ways, NoMemory> {
    let back = reversed(alloc, edges, all.of.as_slice())?;
    let mut ways = Ways {
        far: vec![in alloc; 0; edges.len()]?,
        edge: vec![in alloc; 0; edges.len()]?,
    };
    let mut queue = Vec::new(alloc);
    for (number, first) in all.first.iter().enumerate() {
        if number > 0 {
            spread(back.as_slice(), &mut ways, &mut queue, *first)?;
        }
    }
    Ok(ways)
}
