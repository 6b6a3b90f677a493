//! The components of a graph: nodes that lead to one another.
//!
//! One walk in depth, without recursion: a node is numbered when it is met, and
//! remembers the least number that it leads back to; a node that leads back to none before itself is the
//! first of its component, which are all nodes that were met since and not given to a component yet.

use crate::list::{at, edge_at, set};
use gj_base::NoMemory;
use std::alloc::Global;

/// The components, numbered so that no node leads to one of a greater number.
#[derive(Drop)]
pub struct Components {
    /// The number of each node's component, from 1 on.
    pub of: Vec<usize>,
    /// When each node was met, from 1 on.
    pub met: Vec<usize>,
    /// By which node it was met, and by which of that node's edges.
    pub parent: Vec<usize>,
    pub edge: Vec<usize>,
    /// The first node of each component, by its number; there is none of the number 0.
    pub first: Vec<usize>,
}

/// A node that is gone through, with the number of its next edge.
#[derive(Clone, Copy)]
struct Frame {
    node: usize,
    next: usize,
}

/// What the walk has seen.
#[derive(Drop)]
struct State {
    all: Components,
    low: Vec<usize>,
    open: Vec<usize>,
    frames: Vec<Frame>,
    count: usize,
}

fn zeros(alloc: Global, n: usize) -> Result<Vec<usize>, NoMemory> {
    let all = vec![in alloc; 0; n]?;
    Ok(all)
}

fn start(alloc: Global, n: usize) -> Result<State, NoMemory> {
    let all = Components {
        of: zeros(alloc, n)?,
        met: zeros(alloc, n)?,
        parent: zeros(alloc, n)?,
        edge: zeros(alloc, n)?,
        first: zeros(alloc, 1)?,
    };
    Ok(State {
        all,
        low: zeros(alloc, n)?,
        open: Vec::new(alloc),
        frames: Vec::new(alloc),
        count: 0,
    })
}

fn meet(state: &mut State, node: usize, parent: usize, edge: usize) -> Result<(), NoMemory> {
    let count = state.count.wrapping_add(1);
    state.count = count;
    set(&mut state.all.met, node, count);
    set(&mut state.low, node, count);
    set(&mut state.all.parent, node, parent);
    set(&mut state.all.edge, node, edge);
    state.open.push(node)?;
    state.frames.push(Frame { node, next: 0 })?;
    Ok(())
}

fn lower(state: &mut State, node: usize, number: usize) {
    if number < at(state.low.as_slice(), node) {
        set(&mut state.low, node, number);
    }
}

// All nodes since this one that have no component are one.
fn close(all: &mut Components, open: &mut Vec<usize>, node: usize) -> Result<(), NoMemory> {
    let number = all.first.len();
    all.first.push(node)?;
    while let Some(other) = open.pop() {
        set(&mut all.of, other, number);
        if other == node {
            return Ok(());
        }
    }
    Ok(())
}

fn leave(state: &mut State, node: usize) -> Result<(), NoMemory> {
    let low = at(state.low.as_slice(), node);
    if low == at(state.all.met.as_slice(), node) {
        return close(&mut state.all, &mut state.open, node);
    }
    if let Some(frame) = state.frames.last() {
        let parent = frame.node;
        lower(state, parent, low);
    }
    Ok(())
}

fn follow(state: &mut State, node: usize, edge: usize, target: usize) -> Result<(), NoMemory> {
    let met = at(state.all.met.as_slice(), target);
    if met == 0 {
        return meet(state, target, node, edge);
    }
    if at(state.all.of.as_slice(), target) == 0 {
        lower(state, node, met);
    }
    Ok(())
}

// An edge of the last node, or its end; whether there was one.
fn step(edges: &[Vec<usize>], state: &mut State) -> Result<bool, NoMemory> {
    let Some(frame) = state.frames.pop() else {
        return Ok(false);
    };
    let node = frame.node;
    match edge_at(edges, node, frame.next) {
        None => leave(state, node)?,
        Some(target) => {
            state.frames.push(Frame {
                node,
                next: frame.next.wrapping_add(1),
            })?;
            follow(state, node, frame.next, target)?;
        }
    }
    Ok(true)
}

// All nodes and edges, and one more.
fn size_of(edges: &[Vec<usize>]) -> usize {
    let mut size = edges.len();
    for list in edges {
        size = size.saturating_add(list.len());
    }
    size.saturating_add(1)
}

fn steps(edges: &[Vec<usize>], state: &mut State, most: usize) -> Result<(), NoMemory> {
    for _ in 0..most {
        if !step(edges, state)? {
            return Ok(());
        }
    }
    Ok(())
}

/// The components of a graph.
pub fn components_of(alloc: Global, edges: &[Vec<usize>]) -> Result<Components, NoMemory> {
    let most = size_of(edges);
    let mut state = start(alloc, edges.len())?;
    for node in 0..edges.len() {
        if at(state.all.met.as_slice(), node) == 0 {
            meet(&mut state, node, node, 0)?;
            steps(edges, &mut state, most)?;
        }
    }
    Ok(state.all)
}
